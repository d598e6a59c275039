// What every answer has: its head; and whether there is room for one, 2 (document 01, "Frames", "Who brings a refusal about").
#![tactic(auto)]

ghost use Rattle.std.specs.Prelude.{◌≡◌, not, ◌∷◌, ◌≤◌, length};
ghost use Rattle.rules.specs.Bytes.{bytes_of};
ghost use Rattle.rules.specs.Reason.{code_of};
ghost use Rattle.rules.specs.Call.{long_enough};
ghost use Rattle.buffers.specs.Splice.{splice};

// Whether the store, of this room, or the answer buffer, of this space, is too short: 2.
pub fn too_short(room: usize, space: usize) -> bool
    ensures { result ≡ not (long_enough room space) }
{
    space < 57344 || room < 56320
}

// Writes the head of an answer: reason, code and record count. The reason is a number, as its contract speaks of every number, as `code_of`
// does. Byte by byte, as a `copy_from_slice` of these four takes 5 ns longer.
#[tactic(auto, unfolding(rules::specs::Bytes::bytes_of, buffers::specs::Splice::splice))]
pub fn write_head(reason: u8, count: usize, answer: &mut [u8])
    requires { 4 ≤ length answer.old }
    ensures { answer.new ≡ splice answer.old 0 (reason ∷ code_of reason ∷ bytes_of 2 count) }
{
    let [.., high, low] = count.to_be_bytes();
    answer[0] = reason;
    answer[1] = rules::code(reason);
    answer[2] = high;
    answer[3] = low;
}
