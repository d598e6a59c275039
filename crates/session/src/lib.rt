// What the program `play` does between reading bytes and writing bytes: its calls, and the lines of their answers.
#![tactic(auto)]

ghost use Rattle.std.specs.Prelude.{◌≡◌, ◌+◌, ◌-◌, ◌≤◌, length};
ghost use Rattle.rules.specs.Bytes.{part};
ghost use Rattle.buffers.specs.Splice.{splice};
ghost use Rattle.transcript.specs.Line.{longest_line};
ghost use Rattle.session.specs.Session.{line_of_call, AdvanceContract};

use memory::Agent;

// Who makes calls: an agent, and the ordinal of its next call.
#[derive(Clone, Copy)]
pub struct Player {
    pub agent: Agent,
    pub ordinal: u64,
}

// Why no more calls were made: what is left of the input holds no whole frame; the ordinals of 64 bits are at their end, which is
// never reached; or the longest line has no room.
#[derive(Clone, Copy)]
pub enum Stop {
    NoFrame,
    NoOrdinal,
    NoRoom,
}

// After some calls: the player, how many bytes of the input the calls took, where their lines end, and why there were no more.
#[derive(Clone, Copy)]
pub struct Advanced {
    pub player: Player,
    pub at: usize,
    pub end: usize,
    pub stop: Stop,
}

// Adds the line of a call at `end`, where the longest has room; where it ends.
fn print(ordinal: u64, frame: &[u8], answer: &[u8], out: &mut [u8], end: usize) -> usize
    requires { end + longest_line ≤ length out.old }
    ensures next { result ≡ end + length (line_of_call ordinal frame.now answer.now) }
    ensures bytes { out.new ≡ splice out.old end (line_of_call ordinal frame.now answer.now) }
{
    let size = transcript::record_size(frame);
    let limit = end + transcript::LONGEST_LINE;
    end + transcript::write_line(ordinal, answer, size, &mut out[end..limit])
}

// Makes the calls whose frames are whole in the input, as long as another line has room.
pub fn advance(
    start: Player,
    input: &[u8],
    store: &mut [u8],
    answer: &mut [u8],
    out: &mut [u8],
) -> Advanced
    ensures { AdvanceContract start.agent start.ordinal input.now store.old answer.old out.old
        result store.new answer.new out.new }
{
    let mut player = start;
    let mut at = 0;
    let mut end = 0;
    let stop = loop {
        let Some(frame) = transcript::next_frame(&input[at..]) else {
            break Stop::NoFrame;
        };
        if player.ordinal == u64::MAX {
            break Stop::NoOrdinal;
        }
        if out.len() - end < transcript::LONGEST_LINE {
            break Stop::NoRoom;
        }
        let called = agent::call(player.agent, frame, store, answer);
        end = print(player.ordinal, frame, answer, out, end);
        at += 2 + frame.len();
        player = Player {
            agent: called.agent,
            ordinal: player.ordinal + 1,
        };
    };
    Advanced {
        player,
        at,
        end,
        stop,
    }
}

// Moves the bytes of the input from `at` on, up to `filled`, to its start; how many there are.
pub fn compact(input: &mut [u8], at: usize, filled: usize) -> usize
    requires { (at ≤ filled) × (filled ≤ length input.old) }
    ensures count { result ≡ filled - at }
    ensures bytes { input.new ≡ splice input.old 0 (part at (filled - at) input.old) }
{
    input.copy_within(at..filled, 0);
    filled - at
}
