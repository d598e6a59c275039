// Reads frames from standard input, each after a length of 2 bytes, and prints a line for each call (document 01, "Bench cases").
// What is done with the bytes is in `session`: this program moves them between the standard streams and the slices that it lends.
#![tactic(auto)]

ghost use Rattle.std.specs.Prelude.{◌≡◌, ◌+◌, ◌-◌, ◌≤◌, ◌<◌, length, take, drop, None};
ghost use Rattle.rules.specs.Bytes.{part};
ghost use Rattle.transcript.specs.Input.{first_frame, CutAt};
ghost use Rattle.transcript.specs.Line.{longest_line};
ghost use Rattle.session.specs.Session.{Session};

use memory::Agent;
use session::{Player, Stop};
use std::io::Read;

// One read; how many bytes it gave, 0 where the input ends or the read fails.
fn read(rt: &HostRuntime, part: &mut [u8]) -> usize
    ensures { result ≤ length part.old }
{
    rt.stdin().read(part).unwrap_or(0)
}

// Keeps the bytes of the input from `at` on, up to `filled`, at its start, and reads more after them; how many there are then.
// What comes before `at` must be whole frames, and what is kept must hold none.
fn refill(rt: &HostRuntime, input: &mut [u8], at: usize, filled: usize) -> usize
    requires room { (at ≤ filled) × (filled ≤ length input.old) × (filled < length input.old + at) }
    requires cut { CutAt (take filled input.old) at × (first_frame (drop at (take filled input.old)) ≡ None) }
    ensures count { (filled - at ≤ result) × (result ≤ length input.old) }
    ensures kept { take (filled - at) input.new ≡ part at (filled - at) input.old }
{
    let rest = session::compact(input, at, filled);
    rest + read(rt, &mut input[rest..])
}

// Makes the calls of the whole input, the first with ordinal 1: those at hand, then more of it, until it ends. Lines are written out
// before a read, so that who drives the program gets each answer.
fn run(
    rt: &HostRuntime,
    agent: Agent,
    input: &mut [u8],
    store: &mut [u8],
    answer: &mut [u8],
    out: &mut [u8],
) -> Player
    requires { (65_537 ≤ length input.old) × (longest_line ≤ length out.old) }
    ensures { Session agent 1 store.old answer.old result.agent result.ordinal store.new answer.new }
{
    let mut player = Player { agent, ordinal: 1 };
    let mut at = 0;
    let mut filled = 0;
    // each turn makes a call or reads a byte: the limit, which says that the loop ends, is past any input
    for _ in 0..u64::MAX {
        let s = session::advance(player, &input[at..filled], store, answer, out);
        // lines that cannot be written are lost, and the calls go on
        let _ = rt.write_all(&out[..s.end]);
        player = s.player;
        at += s.at;
        match s.stop {
            Stop::NoOrdinal => break,
            Stop::NoRoom => {}
            Stop::NoFrame => {
                let rest = filled - at;
                filled = refill(rt, input, at, filled);
                at = 0;
                if filled == rest {
                    break;
                }
            }
        }
    }
    player
}

fn main(rt: HostRuntime) {
    let mut input = [0u8; 131072];
    let mut store = [0u8; 56320];
    let mut answer = [0u8; 57344];
    let mut out = [0u8; 262144];
    run(
        &rt,
        Agent::new(1),
        &mut input,
        &mut store,
        &mut answer,
        &mut out,
    );
}
