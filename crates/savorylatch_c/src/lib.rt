// The agent's way in for a host in C or Rust: `savorylatch` under C symbols, as c/include/savorylatch.h declares them. The host holds
// the record and lends it to each call.
#![tactic(auto)]

ghost use Rattle.calls.specs.Contract.{Fresh, Contract};
ghost use Rattle.memory.specs.Layout.{Flat, memory, input, outcome};

use memory::Agent;

// Makes the record that the host holds fresh, for a device id.
#[unsafe(no_mangle)]
pub extern "C" fn savorylatch_new(agent: &mut Agent, device: u64)
    ensures { Fresh Flat device agent.new }
{
    savorylatch::savorylatch_new(agent, device);
}

// One call over the record that the host holds: it becomes the one that the call by value returns.
#[unsafe(no_mangle)]
pub extern "C" fn savorylatch_call(
    agent: &mut Agent,
    frame: &[u8],
    store: &mut [u8],
    answer: &mut [u8],
) -> u8
    ensures { Contract Flat (memory agent.old store.old) (input frame.now answer.old)
        (outcome agent.new result store.new answer.new) }
{
    savorylatch::savorylatch_call(agent, frame, store, answer)
}
