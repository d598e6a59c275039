// The agent for a host that holds the record and lends it to each call. `savorylatch_c` is the same for hosts in C.
#![tactic(auto)]

ghost use Rattle.calls.specs.Contract.{Fresh, Contract};
ghost use Rattle.memory.specs.Layout.{Flat, memory, input, outcome};

use memory::Agent;

// Makes the record that the host holds fresh, for a device id.
pub fn savorylatch_new(agent: &mut Agent, device: u64)
    ensures { Fresh Flat device agent.new }
{
    *agent = Agent::new(device);
}

// One call over the record that the host holds.
pub fn savorylatch_call(agent: &mut Agent, frame: &[u8], store: &mut [u8], answer: &mut [u8]) -> u8
    ensures { Contract Flat (memory agent.old store.old) (input frame.now answer.old)
        (outcome agent.new result store.new answer.new) }
{
    agent::call_in_place(agent, frame, store, answer)
}
