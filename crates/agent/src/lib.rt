// The agent: one call hands in a frame and gets its answer (document 01).
#![tactic(auto)]

ghost use Rattle.std.specs.Prelude.{ℕ, ◌≤◌, List, length};
ghost use Rattle.rules.specs.Named.{reason_of};
ghost use Rattle.rules.specs.Frame.{on_streams, on_pipeline, on_tables};
ghost use Rattle.calls.specs.Contract.{Contract};
ghost use Rattle.frames.specs.Meaning.{event_read, pipeline_read, table_read, command_read, RowsThere, OperandsThere, CommandThere};
ghost use Rattle.memory.specs.Layout.{Flat, memory, input, outcome};
ghost use Rattle.memory.specs.Handles.{Handles};

use frames::{Command, PipelineCommand, StreamEvent, TableCommand};
use memory::Agent;
use rules::Reason;

// What a call hands back: the record as it leaves it, and the reason.
#[derive(Clone, Copy)]
pub struct Called {
    pub agent: Agent,
    pub reason: u8,
}

// A stream event: the streams that it leaves are stored.
fn on_streams(agent: &mut Agent, event: StreamEvent, answer: &mut [u8]) -> Result<(), Reason>
    requires { 644 ≤ length answer.old }
    ensures { (store : List ℕ) → Handles (memory agent.old store) (on_streams (event_read event)) answer.old
        (outcome agent.new (reason_of result) store answer.new) }
{
    let left = stream_events::carry_out(agent.device, agent.streams, event);
    agent.streams = left.streams;
    stream_events::respond(
        &agent.streams,
        rules::number(left.result),
        left.notify,
        answer,
    );
    left.result
}

// A pipeline command: the configuration and the tables that it leaves are stored where nothing refuses it.
fn on_pipeline(
    agent: &mut Agent,
    command: PipelineCommand,
    frame: &[u8],
    answer: &mut [u8],
) -> Result<(), Reason>
    requires { RowsThere command frame.now × (4 ≤ length answer.old) }
    ensures { (store : List ℕ) → Handles (memory agent.old store) (on_pipeline (pipeline_read command frame.now))
        answer.old (outcome agent.new (reason_of result) store answer.new) }
{
    let refusal = pipeline::refusal(
        agent.device,
        &agent.streams,
        &agent.configuration,
        command,
        frame,
    );
    answers::write_head(rules::number(refusal), 0, answer);
    refusal?;
    let left = pipeline::carry_out(command, frame);
    agent.configuration = left.configuration;
    agent.tables = left.tables;
    Ok(())
}

// A table command: the tables that it leaves are stored.
fn on_tables(
    agent: &mut Agent,
    command: TableCommand,
    frame: &[u8],
    store: &mut [u8],
    answer: &mut [u8],
) -> Result<(), Reason>
    requires { OperandsThere command frame.now × (56320 ≤ length store.old) × (57344 ≤ length answer.old) }
    ensures { Handles (memory agent.old store.old) (on_tables (table_read command frame.now)) answer.old
        (outcome agent.new (reason_of result) store.new answer.new) }
{
    let left = table_commands::carry_out(agent, command, frame, store, answer);
    agent.tables = left.tables;
    left.result
}

// A command: one way for each group.
fn carry_out(
    agent: &mut Agent,
    command: Command,
    frame: &[u8],
    store: &mut [u8],
    answer: &mut [u8],
) -> Result<(), Reason>
    requires { CommandThere command frame.now × (56320 ≤ length store.old) × (57344 ≤ length answer.old) }
    ensures { Handles (memory agent.old store.old) (command_read command frame.now) answer.old
        (outcome agent.new (reason_of result) store.new answer.new) }
{
    match command {
        Command::Stream(event) => on_streams(agent, event, answer),
        Command::Pipeline(command) => on_pipeline(agent, command, frame, answer),
        Command::Table(command) => on_tables(agent, command, frame, store, answer),
    }
}

// One call over the record that the host holds, which stores the parts of the record that the command's group may change: 2 is tested first,
// then 1. The reason.
pub fn call_in_place(agent: &mut Agent, frame: &[u8], store: &mut [u8], answer: &mut [u8]) -> u8
    ensures { Contract Flat (memory agent.old store.old) (input frame.now answer.old)
        (outcome agent.new result store.new answer.new) }
{
    if answers::too_short(store.len(), answer.len()) {
        return Reason::TooShort.number();
    }
    let Some(command) = frames::read_frame(frame) else {
        answers::write_head(Reason::BadFrame.number(), 0, answer);
        return Reason::BadFrame.number();
    };
    rules::number(carry_out(agent, command, frame, store, answer))
}

// The same call with the record by value.
pub fn call(mut agent: Agent, frame: &[u8], store: &mut [u8], answer: &mut [u8]) -> Called
    ensures { Contract Flat (memory agent store.old) (input frame.now answer.old)
        (outcome result.agent result.reason store.new answer.new) }
{
    let reason = call_in_place(&mut agent, frame, store, answer);
    Called { agent, reason }
}
