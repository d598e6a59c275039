// Table commands carried out: WRITE changes what the tables hold, READ shows it
// (document 01, "Configuration and entries", and 5, 6, 10, 12, 13).
#![tactic(auto)]

ghost use Rattle.std.specs.Prelude.{◌≡◌, ◌≤◌, length, drop, if◌then◌else◌};
ghost use Rattle.rules.specs.Bytes.{parts};
ghost use Rattle.rules.specs.Named.{reason_of};
ghost use Rattle.rules.specs.Frame.{update_size, on_tables};
ghost use Rattle.rules.specs.Call.{write_reason, read_reason};
ghost use Rattle.election.specs.Meaning.{head_of};
ghost use Rattle.frames.specs.Meaning.{query_read, table_read, OperandsThere};
ghost use Rattle.memory.specs.Layout.{control_of, memory, outcome};
ghost use Rattle.memory.specs.Handles.{Handles, with_tables};

use election::Head;
use frames::{Batch, Query, TableCommand};
use memory::Agent;
use rules::Reason;
use store::Tables;

// What a table command leaves: the tables, and what it came to.
#[derive(Clone, Copy)]
pub struct TableOutcome {
    pub tables: Tables,
    pub result: Result<(), Reason>,
}

// ---- WRITE

// Why a WRITE is refused: 5, 6, 10, 12 and 13.
#[tactic(auto, unfolding(rules::specs::Reason::first, rules::specs::Call::write_reason))]
fn write_reason(agent: &Agent, head: Head, atomicity: u8) -> Result<(), Reason>
    ensures { reason_of result ≡ write_reason (control_of agent.now) (head_of head) atomicity }
{
    election::address_reason(head.device == agent.device.id, head.role)?;
    if !agent.streams.by_primary(head.role, head.id) {
        return Err(Reason::NotPrimary);
    }
    if agent.configuration.rows.is_empty() {
        return Err(Reason::NotConfigured);
    }
    if 1 < atomicity {
        return Err(Reason::Atomicity);
    }
    Ok(())
}

// What a WRITE came to: 23 in its head if any update failed.
fn head_reason(failed: bool) -> Result<(), Reason>
    ensures { reason_of result ≡ (if failed then 23 else 0) }
{
    if failed {
        return Err(Reason::SomeFailed);
    }
    Ok(())
}

// The updates of a WRITE, where they lie in its frame.
fn updates_in(asked: Batch, frame: &[u8]) -> &[[u8; rules::UPDATE]]
    requires { OperandsThere (TableCommand.Write asked) frame.now }
    ensures { result.now ≡ parts asked.count update_size (drop 29 frame.now) }
{
    frame[29..].as_chunks().0
}

// Takes the updates in order, by their atomicity; their pairs are from byte 4 on, and before them the head.
fn write(
    agent: &Agent,
    asked: Batch,
    frame: &[u8],
    store: &mut [u8],
    answer: &mut [u8],
) -> TableOutcome
    requires { OperandsThere (TableCommand.Write asked) frame.now × (agent.now.tables.count ≤ 256)
        × (56320 ≤ length store.old) × (132 ≤ length answer.old) }
    ensures { Handles (memory agent.now store.old)
        (on_tables (table_read (TableCommand.Write asked) frame.now)) answer.old
        (outcome (with_tables agent.now result.tables) (reason_of result.result) store.new answer.new) }
{
    let tables = agent.tables;
    if let Err(reason) = write_reason(agent, asked.head, asked.atomicity) {
        answers::write_head(reason.number(), 0, answer);
        return TableOutcome {
            tables,
            result: Err(reason),
        };
    }
    let done = batches::batch(
        &agent.configuration.rows,
        asked.head.role,
        asked.atomicity,
        store,
        tables,
        updates_in(asked, frame),
        &mut answer[4..],
    );
    let result = head_reason(done.failed);
    answers::write_head(rules::number(result), asked.count, answer);
    TableOutcome {
        tables: done.tables,
        result,
    }
}

// ---- READ

// Why a READ is refused: 5, 6 and 12; then, by the rows, 15 to 19. The query is in the frame from byte 10 on.
#[tactic(auto, unfolding(rules::specs::Reason::first, rules::specs::Call::read_reason))]
fn read_reason(agent: &Agent, query: Query, frame: &[u8]) -> Result<(), Reason>
    requires { OperandsThere (TableCommand.Read query) frame.now }
    ensures { reason_of result ≡ read_reason (control_of agent.now) (query_read query frame.now) }
{
    election::address_reason(query.device == agent.device.id, query.role)?;
    let rows = &agent.configuration.rows;
    if rows.is_empty() {
        return Err(Reason::NotConfigured);
    }
    reads::query_reason(rows, query.role, query.table, query.only, &frame[10..])
}

// Writes the entries asked for from byte 4 on, and before them the head.
fn read(
    agent: &Agent,
    query: Query,
    frame: &[u8],
    store: &[u8],
    answer: &mut [u8],
) -> Result<(), Reason>
    requires { OperandsThere (TableCommand.Read query) frame.now × (agent.now.tables.count ≤ 256) × (56320 ≤ length store.now)
        × (57344 ≤ length answer.old) }
    ensures { Handles (memory agent.now store.now) (on_tables (table_read (TableCommand.Read query) frame.now))
        answer.old (outcome agent.now (reason_of result) store.now answer.new) }
{
    if let Err(reason) = read_reason(agent, query, frame) {
        answers::write_head(reason.number(), 0, answer);
        return Err(reason);
    }
    let count = reads::read(
        &agent.configuration.rows,
        query.role,
        query.table,
        query.only,
        &frame[10..],
        agent.tables.entries(store),
        &mut answer[4..],
    );
    answers::write_head(0, count, answer);
    Ok(())
}

// ---- the group

// Carries out a table command: what it leaves of the tables, and what it came to.
pub fn carry_out(
    agent: &Agent,
    command: TableCommand,
    frame: &[u8],
    store: &mut [u8],
    answer: &mut [u8],
) -> TableOutcome
    requires { OperandsThere command frame.now × (56320 ≤ length store.old) × (57344 ≤ length answer.old) }
    ensures { Handles (memory agent.now store.old) (on_tables (table_read command frame.now)) answer.old
        (outcome (with_tables agent.now result.tables) (reason_of result.result) store.new answer.new) }
{
    let tables = agent.tables;
    if 256 < tables.count {
        // no list of calls leaves such a record; the store is too short for it
        return TableOutcome {
            tables,
            result: Err(Reason::TooShort),
        };
    }
    match command {
        TableCommand::Write(asked) => write(agent, asked, frame, store, answer),
        TableCommand::Read(query) => TableOutcome {
            tables,
            result: read(agent, query, frame, store, answer),
        },
    }
}
