// Batches of updates, rolled back or not (document 01, "The maker of an update"; document 02, request Two).
#![tactic(auto)]

ghost use Rattle.std.specs.Prelude.{◌≡◌, map, ◌+◌, ◌*◌, ◌≤◌, eqb, length, if◌then◌else◌};
ghost use Rattle.rules.specs.Bytes.{concat};
ghost use Rattle.rules.specs.Named.{number_of, reason_of};
ghost use Rattle.rules.specs.Update.{rolled_back};
ghost use Rattle.rules.specs.Call.{pair_of};
ghost use Rattle.buffers.specs.Splice.{splice};
ghost use Rattle.rows.specs.Meaning.{rows_of};
ghost use Rattle.judging.specs.Verdict.{Possible};
ghost use Rattle.batches.specs.Batch.{batch_in, StoreLeft, Pairs};
ghost use Rattle.batches.specs.Rollback.{NotesFit, NotedAt, RolledBack};
ghost use Rattle.batches.specs.Step.{Sized, Stepped};

use changes::Note;
use judging::{Change, Update};
use rows::Rows;
use rules::Reason;
use store::Tables;

// What a batch leaves, and whether an update failed. It is no Result: a batch that goes on after a failure leaves what its other updates did.
#[derive(Clone, Copy)]
pub struct Written {
    pub tables: Tables,
    pub failed: bool,
}

// ---- one update

// Writes the pair of an update, by what it came to: a record of 2 bytes.
fn write_pair(outcome: Result<(), Reason>, out: &mut [u8])
    requires { 2 ≤ length out.old }
    ensures { out.new ≡ splice out.old 0 (pair_of (reason_of outcome)) }
{
    let reason = rules::number(outcome);
    buffers::copy(&[reason, rules::code(reason)], out);
}

// Notes what doing what was judged of update i will do, with atomicity 1: note i of the log.
fn note_update(
    atomicity: u8,
    judged: Result<Change, Reason>,
    store: &[u8],
    tables: Tables,
    log: &mut [Note],
    i: usize,
)
    requires { Possible judged tables.count × Sized tables store.now × NotesFit atomicity (i + 1) log.old }
    ensures { atomicity ≡ 1 → NotedAt i judged tables store.now log.old log.new }
{
    if atomicity != 1 {
        return;
    }
    changes::note(judged, store, tables, &mut log[i]);
}

// Takes update i: it is judged by the rows in force, its pair is written, and it is done where nothing refused it. With atomicity 1 what it
// will do is noted beforehand. The tables that it leaves, or why it was refused.
fn step(
    rows: &Rows,
    role: u8,
    atomicity: u8,
    store: &mut [u8],
    tables: Tables,
    update: &Update,
    log: &mut [Note],
    i: usize,
    answer: &mut [u8],
) -> Result<Tables, Reason>
    requires { Sized tables store.old × NotesFit atomicity (i + 1) log.old × (2 * i + 2 ≤ length answer.old) }
    ensures { Stepped (rows_of rows.now) role atomicity i update.now tables store.old
        store.new log.old log.new answer.old answer.new result }
{
    let judged = judging::judge(rows, role, tables.entries(store), update);
    write_pair(judged.and(Ok(())), &mut answer[2 * i..]);
    judged?;
    note_update(atomicity, judged, store, tables, log, i);
    Ok(changes::apply(judged, store, tables, update))
}

// ---- a batch that was stopped is rolled back

// Undoes updates by their notes, the last one first.
fn roll_back(log: &[Note], updates: &[Update], store: &mut [u8], tables: Tables) -> Tables
    requires { Sized tables store.old × (length updates.now ≤ length log.now) }
    ensures { RolledBack (length updates.now) log.now updates.now tables store.old store.new result }
{
    let mut held = tables;
    for i in (0..updates.len()).rev() {
        held = changes::undo(&log[i], &updates[i], store, held);
    }
    held
}

// Why update i is refused where update `at` failed with a reason of its own.
fn outcome(i: usize, at: usize, own: Reason) -> Reason
    ensures { number_of result ≡ (if eqb i at then number_of own else 25) }
{
    if i == at { own } else { Reason::RolledBack }
}

// Writes the pairs of n updates of which update `at` failed with a reason of its own.
fn write_outcomes(n: usize, at: usize, own: Reason, answer: &mut [u8])
    requires { 2 * n ≤ length answer.old }
    ensures { answer.new ≡ splice answer.old 0 (concat (map pair_of (rolled_back n (at, number_of own)))) }
{
    for k in 0..n {
        write_pair(Err(outcome(k, at, own)), &mut answer[2 * k..]);
    }
}

// ---- a batch

// Takes the updates in order, each pair written; what is left. With atomicity 1 the log has room for a note of each, and the first update
// that fails stops the batch: all pairs are written anew, and what the updates before it did is undone.
fn take(
    rows: &Rows,
    role: u8,
    atomicity: u8,
    store: &mut [u8],
    tables: Tables,
    updates: &[Update],
    log: &mut [Note],
    answer: &mut [u8],
) -> Written
    requires { Sized tables store.old × (2 * length updates.now ≤ length answer.old) × NotesFit atomicity (length updates.now) log.old }
    ensures left { StoreLeft (batch_in atomicity (rows_of rows.now) role updates.now) tables store.old store.new result }
    ensures pairs { Pairs (batch_in atomicity (rows_of rows.now) role updates.now) tables store.old answer.old answer.new }
{
    let mut held = tables;
    let mut failed = false;
    for (i, update) in updates.iter().enumerate() {
        match step(rows, role, atomicity, store, held, update, log, i, answer) {
            Ok(left) => held = left,
            Err(own) => {
                failed = true;
                if atomicity == 1 {
                    write_outcomes(updates.len(), i, own, answer);
                    held = roll_back(log, &updates[..i], store, held);
                    return Written {
                        tables: held,
                        failed,
                    };
                }
            }
        }
    }
    Written {
        tables: held,
        failed,
    }
}

// The updates of a batch by its atomicity, each pair written; what is left. The atomicity is a number, as in the rules' `batch`, by which
// the clauses say what each number does: 1 is all or none, and every other one takes each update alone.
pub fn batch(
    rows: &Rows,
    role: u8,
    atomicity: u8,
    store: &mut [u8],
    held: Tables,
    updates: &[Update],
    answer: &mut [u8],
) -> Written
    requires { (held.count ≤ 256) × (56320 ≤ length store.old) × (length updates.now ≤ 64)
        × (2 * length updates.now ≤ length answer.old) }
    ensures left { StoreLeft (batch_in atomicity (rows_of rows.now) role updates.now) held store.old store.new result }
    ensures pairs { Pairs (batch_in atomicity (rows_of rows.now) role updates.now) held store.old answer.old answer.new }
{
    if atomicity != 1 {
        // nothing is noted
        return take(rows, role, atomicity, store, held, updates, &mut [], answer);
    }
    if updates.len() <= 3 {
        // the long log would cost so few updates a good part more, being set to zero
        let mut log = [[0; 74]; 3];
        return take(rows, role, 1, store, held, updates, &mut log, answer);
    }
    let mut log = [[0; 74]; 64];
    take(rows, role, 1, store, held, updates, &mut log, answer)
}
