// What a READ shows, and why its query is refused (document 01, "Configuration and entries").
#![tactic(auto)]

ghost use Rattle.std.specs.Prelude.{◌≡◌, ◌++◌, ◌≤◌, length};
ghost use Rattle.rules.specs.Frame.{entry_size, rest_size};
ghost use Rattle.rules.specs.Named.{reason_of};
ghost use Rattle.rules.specs.Reason.{first};
ghost use Rattle.rules.specs.Key.{short_key};
ghost use Rattle.rules.specs.Call.{query_order, asked, gathered};
ghost use Rattle.rows.specs.Meaning.{row_of, rows_of};
ghost use Rattle.reads.specs.Read.{key_in, Reads, ReadsKey, ReadsQuery};

use rows::{Row, Rows};
use rules::Reason;
use store::Entry;

// ---- why it is refused

// Why a READ is refused by the rows: 15 and 16 of a named table and, with only 1, 17 to 19 of its key. The query is in 149
// bytes from its table on. With only 1 it names a table; table 0 names none.
pub fn query_reason(rows: &Rows, role: u8, table: u64, only: u8, query: &[u8]) -> Result<(), Reason>
    requires { (length query.now ≡ 149) × (only ≡ 1 → table ≡ 0 → ⊥) }
    ensures { reason_of result ≡ first (query_order (rows_of rows.now) role table only (key_in query.now)) }
{
    if table == 0 {
        return Ok(());
    }
    let row = checks::table_reason(rows.find(table), role)?;
    if only == 1 {
        checks::key_reason(row, query[5..].first_chunk().unwrap())?;
    }
    Ok(())
}

// ---- what it shows

// Whether a READ by the role, of a table or of all (0), asks for the row.
fn asks(row: &Row, role: u8, table: u64) -> bool
    ensures { result ≡ asked role table (row_of row.now) }
{
    if table == 0 {
        row.may_write(role)
    } else {
        row.table() == table
    }
}

// Writes the entries that a READ of all asks for, by configuration row and then in order of insertion; their number.
fn read_all(rows: &Rows, role: u8, table: u64, entries: &[Entry], answer: &mut [u8]) -> usize
    ensures { Reads (gathered role table (rows_of rows.now) (record { entries = entries.now })) answer.old answer.new result }
{
    let mut n: usize = 0;
    for row in rows.in_force() {
        if asks(row, role, table) {
            n += store::gather(entries, row.table(), &mut answer[rules::ENTRY * n..]);
        }
    }
    n
}

// Writes the entry of a key, lent as it came, if it is there: its table, and the 144 bytes after it. The number of entries written.
fn read_one(entries: &[Entry], table: &[u8], rest: &[u8], answer: &mut [u8]) -> usize
    requires { (length table.now ≡ 4) × (length rest.now ≡ rest_size) × (entry_size ≤ length answer.old) }
    ensures { ReadsKey (short_key (table.now ++ rest.now)) entries.now answer.old answer.new result }
{
    let Some(i) = store::find(entries, table, rest) else {
        return 0;
    };
    store::write_entry(&entries[i], answer);
    1
}

// Writes the entries that a READ asks for into an answer with room for 256 entries; their number. The table and the rest of its key are
// where they are in the frame, `only` between them.
pub fn read(
    rows: &Rows,
    role: u8,
    table: u64,
    only: u8,
    query: &[u8],
    entries: &[Entry],
    answer: &mut [u8],
) -> usize
    requires { (length query.now ≡ 149) × (56320 ≤ length answer.old) }
    ensures { ReadsQuery (rows_of rows.now) role table only (key_in query.now) entries.now answer.old answer.new result }
{
    match only {
        1 => read_one(entries, &query[0..4], &query[5..149], answer),
        _ => read_all(rows, role, table, entries, answer),
    }
}
