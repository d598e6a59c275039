// Judging one update: why it is refused, or what is to be done (document 01, "The maker of an update"; document 02, request One).
#![tactic(auto)]

ghost use Rattle.std.specs.Prelude.{◌≡◌, false, List, ℕ, Option, IfSome, ◌<◌, length, drop};
ghost use Rattle.rules.specs.Bytes.{between, byte};
ghost use Rattle.rules.specs.Frame.{update_of};
ghost use Rattle.rules.specs.Named.{number_of, reason_of};
ghost use Rattle.rules.specs.Row as rules;
ghost use Rattle.rules.specs.Update.{is_insert};
ghost use Rattle.rows.specs.Meaning.{row_of, rows_of};
ghost use Rattle.judging.specs.Verdict.{judge_in, Justified, Possible, PlaceJudged};

use numbers::integer;
use rows::{Row, Rows};
use rules::Reason;
use store::Entry;

// The bytes of an update: its type, and an entry.
pub type Update = [u8; rules::UPDATE];

// The types.
const INSERT: u8 = 1;

const MODIFY: u8 = 2;

const DELETE: u8 = 3;

// What is to become of an update that nothing refuses: it adds an entry, or it changes or deletes the one at a place.
#[derive(Clone, Copy)]
pub enum Change {
    Insert,
    Modify(usize),
    Delete(usize),
}

// The entry of an update.
pub fn entry_of(update: &Update) -> &Entry
    ensures { result.now ≡ drop 1 update.now }
{
    update[1..].first_chunk().unwrap()
}

// Whether there is a type of this number.
fn is_type(kind: u8) -> bool
    ensures { result ≡ between 1 3 kind }
{
    INSERT <= kind && kind <= DELETE
}

// 20 and 22 of an INSERT, by where its key was found.
fn judge_insert(place: Option<usize>, row: &Row, entries: &[Entry]) -> Result<Change, Reason>
    ensures judged { PlaceJudged result place (row_of row.now) 1 entries.now }
    ensures possible { Possible result (length entries.now) }
{
    if place.is_some() {
        return Err(Reason::Stored);
    }
    if store::holds(entries, row.table(), row.size() as usize) {
        return Err(Reason::TableFull);
    }
    if 256 <= entries.len() {
        // no list of calls leaves such a record; the store is too short for it
        return Err(Reason::TooShort);
    }
    Ok(Change::Insert)
}

// 21 of a MODIFY or a DELETE, by where its key was found.
fn judge_change(place: Option<usize>, kind: u8) -> Result<Change, Reason>
    requires { is_insert kind ≡ false }
    ensures judged { (row : rules.Row) (es : List (List ℕ)) → PlaceJudged result place row kind es }
    ensures possible { (n : ℕ) → IfSome place (λ i. i < n) → Possible result n }
{
    let Some(i) = place else {
        return Err(Reason::NotStored);
    };
    if kind == MODIFY {
        return Ok(Change::Modify(i));
    }
    Ok(Change::Delete(i))
}

// Judges an update by the rows in force, the role and the entries stored: 17 of its type, 15 to 19 by the row of its table, and then by where
// its key is. The row is looked up once, and the key is searched for as it is in the frame.
pub fn judge(rows: &Rows, role: u8, entries: &[Entry], update: &Update) -> Result<Change, Reason>
    ensures reason { reason_of result ≡ judge_in (rows_of rows.now) role (record { entries = entries.now }) (update_of update.now) }
    ensures justified { Justified number_of result (byte 0 update.now) (drop 1 update.now) entries.now }
    ensures possible { Possible result (length entries.now) }
{
    let kind = update[0];
    if !is_type(kind) {
        return Err(Reason::BadForm);
    }
    let entry = entry_of(update);
    let row = checks::table_reason(rows.find(integer(entry, 0, 4)), role)?;
    checks::entry_reason(row, kind, entry)?;
    let place = store::find(entries, &entry[..4], &entry[4..rules::KEY]);
    if kind == INSERT {
        return judge_insert(place, row, entries);
    }
    judge_change(place, kind)
}
