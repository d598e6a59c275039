// Doing what was judged of one update (document 01, "The maker of an update"), noting it beforehand, and undoing it by its note
// (document 02, request Two).
#![tactic(auto)]

ghost use Rattle.std.specs.Prelude.{◌≡◌, ℕ, [], ◌∷◌, ◌++◌, ◌+◌, ◌*◌, ◌≤◌, ◌<◌, length, drop};
ghost use Rattle.rules.specs.Frame.{entry_size, key_size};
ghost use Rattle.rules.specs.Bytes.{part};
ghost use Rattle.rules.specs.Entry.{short_entry};
ghost use Rattle.buffers.specs.Splice.{splice};
ghost use Rattle.store.specs.Store.{entries_in, Holds};
ghost use Rattle.judging.specs.Verdict.{Possible};
ghost use Rattle.changes.specs.Effect.{Done, Ruled};
ghost use Rattle.changes.specs.Undo.{noted, Undone, deleted_entry, PutBack};

use judging::{Change, Update, entry_of};
use store::{Entry, Tables};

// The bytes of a note: what was done, at which place, and the action and parameters that were there.
pub type Note = [u8; 74];

// What was done: an entry was added, or one was changed or removed.
const ADDED: u8 = 1;

const CHANGED: u8 = 2;

const REMOVED: u8 = 3;

// A store is lent as the bytes that the host has, with what the record knows of it (`Tables`): it may be longer than its 56,320 bytes of
// entries, and `Holds` says that the bytes after them stay.

// Writes the action and parameters of an entry, in shortest form, after the key of entry i.
fn write_action(store: &mut [u8], i: usize, entry: &Entry)
    requires { (i < 256) × (56320 ≤ length store.old) }
    ensures { store.new ≡ splice store.old (entry_size * i + key_size) (drop key_size (short_entry entry.now)) }
{
    let at = rules::ENTRY * i + rules::KEY;
    values::shorten_action(entry, &mut store[at..]);
}

// Writes an entry after the last one, in shortest form: its key goes from the frame to its place.
fn insert(store: &mut [u8], tables: Tables, entry: &Entry) -> Tables
    requires { (tables.count < 256) × (56320 ≤ length store.old) }
    ensures { Holds store.old store.new result (entries_in tables store.old ++ (short_entry entry.now ∷ [])) }
{
    let count = tables.count;
    let at = rules::ENTRY * count;
    values::shorten_key(entry, &mut store[at..]);
    write_action(store, count, entry);
    Tables { count: count + 1 }
}

// Does what was judged of an update with an entry; a refusal changes nothing.
fn perform<R: Copy>(
    judged: Result<Change, R>,
    store: &mut [u8],
    tables: Tables,
    entry: &Entry,
) -> Tables
    requires { Possible judged tables.count × (tables.count ≤ 256) × (56320 ≤ length store.old) }
    ensures { Done judged entry.now tables store.old store.new result }
{
    match judged {
        Err(_) => tables,
        Ok(Change::Insert) => insert(store, tables, entry),
        Ok(Change::Modify(i)) => {
            write_action(store, i, entry);
            tables
        }
        Ok(Change::Delete(i)) => store::remove(store, tables, i),
    }
}

// Does what was judged of an update. A refusal may be of any type, and changes nothing. Whatever numbers are given to the refusals, what is
// done is what the rules do by them.
pub fn apply<R: Copy>(
    judged: Result<Change, R>,
    store: &mut [u8],
    tables: Tables,
    update: &Update,
) -> Tables
    requires { Possible judged tables.count × (tables.count ≤ 256) × (56320 ≤ length store.old) }
    ensures done { Done judged (drop 1 update.now) tables store.old store.new result }
    ensures left { (number : R → ℕ) → Ruled number judged update.now tables store.old store.new result }
{
    perform(judged, store, tables, entry_of(update))
}

// ---- undoing

// Notes the action and parameters of entry i as they are.
fn note_entry(kind: u8, store: &[u8], i: usize, note: &mut Note)
    requires { (i < 256) × (entry_size * i + entry_size ≤ length store.now) }
    ensures { note.new ≡ kind ∷ i ∷ part (entry_size * i + key_size) 72 store.now }
{
    let from = rules::ENTRY * i + rules::KEY;
    note[0] = kind;
    note[1] = i as u8;
    buffers::copy(&store[from..from + 72], &mut note[2..74]);
}

// Notes what doing what was judged will do, so that it can be undone. Of a refusal, which may be of any type, nothing is noted.
pub fn note<R: Copy>(judged: Result<Change, R>, store: &[u8], tables: Tables, note: &mut Note)
    requires { Possible judged tables.count × (tables.count ≤ 256) × (56320 ≤ length store.now) }
    ensures { note.new ≡ noted judged (entries_in tables store.now) note.old }
{
    match judged {
        Err(_) => {}
        Ok(Change::Insert) => note[0] = ADDED,
        Ok(Change::Modify(i)) => note_entry(CHANGED, store, i, note),
        Ok(Change::Delete(i)) => note_entry(REMOVED, store, i, note),
    }
}

// Makes the entry that was deleted: its key is the update's in shortest form, its action and parameters were noted.
fn old_entry(note: &Note, update: &Update) -> Entry
    ensures { result ≡ deleted_entry note.now update.now }
{
    let mut old = [0; rules::ENTRY];
    values::shorten_key(entry_of(update), &mut old);
    buffers::copy(&note[2..74], &mut old[rules::KEY..rules::ENTRY]);
    old
}

// Undoes what was noted last, of an update. A note that cannot be undone, which none is that was made, changes nothing.
pub fn undo(note: &Note, update: &Update, store: &mut [u8], tables: Tables) -> Tables
    requires { (tables.count ≤ 256) × (56320 ≤ length store.old) }
    ensures bound { result.count ≤ 256 }
    ensures left { Undone note.now update.now tables store.old store.new result }
{
    let kind = note[0];
    let i = usize::from(note[1]);
    if kind == ADDED {
        return tables.without_last();
    }
    if kind == CHANGED {
        if i < tables.count {
            store::replace_action(store, tables, i, &note[2..74]);
        }
        return tables;
    }
    if 256 <= tables.count || tables.count < i {
        return tables;
    }
    store::put_back(store, tables, i, &old_entry(note, update))
}
