// Where entries are in the store: key search, counting, deletion, putting back, and gathering for READ.
#![tactic(auto)]

ghost use Rattle.std.specs.Prelude.{◌≡◌, false, eqb, IfSome, List, ◌++◌, ℕ, ◌+◌, ◌-◌, ◌*◌, ◌/◌, ◌≤◌, ◌<◌, min, leb, length, take, drop};
ghost use Rattle.rules.specs.Frame.{entry_size, rest_size};
ghost use Rattle.rules.specs.Bytes.{concat, keep, part};
ghost use Rattle.rules.specs.Key.{short_key};
ghost use Rattle.rules.specs.Update.{no_entries, in_table, held as held_in};
ghost use Rattle.buffers.specs.Splice.{splice};
ghost use Rattle.buffers.specs.Word.{little_endian};
ghost use Rattle.store.specs.Store.{entries_in, tables_in, InStore, place, PassedOver};
ghost use Rattle.store.specs.Store.{without, inserted_at, changed_at, Holds};

use keys::{Probe, Sought, key_of, rest_of};
use numbers::integer;

// The bytes of an entry: its key, action and parameters.
pub type Entry = keys::Entry;

// What the record knows of a store: how many entries are in it.
#[repr(C)]
#[derive(Clone, Copy)]
pub struct Tables {
    pub count: usize,
}

impl Tables {
    // No entries.
    pub fn none() -> Tables
        ensures { (store : List ℕ) → tables_in result store ≡ no_entries }
    {
        Tables { count: 0 }
    }

    // Without the last entry, if there is one.
    pub fn without_last(self) -> Tables
        ensures bound { result.count ≤ self.count }
        ensures entries { (store : List ℕ) → entries_in result store ≡ take (length (entries_in self store) - 1) (entries_in self store) }
        ensures none { (0 < self.count → ⊥) → result ≡ self }
    {
        Tables {
            count: self.count.saturating_sub(1),
        }
    }

    // The entries of a store, in order of insertion.
    pub fn entries(self, store: &[u8]) -> &[Entry]
        requires { InStore self store.now }
        ensures entries { result.now ≡ entries_in self store.now }
        ensures count { length result.now ≡ self.count }
    {
        &store.as_chunks().0[..self.count]
    }
}

// ---- the search for a key

// Whether an entry has the word of a probe, at its place after the table.
fn has_word(entry: &Entry, probe: Probe) -> bool
    ensures { result ≡ eqb (little_endian (part (4 + probe.at) 8 entry.now)) probe.word }
{
    buffers::word(entry, 4 + probe.at) == probe.word
}

// The entries from entry `from` on that do not have the word of a probe are passed over, up to the last four. Where the next one is that is
// to be looked at. Four are looked at in a turn: that is faster than one, and does not hang on where the loop lies (docs/SPEED.md).
fn pass_over(entries: &[Entry], from: usize, probe: Probe) -> usize
    requires { from < length entries.now }
    ensures { PassedOver from result probe.at probe.word entries.now }
{
    let mut i = from;
    while 4 < entries.len() - i {
        if entries[i..i + 4].iter().any(|e| has_word(e, probe)) {
            return i;
        }
        i += 4;
    }
    i
}

// The place of the entry that has a key, lent as it came: its table, and the 144 bytes after it. An entry is looked at where the one
// compared last differs from the key, and compared only where it has the key's word there. A `while`: a step is as long as what is passed over.
pub fn find(entries: &[Entry], table: &[u8], rest: &[u8]) -> Option<usize>
    requires { (length table.now ≡ 4) × (length rest.now ≡ rest_size) }
    ensures place { result ≡ place (short_key (table.now ++ rest.now)) entries.now }
    ensures range { IfSome result (λ i. i < length entries.now) }
{
    let sought = Sought::new(table, rest);
    let mut probe = sought.first_probe();
    let mut i: usize = 0;
    while i < entries.len() {
        i = pass_over(entries, i, probe);
        let entry = &entries[i];
        if has_word(entry, probe) {
            let key = key_of(entry);
            if sought.is(key) {
                return Some(i);
            }
            probe = sought.next_probe(rest_of(key));
        }
        i += 1;
    }
    None
}

// ---- the entries of a table

// Whether an entry is one of a table.
fn is_in(entry: &Entry, table: u64) -> bool
    ensures { result ≡ in_table table entry.now }
{
    integer(entry, 0, 4) == table
}

// The number of entries of a table.
fn held(entries: &[Entry], table: u64) -> usize
    ensures { result ≡ held_in table (record { entries = entries.now }) }
{
    // a loop: `filter` and `count` take a sixth more instructions
    let mut n: usize = 0;
    for e in entries {
        if is_in(e, table) {
            n += 1;
        }
    }
    n
}

// 22: whether a table holds so many entries. It holds no more than the store, so that mostly none has to be counted.
pub fn holds(entries: &[Entry], table: u64, size: usize) -> bool
    ensures { result ≡ leb size (held_in table (record { entries = entries.now })) }
{
    size <= entries.len() && size <= held(entries, table)
}

// Copies an entry to the start of dst: a record of 220 bytes.
pub fn write_entry(entry: &Entry, dst: &mut [u8])
    requires { entry_size ≤ length dst.old }
    ensures { dst.new ≡ splice dst.old 0 entry.now }
{
    buffers::copy(entry, dst);
}

// Writes the entries of a table to the start of the answer, in order of insertion, as far as it has room; their number.
pub fn gather(entries: &[Entry], table: u64, answer: &mut [u8]) -> usize
    ensures count { result ≡ min (held_in table (record { entries = entries.now })) (length answer.old / entry_size) }
    ensures records { answer.new ≡ splice answer.old 0 (concat (take result (keep (in_table table) entries.now))) }
{
    let mut n: usize = 0;
    for entry in entries {
        if is_in(entry, table) {
            let at = rules::ENTRY * n;
            if answer.len() - at < rules::ENTRY {
                return n;
            }
            write_entry(entry, &mut answer[at..]);
            n += 1;
        }
    }
    n
}

// ---- changes: what is known of the store goes in and comes out by value, as the record of the host holds it

// Removes entry i and closes the gap: the later entries move down. Not inlined: inside the loop of a batch the compiler takes the move to be rare and
// does not align its loop, which then takes twice the time where the linker puts it across a border of 32 bytes (docs/SPEED.md).
#[inline(never)]
pub fn remove(store: &mut [u8], tables: Tables, i: usize) -> Tables
    requires { (i < tables.count) × (tables.count ≤ 256) × (56320 ≤ length store.old) }
    ensures { Holds store.old store.new result (without i (entries_in tables store.old)) }
{
    let count = tables.count;
    let to = rules::ENTRY * i;
    let from = to + rules::ENTRY;
    buffers::shift(store, from, to, rules::ENTRY * count - from);
    Tables { count: count - 1 }
}

// Puts an entry in before entry i: the later entries move up.
pub fn put_back(store: &mut [u8], tables: Tables, i: usize, entry: &Entry) -> Tables
    requires { (i ≤ tables.count) × (tables.count < 256) × (56320 ≤ length store.old) }
    ensures { Holds store.old store.new result (inserted_at i entry.now (entries_in tables store.old)) }
{
    let count = tables.count;
    let at = rules::ENTRY * i;
    let to = at + rules::ENTRY;
    buffers::shift(store, at, to, rules::ENTRY * count - at);
    buffers::copy(entry, &mut store[at..to]);
    Tables { count: count + 1 }
}

// Writes an action and its parameters, 72 bytes, over those of entry i.
pub fn replace_action(store: &mut [u8], tables: Tables, i: usize, action: &[u8])
    requires { (i < tables.count) × (tables.count ≤ 256) × (56320 ≤ length store.old) × (length action.now ≡ 72) }
    ensures { Holds store.old store.new tables (changed_at i action.now (entries_in tables store.old)) }
{
    let at = rules::ENTRY * i + rules::KEY;
    buffers::copy(action, &mut store[at..at + 72]);
}
