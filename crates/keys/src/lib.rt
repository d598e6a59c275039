// Keys compared where they are: a key as it came in a frame with a stored one, which is in shortest form (document 02, request Four).
// Neither is copied. A key is lent in two parts, its table and the 144 bytes after it, because in a READ's frame the two are apart.
#![tactic(auto)]

ghost use Rattle.std.specs.Prelude.{◌≡◌, ◌++◌, ◌+◌, ◌≤◌, ◌<◌, IfSome, is_none, length, drop};
ghost use Rattle.rules.specs.Frame.{rest_size};
ghost use Rattle.rules.specs.Bytes.{part, parts, same};
ghost use Rattle.rules.specs.Key.{key_of, same_slot, same_key};
ghost use Rattle.buffers.specs.Word.{little_endian};
ghost use Rattle.keys.specs.Rest.{short_rest, ShortIf, ValueAt, ProbeOf};

use values::{array_at, value_at};

// The bytes of a stored entry: its key, action and parameters.
pub type Entry = [u8; 220];

// The bytes of a stored key.
pub type Key = [u8; 148];

// What follows the table in a key: priority and slots.
pub type Rest = [u8; 144];

// A kind and two values.
type Slot = [u8; 35];

// ---- the comparison

// The slots after a priority.
fn slots(rest: &Rest) -> &[Slot]
    ensures { result.now ≡ parts 4 35 (drop 4 rest.now) }
{
    let all: &[u8; 140] = array_at(rest, 4);
    all.as_chunks().0
}

// The key of an entry.
pub fn key_of(entry: &Entry) -> &Key
    ensures { result.now ≡ key_of entry.now }
{
    array_at(entry, 0)
}

// What follows the table in a stored key.
pub fn rest_of(key: &Key) -> &Rest
    ensures { result.now ≡ part 4 144 key.now }
{
    array_at(key, 4)
}

// Whether a slot is in shortest form.
fn is_short_slot(slot: &Slot) -> bool
    ensures { result ≡ same_slot slot.now slot.now }
{
    values::is_short(value_at(slot, 1)) && values::is_short(value_at(slot, 18))
}

// Whether the 144 bytes after a table are in shortest form.
pub fn is_short(rest: &Rest) -> bool
    ensures { result ≡ same rest.now (short_rest rest.now) }
{
    slots(rest).iter().all(is_short_slot)
}

// Whether a stored slot is the slot as it came: the kind and both values.
fn same_slot(stored: &Slot, slot: &Slot) -> bool
    ensures { result ≡ same_slot stored.now slot.now }
{
    stored[0] == slot[0]
        && values::is_shortest_of(value_at(stored, 1), value_at(slot, 1))
        && values::is_shortest_of(value_at(stored, 18), value_at(slot, 18))
}

// Whether the slots of a stored key are those of the key as it came.
fn same_slots(stored: &Rest, rest: &Rest) -> bool
    ensures { result ≡ same (drop 4 stored.now) (drop 4 (short_rest rest.now)) }
{
    slots(stored)
        .iter()
        .zip(slots(rest))
        .all(|(e, s)| same_slot(e, s))
}

// The first of the 18 words in which a stored key is not the key. Word by word, since `==` takes twice the instructions of this.
fn differing_word(stored: &Rest, rest: &Rest) -> Option<usize>
    ensures inside { IfSome result (λ k. k < 18) }
    ensures same { is_none result ≡ same stored.now rest.now }
{
    (0..18).find(|k| !buffers::equal_eight(stored, 8 * *k, rest, 8 * *k))
}

// ---- where stored keys are looked at first

// A place in the 144 bytes after a table, and the word that the shortest form of a key has there. A stored key with another word there
// is another key.
#[derive(Clone, Copy)]
pub struct Probe {
    pub at: usize,
    pub word: u64,
    ghost inside: { at + 8 ≤ rest_size },
}

// Whether the value at a place of a stored key is not the one there of the key as it came.
fn differs(stored: &Rest, rest: &Rest, at: usize) -> bool
    requires { at + 17 ≤ rest_size }
{
    !values::is_shortest_of(value_at(stored, at), value_at(rest, at))
}

// The place of a value in which a stored key is not the key as it came: the first value or, where that is the same, the last one that
// is not. The place of the first value where there is none.
fn differing_value(stored: &Rest, rest: &Rest) -> usize
    ensures { ValueAt result }
{
    if differs(stored, rest, 5) {
        return 5;
    }
    for i in (0..4).rev() {
        let first = 35 * i + 5;
        let second = first + 17;
        if differs(stored, rest, second) {
            return second;
        }
        if differs(stored, rest, first) {
            return first;
        }
    }
    5
}

// The word from place `from` of the shortest form of the value at a place; it is not made.
fn word_at(rest: &Rest, at: usize, from: usize) -> u64
    requires { ValueAt at × (1 ≤ from) × (from ≤ 9) }
    ensures { result ≡ little_endian (part (at + from) 8 (short_rest rest.now)) }
{
    values::short_word(value_at(rest, at), from)
}

// Where to look at first: the first digits of the first slot, in which the keys of a table mostly differ. A key that is known to be in
// shortest form has its words where they are.
pub fn first_probe(rest: &Rest, short: bool) -> Probe
    requires { ShortIf short rest.now }
    ensures { ProbeOf rest.now result.at result.word }
{
    let word = if short {
        buffers::word(rest, 6)
    } else {
        word_at(rest, 5, 1)
    };
    Probe { at: 6, word }
}

// Where to look next for a key that is not in shortest form: a word of a value in which this stored key is another, the last digits before
// the first.
fn padded_probe(stored: &Rest, rest: &Rest) -> Probe
    ensures { ProbeOf rest.now result.at result.word }
{
    let at = differing_value(stored, rest);
    if 8 < stored[at] {
        let last = word_at(rest, at, 9);
        if last != buffers::word(stored, at + 9) {
            return Probe {
                at: at + 9,
                word: last,
            };
        }
    }
    Probe {
        at: at + 1,
        word: word_at(rest, at, 1),
    }
}

// Where to look at the stored keys after this one, which is not the key that is looked for: keys of one table mostly differ in one place.
pub fn next_probe(stored: &Rest, rest: &Rest, short: bool) -> Probe
    requires { ShortIf short rest.now }
    ensures { ProbeOf rest.now result.at result.word }
{
    if !short {
        return padded_probe(stored, rest);
    }
    let at = differing_word(stored, rest).map_or(0, |k| 8 * k);
    Probe {
        at,
        word: buffers::word(rest, at),
    }
}

// ---- a key that is looked for

// A key as it came: its table, and what follows it. Where that is known to be in shortest form, its bytes are compared as they are, by words.
#[derive(Clone, Copy)]
pub struct Sought<'a> {
    pub table: &'a [u8; 4],
    pub rest: &'a Rest,
    pub short: bool,
    ghost long: { length rest.now ≡ rest_size },
    ghost told: { ShortIf short rest.now },
}

impl<'a> Sought<'a> {
    // The key of a table and what follows it, with whether that is in shortest form.
    pub fn new(table: &'a [u8], rest: &'a [u8]) -> Sought<'a>
        requires { (length table.now ≡ 4) × (length rest.now ≡ rest_size) }
        ensures table { result.table.now ≡ table.now }
        ensures rest { result.rest.now ≡ rest.now }
        ensures short { result.short ≡ same rest.now (short_rest rest.now) }
    {
        let rest = array_at(rest, 0);
        Sought {
            table: array_at(table, 0),
            rest,
            short: is_short(rest),
        }
    }

    // Whether a stored key is this key.
    pub fn is(self, key: &Key) -> bool
        ensures { result ≡ same_key key.now (self.entry.table.now ++ self.entry.rest.now) }
    {
        let Sought { table, rest, short } = self;
        if !buffers::equal(&key[..4], table) {
            return false;
        }
        let stored = rest_of(key);
        if short {
            return differing_word(stored, rest).is_none();
        }
        buffers::equal(&stored[..4], &rest[..4]) && same_slots(stored, rest)
    }

    // Where to look at first.
    pub fn first_probe(self) -> Probe
        ensures { ProbeOf self.entry.rest.now result.at result.word }
    {
        first_probe(self.rest, self.short)
    }

    // Where to look at the stored keys after this one, which is not this key.
    pub fn next_probe(self, stored: &Rest) -> Probe
        ensures { ProbeOf self.entry.rest.now result.at result.word }
    {
        next_probe(stored, self.rest, self.short)
    }
}
