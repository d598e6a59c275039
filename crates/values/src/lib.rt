// Values of 17 bytes, slots of 35, keys and entries: their shortest form, made in place, and values told from it or compared with it
// where they are (document 01, "Configuration and entries"; document 02, request Four).
#![tactic(auto)]

ghost use Rattle.std.specs.Prelude.{◌≡◌, ◌+◌, ◌-◌, ◌^◌, ◌≤◌, ◌<◌, min, length, drop};
ghost use Rattle.rules.specs.Frame.{entry_size, key_size};
ghost use Rattle.rules.specs.Bytes.{byte, part, all_zero, same};
ghost use Rattle.rules.specs.Value.{is_value, fits as below, stripped, padded, short, is_short};
ghost use Rattle.rules.specs.Key.{same_value, short_slot, short_key};
ghost use Rattle.rules.specs.Entry.{short_entry};
ghost use Rattle.buffers.specs.Splice.{splice};
ghost use Rattle.buffers.specs.Word.{little_endian};

use numbers::Number;

// The bytes of a value: a length, then digits, then zeros.
pub type Value = [u8; 17];

// The N bytes at a place, where they lie.
pub fn array_at<const N: usize>(b: &[u8], at: usize) -> &[u8; N]
    requires { at + N ≤ length b.now }
    ensures { result.now ≡ part at N b.now }
{
    b[at..at + N].first_chunk().unwrap()
}

// The value at a place.
pub fn value_at(b: &[u8], at: usize) -> &Value
    requires { at + 17 ≤ length b.now }
    ensures { result.now ≡ part at 17 b.now }
{
    array_at(b, at)
}

// 256 to the k, by one shift.
fn power(k: usize) -> u64
    requires { k < 8 }
    ensures { result ≡ 256 ^ k }
{
    1 << (8 * k)
}

// Whether the bytes after the n digits of a value are 0: a word is below 256 to the k where its bytes from k on are.
fn zero_after(v: &Value, n: usize) -> bool
    requires { n ≤ 16 }
    ensures { result ≡ all_zero (drop (1 + n) v.now) }
{
    if n == 16 {
        return true;
    }
    // read once, before it is known what for: in each branch the compiler would take it apart
    let last = buffers::word(v, 9);
    if 8 <= n {
        last < power(n - 8)
    } else {
        last == 0 && buffers::word(v, 1) < power(n)
    }
}

// Whether the first k digits of a value are 0: they are what is left of a word by 256 to the k.
fn zero_before(v: &Value, k: usize) -> bool
    requires { k < 16 }
    ensures { result ≡ all_zero (part 1 k v.now) }
{
    let first = buffers::word(v, 1);
    if k < 8 {
        first % power(k) == 0
    } else {
        first == 0 && buffers::word(v, 9) % power(k - 8) == 0
    }
}

// Whether these 17 bytes are a value: length 1 to 16, padding 0.
pub fn formed(v: &Value) -> bool
    ensures { result ≡ is_value v.now }
{
    let length = usize::from(v[0]);
    (1..=16).contains(&length) && zero_after(v, length)
}

// Whether the value is below 2 to the width.
pub fn fits(v: &Value, width: u8) -> bool
    ensures { result ≡ below width v.now }
{
    Number::of_value(v).fits(width)
}

// The place, 1 to n, of the first digit of the shortest form of the value at `at`, which has n digits.
fn significant(v: &[u8], at: usize, n: usize) -> usize
    requires { (1 ≤ n) × (at + n < length v.now) }
    ensures bounds { (1 ≤ result) × (result ≤ n) }
    ensures digits { stripped (part (at + 1) n v.now) ≡ part (at + result) (n + 1 - result) v.now }
{
    for i in 1..n {
        if v[at + i] != 0 {
            return i;
        }
    }
    n
}

// ---- told from shortest form, and compared with it

// Whether these 17 bytes are in shortest form: no value, or a value without a leading zero.
pub fn is_short(v: &Value) -> bool
    ensures { result ≡ is_short v.now }
{
    let n = v[0];
    n == 0 || ((n <= 1 || v[1] != 0) && formed(v))
}

// The number of digits of a value of 17 bytes; a length over 16 reads as 16.
fn digit_count(v: &Value) -> usize
    ensures { result ≡ min 16 (byte 0 v.now) }
{
    usize::from(v[0]).min(16)
}

// Whether e has these digits of v after its count, so many from place `first` on. Eight or more are two words, which may overlap.
fn same_digits(e: &Value, v: &Value, first: usize, count: usize) -> bool
    requires { (1 ≤ first) × (first + count ≤ 17) }
    ensures { result ≡ same (part 1 count e.now) (part first count v.now) }
{
    if count < 8 {
        return buffers::equal(&e[1..count + 1], &v[first..first + count]);
    }
    buffers::equal_eight(e, 1, v, first) && buffers::equal_eight(e, count - 7, v, first + count - 8)
}

// Whether e is the shortest form of v, which is a value; each has 17 bytes. Then v has zeros, as many as e lacks digits, and after them the
// digits of e.
fn has_digits_of(e: &Value, v: &Value) -> bool
    requires { byte 0 v.now ≡ 0 → ⊥ }
    ensures { result ≡ same_value e.now v.now }
{
    let n = digit_count(v);
    let count = usize::from(e[0]);
    (1..=n).contains(&count)
        && (count <= 1 || e[1] != 0)
        && zero_before(v, n - count)
        && same_digits(e, v, n - count + 1, count)
        && zero_after(e, count)
}

// Whether e is the shortest form of v, each of 17 bytes. Where v is no value, its bytes are compared as they are.
pub fn is_shortest_of(e: &Value, v: &Value) -> bool
    ensures { result ≡ same_value e.now v.now }
{
    if v[0] != 0 {
        return has_digits_of(e, v);
    }
    e[0] == 0 && buffers::equal_eight(e, 1, v, 1) && buffers::equal_eight(e, 9, v, 9)
}

// Byte i, 1 to 16, of the shortest form of a value of n digits whose number begins at `first`.
fn short_digit(v: &Value, first: usize, n: usize, i: usize) -> u8
    requires { (1 ≤ first) × (first ≤ n) × (n ≤ 16) × (1 ≤ i) × (i ≤ 16) }
    ensures { result ≡ byte i (padded (part first (n + 1 - first) v.now)) }
{
    let at = first + i - 1;
    if n < at { 0 } else { v[at] }
}

// The word of the eight bytes from place `at` of the shortest form of a value of 17 bytes; it is not made.
pub fn short_word(v: &Value, at: usize) -> u64
    requires { (1 ≤ at) × (at ≤ 9) }
    ensures { result ≡ little_endian (part at 8 (short v.now)) }
{
    let n = digit_count(v);
    if n == 0 {
        return buffers::word(v, at);
    }
    let first = significant(v, 0, n);
    let mut x: u64 = 0;
    for k in (0..8).rev() {
        x = x * 256 + u64::from(short_digit(v, first, n, at + k));
    }
    x
}

// ---- brought into shortest form, at a place of a larger slice: of what a slice ends as after its parts were lent as arrays
// (`as_chunks_mut`, `chunks_exact_mut`), the library says nothing

// Moves the digits of the shortest form, of the n digits after `at`, down to the first place; how many they are.
fn strip_at(dst: &mut [u8], at: usize, n: usize) -> usize
    requires { (1 ≤ n) × (at + n < length dst.old) }
    ensures bound { result ≤ n }
    ensures count { result ≡ length (stripped (part (at + 1) n dst.old)) }
    ensures bytes { dst.new ≡ splice dst.old (at + 1) (stripped (part (at + 1) n dst.old)) }
{
    let first = significant(dst, at, n);
    if first == 1 {
        return n;
    }
    let digits = n + 1 - first;
    buffers::shift(dst, at + first, at + 1, digits);
    digits
}

// Makes the digits after `at`, up to 16, a value: their number before them, zeros after them up to the 17th byte.
fn pad_at(dst: &mut [u8], at: usize, digits: usize)
    requires { (digits ≤ 16) × (at + 17 ≤ length dst.old) }
    ensures { dst.new ≡ splice dst.old at (padded (part (at + 1) digits dst.old)) }
{
    dst[at] = digits as u8;
    buffers::clear(&mut dst[at + digits + 1..at + 17]);
}

// Brings the value at a place into shortest form, in place. The zeros of an unused part stay.
fn shorten_at(dst: &mut [u8], at: usize)
    requires { at + 17 ≤ length dst.old }
    ensures { dst.new ≡ splice dst.old at (short (part at 17 dst.old)) }
{
    let v = value_at(dst, at);
    if is_short(v) {
        return;
    }
    let n = digit_count(v);
    let digits = strip_at(dst, at, n);
    pad_at(dst, at, digits);
}

// Brings the slot of 35 bytes at a place into shortest form, in place.
fn shorten_slot(dst: &mut [u8], at: usize)
    requires { at + 35 ≤ length dst.old }
    ensures { dst.new ≡ splice dst.old at (short_slot (part at 35 dst.old)) }
{
    shorten_at(dst, at + 18);
    shorten_at(dst, at + 1);
}

// Writes the key of an entry, its first 148 bytes, in shortest form. All bytes are copied first, since a copy of a
// known length needs no loop over bytes; then each value is shortened in place, the last first: a value is not read
// just after zeros were written below it, which was seen to be slow.
pub fn shorten_key(entry: &[u8], dst: &mut [u8])
    requires { (key_size ≤ length entry.now) × (key_size ≤ length dst.old) }
    ensures { dst.new ≡ splice dst.old 0 (short_key entry.now) }
{
    buffers::copy(&entry[0..rules::KEY], dst);
    for i in (0..4).rev() {
        shorten_slot(dst, 35 * i + 8);
    }
}

// Writes the action of an entry of 220 bytes and its parameters, the last 72 bytes, in shortest form.
pub fn shorten_action(entry: &[u8], dst: &mut [u8])
    requires { (length entry.now ≡ entry_size) × (72 ≤ length dst.old) }
    ensures { dst.new ≡ splice dst.old 0 (drop key_size (short_entry entry.now)) }
{
    buffers::copy(&entry[rules::KEY..rules::ENTRY], dst);
    for i in (0..4).rev() {
        shorten_at(dst, 17 * i + 4);
    }
}
