// What `play` reads and prints: its input cut into frames, and the line of a call (document 01, "Bench cases").
#![tactic(auto)]

ghost use Rattle.std.specs.Prelude.{◌≡◌, ◌+◌, ◌*◌, ◌≤◌, ◌<◌, ◌++◌, ◌&&◌, leb, length, option_copied};
ghost use Rattle.rules.specs.Bytes.{parts};
ghost use Rattle.rules.specs.Frame.{entry_size};
ghost use Rattle.buffers.specs.Splice.{splice};
ghost use Rattle.transcript.specs.Input.{first_frame};
ghost use Rattle.transcript.specs.Line.{digit, digits, decimal, hex, field, records_hex, record_size, line_in};
ghost use Rattle.transcript.specs.Written.{HasRoom, Adds};

// The length of the longest line: that of 256 entries, with 84 characters at most beside the records.
pub const LONGEST_LINE: usize = 112980;

// The first frame of an input, which stands after its length of two bytes; none where the input ends or breaks off.
pub fn next_frame(input: &[u8]) -> Option<&[u8]>
    ensures { option_copied result ≡ first_frame input.now }
{
    let [high, low, rest @ ..] = input else {
        return None;
    };
    let length = usize::from(u16::from_be_bytes([*high, *low]));
    rest.get(..length)
}

// The character of a digit below 16.
fn glyph(d: u8) -> u8
    requires { d < 16 }
    ensures { result ≡ digit d }
{
    match d {
        0..=9 => b'0' + d,
        _ => b'a' - 10 + d,
    }
}

// A line that is being written over a lent buffer: its text ends at a place. Not by `write!`, whose contract leaves open what was
// written before an `Err`, and that none comes: a line that fits is always written.
#[derive(Drop)]
struct Line<'a> {
    out: &'a mut [u8],
    at: usize,
}

impl Line<'_> {
    // Adds text. So do the functions below.
    fn push(&mut self, text: &[u8])
        requires { HasRoom self.old text.now }
        ensures { Adds self.old text.now self.new }
    {
        let end = self.at + text.len();
        self.out[self.at..end].copy_from_slice(text);
        self.at = end;
    }

    // A number in decimal.
    fn number(&mut self, x: u64)
        requires { HasRoom self.old (decimal x) }
        ensures { Adds self.old (decimal x) self.new }
    {
        self.digits(x, 20);
    }

    // The last decimal digits of a number, at most `most`.
    fn digits(&mut self, x: u64, most: usize)
        requires { HasRoom self.old (digits most x) }
        ensures { Adds self.old (digits most x) self.new }
    {
        if most == 0 {
            return;
        }
        if x < 10 {
            self.push(&[glyph(x as u8)]);
            return;
        }
        self.digits(x / 10, most - 1);
        self.push(&[glyph((x % 10) as u8)]);
    }

    // Bytes in lowercase hex.
    fn hex(&mut self, bytes: &[u8])
        requires { HasRoom self.old (hex bytes.now) }
        ensures { Adds self.old (hex bytes.now) self.new }
    {
        for b in bytes {
            self.push(&[glyph(b / 16), glyph(b % 16)]);
        }
    }

    // A number and a blank.
    fn field(&mut self, x: u64)
        requires { HasRoom self.old (field x) }
        ensures { Adds self.old (field x) self.new }
    {
        self.number(x);
        self.push(b" ");
    }

    // A line's four numbers.
    fn numbers(&mut self, ordinal: u64, reason: u8, code: u8, count: u16)
        requires { HasRoom self.old (field ordinal ++ (field reason ++ (field code ++ decimal count))) }
        ensures { Adds self.old (field ordinal ++ (field reason ++ (field code ++ decimal count))) self.new }
    {
        self.field(ordinal);
        self.field(u64::from(reason));
        self.field(u64::from(code));
        self.number(u64::from(count));
    }

    // The first `count` records of this size, each in hex after a blank. The size may be 0, which `chunks_exact` does not take.
    fn records(&mut self, records: &[u8], size: usize, count: u16)
        requires whole { size * count ≤ length records.now }
        requires room { HasRoom self.old (records_hex (parts count size records.now)) }
        ensures { Adds self.old (records_hex (parts count size records.now)) self.new }
    {
        for i in 0..usize::from(count) {
            let from = size * i;
            self.push(b" ");
            self.hex(&records[from..from + size]);
        }
    }
}

// Whether so many records of this size are in so many bytes, and their line has room.
fn line_fits(room: usize, size: usize, count: u16, length: usize) -> bool
    ensures { result ≡ leb size entry_size && leb (size * count) length && leb (84 + (1 + 2 * size) * count) room }
{
    let count = usize::from(count);
    size <= rules::ENTRY && size * count <= length && 84 + (1 + 2 * size) * count <= room
}

// The size of the records that a frame's command is answered with: a match over command bytes, with ranges for the unknown (document 01).
pub fn record_size(frame: &[u8]) -> usize
    ensures { result ≡ record_size frame.now }
{
    let [command, ..] = frame else {
        return 0;
    };
    match command {
        0 => 0,
        1..=3 => 20,
        4 => 0,
        5 => 2,
        6 => rules::ENTRY,
        7..=255 => 0,
    }
}

// Writes the line of a call, its records being of this size, to the start of out; its length. Nothing where it does not fit.
pub fn write_line(ordinal: u64, answer: &[u8], size: usize, out: &mut [u8]) -> usize
    ensures count { result ≡ length (line_in (length out.old) ordinal size answer.now) }
    ensures bytes { out.new ≡ splice out.old 0 (line_in (length out.old) ordinal size answer.now) }
{
    let [reason, code, high, low, records @ ..] = answer else {
        return 0;
    };
    let count = u16::from_be_bytes([*high, *low]);
    if !line_fits(out.len(), size, count, records.len()) {
        return 0;
    }
    let mut line = Line { out, at: 0 };
    line.numbers(ordinal, *reason, *code, count);
    line.records(records, size, count);
    line.push(b"\n");
    line.at
}
