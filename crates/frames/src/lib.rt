// The frame reader: a frame is a command with its operands, or malformed (document 01, "Frames" and reason 1).
#![tactic(auto)]

ghost use Rattle.std.specs.Prelude.{◌≡◌, ◌+◌, ◌*◌, ◌≤◌, length, MatchOption, option_map, IfSome, eqb, false, true, ◌&&◌, ◌≢◌, ◌-◌};
ghost use Rattle.rules.specs.Bytes.{byte};
ghost use Rattle.rules.specs.Frame as rules;
ghost use Rattle.election.specs.Meaning.{id_of, head_of};
ghost use Rattle.frames.specs.Meaning.{atomicity_of, AtomicityRead, frame_read, FrameThere, RowsThere, OperandsThere};

use election::{ElectionId, Head};
use numbers::integer;
use rules::Reason;

// What becomes of the other updates of a WRITE where one fails, in P4Runtime's words and numbers.
#[derive(Clone, Copy, PartialEq, Eq)]
pub enum Atomicity {
    ContinueOnError = 0,
    RollbackOnError = 1,
    DataplaneAtomic = 2,
}

impl Atomicity {
    pub fn number(self) -> u8
        ensures { result ≡ atomicity_of self }
    {
        self as u8
    }
}

impl TryFrom<u8> for Atomicity {
    type Error = Reason;

    ghost try_from_gives = { AtomicityRead };

    fn try_from(number: u8) -> Result<Atomicity, Reason> {
        match number {
            0 => Ok(Atomicity::ContinueOnError),
            1 => Ok(Atomicity::RollbackOnError),
            2 => Ok(Atomicity::DataplaneAtomic),
            3..=255 => Err(Reason::BadFrame),
        }
    }
}

// What a WRITE asks for: it has `count` updates, which are in the frame from byte 29 on. The atomicity is a number, as in the rules, which
// say what is done with each; the reader makes 0 to 2 (proofs/Readings: atomicity-read).
#[derive(Clone, Copy)]
pub struct Batch {
    pub head: Head,
    pub atomicity: u8,
    pub count: usize,
}

// What a READ asks for: the entries of a table, of every table the role may write where that is 0, or with `only` 1 the entry of a key.
// Its key is in the frame: the table at 10, the rest from byte 15 on. `only` is a number, as in the rules; the reader makes 0 and 1 (only-read).
#[derive(Clone, Copy)]
pub struct Query {
    pub device: u64,
    pub role: u8,
    pub table: u64,
    pub only: u8,
}

// Commands in three groups, by what they may change, with their operands.

// Stream events: the stream record.
#[derive(Clone, Copy)]
pub enum StreamEvent {
    Open(u8),
    Close(u8),
    Arbitrate(u8, Head),
}

// Pipeline commands: the rows in force, and the tables. CONFIGURE is the only one: it has `count` rows, which are in the frame from byte 28 on.
#[derive(Clone, Copy)]
pub struct PipelineCommand {
    pub head: Head,
    pub count: usize,
}

// Table commands: the tables.
#[derive(Clone, Copy)]
pub enum TableCommand {
    Write(Batch),
    Read(Query),
}

#[derive(Clone, Copy)]
pub enum Command {
    Stream(StreamEvent),
    Pipeline(PipelineCommand),
    Table(TableCommand),
}

// Of an id flag and an id: neither flag over 1, nor flag 0 with a nonzero id, nor flag 1 with id 0.
fn flag_fits(flag: u8, id: ElectionId) -> bool
    ensures { result ≡ rules.flag_fits flag (id_of id) }
{
    match flag {
        0 => !id.is_set(),
        1 => id.is_set(),
        2..=255 => false,
    }
}

// The head at a place of a frame; None where its flag does not fit its id.
fn head_at(frame: &[u8], at: usize) -> Option<Head>
    requires { at + 26 ≤ length frame.now }
    ensures { MatchOption result (rules.head_fits at frame.now ≡ false)
        (λ h. (rules.head_fits at frame.now ≡ true) × (head_of h ≡ rules.head_at at frame.now)) }
{
    let id = ElectionId::from_bytes(&frame[at + 10..at + 26]);
    if !flag_fits(frame[at + 9], id) {
        return None;
    }
    Some(Head {
        device: integer(frame, at, 8),
        role: frame[at + 8],
        id,
    })
}

// The stream of a frame of `size` bytes, 0 to 31.
fn stream_of(frame: &[u8], size: usize) -> Option<u8>
    requires { 2 ≤ size }
    ensures { MatchOption result (eqb (length frame.now) size && rules.stream_fits frame.now ≡ false)
        (λ s. (length frame.now ≡ size) × (s ≤ 31) × (s ≡ byte 1 frame.now)) }
{
    match frame {
        [_, stream @ 0..=31, ..] if frame.len() == size => Some(*stream),
        _ => None,
    }
}

// How many items of `size` bytes are in a frame from the place `at` on: the byte before them says it, and nothing follows them.
fn items(frame: &[u8], at: usize, size: usize) -> Option<usize>
    requires { (1 ≤ at) × (at ≤ 256) × (size ≤ 256) }
    ensures { MatchOption result (length frame.now ≢ at + size * byte (at - 1) frame.now)
        (λ n. (length frame.now ≡ at + size * n) × (n ≡ byte (at - 1) frame.now)) }
{
    let count = usize::from(*frame.get(at - 1)?);
    (frame.len() == at + size * count).then_some(count)
}

// ARBITRATE: length 28, stream 0 to 31.
#[tactic(auto, unfolding(rules::specs::Frame::arbitrate_formed))]
fn read_arbitrate(frame: &[u8]) -> Option<StreamEvent>
    ensures { frame_read (option_map Command.Stream result) frame.now ≡ rules.formed (rules.arbitrate_formed frame.now)
        (rules.on_streams (rules.ARBITRATE (byte 1 frame.now) (rules.head_at 2 frame.now))) }
{
    let stream = stream_of(frame, 28)?;
    let head = head_at(frame, 2)?;
    Some(StreamEvent::Arbitrate(stream, head))
}

// CONFIGURE: t 1 to 8, length 28 + 53t.
#[tactic(auto, unfolding(rules::specs::Frame::configure_formed, rules::specs::Frame::configure_of))]
fn read_configure(frame: &[u8]) -> Option<PipelineCommand>
    ensures means { frame_read (option_map Command.Pipeline result) frame.now ≡ rules.formed
        (rules.configure_formed (byte 27 frame.now) frame.now)
        (rules.configure_of (byte 27 frame.now) frame.now) }
    ensures there { IfSome result (λ c. RowsThere c frame.now) }
{
    let count = items(frame, 28, rules::ROW)?;
    if !(1..=8).contains(&count) {
        return None;
    }
    let head = head_at(frame, 1)?;
    Some(PipelineCommand { head, count })
}

// WRITE: n 0 to 64, length 29 + 221n, atomicity 0 to 2.
#[tactic(auto, unfolding(rules::specs::Frame::write_formed, rules::specs::Frame::write_of))]
fn read_write(frame: &[u8]) -> Option<TableCommand>
    ensures means { frame_read (option_map Command.Table result) frame.now ≡ rules.formed
        (rules.write_formed (byte 28 frame.now) frame.now)
        (rules.write_of (byte 28 frame.now) frame.now) }
    ensures there { IfSome result (λ c. OperandsThere c frame.now) }
{
    let count = items(frame, 29, rules::UPDATE)?;
    if 64 < count {
        return None;
    }
    let head = head_at(frame, 1)?;
    let atomicity = Atomicity::try_from(frame[27]).ok()?.number();
    Some(TableCommand::Write(Batch {
        head,
        atomicity,
        count,
    }))
}

// READ: length 159; only 0 with a key of zeros, or only 1 with a table other than 0.
#[tactic(auto, unfolding(rules::specs::Frame::read_formed))]
fn read_read(frame: &[u8]) -> Option<TableCommand>
    ensures means { frame_read (option_map Command.Table result) frame.now ≡ rules.formed (rules.read_formed frame.now)
        (rules.on_tables (rules.READ (rules.query_of frame.now))) }
    ensures there { IfSome result (λ c. OperandsThere c frame.now) }
{
    if frame.len() != 159 {
        return None;
    }
    let table = integer(frame, 10, 4);
    let only = match frame[14] {
        0 if buffers::all_zero(&frame[15..]) => 0,
        1 if table != 0 => 1,
        _ => return None,
    };
    Some(TableCommand::Read(Query {
        device: integer(frame, 1, 8),
        role: frame[9],
        table,
        only,
    }))
}

// What a frame asks for; None where it is malformed. The ranges of command bytes are those of document 01.
#[tactic(auto, unfolding(rules::specs::Frame::stream_formed), using(crate::proofs::Readings::first_byte))]
pub fn read_frame(frame: &[u8]) -> Option<Command>
    ensures means { frame_read result frame.now ≡ rules.read_frame frame.now }
    ensures there { FrameThere result frame.now }
{
    let command = *frame.first()?;
    match command {
        0 => None,
        1 => stream_of(frame, 2)
            .map(StreamEvent::Open)
            .map(Command::Stream),
        2 => stream_of(frame, 2)
            .map(StreamEvent::Close)
            .map(Command::Stream),
        3 => read_arbitrate(frame).map(Command::Stream),
        4 => read_configure(frame).map(Command::Pipeline),
        5 => read_write(frame).map(Command::Table),
        6 => read_read(frame).map(Command::Table),
        7..=255 => None,
    }
}
