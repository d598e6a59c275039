// What the stream record is made of: election ids, what one stream is and becomes, what a mark becomes, and the reasons that one stream or an
// address shows, 3 to 6 (document 01, "Streams and primaries").
#![tactic(auto)]

ghost use Rattle.std.specs.Prelude.{◌≡◌, not, ◌&&◌, ◌||◌, ◌≤◌, length, max, ltb, eqb, if◌then◌else◌};
ghost use Rattle.rules.specs.Bytes.{number, bytes_of};
ghost use Rattle.rules.specs.Named.{reason_of};
ghost use Rattle.rules.specs.Reason.{first};
ghost use Rattle.rules.specs.Streams as rules;
ghost use Rattle.buffers.specs.Splice.{splice};
ghost use Rattle.election.specs.Meaning.{id_of, binding_of, stream_of, role_of, role_or};

use numbers::Number;
use rules::Reason;

// An election id: a 128-bit number, of which 0 is the unset id.
#[repr(C)]
#[derive(Clone, Copy, PartialEq, Eq, PartialOrd, Ord)]
pub struct ElectionId {
    pub number: Number,
}

impl ElectionId {
    pub const UNSET: ElectionId = ElectionId {
        number: Number::ZERO,
    };

    // The smallest set id.
    pub const SMALLEST: ElectionId = ElectionId {
        number: Number { high: 0, low: 1 },
    };

    // The id of 16 bytes, big-endian.
    pub fn from_bytes(b: &[u8]) -> ElectionId
        requires { length b.now ≡ 16 }
        ensures { id_of result ≡ number b.now }
    {
        ElectionId {
            number: Number::from_bytes(b),
        }
    }

    // Writes the id as 16 bytes, big-endian.
    pub fn write(self, out: &mut [u8])
        requires { 16 ≤ length out.old }
        ensures { out.new ≡ splice out.old 0 (bytes_of 16 (id_of self)) }
    {
        self.number.write(out);
    }

    // Whether both are the same id.
    #[tactic(auto, using(numbers::proofs::Order::equal_whole))]
    pub fn equals(self, other: ElectionId) -> bool
        ensures { result ≡ eqb (id_of self) (id_of other) }
    {
        self == other
    }

    // Whether the id is below the other one, as a number.
    #[tactic(auto, using(numbers::proofs::Order::below_whole))]
    pub fn below(self, other: ElectionId) -> bool
        ensures { result ≡ ltb (id_of self) (id_of other) }
    {
        self < other
    }

    pub fn is_set(self) -> bool
        ensures { result ≡ not (eqb (id_of self) 0) }
    {
        ElectionId::SMALLEST <= self
    }

    // Whether the id is set, and is this mark.
    pub fn is_mark(self, mark: ElectionId) -> bool
        ensures { result ≡ not (eqb (id_of self) 0) && eqb (id_of self) (id_of mark) }
    {
        self.is_set() && self == mark
    }

    // What a mark becomes by an accepted id: it rises to a higher one, and never falls.
    pub fn mark_after(self, id: ElectionId) -> ElectionId
        ensures { id_of result ≡ max (id_of self) (id_of id) }
    {
        self.max(id)
    }
}

// A head: device, role, and the id or the unset id.
#[derive(Clone, Copy)]
pub struct Head {
    pub device: u64,
    pub role: u8,
    pub id: ElectionId,
}

// What a stream is: closed, open, or open and bound to a role with an id or the unset id.
#[derive(Clone, Copy, PartialEq, Eq)]
pub enum Binding {
    Closed,
    Open,
    Bound(u8, ElectionId),
}

impl Binding {
    fn is_open(self) -> bool
        ensures { result ≡ rules.is_open (binding_of self) }
    {
        self != Binding::Closed
    }

    // The role it is bound to, where it is bound to one.
    pub fn role(self) -> Option<u8>
        ensures { result ≡ role_of (binding_of self) }
    {
        match self {
            Binding::Closed | Binding::Open => None,
            Binding::Bound(role, _) => Some(role),
        }
    }

    // The same, or another where it is bound to none.
    pub fn role_or(self, other: u8) -> u8
        ensures { result ≡ role_or other (binding_of self) }
    {
        self.role().unwrap_or(other)
    }

    // Whether it is bound to the role.
    pub fn in_role(self, role: u8) -> bool
        ensures { result ≡ rules.in_role role (binding_of self) }
    {
        self.role() == Some(role)
    }

    // Whether it is bound to the role with the id.
    pub fn holds(self, role: u8, id: ElectionId) -> bool
        ensures { result ≡ rules.holds role (id_of id) (binding_of self) }
    {
        self == Binding::Bound(role, id)
    }
}

// A stream as the record holds it: phase 0 closed, 1 open, 2 bound; any other reads as closed. A number, as C hosts hold the record and any byte
// may stand there.
#[repr(C)]
#[derive(Clone, Copy)]
pub struct Stream {
    pub id: ElectionId,
    pub phase: u8,
    pub role: u8,
}

impl Stream {
    // What the stream is.
    pub fn binding(self) -> Binding
        ensures { binding_of result ≡ stream_of self }
    {
        Binding::from(self)
    }
}

impl From<Stream> for Binding {
    ghost from_gives = { λ s b. binding_of b ≡ stream_of s };

    fn from(s: Stream) -> Binding {
        match s.phase {
            0 => Binding::Closed,
            1 => Binding::Open,
            2 => Binding::Bound(s.role, s.id),
            3..=255 => Binding::Closed,
        }
    }
}

// As the record holds it.
impl From<Binding> for Stream {
    ghost from_gives = { λ b s. stream_of s ≡ binding_of b };

    fn from(b: Binding) -> Stream {
        let (phase, role, id) = match b {
            Binding::Closed => (0, 0, ElectionId::UNSET),
            Binding::Open => (1, 0, ElectionId::UNSET),
            Binding::Bound(role, id) => (2, role, id),
        };
        Stream { id, phase, role }
    }
}

// 5 where a command is for another device, 6 where its role is over 7.
#[tactic(auto, unfolding(rules::specs::Reason::first))]
pub fn address_reason(here: bool, role: u8) -> Result<(), Reason>
    ensures { reason_of result ≡ first (rules.address_order (not here) role) }
{
    if !here {
        return Err(Reason::OtherDevice);
    }
    if 7 < role {
        return Err(Reason::NoSuchRole);
    }
    Ok(())
}

// 3 where the stream of an OPEN is open. One past the last never is, whatever the binding.
pub fn open_reason(stream: u8, binding: Binding) -> Result<(), Reason>
    ensures { reason_of result ≡ (if ltb stream 32 && rules.is_open (binding_of binding) then 3 else 0) }
{
    if stream < 32 && binding.is_open() {
        return Err(Reason::AlreadyOpen);
    }
    Ok(())
}

// 4 where the stream of a CLOSE is not.
pub fn close_reason(binding: Binding) -> Result<(), Reason>
    ensures { reason_of result ≡ (if rules.is_open (binding_of binding) then 0 else 4) }
{
    if !binding.is_open() {
        return Err(Reason::NotOpen);
    }
    Ok(())
}

// ---- one place of the record: what a stream or a mark is and becomes, by the number of a reason, and the steps of a walk over it

// The mark of a role, where read is the mark at the role modulo 8: a role past the last has none.
pub fn mark_of(role: u8, read: ElectionId) -> ElectionId
    ensures { id_of result ≡ (if ltb role 8 then id_of read else 0) }
{
    if role < 8 {
        return read;
    }
    ElectionId::UNSET
}

// Whether an id is set and is the mark of a role, where read is as above.
pub fn is_mark(id: ElectionId, role: u8, read: ElectionId) -> bool
    ensures { result ≡ not (eqb (id_of id) 0) && eqb (id_of id) (if ltb role 8 then id_of read else 0) }
{
    id.is_mark(mark_of(role, read))
}

// What is at that place after an ARBITRATE: where it was accepted the mark rises to a higher id, and it never falls.
pub fn mark_after(reason: u8, role: u8, old: ElectionId, id: ElectionId) -> ElectionId
    ensures { id_of result ≡ (if eqb reason 0 && ltb role 8 && ltb (id_of old) (id_of id) then id_of id else id_of old) }
{
    if reason == 0 && role < 8 {
        return old.mark_after(id);
    }
    old
}

// What a stream is, where read is the stream at its number modulo 32: one past the last is closed.
pub fn binding_of(stream: u8, read: Stream) -> Binding
    ensures { binding_of result ≡ (if ltb stream 32 then stream_of read else rules.closed) }
{
    if stream < 32 {
        return read.binding();
    }
    Binding::Closed
}

// What is at that place after an OPEN: open where it was accepted, and otherwise as before.
pub fn after_open(reason: u8, stream: u8, old: Stream) -> Stream
    ensures { stream_of result ≡ (if ltb stream 32 && eqb reason 0 then rules.unbound else stream_of old) }
{
    if stream < 32 && reason == 0 {
        return Stream::from(Binding::Open);
    }
    old
}

// The same after a CLOSE, which refuses each stream past the last.
pub fn after_close(reason: u8, old: Stream) -> Stream
    ensures { stream_of result ≡ (if eqb reason 0 then rules.closed else stream_of old) }
{
    if reason == 0 {
        return Stream::from(Binding::Closed);
    }
    old
}

// The same after an ARBITRATE: accepted it binds the stream, 4 leaves it, and any other reason closes it.
pub fn after_arbitrate(reason: u8, old: Stream, role: u8, id: ElectionId) -> Stream
    ensures { stream_of result ≡ (if eqb reason 0 then rules.bound role (id_of id) else if eqb reason 4 then stream_of old else rules.closed) }
{
    match reason {
        0 => Stream::from(Binding::Bound(role, id)),
        4 => old,
        _ => Stream::from(Binding::Closed),
    }
}

// 1 where it is a hit, otherwise 0.
pub fn one_if(hit: bool) -> usize
    ensures { result ≡ (if hit then 1 else 0) }
{
    usize::from(hit)
}

// Both tests.
pub fn and(a: bool, b: bool) -> bool
    ensures { result ≡ a && b }
{
    a && b
}

// Either test.
pub fn or(a: bool, b: bool) -> bool
    ensures { result ≡ a || b }
{
    a || b
}

// The first stream that passed a test: the one found before, 32 while there is none, or else stream k where it passes.
pub fn first_of(found: usize, passes: bool, k: usize) -> usize
    ensures { result ≡ (if ltb found 32 then found else if passes then k else 32) }
{
    if found < 32 {
        return found;
    }
    if passes {
        return k;
    }
    32
}
