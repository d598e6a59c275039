// The leadership of a role, which is its primary and its mark: the record of 20 bytes by which a stream is notified of it, and what a scan of the
// stream record decides of an ARBITRATE (document 01, "Streams and primaries").
#![tactic(auto)]

ghost use Rattle.std.specs.Prelude.{◌≡◌, map, ◌*◌, ◌≤◌, length, take, eqb, if◌then◌else◌};
ghost use Rattle.std.proofs.Math.Option.{none};
ghost use Rattle.rules.specs.Bytes.{concat};
ghost use Rattle.rules.specs.Named.{reason_of};
ghost use Rattle.rules.specs.Streams as rules;
ghost use Rattle.buffers.specs.Splice.{splice};
ghost use Rattle.election.specs.Meaning.{id_of};
ghost use Rattle.leadership.specs.Meaning.{primary_of, numbered, notice_by};
ghost use Rattle.leadership.specs.Scanning.{ReasonOf, LeadsOf, KeepsOf};

use election::{Binding, ElectionId, Head};
use rules::Reason;

// The primary of a role, if it has one, and its mark.
#[derive(Clone, Copy)]
pub struct Leadership {
    pub role: u8,
    pub primary: Option<u8>,
    pub mark: ElectionId,
}

impl Leadership {
    // 0 to the primary, 6 where another is primary, 5 where none is.
    fn status(self, stream: u8) -> u8
        ensures { result ≡ rules.status (primary_of self.primary) stream }
    {
        match self.primary {
            None => 5,
            Some(primary) if primary == stream => 0,
            Some(_) => 6,
        }
    }

    // Writes the record of 20 bytes by which a stream is notified of the leadership of its role.
    pub fn write_notification(self, stream: u8, out: &mut [u8])
        requires { 20 ≤ length out.old }
        ensures { out.new ≡ splice out.old 0 (notice_by self stream) }
    {
        out[0] = stream;
        out[1] = self.role;
        out[2] = self.status(stream);
        out[3] = u8::from(self.mark.is_set());
        self.mark.write(&mut out[4..]);
    }
}

// Writes the records of the first streams of a list, one after another.
pub fn write_members(leadership: Leadership, count: usize, members: &[u8], out: &mut [u8])
    requires { (count ≤ length members.now) × (20 * count ≤ length out.old) }
    ensures { out.new ≡ splice out.old 0 (concat (map (notice_by leadership) (take count members.now))) }
{
    for (i, stream) in members[..count].iter().enumerate() {
        leadership.write_notification(*stream, &mut out[20 * i..]);
    }
}

// The primary, where the mark's first holder is this one (32: none).
pub fn primary_of(mark: ElectionId, holder: usize) -> Option<u8>
    ensures { primary_of result ≡ (if eqb (id_of mark) 0 then none else numbered holder) }
{
    if mark.is_set() && holder < 32 {
        return Some(holder as u8);
    }
    None
}

// What the stream record shows an ARBITRATE: what its sender is, and of one role, that of a bound sender or else the one asked for, how many
// streams are bound to it, whether another than the sender holds the id, and the leadership. Whatever is decided of these copies no record.
#[derive(Clone, Copy)]
pub struct Scan {
    pub own: Binding,
    pub members: usize,
    pub used: bool,
    pub leadership: Leadership,
}

impl Scan {
    // The reason of an ARBITRATE.
    pub fn reason(self, device: u64, head: Head) -> Result<(), Reason>
        ensures { ReasonOf (reason_of result) device head self }
    {
        let here = head.device == device;
        match self.own {
            Binding::Closed => Err(Reason::NotOpen),
            Binding::Open => {
                election::address_reason(here, head.role)?;
                if self.used {
                    return Err(Reason::IdInUse);
                }
                if 8 <= self.members {
                    return Err(Reason::RoleFull);
                }
                Ok(())
            }
            Binding::Bound(role, _) => {
                if !here || head.role != role {
                    return Err(Reason::Rebound);
                }
                if self.used {
                    return Err(Reason::IdInUse);
                }
                Ok(())
            }
        }
    }

    // Whether the sender is the primary of the role that it is bound to.
    pub fn leads(self, stream: u8) -> bool
        ensures { LeadsOf result stream self }
    {
        matches!(self.own, Binding::Bound(_, _)) && self.leadership.primary == Some(stream)
    }

    // Whether an accepted ARBITRATE leaves the pair (primary or none, mark) of its role as it is. No scan of the new record: no other stream holds
    // the id, so where the mark stays the primary does unless the sender becomes the mark's holder, or was its first.
    pub fn keeps(self, stream: u8, head: Head) -> bool
        ensures { KeepsOf result stream head self }
    {
        let mark = self.leadership.mark;
        let id = head.id;
        if !mark.is_set() {
            return !(head.role < 8 && id.is_set());
        }
        if mark < id {
            return false;
        }
        let led = self.leadership.primary == Some(stream);
        let leads = id == mark;
        led == leads
    }
}
