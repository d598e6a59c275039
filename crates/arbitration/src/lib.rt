// Who may write: the stream record, which holds the streams, the roles they are bound to and the marks of the roles, and its events
// (document 01, "Streams and primaries").
#![tactic(auto)]

ghost use Rattle.std.specs.Prelude.{◌≡◌, ◌≤◌, length};
ghost use Rattle.rules.specs.Bytes.{concat};
ghost use Rattle.rules.specs.Named.{reason_of};
ghost use Rattle.rules.specs.Streams as rules;
ghost use Rattle.buffers.specs.Splice.{splice};
ghost use Rattle.election.specs.Meaning.{id_of, head_of, binding_of};
ghost use Rattle.leadership.specs.Meaning.{primary_of};
ghost use Rattle.leadership.specs.Scanning.{ScanOf, LeadershipIn};
ghost use Rattle.arbitration.specs.Meaning.{streams_of, raised, records_of, outcome_of, AudienceOf};

use election::{Binding, ElectionId, Head, Stream};
use leadership::{Leadership, Scan};
use rules::Reason;

// The stream record: streams 0 to 31, and the mark of each role 0 to 7.
#[repr(C)]
#[derive(Clone, Copy)]
pub struct Streams {
    pub streams: [Stream; 32],
    pub marks: [ElectionId; 8],
}

// Who is to be notified of an event: nobody, one stream, with the leadership that its record shows, or all streams of a role.
#[derive(Clone, Copy)]
pub enum Notify {
    None,
    Only(u8, Leadership),
    All(u8),
}

// What an event leaves: the new record, what it came to and who is to be notified.
#[derive(Clone, Copy)]
pub struct Outcome {
    pub streams: Streams,
    pub result: Result<(), Reason>,
    pub notify: Notify,
}

// Who is notified of an ARBITRATE: where it is accepted the sender only, or all streams of the role if the pair (primary or none, mark) changes;
// under a refusal as when a stream closes. The sender is notified of what the scan showed: no second search.
fn audience(outcome: Result<(), Reason>, stream: u8, head: Head, scan: Scan) -> Notify
    ensures { AudienceOf result (reason_of outcome) stream head scan }
{
    match outcome {
        Ok(()) if scan.keeps(stream, head) => Notify::Only(stream, scan.leadership),
        Ok(()) => Notify::All(head.role),
        Err(_) if scan.leads(stream) => Notify::All(scan.leadership.role),
        Err(_) => Notify::None,
    }
}

impl Streams {
    // All streams closed, and no marks.
    #[tactic(auto, unfolding(crate::specs::Meaning::streams_of, rules::specs::Streams::no_streams))]
    pub fn fresh() -> Streams
        ensures { streams_of result ≡ rules.no_streams }
    {
        Streams {
            streams: [Stream::from(Binding::Closed); 32],
            marks: [ElectionId::UNSET; 8],
        }
    }

    // What a stream is. One past the last is closed.
    #[tactic(auto, unfolding(crate::specs::Meaning::streams_of))]
    fn binding(&self, stream: u8) -> Binding
        ensures { binding_of result ≡ rules.stream_at (streams_of self.now) stream }
    {
        self.streams
            .get(usize::from(stream))
            .map_or(Binding::Closed, |s| Binding::from(*s))
    }

    // The mark of a role, or the unset id. A role past the last has none.
    #[tactic(auto, unfolding(crate::specs::Meaning::streams_of))]
    fn mark(&self, role: u8) -> ElectionId
        ensures { id_of result ≡ rules.mark_of (streams_of self.now) role }
    {
        self.marks
            .get(usize::from(role))
            .copied()
            .unwrap_or(ElectionId::UNSET)
    }

    // The primary of a role: the first stream that holds its mark, where that is set.
    fn primary(&self, role: u8) -> Option<u8>
        ensures { primary_of result ≡ rules.primary (streams_of self.now) role }
    {
        let mark = self.mark(role);
        if !mark.is_set() {
            return None;
        }
        (0..32).find(|s| self.binding(*s).holds(role, mark))
    }

    // The primary of a role and its mark.
    fn leadership(&self, role: u8) -> Leadership
        ensures role { result.role ≡ role }
        ensures shown { LeadershipIn result (streams_of self.now) }
    {
        Leadership {
            role,
            primary: self.primary(role),
            mark: self.mark(role),
        }
    }

    // Whether the id is set, and is the mark of a role that has a primary: what 10 asks of a call.
    #[tactic(auto, unfolding(rules::specs::Streams::by_primary))]
    pub fn by_primary(&self, role: u8, id: ElectionId) -> bool
        ensures { result ≡ rules.by_primary (streams_of self.now) role (id_of id) }
    {
        id.is_mark(self.mark(role)) && self.primary(role).is_some()
    }

    // How many streams are bound to a role.
    fn members(&self, role: u8) -> usize
        ensures { result ≡ length (rules.members (streams_of self.now) role) }
    {
        (0..32).filter(|s| self.binding(*s).in_role(role)).count()
    }

    // Whether the id is set and a stream of the role holds it other than this one.
    fn held_elsewhere(&self, stream: u8, role: u8, id: ElectionId) -> bool
        ensures { result ≡ rules.held_elsewhere (streams_of self.now) stream role (id_of id) }
    {
        id.is_set() && (0..32).any(|s| s != stream && self.binding(s).holds(role, id))
    }

    // Writes the records of all streams of the role, by rising stream; the number of records, which is counted as they are written.
    fn write_role(&self, role: u8, out: &mut [u8]) -> usize
        requires { 640 ≤ length out.old }
        ensures count { result ≡ length (rules.notify_all (streams_of self.now) role) }
        ensures records { out.new ≡ splice out.old 0 (concat (rules.notify_all (streams_of self.now) role)) }
    {
        let leadership = self.leadership(role);
        let mut count = 0;
        for stream in 0..32 {
            if self.binding(stream).in_role(role) {
                leadership.write_notification(stream, &mut out[20 * count..]);
                count += 1;
            }
        }
        count
    }

    // Writes the records of who is to be notified; the number of records.
    #[tactic(auto, unfolding(crate::specs::Meaning::records_of, buffers::specs::Splice::splice))]
    pub fn write_notifications(&self, notify: Notify, out: &mut [u8]) -> usize
        requires { 640 ≤ length out.old }
        ensures count { result ≡ length (records_of notify (streams_of self.now)) }
        ensures records { out.new ≡ splice out.old 0 (concat (records_of notify (streams_of self.now))) }
    {
        match notify {
            Notify::None => 0,
            Notify::Only(stream, leadership) => {
                leadership.write_notification(stream, out);
                1
            }
            Notify::All(role) => self.write_role(role, out),
        }
    }

    // What a stream is becomes this. One past the last stays closed. By index: of what is written through `get_mut` a proof knows no element.
    #[tactic(auto, unfolding(crate::specs::Meaning::streams_of))]
    fn put(&mut self, stream: u8, binding: Binding)
        ensures { streams_of self.new ≡ rules.become (streams_of self.old) stream (binding_of binding) }
    {
        if stream < 32 {
            self.streams[usize::from(stream)] = Stream::from(binding);
        }
    }

    // The mark of a role rises to a higher id, and never falls. A role past the last has none.
    fn raise(&mut self, role: u8, id: ElectionId)
        ensures { streams_of self.new ≡ raised (streams_of self.old) role (id_of id) }
    {
        if role < 8 {
            let at = usize::from(role);
            self.marks[at] = self.marks[at].mark_after(id);
        }
    }

    // OPEN. The record changes in place and there is one way out: the outcome has the one copy.
    pub fn open(mut self, stream: u8) -> Outcome
        ensures { outcome_of result ≡ rules.open_stream (streams_of self) stream }
    {
        let result = election::open_reason(stream, self.binding(stream));
        if result.is_ok() {
            self.put(stream, Binding::Open);
        }
        Outcome {
            streams: self,
            result,
            notify: Notify::None,
        }
    }

    // Who is notified when a stream closes: where it is the primary, the streams left in its role.
    fn closing_audience(&self, stream: u8) -> Notify
        ensures { records_of result (rules.become (streams_of self.now) stream rules.closed) ≡ rules.close_records (streams_of self.now) stream }
    {
        match self.binding(stream) {
            Binding::Bound(role, _) if self.primary(role) == Some(stream) => Notify::All(role),
            _ => Notify::None,
        }
    }

    // CLOSE, in the same shape.
    pub fn close(mut self, stream: u8) -> Outcome
        ensures { outcome_of result ≡ rules.close_stream (streams_of self) stream }
    {
        let result = election::close_reason(self.binding(stream));
        let notify = self.closing_audience(stream);
        if result.is_ok() {
            self.put(stream, Binding::Closed);
        }
        Outcome {
            streams: self,
            result,
            notify,
        }
    }

    // What an ARBITRATE is decided by.
    fn scan(&self, stream: u8, role: u8, id: ElectionId) -> Scan
        ensures { ScanOf result (streams_of self.now) stream role (id_of id) }
    {
        let own = self.binding(stream);
        let role = own.role_or(role);
        Scan {
            own,
            members: self.members(role),
            used: self.held_elsewhere(stream, role, id),
            leadership: self.leadership(role),
        }
    }

    // ARBITRATE, in the same shape. What is decided is decided of the record as it came.
    pub fn arbitrate(mut self, device: u64, stream: u8, head: Head) -> Outcome
        ensures { outcome_of result ≡ rules.arbitrate device (streams_of self) stream (head_of head) }
    {
        let scan = self.scan(stream, head.role, head.id);
        let result = scan.reason(device, head);
        let notify = audience(result, stream, head, scan);
        match result {
            Ok(()) => {
                self.raise(head.role, head.id);
                self.put(stream, Binding::Bound(head.role, head.id));
            }
            Err(Reason::NotOpen) => {}
            Err(_) => self.put(stream, Binding::Closed),
        }
        Outcome {
            streams: self,
            result,
            notify,
        }
    }
}
