// Stream events carried out: OPEN, CLOSE and ARBITRATE change the stream record, and streams are notified
// (document 01, "Streams and primaries").
#![tactic(auto)]

ghost use Rattle.std.specs.Prelude.{◌≡◌, ◌≤◌, length};
ghost use Rattle.rules.specs.Streams as rules;
ghost use Rattle.rules.specs.Answer.{answer_bytes};
ghost use Rattle.rules.specs.Call.{event_answer};
ghost use Rattle.buffers.specs.Splice.{splice};
ghost use Rattle.arbitration.specs.Meaning.{streams_of, records_of, outcome_of};
ghost use Rattle.frames.specs.Meaning.{event_read};

use arbitration::{Notify, Outcome, Streams};
use frames::StreamEvent;
use memory::Device;

// What an event leaves, and who is to be notified. Nothing is written: `respond` does that, when the record has been stored, so that nobody
// needs the old one any more.
pub fn carry_out(device: Device, streams: Streams, event: StreamEvent) -> Outcome
    ensures { outcome_of result ≡ rules.event device.id (streams_of streams) (event_read event) }
{
    match event {
        StreamEvent::Open(stream) => streams.open(stream),
        StreamEvent::Close(stream) => streams.close(stream),
        StreamEvent::Arbitrate(stream, head) => streams.arbitrate(device.id, stream, head),
    }
}

// Writes the answer to an event, by the record that it left: its records from byte 4 on, and before them the head, whatever the reason. By
// reference: an outcome that is lent would be one more copy of the record.
pub fn respond(streams: &Streams, reason: u8, notify: Notify, answer: &mut [u8])
    requires { 644 ≤ length answer.old }
    ensures { answer.new ≡ splice answer.old 0 (answer_bytes (event_answer (record {
      after = streams_of streams.now;
      reason = reason;
      records = records_of notify (streams_of streams.now);
    }))) }
{
    let count = streams.write_notifications(notify, &mut answer[4..]);
    answers::write_head(reason, count, answer);
}
