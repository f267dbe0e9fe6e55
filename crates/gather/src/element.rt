// The bytes of elements.
ghost use Rattle.std.specs.Prelude.{◌≡◌, ◌+◌, ◌≤◌, length};
ghost use Rattle.model.specs.Monitor.{element_bytes};
ghost use Rattle.path.specs.Times.{timestamp_of};
ghost use Rattle.slot.specs.Layout.{slot_words, rec_in, Slot};
ghost use Rattle.writer.specs.Wrote.{Wrote};

use crate::record_into;
use path::Timestamp;
use writer::Writer;

// The record in a slot, with when and by whom it is evicted: what is summed.
pub fn element_out(
    slot: &[u64],
    timestamp: Timestamp,
    verifier: u8,
    out: &mut [u8],
    at: usize,
) -> usize
    requires size { length slot.now ≡ slot_words }
    requires room { at + 1112 ≤ length out.old }
    ensures end { result ≤ at + 1112 }
    ensures wrote { Slot slot.now → Wrote out.old at (element_bytes (record { rec = rec_in slot.now; timestamp = timestamp_of timestamp; verifier = verifier })) out.new result }
{
    let mut w = Writer::new(out, at);
    record_into(slot, &mut w);
    w.number(timestamp.epoch);
    w.number(timestamp.counter);
    w.byte(verifier);
    w.at
}
