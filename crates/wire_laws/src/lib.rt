// The laws of events and answers as bytes, proved: see specs/Wire.antt of crate `model`.
#![tactic(auto)]

ghost use Rattle.model.specs.Wire.{EventsReadBack, EventsReadExactly, MalformedThere, FirstBytesTell, AnswersReadBack, AnswersReadExactly};

// Every readable event is read back as it was written.
pub fn events_read_back()
    ensures { EventsReadBack }
{}

// Bytes that read as an event are that event's, and it is readable.
pub fn events_read_exactly()
    ensures { EventsReadExactly }
{}

// Bytes that are no event are malformed where they cease to be one.
pub fn malformed_there()
    ensures { MalformedThere }
{}

// One byte more than the longest event has tells what longer bytes are.
pub fn first_bytes_tell()
    ensures { FirstBytesTell }
{}

// Every readable answer is read back as it was written.
pub fn answers_read_back()
    ensures { AnswersReadBack }
{}

// Bytes that read as an answer are that answer's, and it is readable.
pub fn answers_read_exactly()
    ensures { AnswersReadExactly }
{}
