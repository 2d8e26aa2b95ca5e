//! Laws of the frames of a stream, for callers' proofs. They do nothing when they run.

ghost use Rattle.dia_frame.specs.Laws.{SomeReading, OneReading, FirstFrame, OneMoreFrame};

/// A stream has one list of messages and one rest, so it doesn't matter how it was cut.
pub fn one_reading()
    ensures some { SomeReading }
    ensures one { OneReading }
{}

/// A message is the first frame of itself with anything after it.
pub fn first_frame()
    ensures first { FirstFrame }
    ensures one_more { OneMoreFrame }
{}
