// Speeds and times as quantities of their own: no function turns one into the other.

// A speed in revolutions per minute. A boundary speed is at most its boundary, so it stays in the slower mode.
#[derive(Clone, Copy, Debug, PartialEq, Eq, PartialOrd, Ord)]
pub struct Rpm(pub u16);

// A time in ticks of 10 microseconds.
#[derive(Clone, Copy, Debug, PartialEq, Eq, PartialOrd, Ord)]
pub struct Ticks(pub u16);
