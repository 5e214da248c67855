// Three counts that are never added to one another, the time of a row, and how that varies.

// The T-states of one machine cycle.
#[derive(Clone, Copy, Debug, PartialEq, Eq)]
pub struct TStates(pub u8);

// How many machine cycles a row takes.
#[derive(Clone, Copy, Debug, PartialEq, Eq)]
pub struct MCycles(pub u8);

// How many bytes a row is long.
#[derive(Clone, Copy, Debug, PartialEq, Eq)]
pub struct Bytes(pub u8);

// The time of a row: at most five more than the sum of six T-state places, 1,530, which is more than `TStates` holds.
#[derive(Clone, Copy, Debug, PartialEq, Eq)]
pub struct RowTime(pub u16);

// How the time of a row varies.
#[derive(Clone, Copy)]
pub enum Pace {
    Steady,
    // So many at least.
    Shorter(u16),
    // So many at least where the first operand is a condition.
    ShorterIf(u16),
    // Five more on each pass but the last.
    Repeats,
}
