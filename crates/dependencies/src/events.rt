//! What happens to the exchanges of a list.

/// A step of one exchange, by its place in the list.
#[derive(Clone, Copy, Debug, PartialEq, Eq)]
pub enum Event {
    /// The tables of its two nodes are taken out.
    Start(u32),
    /// What it leaves of them is put back, and its record is kept.
    Finish(u32),
}
