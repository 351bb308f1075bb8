//! A write as figures see it.

/// One write of an owner, without its generation and its value.
#[derive(Clone, Copy, Debug, PartialEq, Eq)]
pub struct Write {
    pub key: u32,
    /// The n-th write of an owner's generation has version n, from 1.
    pub version: u32,
    /// The round in which the owner made it.
    pub born: u32,
}
