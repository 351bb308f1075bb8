//! How two nodes reconcile, and what is counted of it.

ghost use Rattle.std.specs.Prelude.{◌≡◌, Some, find, bytes_eq};
ghost use Rattle.bench_types.specs.Budget.{amount_of, share_of};
ghost use Rattle.bench_types.specs.Mode.{digest_kind, mode_name, mode_named};

use crate::entries::Entry;

/// What a digest tells of a table.
#[derive(Clone, Copy, Debug, PartialEq, Eq)]
pub enum DigestKind {
    /// The greatest mark that is held of each owner.
    Scuttle,
    /// Each mark that is held, of each owner and key, and the generation held of each owner.
    Precise,
}

/// Which entries are sent, which follows from what digests tell, and in which order.
#[derive(Clone, Copy, Debug, PartialEq, Eq)]
pub enum Mode {
    /// What is above the receiver's greatest mark of the owner, one entry of each owner in turn.
    ScuttleBreadth,
    /// What is above the receiver's greatest mark of the owner, the owner with the most of it first.
    ScuttleDepth,
    /// What is newer than the receiver's entry, and of no older generation than its copy of the owner, by
    /// the round of its write.
    PreciseOldest,
    /// The same, the latest round first.
    PreciseNewest,
}

impl Mode {
    /// All modes, in the order of a comparison.
    pub const ALL: [Mode; 4] = [
        Mode::ScuttleBreadth,
        Mode::ScuttleDepth,
        Mode::PreciseOldest,
        Mode::PreciseNewest,
    ];

    /// The kind of this mode's digests.
    pub fn digest_kind(self) -> DigestKind
        ensures { result ≡ digest_kind self }
    {
        match self {
            Mode::ScuttleBreadth | Mode::ScuttleDepth => DigestKind::Scuttle,
            Mode::PreciseOldest | Mode::PreciseNewest => DigestKind::Precise,
        }
    }

    /// Its name in scenarios and comparisons, by which it is found.
    pub fn name(self) -> &'static str
        ensures name { result.now ≡ mode_name self }
        ensures found { mode_named (mode_name self) ≡ Some self }
    {
        match self {
            Mode::ScuttleBreadth => "scuttle-breadth",
            Mode::ScuttleDepth => "scuttle-depth",
            Mode::PreciseOldest => "precise-oldest",
            Mode::PreciseNewest => "precise-newest",
        }
    }

    /// The mode of this name, if there is one.
    pub fn named(word: &str) -> Option<Mode>
        ensures { result ≡ mode_named word.now }
    {
        named_among(&Mode::ALL, word)
    }
}

fn named_among(modes: &[Mode], word: &str) -> Option<Mode>
    ensures { result ≡ find (λ mode. bytes_eq word.now (mode_name mode)) modes.now }
{
    modes.iter().copied().find(|mode| word == mode.name())
}

/// How much one message may carry.
#[derive(Clone, Copy, Debug, PartialEq, Eq)]
pub enum Budget {
    /// So many entries, at least 1.
    Entries(u32),
    /// Entries of so many bytes in all, at least those of the largest entry.
    Bytes(u32),
}

impl Budget {
    /// How much it has: entries or bytes.
    pub fn amount(self) -> u32
        ensures { result ≡ amount_of self }
    {
        match self {
            Budget::Entries(amount) | Budget::Bytes(amount) => amount,
        }
    }

    /// How much of it an entry takes: 1, or the entry's bytes.
    pub fn share_of(self, entry: &Entry) -> u32
        ensures { result ≡ share_of self entry.now }
    {
        match self {
            Budget::Entries(_) => 1,
            Budget::Bytes(_) => entry.size(),
        }
    }
}

/// The rules that all exchanges of a run share.
#[derive(Clone, Copy, Debug, PartialEq, Eq)]
pub struct Rules {
    pub mode: Mode,
    pub budget: Budget,
}

/// One planned exchange of a round: who begins it, with whom, and which messages get lost.
#[derive(Clone, Copy, Debug, PartialEq, Eq)]
pub struct Exchange {
    pub initiator: u32,
    pub responder: u32,
    pub lost1: bool,
    pub lost2: bool,
    pub lost3: bool,
    /// The node that comes first where an order goes round the owners.
    pub rotation: u32,
}

/// The first message of an exchange that was lost, if any.
#[derive(Clone, Copy, Debug, PartialEq, Eq)]
pub enum Fate {
    Ok,
    Lost1,
    Lost2,
    Lost3,
}

/// What was sent in an exchange: sizes of the two digests, entries sent and entries cut by the budget.
#[derive(Clone, Copy, Debug, PartialEq, Eq)]
pub struct Record {
    pub digest1: u32,
    pub digest2: u32,
    /// Entries from the responder to the initiator.
    pub back: u32,
    /// Entries from the initiator to the responder.
    pub forth: u32,
    pub back_cut: u32,
    pub forth_cut: u32,
    pub fate: Fate,
}
