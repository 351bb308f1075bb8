//! How the candidates of a delta take turns.

ghost use Rattle.std.specs.Prelude.{◌≡◌, ◌<◌, List};
ghost use Rattle.bench_types.specs.Mode.{digest_kind};
ghost use Rattle.bench_types.specs.declared.entries.Item.{Item};
ghost use Rattle.model.specs.Order.{rotated, sending_order};

use bench_types::{DigestKind, Item, Mode};
use std::cmp::Ordering;

/// How the candidates take turns.
#[derive(Clone, Copy)]
pub(crate) struct Turns {
    pub(crate) mode: Mode,
    pub(crate) nodes: u32,
    pub(crate) rotation: u32,
}

impl Turns {
    /// How two candidates of a precise mode stand: the lesser is sent first.
    pub(crate) fn compare(self, one: &Item, other: &Item) -> Ordering
        requires precise { digest_kind self.mode ≡ DigestKind.Precise }
        requires rotation { self.rotation < self.nodes }
        ensures { (all : List Item) → result ≡ sending_order self.mode self.nodes self.rotation all one.now other.now }
    {
        let (a, b) = (one.entry, other.entry);
        let turn = self.turn_of(one.owner).cmp(&self.turn_of(other.owner));
        let key = a.key.cmp(&b.key);
        match self.mode {
            Mode::PreciseOldest => {
                let version = a.version.cmp(&b.version);
                a.born.cmp(&b.born).then(turn.then(version.then(key)))
            }
            Mode::PreciseNewest => {
                let version = b.version.cmp(&a.version);
                b.born.cmp(&a.born).then(turn.then(version.then(key)))
            }
            Mode::ScuttleBreadth | Mode::ScuttleDepth => unreachable!(),
        }
    }

    fn turn_of(self, owner: u32) -> u64
        requires { self.rotation < self.nodes }
        ensures { result ≡ rotated self.nodes self.rotation owner }
    {
        let nodes = u64::from(self.nodes);
        (u64::from(owner) + nodes - u64::from(self.rotation)) % nodes
    }
}
