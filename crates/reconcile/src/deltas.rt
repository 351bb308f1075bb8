//! What is sent in answer to a digest.

ghost use Rattle.std.specs.Prelude.{◌≡◌};

use bench_types::Item;
use std::marker::Model;

/// What is sent in answer to a digest, in the order sent, and how many candidates the budget cut.
#[derive(Drop)]
pub struct Delta {
    pub(crate) items: Vec<Item>,
    pub(crate) cut: u32,
}

impl Model for Delta {
    ghost use Rattle.model.specs.Deltas.{DeltaView};

    ghost Value = { DeltaView };

    ghost view = { λ d. record { items = d.items.items; cut = d.cut } };
}

impl Delta {
    /// The items in the order sent.
    pub fn items(&self) -> &[Item]
        ensures { result.now ≡ self.now.items }
    {
        &self.items
    }

    /// How many candidates were left out.
    pub fn cut(&self) -> u32
        ensures { result ≡ self.now.cut }
    {
        self.cut
    }
}
