//! Rows of numbers, one for each round.

ghost use Rattle.std.specs.Prelude.{◌≡◌, ◌+◌, ◌*◌, ◌≤◌, length, map};
ghost use Rattle.limits.specs.declared.TheConstants.{MOST_NODES};
ghost use Rattle.planes.specs.Planes.{cell, HasEach};

use crate::grids::plane_of;
use crate::numbers::Number;

/// For each round from 0 up to `rounds` a row with how many writes each owner has made up to its end.
#[derive(Drop)]
pub struct Ends<'a, N: Number> {
    pub numbers: &'a [N],
    pub rounds: u32,
}

impl<'a, N: Number> Ends<'a, N> {
    /// The row of a round.
    pub fn row(&self, nodes: usize, round: u32) -> &[N]
        requires nodes { nodes ≤ MOST_NODES }
        requires ends { length self.now.numbers.now ≡ (self.now.rounds + 1) * nodes }
        requires round { round ≤ self.now.rounds }
        ensures { HasEach nodes (λ r n. n ≡ cell (map N.number self.now.numbers.now) nodes r round)
            (map N.number result.now) }
    {
        plane_of(self.numbers, nodes, round as usize)
    }
}
