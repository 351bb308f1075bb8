//! Items on their way into a delta, as long as a budget lasts.

ghost use Rattle.std.specs.Prelude.{◌≡◌, [], ◌∷◌, map, IfOk, OnOk, IsOkUnless};
ghost use Rattle.bench_types.specs.Budget.{amount_of};
ghost use Rattle.bench_types.specs.declared.faults.Fault.TheVariants.{OutOfMemory};
ghost use Rattle.reconcile.specs.inner.Newer.{item_with};
ghost use Rattle.reconcile.specs.inner.Parcels.{AddsFitting};

use bench_types::{Budget, Entry, Fault, Item};
use std::alloc::Global;

// What is sent so far under a budget, and what is left of it: nothing, once an item didn't fit.
#[derive(Drop)]
pub(crate) struct Parcel {
    pub(crate) items: Vec<Item>,
    pub(crate) left: usize,
    pub(crate) budget: Budget,
}

impl Parcel {
    // An empty one, with room for what fits of so many items: each takes 1 of the budget at least.
    pub(crate) fn new(alloc: Global, found: usize, budget: Budget) -> Result<Parcel, Fault>
        ensures empty { IfOk result (λ p. p.items.items ≡ []) }
        ensures left { IfOk result (λ p. p.left ≡ amount_of budget) }
        ensures budget { IfOk result (λ p. p.budget ≡ budget) }
        ensures only { IsOkUnless result OutOfMemory }
    {
        Ok(Parcel {
            items: Vec::with_capacity(alloc, found.min(budget.amount() as usize))?,
            left: budget.amount() as usize,
            budget,
        })
    }

    // Adds an item where it fits.
    pub(crate) fn add(&mut self, item: Item) -> Result<(), Fault>
        ensures added { OnOk result (AddsFitting (item ∷ []) self.old self.new) }
        ensures only { IsOkUnless result OutOfMemory }
    {
        let share = self.budget.share_of(&item.entry) as usize;
        if share <= self.left {
            self.items.push(item)?;
            self.left -= share;
        } else {
            self.left = 0;
        }
        Ok(())
    }

    // Adds an owner's entries as long as they fit.
    pub(crate) fn add_entries(&mut self, owner: u32, entries: &[Entry]) -> Result<(), Fault>
        ensures added { OnOk result (AddsFitting (map (item_with owner) entries.now) self.old self.new) }
        ensures only { IsOkUnless result OutOfMemory }
    {
        for entry in entries {
            let entry = *entry;
            self.add(Item { owner, entry })?;
        }
        Ok(())
    }
}
