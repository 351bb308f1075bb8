//! What is sent.

ghost use Rattle.delta_plans.specs.SentSets.{DeltasHaveTheirSets};

/// What two marks for each owner let through is what the model's delta sends. The call does nothing.
pub fn deltas_have_their_sets()
    ensures { DeltasHaveTheirSets }
{}
