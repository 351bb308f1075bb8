//! What holds along every run, whatever is lost, cut, separated or restarted. The call does nothing.

ghost use Rattle.scenario.specs.Settings.{Settings, IsLawfulScenario};
ghost use Rattle.played_rounds.specs.Soundness.{IsSoundRun};

/// The law of every run. After each round, once a round has begun, and after each of its exchanges:
/// each entry that a node holds was written by its owner in the entry's generation, with its version,
/// key, value and round, and in the two scuttle modes no copy of its owner's generation has a gap. The
/// greatest mark of a copy goes down only by a restart of the copy's holder, and so does, within one
/// generation, the version of each key.
pub fn every_run_is_sound()
    ensures { (s : Settings) → IsLawfulScenario s → IsSoundRun s }
{}
