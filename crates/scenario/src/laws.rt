//! What a document settles. The call does nothing.

ghost use Rattle.std.specs.Prelude.{◌≡◌};
ghost use Rattle.toml.specs.Data.{Members};
ghost use Rattle.scenario.specs.Order.{Says};
ghost use Rattle.scenario.specs.Settings.{Settings};

/// No two scenarios are what one document says, so what `read` answers of an accepted text follows from its document.
pub fn documents_fix_settings()
    ensures { (table : Members) (s t : Settings) → Says table s → Says table t → s ≡ t }
{}
