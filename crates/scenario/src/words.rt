//! The fields that take one of a few words.

ghost use Rattle.std.specs.Prelude.{◌≡◌};
ghost use Rattle.toml.specs.View.{table_view};
ghost use Rattle.scenario.specs.Top.{mode_at, peers_at, rotation_at, choice_at};

use crate::choices::{Choice, Peers, Rotation};
use crate::fields::text_at;
use bench_types::{Fault, Field, Mode};
use toml::Table;

pub(crate) fn mode_at(table: &Table) -> Result<Mode, Fault>
    ensures { result ≡ mode_at (table_view table.now) }
{
    let word = text_at(table, Field::Mode)?;
    Mode::named(word).ok_or(Fault::OutOfRange(Field::Mode))
}

pub(crate) fn peers_at(table: &Table) -> Result<Peers, Fault>
    ensures { result ≡ peers_at (table_view table.now) }
{
    match text_at(table, Field::Peers)? {
        "random" => Ok(Peers::Random),
        "ring" => Ok(Peers::Ring),
        _ => Err(Fault::OutOfRange(Field::Peers)),
    }
}

pub(crate) fn rotation_at(table: &Table) -> Result<Rotation, Fault>
    ensures { result ≡ rotation_at (table_view table.now) }
{
    match text_at(table, Field::Rotation)? {
        "random" => Ok(Rotation::Random),
        "none" => Ok(Rotation::Off),
        _ => Err(Fault::OutOfRange(Field::Rotation)),
    }
}

pub(crate) fn choice_at(table: &Table) -> Result<Choice, Fault>
    ensures { result ≡ choice_at (table_view table.now) }
{
    match text_at(table, Field::Choice)? {
        "random" => Ok(Choice::Random),
        "cycle" => Ok(Choice::Cycle),
        _ => Err(Fault::OutOfRange(Field::Choice)),
    }
}
