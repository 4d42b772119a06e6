//! The kind of moves that a problem names.
ghost use Rattle.std.specs.Prelude.{◌≡◌};
ghost use Rattle.toml.specs.View.{table_view};
ghost use Rattle.problem_files.specs.MoveFields.{moves_from, moves_in};

use crate::numbers::value_of;
use crate::{LabelFault, LabelKey};
use label_energies::Moves;
use toml::Table;

/// The moves that a table names.
#[tactic(auto, unfolding(crate::specs::MoveFields::moves_in))]
pub(crate) fn moves_in(table: &Table) -> Result<Moves, LabelFault>
    ensures { result ≡ moves_in (table_view table.now) }
{
    let Some(value) = value_of(table, LabelKey::Moves) else {
        return Ok(Moves::Expansion);
    };
    match value.as_str() {
        Some(name) => moves_from(name),
        None => Err(LabelFault::BadField(LabelKey::Moves)),
    }
}

fn moves_from(name: &str) -> Result<Moves, LabelFault>
    ensures { result ≡ moves_from name.now }
{
    match Moves::from_name(name) {
        Some(moves) => Ok(moves),
        None => Err(LabelFault::BadField(LabelKey::Moves)),
    }
}
