//! The faults of a problem file.
ghost use Rattle.std.specs.Prelude.{◌≡◌, ◌≤◌, length};
ghost use Rattle.problem_files.specs.EnergyFieldName.{field_name};

use thiserror::Error;

/// A field of the table.
#[derive(Clone, Copy, Debug, PartialEq, Eq)]
pub enum EnergyKey {
    /// `variables`
    Variables,
    /// `constant`
    Constant,
    /// `terms`
    Terms,
}

impl EnergyKey {
    /// The field's key.
    pub fn name(self) -> &'static str
        ensures text { result.now ≡ field_name self }
        ensures short { length result.now ≤ 20 }
    {
        match self {
            EnergyKey::Variables => "variables",
            EnergyKey::Constant => "constant",
            EnergyKey::Terms => "terms",
        }
    }
}

/// The first fault of a problem file. A term goes by its place in the list of terms, from 0.
#[derive(Clone, Copy, Debug, PartialEq, Eq, Error)]
pub enum EnergyFault {
    /// Memory was refused.
    #[error("out of memory")]
    OutOfMemory,
    /// The bytes are not a TOML text.
    #[error("not a TOML text")]
    BadToml,
    /// A field that must stand is missing, has another kind, or is out of its range.
    #[error("bad field")]
    BadField(EnergyKey),
    /// The element at this place of a field's list has another shape.
    #[error("bad element {1}")]
    BadElement(EnergyKey, usize),
    /// A term names a variable that the energy does not have.
    #[error("no such variable in term {0}")]
    NoSuchVariable(usize),
    /// A term names a variable twice.
    #[error("the same variable twice in term {0}")]
    SameVariable(usize),
    /// A number of a term's table is out of its range.
    #[error("a value out of range in term {0}")]
    ValueRange(usize),
    /// The constant is out of its range.
    #[error("the constant is out of range")]
    ConstantRange,
    /// There are more terms than an energy may have.
    #[error("too many terms")]
    TooManyTerms,
}
