//! The faults of a problem file of labels.
ghost use Rattle.std.specs.Prelude.{◌≡◌};
ghost use Rattle.problem_files.specs.LabelFieldNames.{field_name, out_of_range};

use thiserror::Error;

/// A field of the table.
#[derive(Clone, Copy, Debug, PartialEq, Eq)]
pub enum LabelKey {
    /// `sites`
    Sites,
    /// `labels`
    Labels,
    /// `data`
    Data,
    /// `smooth`
    Smooth,
    /// `trunc`
    Trunc,
    /// `pairs`
    Pairs,
    /// `start`
    Start,
    /// `moves`
    Moves,
    /// `cycles`
    Cycles,
    /// `label_costs`
    LabelCosts,
}

impl LabelKey {
    /// The key of the field.
    pub fn name(self) -> &'static str
        ensures { result.now ≡ field_name self }
    {
        match self {
            LabelKey::Sites => "sites",
            LabelKey::Labels => "labels",
            LabelKey::Data => "data",
            LabelKey::Smooth => "smooth",
            LabelKey::Trunc => "trunc",
            LabelKey::Pairs => "pairs",
            LabelKey::Start => "start",
            LabelKey::Moves => "moves",
            LabelKey::Cycles => "cycles",
            LabelKey::LabelCosts => "label_costs",
        }
    }
}

/// The first fault of a problem file. An element goes by its place in the list of its field, from
/// 0.
#[derive(Clone, Copy, Debug, PartialEq, Eq, Error)]
pub enum LabelFault {
    /// Memory was refused.
    #[error("out of memory")]
    OutOfMemory,
    /// The bytes are not a TOML text.
    #[error("not a TOML text")]
    BadToml,
    /// A field that must be there is missing, has another kind or another length, or is out of its
    /// range.
    #[error("bad field")]
    BadField(LabelKey),
    /// The element at this place of a field's list has another kind or another shape.
    #[error("bad element {1}")]
    BadElement(LabelKey, usize),
    /// The cost at this place of `data`, of `smooth` or of `label_costs` is out of its range.
    #[error("a cost out of range at {1}")]
    CostRange(LabelKey, usize),
    /// A pair names a site that is not there.
    #[error("no such site in pair {0}")]
    NoSuchSite(usize),
    /// A pair names one site twice.
    #[error("the same site twice in pair {0}")]
    SamePair(usize),
    /// There are more pairs than a list may have.
    #[error("too many pairs")]
    TooManyPairs,
    /// The weight of a pair is out of its range.
    #[error("a weight out of range in pair {0}")]
    WeightRange(usize),
    /// The label of this site, in `start`, is not there.
    #[error("no such label at site {0}")]
    NoSuchLabel(usize),
}

/// The fault of a number out of its range, at a place of a field's list.
pub(crate) fn out_of_range(field: LabelKey, place: usize) -> LabelFault
    ensures { result ≡ out_of_range field place }
{
    match field {
        LabelKey::Start => LabelFault::NoSuchLabel(place),
        _ => LabelFault::CostRange(field, place),
    }
}
