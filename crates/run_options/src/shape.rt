//! The smooth costs that go by a name.
ghost use Rattle.std.specs.Prelude.{◌≡◌, ◌<◌};
ghost use Rattle.label_field.specs.Limits.{label_limit};
ghost use Rattle.run_options.specs.Names.{shape_named};
ghost use Rattle.run_options.specs.Shapes.{shape_cost};

/// A cost of two labels that goes by a name.
#[derive(Clone, Copy, Debug, PartialEq, Eq)]
pub enum Shape {
    /// 0 for one label, and 1 for two.
    Potts,
    /// How far the labels are apart, or less where it is cut off.
    Linear,
    /// The square of how far the labels are apart, or less where it is cut off.
    Quadratic,
}

impl Shape {
    /// The cost that goes by a name, `potts`, `linear` or `quadratic`.
    pub fn from_name(name: &str) -> Option<Shape>
        ensures { result ≡ shape_named name.now }
    {
        match name {
            "potts" => Some(Shape::Potts),
            "linear" => Some(Shape::Linear),
            "quadratic" => Some(Shape::Quadratic),
            _ => None,
        }
    }

    /// The cost of two labels, where a cost by distance is cut off at the most. Both labels are
    /// below `LABEL_LIMIT`.
    pub fn cost(self, most: u32, first: u32, second: u32) -> u32
        requires first { first < label_limit }
        requires second { second < label_limit }
        ensures { result ≡ shape_cost self most first second }
    {
        let distance = first.abs_diff(second);
        match self {
            Shape::Potts => u32::from(first != second),
            Shape::Linear => distance.min(most),
            Shape::Quadratic => (distance * distance).min(most),
        }
    }
}
