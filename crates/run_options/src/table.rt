//! The table of a named smooth cost.
ghost use Rattle.std.specs.Prelude.{◌≡◌, ◌<◌, ◌≤◌, ◌++◌, IfOk, OnOk, All};
ghost use Rattle.label_field.specs.Limits.{label_limit};
ghost use Rattle.run_options.specs.Limits.{IsSmoothCost, trunc_limit};
ghost use Rattle.run_options.specs.Shapes.{shape_row, shape_table};

use crate::Shape;
use std::alloc::{AllocError, Global};

/// The table of a named cost: the cost of each label beside each, row after row by the first label.
/// Costs by distance are cut off at the most. There are at most `LABEL_LIMIT` labels; where the
/// most is at most `TRUNC_LIMIT`, each cost is at most `SMOOTH_LIMIT`. An error says that memory
/// was refused.
pub fn smooth_table(
    alloc: Global,
    shape: Shape,
    most: u32,
    labels: u32,
) -> Result<Vec<i64>, AllocError>
    requires { labels ≤ label_limit }
    ensures table { IfOk result (λ table. table.items ≡ shape_table shape labels most) }
    ensures limits { most ≤ trunc_limit → IfOk result (λ table. All IsSmoothCost table.items) }
{
    let mut table = Vec::new(alloc);
    for first in 0..labels {
        row_into(&mut table, shape, most, labels, first)?;
    }
    Ok(table)
}

/// Adds the costs of a label beside each.
fn row_into(
    table: &mut Vec<i64>,
    shape: Shape,
    most: u32,
    labels: u32,
    first: u32,
) -> Result<(), AllocError>
    requires labels { labels ≤ label_limit }
    requires first { first < labels }
    ensures { OnOk result (table.new.items ≡ table.old.items ++ shape_row shape labels most first) }
{
    for second in 0..labels {
        table.push(i64::from(shape.cost(most, first, second)))?;
    }
    Ok(())
}
