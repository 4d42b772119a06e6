//! Tables and columns of costs, also such that threads fill.
ghost use Rattle.std.specs.Prelude.{pos, ◌≤ℤ◌};

use crate::rows::{hold, take_ok};
use cost_store::DataCost;
use moves::{Alone, Columns};

#[test]
fn fills_as_it_answers(rt: HostRuntime) {
    let cost = DataCost::new(
        |_site: u32, label: u32| -> i64
            ensures { (pos 0 ≤ℤ result) × (result ≤ℤ pos 3) }
        { if label == 0 { 3 } else { 0 } },
        2,
        2,
    );
    let table = take_ok(&rt, cost.table_of(rt.alloc()));
    hold(&rt, table.as_slice() == [3, 0, 3, 0].as_slice());
    let table = take_ok(&rt, cost.fill(&rt, rt.alloc()));
    hold(&rt, table.as_slice() == [3, 0, 3, 0].as_slice());
    let column = take_ok(&rt, cost.column_of(rt.alloc(), 0));
    hold(&rt, column.as_slice() == [3, 3].as_slice());
    let column = take_ok(&rt, cost.fill_column(&rt, rt.alloc(), 1));
    hold(&rt, column.as_slice() == [0, 0].as_slice());
    let column = take_ok(&rt, Alone.column(rt.alloc(), &cost, 0));
    hold(&rt, column.as_slice() == [3, 3].as_slice());
}
