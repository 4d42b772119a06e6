//! Tables of three variables as constants, weights, arcs and a hidden node.
ghost use Rattle.std.specs.Prelude.{◌≡◌, ◌+◌, ◌*◌, ◌<◌, ◌≤◌, Bool, not, All, pos, ◌+ℤ◌, ◌-ℤ◌, ◌≤ℤ◌};
ghost use Rattle.std.specs.Prelude.{unsigned_abs};
ghost use Rattle.pseudo_bool.specs.Limits.{value_limit};
ghost use Rattle.pseudo_bool.specs.Energies.{entry, IsValue};
ghost use Rattle.compile_cut.specs.Three.{balance_at, cubic_weight, turned_table, part_value};
ghost use Rattle.compile_cut.specs.Three.{IsRegularOfThree, IsLeastOverHidden, AreArcsAtZeros};
ghost use Rattle.compile_cut.specs.Three.{IsSplitAtZeros, IsThreePartSmall};

use crate::parts::{balance, difference, gain, sum};

/// What the arcs between three variables carry: each leads from an earlier variable to a later one.
#[derive(Clone, Copy)]
pub struct ThreeArcs {
    pub first_second: u64,
    pub first_third: u64,
    pub second_third: u64,
}

/// A table over three variables as a number, three weights, what the arcs between the variables
/// carry, and the weight of a hidden node. Each arc between the hidden node and a variable carries
/// as much as that weight is without its sign.
#[derive(Clone, Copy)]
pub struct ThreePart {
    pub constant: i64,
    pub first: i64,
    pub second: i64,
    pub third: i64,
    pub arcs: ThreeArcs,
    pub hidden: i64,
}

/// The table's parts, by the sign of the product's coefficient, which is the hidden node's weight:
/// where it is above 0, they come from those of the table over the complemented variables
/// (Kolmogorov and Zabih 2004, section 4.2).
pub fn split_three(table: &[i64; 8]) -> ThreePart
    requires { IsRegularOfThree table.now }
    ensures value { IsLeastOverHidden table.now result }
    ensures small { IsThreePartSmall result }
{
    let product = product_weight(table);
    if product <= 0 {
        split_at_zeros(table, product)
    } else {
        let turned = split_at_zeros(&turned_table(table), -product);
        turned_part(&turned, table[0])
    }
}

/// The coefficient of the product of the three variables.
fn product_weight(table: &[i64; 8]) -> i64
    requires { All IsValue table.now }
    ensures value { result ≡ cubic_weight table.now }
    ensures small { unsigned_abs result ≤ 8 * value_limit }
{
    sum(balance(table, 1, 2, 0, 3), balance(table, 4, 7, 5, 6))
}

/// The table over the complemented variables in the reverse order, so that an earlier variable
/// stays the one from which an arc leads.
fn turned_table(table: &[i64; 8]) -> [i64; 8]
    requires { All IsValue table.now }
    ensures value { result ≡ turned_table table.now }
    ensures values { All IsValue result }
{
    [
        table[7], table[3], table[5], table[1], table[6], table[2], table[4], table[0],
    ]
}

/// The parts of a table from those of the turned one. The constant is what the turned parts have
/// where all four are 1.
fn turned_part(part: &ThreePart, constant: i64) -> ThreePart
    requires small { IsThreePartSmall part.now }
    requires sign { part.now.hidden ≤ℤ pos 0 }
    requires constant { constant
        ≡ part.now.constant +ℤ part.now.first +ℤ part.now.second +ℤ part.now.third
        +ℤ part.now.hidden }
    requires range { IsValue constant }
    ensures value { (w x y z : Bool) → part_value result w x y z
        ≡ part_value part.now (not w) (not z) (not y) (not x) }
    ensures small { IsThreePartSmall result }
{
    ThreePart {
        constant,
        first: -part.third,
        second: -part.second,
        third: -part.first,
        arcs: ThreeArcs {
            first_second: part.arcs.second_third,
            first_third: part.arcs.first_third,
            second_third: part.arcs.first_second,
        },
        hidden: -part.hidden,
    }
}

/// The parts by what the table has where one variable is 0: the product's coefficient, the hidden
/// weight, is at most 0.
fn split_at_zeros(table: &[i64; 8], hidden: i64) -> ThreePart
    requires table { IsRegularOfThree table.now }
    requires hidden { unsigned_abs hidden ≤ 8 * value_limit }
    ensures value { IsSplitAtZeros table.now hidden result }
    ensures small { IsThreePartSmall result }
{
    ThreePart {
        constant: table[0],
        first: difference(table, 4, 0),
        second: difference(table, 6, 4),
        third: sum(balance(table, 0, 3, 1, 2), difference(table, 5, 4)),
        arcs: arcs_at_zeros(table),
        hidden,
    }
}

/// What the arcs carry, by what the table has where one variable is 0.
fn arcs_at_zeros(table: &[i64; 8]) -> ThreeArcs
    requires { IsRegularOfThree table.now }
    ensures { AreArcsAtZeros table.now result }
{
    ThreeArcs {
        first_second: gain(table, 2, 4, 0, 6),
        first_third: gain(table, 1, 4, 0, 5),
        second_third: gain(table, 1, 2, 0, 3),
    }
}
