//! Tables of one and two variables as constants, weights and arcs.
ghost use Rattle.std.specs.Prelude.{◌≡◌, ◌+◌, ◌*◌, ◌<◌, ◌≤◌, length, All, pos, ◌+ℤ◌, ◌-ℤ◌, ◌≤ℤ◌};
ghost use Rattle.std.specs.Prelude.{unsigned_abs};
ghost use Rattle.pseudo_bool.specs.Limits.{value_limit};
ghost use Rattle.pseudo_bool.specs.Energies.{entry, IsValue};
ghost use Rattle.regular.specs.Regularity.{IsRegularTable};
ghost use Rattle.compile_cut.specs.Three.{balance_at, AreFourPlaces};
ghost use Rattle.compile_cut.specs.Parts.{IsOnePart, IsPairPart};

/// What a table has at a place less what it has at another.
pub fn difference(table: &[i64], above: usize, below: usize) -> i64
    requires values { All IsValue table.now }
    requires places { (above < length table.now) × (below < length table.now) }
    ensures value { result ≡ entry table.now above -ℤ entry table.now below }
    ensures small { unsigned_abs result ≤ 2 * value_limit }
{
    table[above] - table[below]
}

/// What a table has at two places less what it has at two others.
pub fn balance(table: &[i64], a: usize, b: usize, c: usize, d: usize) -> i64
    requires values { All IsValue table.now }
    requires places { AreFourPlaces (length table.now) a b c d }
    ensures value { result ≡ balance_at table.now a b c d }
    ensures small { unsigned_abs result ≤ 4 * value_limit }
{
    balance_of(table[a], table[b], table[c], table[d])
}

/// Two numbers less two others.
fn balance_of(a: i64, b: i64, c: i64, d: i64) -> i64
    requires a { IsValue a }
    requires b { IsValue b }
    requires c { IsValue c }
    requires d { IsValue d }
    ensures value { result ≡ a +ℤ b -ℤ c -ℤ d }
    ensures small { unsigned_abs result ≤ 4 * value_limit }
{
    (a + b) - (c + d)
}

/// What a table has at two places less what it has at two others, where that is no more.
pub fn gain(table: &[i64], a: usize, b: usize, c: usize, d: usize) -> u64
    requires values { All IsValue table.now }
    requires places { AreFourPlaces (length table.now) a b c d }
    requires regular { (entry table.now c +ℤ entry table.now d)
        ≤ℤ (entry table.now a +ℤ entry table.now b) }
    ensures value { pos result ≡ balance_at table.now a b c d }
    ensures small { result ≤ 4 * value_limit }
{
    balance(table, a, b, c, d).unsigned_abs()
}

/// The sum of two small numbers.
pub fn sum(a: i64, b: i64) -> i64
    requires a { unsigned_abs a ≤ 4 * value_limit }
    requires b { unsigned_abs b ≤ 4 * value_limit }
    ensures value { result ≡ a +ℤ b }
    ensures small { unsigned_abs result ≤ 8 * value_limit }
{
    a + b
}

/// A table over one variable as a number and a weight.
#[derive(Clone, Copy)]
pub struct OnePart {
    pub constant: i64,
    pub weight: i64,
}

/// The table's parts: its value is the constant, and the weight where the variable is 1.
pub fn split_one(table: &[i64; 2]) -> OnePart
    requires { All IsValue table.now }
    ensures { IsOnePart table.now result }
{
    OnePart {
        constant: table[0],
        weight: difference(table, 1, 0),
    }
}

/// A table over two variables as a number, two weights, and what an arc from the first to the
/// second carries.
#[derive(Clone, Copy)]
pub struct PairPart {
    pub constant: i64,
    pub first: i64,
    pub second: i64,
    pub arc: u64,
}

/// The table's parts: its value is the constant, the weights of the variables that are 1,
/// and the arc where the first is 0 and the second is 1.
pub fn split_pair(table: &[i64; 4]) -> PairPart
    requires values { All IsValue table.now }
    requires regular { IsRegularTable table.now }
    ensures { IsPairPart table.now result }
{
    PairPart {
        constant: table[0],
        first: difference(table, 2, 0),
        second: difference(table, 3, 2),
        arc: gain(table, 1, 2, 0, 3),
    }
}
