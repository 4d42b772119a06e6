//! Terms as an energy keeps them.
ghost use Rattle.std.specs.Prelude.{◌≡◌, ◌+◌, ◌<◌, ◌≤◌, ◌^◌, [], ◌∷◌, All, length, map, vec_len};
ghost use Rattle.std.specs.Prelude.{vec_capacity};
ghost use Rattle.pseudo_bool.specs.Energies.{term_value, assignment, IsTerm, IsValue};
ghost use Rattle.pseudo_bool.specs.Hidden.{tied_terms};
ghost use Rattle.pseudo_bool.specs.Rows.{number_of_bytes, term_of, triple_term, IsKept, AddsRows};

use crate::Term;

/// A term of one or two variables as the energy keeps it, or the place of one of three in a list of
/// its own, so that the rows of shorter terms stay small: 24 bytes. A number of a table fits 32
/// bits, that of a variable three bytes, the lowest first.
#[derive(Clone, Copy)]
pub enum Row {
    One([u8; 3], [i32; 2]),
    Two([u8; 3], [u8; 3], [i32; 4]),
    Three(u32),
}

/// The number of a variable in three bytes.
#[tactic(auto, unfolding(crate::specs::Rows::number_of_bytes))]
pub fn shorten(variable: u32) -> [u8; 3]
    requires { variable < 2 ^ 24 }
    ensures { number_of_bytes result ≡ variable }
{
    [
        (variable % 256) as u8,
        (variable / 256 % 256) as u8,
        (variable / 65536) as u8,
    ]
}

/// The number of a variable that was kept in three bytes.
#[tactic(auto, unfolding(crate::specs::Rows::number_of_bytes))]
fn number(bytes: &[u8; 3]) -> u32
    ensures { result ≡ number_of_bytes bytes.now }
{
    u32::from(bytes[0]) + 256 * u32::from(bytes[1]) + 65536 * u32::from(bytes[2])
}

/// A term of three variables.
#[derive(Clone, Copy)]
pub struct Triple {
    pub first: u32,
    pub second: u32,
    pub third: u32,
    pub table: [i32; 8],
}

/// The numbers of a table, each in 32 bits.
pub fn narrow<const N: usize>(table: &[i64; N]) -> [i32; N]
    requires { All IsValue table.now }
    ensures { result ≡ table.now }
{
    let mut kept = [0; N];
    for (place, value) in table.iter().enumerate() {
        kept[place] = *value as i32;
    }
    kept
}

/// The numbers of a table, each in 64 bits.
fn widen<const N: usize>(table: &[i32; N]) -> [i64; N]
    ensures { result ≡ table.now }
{
    let mut read = [0; N];
    for (place, value) in table.iter().enumerate() {
        read[place] = i64::from(*value);
    }
    read
}

/// What a table of two variables has at an assignment.
fn pair_value(first: u32, second: u32, table: &[i32; 4], bits: &[bool]) -> i64
    requires { IsTerm (length bits.now) (Term.Two first second table.now) }
    ensures value { result ≡ term_value (assignment bits.now) (Term.Two first second table.now) }
    ensures within { IsValue result }
{
    let place = 2 * usize::from(bits[first as usize]) + usize::from(bits[second as usize]);
    i64::from(table[place])
}

impl Triple {
    /// What the table has at an assignment.
    fn value(&self, bits: &[bool]) -> i64
        requires { IsTerm (length bits.now) (triple_term self.now) }
        ensures value { result ≡ term_value (assignment bits.now) (triple_term self.now) }
        ensures within { IsValue result }
    {
        let first = usize::from(bits[self.first as usize]);
        let second = usize::from(bits[self.second as usize]);
        let third = usize::from(bits[self.third as usize]);
        i64::from(self.table[4 * first + 2 * second + third])
    }
}

impl Row {
    /// The term.
    pub fn term(&self, triples: &[Triple]) -> Term
        requires { IsKept (length triples.now) self.now }
        ensures { result ≡ term_of triples.now self.now }
    {
        match self {
            Row::One(first, table) => Term::One(number(first), widen(table)),
            Row::Two(first, second, table) => {
                Term::Two(number(first), number(second), widen(table))
            }
            Row::Three(place) => {
                let it = &triples[*place as usize];
                Term::Three(it.first, it.second, it.third, widen(&it.table))
            }
        }
    }

    /// What the table has at an assignment.
    pub fn value(&self, triples: &[Triple], bits: &[bool]) -> i64
        requires kept { IsKept (length triples.now) self.now }
        requires term { IsTerm (length bits.now) (term_of triples.now self.now) }
        ensures value { result ≡ term_value (assignment bits.now) (term_of triples.now self.now) }
        ensures within { IsValue result }
    {
        match self {
            Row::One(first, table) => i64::from(table[usize::from(bits[number(first) as usize])]),
            Row::Two(first, second, table) => {
                pair_value(number(first), number(second), table, bits)
            }
            Row::Three(place) => triples[*place as usize].value(bits),
        }
    }
}

/// Adds a row of one variable, for which there is room.
fn push_alone(rows: &mut Vec<Row>, variable: u32, alone: &[i64; 2])
    requires variable { variable < 2 ^ 24 }
    requires values { All IsValue alone.now }
    requires room { vec_len rows.old < vec_capacity rows.old }
    ensures added { AddsRows rows.old.items rows.new.items (Term.One variable alone.now ∷ []) }
    ensures len { vec_len rows.new ≡ vec_len rows.old + 1 }
    ensures room { vec_capacity rows.new ≡ vec_capacity rows.old }
{
    rows.push_reserved(Row::One(shorten(variable), narrow(alone)));
}

/// Adds a row of each named variable and this one, for which there is room.
fn push_beside(rows: &mut Vec<Row>, names: &[u32], variable: u32, beside: &[i64; 4])
    requires names { All (λ name. name < 2 ^ 24) names.now }
    requires variable { variable < 2 ^ 24 }
    requires values { All IsValue beside.now }
    requires room { vec_len rows.old + length names.now ≤ vec_capacity rows.old }
    ensures added { AddsRows rows.old.items rows.new.items
        (map (λ name. Term.Two name variable beside.now) names.now) }
{
    for name in names {
        rows.push_reserved(Row::Two(shorten(*name), shorten(variable), narrow(beside)));
    }
}

/// Adds a row of a variable alone, and one of each named variable and it, for which there is room.
pub fn push_tied(
    rows: &mut Vec<Row>,
    names: &[u32],
    variable: u32,
    alone: &[i64; 2],
    beside: &[i64; 4],
)
    requires names { All (λ name. name < 2 ^ 24) names.now }
    requires variable { variable < 2 ^ 24 }
    requires alone { All IsValue alone.now }
    requires beside { All IsValue beside.now }
    requires room { vec_len rows.old + 1 + length names.now ≤ vec_capacity rows.old }
    ensures { AddsRows rows.old.items rows.new.items
        (tied_terms names.now variable alone.now beside.now) }
{
    push_alone(rows, variable, alone);
    push_beside(rows, names, variable, beside);
}
