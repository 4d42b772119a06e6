//! The test of a table of two variables.
ghost use Rattle.std.specs.Prelude.{◌↔◌, All, IsTrue};
ghost use Rattle.pseudo_bool.specs.Energies.{IsWithin};
ghost use Rattle.regular.specs.Limits.{entry_limit};
ghost use Rattle.regular.specs.Regularity.{IsRegularTable};

/// Whether a table of two variables, its numbers those at 00, 01, 10 and 11, is regular: what it
/// has at 00 and 11 is together at most what it has at 01 and 10 (Kolmogorov and Zabih, PAMI 2004,
/// section 4.1). The numbers may be sums or products of an energy's: each is from -10^18 to 10^18.
/// It takes no memory.
pub fn is_regular_table(table: &[i64; 4]) -> bool
    requires { All (IsWithin entry_limit) table.now }
    ensures { IsTrue result ↔ IsRegularTable table.now }
{
    table[0] + table[3] <= table[1] + table[2]
}
