//! The test of a term.
ghost use Rattle.std.specs.Prelude.{◌≡◌, ◌↔◌, ◌<◌, All, IsOk, IfErr, IsNone, IfSome};
ghost use Rattle.pseudo_bool.specs.Energies.{IsValue};
ghost use Rattle.pseudo_bool.specs.Refusals.{HasValues};
ghost use Rattle.regular.specs.declared.fixed.Fixed.{Fixed};
ghost use Rattle.regular.specs.Regularity.{IsRegularTerm, IsRegularTable, FailsFirst};
ghost use Rattle.regular.specs.Regularity.{IsFirstProjection, projection};

use crate::Fixed;
use crate::table::is_regular_table;
use pseudo_bool::Term;

/// Whether a term is regular: if not, what was fixed where it fails.
pub fn test_term(term: &Term) -> Result<(), Option<Fixed>>
    requires { HasValues term.now }
    ensures regular { IsOk result ↔ IsRegularTerm term.now }
    ensures first { IfErr result (FailsFirst term.now) }
{
    match term {
        Term::One(_, _) => Ok(()),
        Term::Two(_, _, table) => {
            if is_regular_table(table) {
                Ok(())
            } else {
                Err(None)
            }
        }
        Term::Three(_, _, _, table) => match first_failure(table) {
            None => Ok(()),
            Some(fixed) => Err(Some(fixed)),
        },
    }
}

/// The first projection of a table of three variables that is not regular.
fn first_failure(table: &[i64; 8]) -> Option<Fixed>
    requires { All IsValue table.now }
    ensures none { IsNone result → (fixed : Fixed) → fixed.position < 3
        → IsRegularTable (projection table.now fixed) }
    ensures first { IfSome result (IsFirstProjection table.now) }
{
    for order in 0..6 {
        let fixed = Fixed {
            position: order / 2,
            value: order % 2 == 1,
        };
        if !is_regular_table(&projection_of(table, fixed)) {
            return Some(fixed);
        }
    }
    None
}

/// A projection of a table of three variables.
fn projection_of(table: &[i64; 8], fixed: Fixed) -> [i64; 4]
    requires { fixed.position < 3 }
    ensures { result ≡ projection table.now fixed }
{
    let digit = usize::from(fixed.value);
    match fixed.position {
        0 => {
            let start = 4 * digit;
            [
                table[start],
                table[start + 1],
                table[start + 2],
                table[start + 3],
            ]
        }
        1 => {
            let start = 2 * digit;
            [
                table[start],
                table[start + 1],
                table[start + 4],
                table[start + 5],
            ]
        }
        _ => [
            table[digit],
            table[digit + 2],
            table[digit + 4],
            table[digit + 6],
        ],
    }
}
