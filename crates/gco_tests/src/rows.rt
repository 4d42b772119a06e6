//! What is wrong ends a test.
ghost use Rattle.std.specs.Prelude.{◌≡◌, IsTrue, Ok};

use std::fmt::Debug;
use std::process::Abort;

/// Ends the test at a row that is wrong, and tells its place in the table.
pub fn expect(rt: &impl Abort, place: usize, is_right: bool) {
    assert!(*rt; is_right, "row {place}");
}

/// Ends the test at a number of a case that is wrong, and tells both.
pub fn expect_at(rt: &impl Abort, case: &str, number: usize, is_right: bool) {
    assert!(*rt; is_right, "{case}: {number}");
}

/// Ends the test where something is wrong.
pub fn hold(rt: &impl Abort, is_right: bool)
    ensures { IsTrue is_right }
{
    assert!(*rt; is_right);
}

/// What a call answers. A refusal ends the test.
pub fn take_ok<T, E: Debug>(rt: &impl Abort, answer: Result<T, E>) -> T
    ensures { answer ≡ Ok result }
{
    answer.expect(rt, "refused")
}
