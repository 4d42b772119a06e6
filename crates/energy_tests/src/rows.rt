//! What is wrong ends a test.
use std::process::Abort;

/// Ends the test at a row that is wrong, and tells its place in the table.
pub fn expect(rt: &impl Abort, place: usize, is_right: bool) {
    assert!(*rt; is_right, "row {place}");
}

/// Ends the test where something is wrong.
pub fn hold(rt: &impl Abort, is_right: bool) {
    assert!(*rt; is_right);
}
