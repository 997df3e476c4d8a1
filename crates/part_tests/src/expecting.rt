//! What a test wants to see. A macro that says so is proved anew at each of its uses; a call is not.

use std::fmt::Debug;
use std::process::Abort;

/// Ends the test where a value is not the one that is wanted, and tells both.
pub(crate) fn same<T: PartialEq + Debug + Drop>(rt: &impl Abort, found: T, wanted: T) {
    same_at(rt, "", found, wanted);
}

/// Ends the test where a value is not the one that is wanted, and tells both and `at` what that was.
pub(crate) fn same_at<T: PartialEq + Debug + Drop>(
    rt: &impl Abort,
    at: impl Debug + Drop,
    found: T,
    wanted: T,
) {
    if found != wanted {
        panic!(rt; "at {at:?}: found {found:?}, wanted {wanted:?}");
    }
}
