//! The assertion of the rows.

use std::fmt::Debug;
use std::process::Abort;

/// Fails with the row's name where what was found isn't what was wanted.
///
/// It stands alone, since an assertion is proved once here, and not once for each row's function.
pub(crate) fn expect<R: Abort, N: Debug + Copy, T: Debug + PartialEq + Copy>(
    rt: &R,
    name: N,
    found: T,
    wanted: T,
) {
    assert_eq!(rt; found, wanted, "{name:?}");
}
