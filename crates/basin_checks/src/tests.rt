mod ascents;
mod basins;
mod cuttings;
mod edges;
mod sheets;

use std::process::Abort;

/// Stops the test unless a text is the wanted one of a case.
fn expect_text<R: Abort>(rt: &R, told: &str, wanted: &str, case: &str) {
    assert_eq!(rt; told, wanted, "{case}");
}
