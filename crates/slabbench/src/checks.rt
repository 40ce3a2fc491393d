//! A certificate, checked whole.

use crate::ends::Ends;
use cert_check::{Verdict, check};
use mill_model::Mill;
use std::alloc::{AllocError, Global};

/// Checks a certificate so often, and counts the answers that it is good, and the others.
pub fn check_often(
    alloc: Global,
    mill: &Mill,
    certificate: &[u8],
    times: u16,
) -> Result<Ends, AllocError> {
    let mut ends = Ends::new();
    for _ in 0..times {
        let verdict = check(alloc, mill, certificate)?;
        ends.note(!matches!(verdict, Verdict::No { .. }));
    }
    Ok(ends)
}
