//! From header buckets to a MAC.

use crate::tests::callers::{CHANGED, MESSAGE};
use crate::tests::{JEFE, equal, refusal};
use cose_examples::layers::is_authentic;
use cose_map::Reason;

#[test]
fn authenticates_by_the_libraries_alone(rt: HostRuntime) {
    let tag = &MESSAGE[12..];
    let no_key = refusal(Reason::NoKey, 7);
    equal(
        &rt,
        [
            is_authentic(JEFE, tag),
            is_authentic(&[0xa0], tag),
            is_authentic(JEFE, &tag[..31]),
            is_authentic(JEFE, &CHANGED[12..]),
        ],
        [Ok(true), Err(no_key), Ok(false), Ok(false)],
    );
}
