//! A message in memory.

use crate::tests::callers::{CHANGED, LONGER, MESSAGE};
use crate::tests::{JEFE, equal, refusal};
use cose_examples::memory::{Problem, payload_in};
use cose_map::Reason;
use cose_msg::Verifier;
use std::mem::size_of;

#[test]
fn gives_the_payload_of_a_message_in_memory(rt: HostRuntime) {
    equal(&rt, payload_in(JEFE, MESSAGE), Ok(b"hi".as_slice()));
    let changed = Problem::Message(refusal(Reason::BadAuth, 10));
    equal(&rt, payload_in(JEFE, CHANGED), Err(changed));
    let longer = Problem::Message(refusal(Reason::Trailing, 44));
    equal(&rt, payload_in(JEFE, LONGER), Err(longer));
    let no_keys = Problem::Keys(refusal(Reason::PastRoom, 0));
    equal(&rt, payload_in(b"", MESSAGE), Err(no_keys));
}

#[test]
fn takes_a_fixed_amount_of_memory(rt: HostRuntime) {
    let sizes = [
        size_of::<Verifier<64, 4>>(),
        size_of::<Verifier<256, 4>>(),
        size_of::<Verifier<1_024, 4>>(),
    ];
    equal(&rt, sizes, [1_344, 1_728, 3_264]);
}
