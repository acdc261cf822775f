//! A token.

use crate::tests::{JEFE, TOKEN, equal, refusal};
use cose_cwt::CwtStop;
use cose_examples::token::claims_of;
use cose_map::Reason;
use cose_msg::{KeySet, Store};

#[test]
fn gives_claims_that_are_admitted(rt: HostRuntime) {
    let keys = KeySet::read(JEFE).expect(&rt, "a key set");
    let mut store = Store::new();
    match claims_of(keys, TOKEN, 1_444_065_003, &mut store) {
        Ok(claims) => equal(&rt, claims.sub(), Some("erikw")),
        Err(stop) => panic!(rt; "{stop:?}"),
    }
    let mut store = Store::new();
    let late = claims_of(keys, TOKEN, 1_444_065_004, &mut store);
    let expired = CwtStop::Claims(refusal(Reason::Expired, 59));
    equal(&rt, late.err(), Some(expired));
    let mut longer = [0; 124];
    longer[..123].copy_from_slice(TOKEN);
    let mut store = Store::new();
    let followed = claims_of(keys, &longer, 1_444_065_003, &mut store);
    let trailing = CwtStop::Message(refusal(Reason::Trailing, 123));
    equal(&rt, followed.err(), Some(trailing));
}
