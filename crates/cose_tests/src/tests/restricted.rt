//! Messages under the keys of a set that a caller allows.

use crate::tests::{TOKEN, at, context, equal, refusal};
use cose_cwt::{CwtStop, verify_cwt};
use cose_map::{Reason, Restrictions};
use cose_msg::{KeyTable, Never, Nothing, SliceIntake, Status, Store, Verdict, Verifier, verify};
use std::process::Abort;
use std::test::Fail;

/// The keys `Jefe` for the algorithm 5 and `Jef` for any, of which both fit the token.
const KEYS: &[u8] = b"\x82\xa3\x01\x04\x03\x05\x20\x44Jefe\xa2\x01\x04\x20\x43Jef";

/// A table of these keys without those that aren't allowed.
type Table = KeyTable<'static, 2>;

/// The refusal of the token under these keys by `verify`.
fn refused_by_verify(keys: Table) -> Option<cose_map::Refusal> {
    let mut verifier = Verifier::<64, 4, Table>::new(context(keys));
    let mut intake = SliceIntake::new(TOKEN, 64);
    match verify::<64, 64, 4, Table, SliceIntake, Nothing, Never>(
        &mut verifier,
        &mut intake,
        &mut Nothing,
        &Never,
    ) {
        Ok(Verdict::Refused(refusal)) => Some(refusal),
        _ => None,
    }
}

/// Whether the token is complete once it is fed under these keys.
fn is_fed(keys: Table) -> bool {
    let mut verifier = Verifier::<64, 4, Table>::new(context(keys));
    verifier.feed(TOKEN).status == Status::Complete
}

/// Why the token has no claims under these keys.
fn stop_of(keys: Table) -> Option<CwtStop> {
    let mut verifier = Verifier::<64, 4, Table>::new(context(keys));
    let mut intake = SliceIntake::new(TOKEN, 64);
    let mut store: Store<4096> = Store::new();
    verify_cwt::<64, 64, 4, 4096, Table, SliceIntake, Never>(
        &mut verifier,
        &mut intake,
        &mut store,
        &Never,
        &at(1_444_064_943, 0),
    )
    .err()
}

/// Each way to verify the token has this refusal under these restrictions, or none.
fn refuses(
    rt: &impl Abort,
    restrictions: &Restrictions<'_>,
    wanted: Option<Reason>,
) -> Result<(), Fail> {
    let wanted = wanted.map(|reason| refusal(reason, 7));
    let stop = stop_of(Table::read_restricted(KEYS, restrictions)?);
    equal(rt, stop, wanted.map(CwtStop::Message));
    let refused = refused_by_verify(Table::read_restricted(KEYS, restrictions)?);
    equal(rt, refused, wanted);
    let fed = is_fed(Table::read_restricted(KEYS, restrictions)?);
    equal(rt, fed, wanted.is_none());
    Ok(())
}

#[test]
fn uses_the_keys_that_are_allowed(rt: HostRuntime) -> Result<(), Fail> {
    refuses(&rt, &Restrictions::default(), Some(Reason::AmbiguousKey))?;
    let this = Restrictions {
        algorithms: Some(&[5]),
        least_secret: 0,
    };
    refuses(&rt, &this, None)?;
    let another = Restrictions {
        algorithms: Some(&[4, 6]),
        least_secret: 0,
    };
    refuses(&rt, &another, Some(Reason::NoKey))?;
    let long = Restrictions {
        algorithms: None,
        least_secret: 4,
    };
    refuses(&rt, &long, None)?;
    let longer = Restrictions {
        algorithms: None,
        least_secret: 5,
    };
    refuses(&rt, &longer, Some(Reason::NoKey))
}
