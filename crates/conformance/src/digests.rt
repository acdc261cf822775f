//! Digests of texts that are fed in pieces.

use crate::fields::{Difference, Way, bytes, holds, object};
use crate::macs::{algorithm, ends_as};
use crate::messages::CUTS;
use cose_mac::{Alg, Running};
use serde_json::Value;
use std::alloc::Global;

/// Runs a text.
fn run_text(alg: Alg, text: &[u8], digest: &[u8]) -> Result<(), Difference> {
    if alg.is_mac() {
        return Err(Difference::Setting);
    }
    for cut in CUTS {
        let running = Running::digest(alg);
        holds(ends_as(running, text, cut, digest), Way::Feed)?;
    }
    Ok(())
}

/// Runs a test.
pub fn run_test(alloc: Global, group: &Value, test: &Value) -> Result<(), Difference> {
    let Some(alg) = algorithm(group) else {
        return Err(Difference::Setting);
    };
    let text = bytes(alloc, test, "text");
    let digest = bytes(alloc, object(test, "result"), "digest");
    run_text(alg, text.as_slice(), digest.as_slice())
}
