//! MACs of texts that are fed in pieces.

ghost use Rattle.std.specs.Prelude.{◌<◌, IsTrue};
ghost use Rattle.cose_head.specs.Algorithm.{is_mac_of};

use crate::fields::{Difference, Way, bytes, holds, object};
use crate::messages::CUTS;
use crate::setting::label;
use cose_mac::{Alg, Prepared, Running};
use cose_msg::Label;
use serde_json::Value;
use std::alloc::Global;

/// The algorithm of a group or a test.
pub fn algorithm(row: &Value) -> Option<Alg> {
    match label(row, "alg")? {
        Label::Int(number) => Alg::from_number(number),
        Label::Text(_) => None,
    }
}

/// Whether the MAC or the digest is the expected one where a text comes in pieces of at most `cut` bytes.
pub fn ends_as(mut running: Running, text: &[u8], cut: usize, expected: &[u8]) -> bool
    requires { 0 < cut }
{
    for piece in text.chunks(cut) {
        running.update(piece);
    }
    if running.is_mac() {
        return running.finish_mac().as_slice() == expected;
    }
    running.finish_digest().as_slice() == expected
}

/// Runs a text under a key.
fn run_key(alg: Alg, key: &[u8], text: &[u8], mac: &[u8]) -> Result<(), Difference>
    requires { IsTrue (is_mac_of alg) }
{
    for cut in CUTS {
        let running = Running::hmac(alg, key);
        holds(ends_as(running, text, cut, mac), Way::Feed)?;
    }
    Ok(())
}

/// Runs a text under a prepared key.
fn run_prepared(alg: Alg, prepared: &Prepared, text: &[u8], mac: &[u8]) -> Result<(), Difference> {
    if !prepared.serves(alg) {
        return Err(Difference::Setting);
    }
    for cut in CUTS {
        let running = prepared.begin(alg);
        holds(ends_as(running, text, cut, mac), Way::Feed)?;
    }
    Ok(())
}

/// Runs a text under a key, and under the same prepared.
fn run_text(alg: Alg, key: &[u8], text: &[u8], mac: &[u8]) -> Result<(), Difference> {
    if !alg.is_mac() {
        return Err(Difference::Setting);
    }
    run_key(alg, key, text, mac)?;
    run_prepared(alg, &Prepared::hmac(alg, key), text, mac)
}

/// Runs a test.
pub fn run_test(alloc: Global, group: &Value, test: &Value) -> Result<(), Difference> {
    let Some(alg) = algorithm(group) else {
        return Err(Difference::Setting);
    };
    let key = bytes(alloc, test, "key");
    let text = bytes(alloc, test, "text");
    let mac = bytes(alloc, object(test, "result"), "mac");
    run_text(alg, key.as_slice(), text.as_slice(), mac.as_slice())
}
