//! The shortest heads.

ghost use Rattle.std.specs.Prelude.{◌≤◌};

use crate::fields::{Difference, Way, bytes, holds, integer, is_verdict, object, text};
use cose_head::{Head, HeadStep, parse_head, write_head};
use serde_json::Value;
use std::alloc::Global;

/// Whether these bytes are read as a head of this major type and this argument.
fn is_read(major: u8, arg: u64, head: &[u8]) -> bool {
    let length = head.len();
    let read = Head {
        major,
        arg,
        width: length.min(9) as u8,
    };
    parse_head(head) == HeadStep::Got(read, length)
}

/// Whether these bytes are written as this head, and read as it.
fn is_both(major: u8, arg: u64, head: &[u8]) -> bool
    requires { major ≤ 6 }
{
    write_head(major, arg).as_slice() == head && is_read(major, arg, head)
}

/// Runs a head of this argument.
fn run_head(test: &Value, arg: u64, head: &[u8]) -> Result<(), Difference> {
    let major = integer(test, "major");
    if major > 6 {
        return Err(Difference::Setting);
    }
    let is_head = is_verdict(object(test, "result"), "head");
    holds(is_head && is_both(major as u8, arg, head), Way::Slice)
}

/// Runs a test.
pub fn run_test(alloc: Global, test: &Value) -> Result<(), Difference> {
    let Ok(arg) = text(test, "argument").parse::<u64>() else {
        return Err(Difference::Setting);
    };
    let head = bytes(alloc, object(test, "result"), "bytes");
    run_head(test, arg, head.as_slice())
}
