//! Data items of a payload that is known to be authentic: the claim of any label, and what is at a place.

ghost use Rattle.std.specs.Prelude.{◌≡◌, ◌+◌, ◌<◌, ◌≤◌, ◌^◌, ℤ, length, option_map};
ghost use Rattle.cose_head.specs.ItemRef.{placed};
ghost use Rattle.cose_map.specs.Label.{number};
ghost use Rattle.cose_map.specs.Label.View.{label_value};
ghost use Rattle.cose_cwt.specs.Claims.{claims_of};
ghost use Rattle.cose_c.specs.CoseClaims.{first_in};
ghost use Rattle.cose_c.specs.Item.{HoldsItem, claim_in, claim_named, item_at, item_numbers, no_item};

use crate::claims::{bytes_from, first_item, utf8};
use crate::terms::LARGE_NESTING;
use cose_cwt::Claims;
use cose_cwt::laws::claims_are_of_a_tree;
use cose_head::laws::children_are_of_tree;
use cose_map::{ItemRef, Label};

/// A data item (RFC 8949 section 3) of a payload.
#[repr(C)]
#[derive(Clone, Copy)]
pub struct CoseItem {
    /// Where it begins.
    pub at: u64,
    /// How many bytes it has, with its head and all that is in it.
    pub length: u64,
    /// Where its head ends: there the content of a string begins, or the first item of an array, a map or a tag.
    pub content_at: u64,
    /// The argument of its head.
    pub number: u64,
    /// 1 where it is there, and otherwise 0, with zeros.
    pub present: u8,
    /// Its major type, 0 to 7.
    pub major: u8,
}

/// No item.
pub(crate) fn no_item() -> CoseItem
    ensures { result ≡ no_item }
{
    CoseItem {
        at: 0,
        length: 0,
        content_at: 0,
        number: 0,
        present: 0,
        major: 0,
    }
}

/// An item, in numbers.
pub(crate) fn numbers_of(item: Option<ItemRef<'_>>) -> CoseItem
    ensures { result ≡ item_numbers (option_map placed item.entry) }
{
    let Some(item) = item else {
        return no_item();
    };
    let head = item.head();
    CoseItem {
        at: item.place,
        length: item.bytes.len() as u64,
        content_at: item.place + u64::from(head.width),
        number: head.arg,
        present: 1,
        major: head.major,
    }
}

/// The claim of this label, of claims that were read.
fn claim(payload: &[u8], label: &Label<'_>) -> CoseItem
    ensures value { result
        ≡ item_numbers
        (claim_in (label_value label.now)
        (claims_of 16 (record { bytes = payload.now; place = 0 }))) }
    ensures holds { HoldsItem payload.now
        (claim_in (label_value label.now)
        (claims_of 16 (record { bytes = payload.now; place = 0 }))) result }
{
    // Laws that the proof cites.
    claims_are_of_a_tree();
    children_are_of_tree();
    match Claims::read(payload, LARGE_NESTING) {
        Ok(claims) => numbers_of(claims.value(label)),
        Err(_) => no_item(),
    }
}

/// The claim of a label that is an integer, if the payload is a claims set that has it (RFC 8392 sections 3 and 9.1): an item of the
/// payload. As of `cose_large_claims`, claims nest at most 16 deep.
#[unsafe(no_mangle)]
pub extern "C" fn cose_edge_claim(payload: &[u8], label: i64, item: &mut CoseItem)
    ensures value { item.new
        ≡ item_numbers
        (claim_in (number label) (claims_of 16 (record { bytes = payload.now; place = 0 }))) }
    ensures holds { HoldsItem payload.now
        (claim_in (number label) (claims_of 16 (record { bytes = payload.now; place = 0 })))
        item.new }
{
    *item = claim(payload, &Label::Int(i128::from(label)));
}

/// The same of a label that is a text string, in UTF-8.
#[unsafe(no_mangle)]
pub extern "C" fn cose_edge_claim_named(payload: &[u8], name: &[u8], item: &mut CoseItem)
    ensures value { item.new
        ≡ item_numbers
        (claim_named name.now (claims_of 16 (record { bytes = payload.now; place = 0 }))) }
    ensures holds { HoldsItem payload.now
        (claim_named name.now (claims_of 16 (record { bytes = payload.now; place = 0 })))
        item.new }
{
    *item = match utf8(name) {
        Some(name) => claim(payload, &Label::Text(name)),
        None => no_item(),
    };
}

/// The item at a place of the payload, where that has one, of a nesting of at most 32. The items of an array, a map or a tag follow one
/// another (RFC 8949 section 3.1): the first is where the head ends, and the next one where the one before it ends.
#[unsafe(no_mangle)]
pub extern "C" fn cose_edge_item_at(payload: &[u8], place: u64, item: &mut CoseItem)
    ensures value { item.new ≡ item_numbers (item_at payload.now place) }
    ensures holds { HoldsItem payload.now (item_at payload.now place) item.new }
{
    let bytes = bytes_from(payload, place);
    if bytes.is_empty() {
        *item = no_item();
        return;
    }
    *item = numbers_of(first_item(bytes, place));
}
