//! The payload and the signature of a message in memory (RFC 9052 sections 4.2 and 4.4).

ghost use Rattle.std.specs.Prelude.{◌≡◌, ℕ, List, None, option_map};
ghost use Rattle.cose_msg.specs.Answer.{Headers};
ghost use Rattle.cose_msg.specs.InMemory.{answer_at, going_on, source_in};
ghost use Rattle.cose_msg.specs.Message.{has_auth_length};
ghost use Rattle.cose_msg.specs.Phases as phases;
ghost use Rattle.cose_msg.specs.Rules.{Rules};

use crate::further::headers::{Found, Protected};
use crate::further::rest::Rest;
use crate::reader::auth::fault_of_auth;
use crate::reader::payload::{fault_of_nil, fault_of_payload};
use cose_head::{Kind, Refusal};
use cose_map::Bucket;

/// A signature, and the place of its head.
#[derive(Clone, Copy)]
pub(crate) struct Signature<'m> {
    pub(crate) bytes: &'m [u8],
    pub(crate) at: u64,
}

/// A whole message, and the key that it asks for.
#[derive(Clone, Copy)]
pub(crate) struct Parts<'m> {
    pub(crate) kind: Kind,
    pub(crate) protected: Protected<'m>,
    pub(crate) unprotected: Bucket<'m>,
    pub(crate) found: Found<'m>,
    pub(crate) payload: &'m [u8],
    pub(crate) signature: Signature<'m>,
    /// The number of its bytes.
    pub(crate) taken: u64,
}

/// Reads the payload, of at most `limit` bytes; or nil, where it is detached and these are its bytes.
pub(crate) fn read_payload<'m>(
    rest: &mut Rest<'m>,
    detached: Option<&'m [u8]>,
    limit: u64,
) -> Result<&'m [u8], Refusal>
    ensures { (rules : Rules) (headers : Headers) → rules.source ≡ source_in detached.entry
        → rules.payload_limit ≡ limit
        → answer_at (phases.payload_head rules headers None) rest.old
        ≡ going_on result (λ payload.
        answer_at (phases.auth_head rules headers None payload.now) rest.new) }
{
    let head_at = rest.place();
    let head = rest.head()?;
    match detached {
        None => match fault_of_payload(&head, limit) {
            Some(reason) => Err(Refusal {
                reason,
                place: head_at,
            }),
            None => rest.string(head.arg),
        },
        Some(payload) => match fault_of_nil(&head, payload.len() as u64, limit) {
            Some(reason) => Err(Refusal {
                reason,
                place: head_at,
            }),
            None => Ok(payload),
        },
    }
}

/// Reads the signature. Its length is that of the key that is chosen, which isn't checked here.
pub(crate) fn read_signature<'m>(rest: &mut Rest<'m>) -> Result<Signature<'m>, Refusal>
    ensures { (rules : Rules) (headers : Headers) (payload : List ℕ)
        → rules.auth_fits ≡ has_auth_length
        → answer_at (phases.auth_head rules headers None payload) rest.old
        ≡ going_on result (λ signature. rules.finish (record {
          headers = headers;
          chosen = None;
          payload = payload;
          auth = signature.bytes.now;
          auth_at = signature.at;
          taken = rest.new.place;
        })) }
{
    let at = rest.place();
    let head = rest.head()?;
    if let Some(reason) = fault_of_auth(&head, None) {
        return Err(Refusal { reason, place: at });
    }
    let bytes = rest.string(head.arg)?;
    Ok(Signature { bytes, at })
}
