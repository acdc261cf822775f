//! A whole message in memory, part after part.

ghost use Rattle.std.specs.Prelude.{◌≡◌, ◌≤◌, Ok, Some, IfOk};
ghost use Rattle.std.specs.List.{slice_get};
ghost use Rattle.cose_map.specs.Key.Okp.{okp_value};
ghost use Rattle.cose_map.specs.KeySet.Okp.{okp_keys};
ghost use Rattle.cose_msg.specs.Answer.{complete};
ghost use Rattle.cose_msg.specs.Further.{okp_chosen};
ghost use Rattle.cose_msg.specs.FurtherView.{chosen_in, headers_in, rules_for, whole_in};
ghost use Rattle.cose_msg.specs.InMemory.{going_on};
ghost use Rattle.cose_msg.specs.Message.{message as reading};

use crate::context::Context;
use crate::further::front::kind_of;
use crate::further::headers::{find, read_protected, read_unprotected};
use crate::further::parts::{Parts, read_payload, read_signature};
use crate::further::rest::Rest;
use cose_head::Refusal;

/// Reads a message, and finds the OKP key that it asks for. A detached payload is passed. Bytes may follow the message.
pub(crate) fn read_whole<'m, const H: usize, const D: usize>(
    context: &Context<'m>,
    detached: Option<&'m [u8]>,
    message: &'m [u8],
) -> Result<Parts<'m>, Refusal>
    requires nesting { D ≤ 32 }
    ensures reads { (reading (rules_for H D detached.entry context.now) message.now).answer
        ≡ going_on result (λ parts. complete (whole_in parts)) }
    ensures found { IfOk result (λ parts. okp_chosen (okp_keys context.now.keys) (headers_in parts)
        ≡ Ok (chosen_in parts)) }
    ensures there { IfOk result (λ parts. slice_get (okp_keys context.now.keys) parts.found.place
        ≡ Some (okp_value parts.found.key)) }
{
    let mut rest = Rest::of(message);
    let kind = kind_of(&mut rest, context.wanted, context.cwt)?;
    let protected = read_protected::<H, D>(&mut rest)?;
    let unprotected = read_unprotected::<H, D>(&mut rest)?;
    let found = find(
        &context.keys,
        kind,
        &protected.bucket,
        &unprotected,
        context.understood,
        rest.place(),
    )?;
    let payload = read_payload(&mut rest, detached, context.payload_limit)?;
    let signature = read_signature(&mut rest)?;
    Ok(Parts {
        kind,
        protected,
        unprotected,
        found,
        payload,
        signature,
        taken: rest.place(),
    })
}
