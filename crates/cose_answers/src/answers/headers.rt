//! The lines of the header parameters of an authentic message, where their labels are asked for.

ghost use Rattle.std.specs.Prelude.{◌≡◌, ◌++◌, List, IfErr, IfOk, Some, bytes_eq, codes, map, option_map, string_bytes};
ghost use Rattle.cose_head.specs.ItemRef.{placed};
ghost use Rattle.cose_map.specs.Bucket.View.{bucket_pairs};
ghost use Rattle.cose_map.specs.Label.View.{label_value};
ghost use Rattle.cose_map.specs.Map.View.{pairs_left};
ghost use Rattle.cose_answers.specs.Headers as spec;
ghost use Rattle.cose_answers.specs.Printed.{Says, said_with};
ghost use Rattle.cose_answers.specs.Readable.{label_text as label_text_of};

use crate::answers::verdict::reply_of;
use crate::fault::Fault;
use crate::notation::label_text;
use crate::reply::Reply;
use cose_head::ItemRef;
use cose_map::{Bucket, Label, Pairs};
use cose_msg::Verdict;
use cose_text::push_diagnostic;
use std::alloc::{AllocError, Global};

/// The buckets of a message.
#[derive(Clone, Copy)]
pub struct Buckets<'a> {
    /// The protected one.
    pub protected: Option<Bucket<'a>>,
    /// The unprotected one.
    pub unprotected: Option<Bucket<'a>>,
}

/// Whether this is the notation of a label.
fn is_label(alloc: Global, notation: &str, label: &Label) -> Result<bool, AllocError>
    ensures { IfOk result (λ is. is
        ≡ bytes_eq notation.now (label_text_of (label_value label.now))) }
{
    let text = label_text(alloc, label)?;
    Ok(notation == text.as_str())
}

/// The value of the parameter whose label has this notation, among these pairs.
fn value_labelled<'a>(
    alloc: Global,
    notation: &str,
    pairs: Pairs<'a>,
) -> Result<Option<ItemRef<'a>>, AllocError>
    ensures { IfOk result (λ value. option_map placed value
        ≡ spec.value_labelled notation.now (pairs_left pairs.entry)) }
{
    'pairs: for (label, _item, value) in pairs {
        if is_label(alloc, notation, &label)? {
            return Ok(Some(value));
        }
    }
    Ok(None)
}

/// The same in a bucket.
fn value_in<'a>(
    alloc: Global,
    notation: &str,
    bucket: Option<Bucket<'a>>,
) -> Result<Option<ItemRef<'a>>, AllocError>
    ensures { IfOk result (λ value. option_map placed value
        ≡ spec.value_in notation.now (option_map bucket_pairs bucket.entry)) }
{
    match bucket {
        Some(bucket) => value_labelled(alloc, notation, bucket.pairs()),
        None => Ok(None),
    }
}

/// Appends the line of a parameter: its bucket, its label, and its value in diagnostic notation.
fn push_value(
    alloc: Global,
    text: &mut String,
    bucket: &str,
    notation: &str,
    value: &ItemRef,
) -> Result<(), AllocError>
    ensures { IfOk result (λ _. string_bytes text.new ≡ string_bytes text.old
        ++ spec.value_line bucket.now notation.now (placed value.now)) }
{
    text.push_str(bucket)?;
    text.push_str(" ")?;
    text.push_str(notation)?;
    text.push_str(": ")?;
    push_diagnostic(alloc, text, value)?;
    text.push_str("\n")?;
    Ok(())
}

/// Appends the line of a label that no parameter has.
fn push_absent(text: &mut String, notation: &str) -> Result<(), AllocError>
    ensures { IfOk result (λ _. string_bytes text.new ≡ string_bytes text.old
        ++ codes "absent " ++ notation.now ++ codes "\n") }
{
    text.push_str("absent ")?;
    text.push_str(notation)?;
    text.push_str("\n")?;
    Ok(())
}

/// Appends the line of a label.
fn push_parameter(
    alloc: Global,
    text: &mut String,
    notation: &str,
    buckets: &Buckets,
) -> Result<(), AllocError>
    ensures { IfOk result (λ _. string_bytes text.new ≡ string_bytes text.old
        ++ spec.parameter_line (option_map bucket_pairs buckets.now.protected)
        (option_map bucket_pairs buckets.now.unprotected) notation.now) }
{
    match value_in(alloc, notation, buckets.protected)? {
        Some(value) => push_value(alloc, text, "protected", notation, &value),
        None => match value_in(alloc, notation, buckets.unprotected)? {
            Some(value) => push_value(alloc, text, "unprotected", notation, &value),
            None => push_absent(text, notation),
        },
    }
}

/// Appends the lines of labels, in their order.
fn push_parameters(
    alloc: Global,
    text: &mut String,
    labels: &[String],
    buckets: &Buckets,
) -> Result<(), AllocError>
    ensures { IfOk result (λ _. string_bytes text.new ≡ string_bytes text.old
        ++ spec.parameter_lines (map string_bytes labels.now)
        (option_map bucket_pairs buckets.now.protected)
        (option_map bucket_pairs buckets.now.unprotected)) }
{
    'labels: for label in labels {
        push_parameter(alloc, text, label.as_str(), buckets)?;
    }
    Ok(())
}

/// A reply, and after its text the lines of labels.
fn with_parameters(
    alloc: Global,
    reply: Reply,
    labels: &[String],
    buckets: &Buckets,
) -> Result<Reply, Fault>
    ensures text { IfOk result (λ more. string_bytes more.text ≡ string_bytes reply.text
        ++ spec.parameter_lines (map string_bytes labels.now)
        (option_map bucket_pairs buckets.now.protected)
        (option_map bucket_pairs buckets.now.unprotected)) }
    ensures status { IfOk result (λ more. more.status ≡ reply.status) }
    ensures fault { IfErr result (λ fault. fault ≡ Fault.Memory) }
{
    let Reply { status, mut text } = reply;
    push_parameters(alloc, &mut text, labels, buckets)?;
    Ok(Reply { status, text })
}

/// The reply with a verdict, and of an authentic message with the lines of its parameters that have
/// these labels.
pub fn headed_reply(
    alloc: Global,
    verdict: Verdict,
    labels: &[String],
    buckets: &Buckets,
) -> Result<Reply, Fault>
    ensures says { IfOk result (Says (said_with (map string_bytes labels.now)
        (option_map bucket_pairs buckets.now.protected)
        (option_map bucket_pairs buckets.now.unprotected) verdict)) }
    ensures fault { IfErr result (λ fault. fault ≡ Fault.Memory) }
{
    let reply = reply_of(alloc, verdict)?;
    match verdict {
        Verdict::Authentic { .. } => with_parameters(alloc, reply, labels, buckets),
        Verdict::Refused(_) => Ok(reply),
    }
}
