//! A caller that has the hash and the key: it hashes what a verifier asks for, and states what it finds.

ghost use Rattle.std.specs.Prelude.{◌<◌};

use crate::streams::{Comparison, Signature};
use arrayvec::ArrayVec;
use cose_mac::Running;
use cose_map::Material;
use cose_msg::{EcVerifier, FrontPieces, Keys, Sink, Status, Verdict, Verifier};

/// The secret of a symmetric key.
fn secret_of<'k>(material: &Material<'k>) -> &'k [u8] {
    match material {
        Material::Symmetric(secret) => secret,
        Material::Ec { .. } => &[],
    }
}

/// The hash of the structure under the chosen key, of which it was fed what precedes the payload, once that is known.
fn begun<'k, const H: usize, const D: usize, K: Keys<'k>>(
    verifier: &Verifier<'k, H, D, K>,
) -> Option<Running> {
    let pieces = verifier.front_pieces()?;
    let (key, alg) = verifier.asked_key()?;
    let mut hash = if alg.is_mac() {
        Running::hmac(alg, secret_of(&key.material))
    } else {
        Running::digest(alg)
    };
    for index in 0..FrontPieces::COUNT {
        hash.update(pieces.piece(index));
    }
    Some(hash)
}

/// The hash of the structure of a message that is fed in pieces of at most `cut` bytes. Its payload goes into the sink.
pub fn feed<'k, const H: usize, const D: usize, K: Keys<'k>, S: Sink>(
    verifier: &mut Verifier<'k, H, D, K>,
    message: &[u8],
    cut: usize,
    payload: &mut S,
) -> Option<Running>
    requires some { 0 < cut }
{
    let mut hash: Option<Running> = None;
    for piece in message.chunks(cut) {
        let fed = verifier.feed(piece);
        if hash.is_none() {
            hash = begun(verifier);
        }
        let part = fed.payload_of(piece);
        if !part.is_empty() && payload.put(part).is_err() {
            return None;
        }
        if let Some(running) = &mut hash {
            running.update(part);
        }
    }
    hash
}

/// Feeds a piece of a payload as far as it is wanted, to the hash too, where there is one.
fn feed_piece<'k, const H: usize, const D: usize, K: Keys<'k>>(
    verifier: &mut Verifier<'k, H, D, K>,
    piece: &[u8],
    hash: &mut Option<Running>,
    came: &mut Comparison<'_>,
) {
    if verifier.payload_wanted() > 0 {
        let taken = verifier.feed_payload(piece);
        let part = piece.get(..taken).unwrap_or(&[]);
        came.compare(part);
        if let Some(running) = hash {
            running.update(part);
        }
    }
}

/// The hash of the structure of a message whose payload is detached, where both are fed in pieces of at most `cut` bytes: as much of
/// the message as is used before the payload, the payload as far as it is wanted, and the rest.
pub fn feed_detached<'k, const H: usize, const D: usize, K: Keys<'k>>(
    verifier: &mut Verifier<'k, H, D, K>,
    message: &[u8],
    payload: &[u8],
    cut: usize,
    came: &mut Comparison<'_>,
) -> Option<Running>
    requires some { 0 < cut }
{
    let used = used_of(verifier, message, cut);
    let mut hash = begun(verifier);
    for piece in payload.chunks(cut) {
        feed_piece(verifier, piece, &mut hash, came);
    }
    used_of(verifier, message.get(used..).unwrap_or(&[]), cut);
    hash
}

/// How many bytes of a message are used that is fed in pieces of at most `cut` bytes.
fn used_of<'k, const H: usize, const D: usize, K: Keys<'k>>(
    verifier: &mut Verifier<'k, H, D, K>,
    message: &[u8],
    cut: usize,
) -> usize
    requires some { 0 < cut }
{
    let mut used = 0usize;
    for piece in message.chunks(cut) {
        used = used.saturating_add(verifier.feed(piece).used);
    }
    used
}

/// Whether the signature of a message that is complete holds.
fn is_signed<'k, const H: usize, const D: usize, K: Keys<'k>>(
    verifier: &Verifier<'k, H, D, K>,
    digest: &[u8],
    signature: &Signature,
) -> bool {
    match (verifier.asked_key(), verifier.asked_signature()) {
        (Some((key, _)), Some(received)) => signature.holds(&key, digest, received),
        _ => false,
    }
}

/// What a caller finds of a message.
#[derive(Drop)]
pub enum Finding {
    /// The MAC of the structure.
    Mac(ArrayVec<u8, 64>),
    /// Whether the signature holds.
    Answer(bool),
}

/// What a caller finds of a message that is complete.
pub fn found<'k, const H: usize, const D: usize, K: Keys<'k>>(
    verifier: &Verifier<'k, H, D, K>,
    hash: Running,
    signature: &Signature,
) -> Finding {
    if hash.is_mac() {
        return Finding::Mac(hash.finish_mac());
    }
    let digest: ArrayVec<u8, 64> = hash.finish_digest();
    Finding::Answer(is_signed(verifier, digest.as_slice(), signature))
}

/// The verdict on a message that was fed and has no further byte, by what the caller finds.
pub fn stated<'k, const H: usize, const D: usize, K: Keys<'k>>(
    verifier: &mut Verifier<'k, H, D, K>,
    hash: Option<Running>,
    signature: &Signature,
) -> Option<Verdict> {
    if let Status::Refused(refusal) = verifier.end() {
        return Some(Verdict::Refused(refusal));
    }
    if !verifier.is_complete() || !verifier.is_elsewhere() {
        return None;
    }
    match found(verifier, hash?, signature) {
        Finding::Mac(mac) => Some(verifier.verdict_of_mac(mac.as_slice())),
        Finding::Answer(holds) => Some(verifier.verdict_of_answer(holds)),
    }
}

/// What a caller states that doesn't compute honestly.
#[derive(Clone, Copy)]
pub enum Lie {
    /// No bytes.
    Nothing,
    /// The MAC without its last byte.
    Shortened,
    /// The MAC with a byte more.
    Lengthened,
    /// The MAC of another message: one whose payload has a byte more.
    Another,
    /// The MAC of a COSE_Sign1, or an answer about the signature of a COSE_Mac0.
    OtherKind,
}

/// Each lie.
pub const LIES: [Lie; 5] = [
    Lie::Nothing,
    Lie::Shortened,
    Lie::Lengthened,
    Lie::Another,
    Lie::OtherKind,
];

/// The MAC that a lie states of a COSE_Mac0 whose structure was hashed.
fn lied(mut hash: Running, lie: Lie) -> ArrayVec<u8, 65> {
    if matches!(lie, Lie::Another) {
        hash.update(&[0]);
    }
    let mut stated = ArrayVec::new();
    if !hash.is_mac() {
        return stated;
    }
    let mac: ArrayVec<u8, 64> = hash.finish_mac();
    if !matches!(lie, Lie::Nothing) {
        let _ = stated.try_extend_from_slice(mac.as_slice());
    }
    match lie {
        Lie::Shortened => {
            let _ = stated.pop();
        }
        Lie::Lengthened => {
            let _ = stated.try_push(0);
        }
        _ => {}
    }
    stated
}

/// Whether a message that was fed isn't authentic where the caller states this.
pub fn is_found_out<'k, const H: usize, const D: usize, K: Keys<'k>>(
    verifier: &mut Verifier<'k, H, D, K>,
    hash: Option<Running>,
    lie: Lie,
) -> bool {
    verifier.end();
    if !verifier.is_complete() || !verifier.is_elsewhere() {
        return true;
    }
    let Some(hash) = hash else {
        return false;
    };
    let verdict = match (hash.is_mac(), lie) {
        (true, Lie::OtherKind) => verifier.verdict_of_answer(true),
        (true, _) => verifier.verdict_of_mac(lied(hash, lie).as_slice()),
        (false, Lie::OtherKind) => {
            let digest: ArrayVec<u8, 64> = hash.finish_digest();
            verifier.verdict_of_mac(digest.as_slice())
        }
        (false, _) => verifier.verdict_of_answer(false),
    };
    matches!(verdict, Verdict::Refused(_))
}
