//! What the arguments of `cwt` require of the claims of a token, beyond their admission.

ghost use Rattle.std.specs.Prelude.{◌≡◌, Some, IfOk, true, codes, map, option_map};
ghost use Rattle.cose_cwt.specs.Claims.Audience.{text_value};
ghost use Rattle.cosecmd.specs.Options.{flag_in, number_in, options_of, text_in};
ghost use Rattle.cosecmd.specs.Requirements as spec;

use crate::arguments::{flag_of, text_of};
use clap::ArgMatches;
use cose_answers::{Fault, Required};
use cose_cwt::Claim;
use std::alloc::{AllocError, Global};

/// The claims of names, where each is the name of a claim.
fn claims_of(alloc: Global, names: &[&str]) -> Result<Option<Vec<Claim>>, AllocError>
    ensures { IfOk result (λ claims. option_map (λ claims. claims.items) claims
        ≡ spec.claims_named (map (λ name. name.now) names.now)) }
{
    let mut claims = Vec::new(alloc);
    'names: for name in names {
        match Claim::from_name(name) {
            Some(claim) => claims.push(claim)?,
            None => return Ok(None),
        }
    }
    Ok(Some(claims))
}

/// The claims that `--require` names.
fn claims_required(alloc: Global, matches: &ArgMatches) -> Result<Vec<Claim>, Fault>
    ensures { IfOk result (λ claims.
        spec.claims_named (spec.texts_in (codes "require") (options_of matches.now))
        ≡ Some claims.items) }
{
    match matches.get_strs("require") {
        Some(names) => match claims_of(alloc, names)? {
            Some(claims) => Ok(claims),
            None => Err(Fault::Line("require")),
        },
        None => Ok(Vec::new(alloc)),
    }
}

/// Claims, and aud after them.
fn and_audience(mut claims: Vec<Claim>) -> Result<Vec<Claim>, AllocError>
    ensures { IfOk result (λ all. all.items ≡ spec.with_audience true claims.items) }
{
    claims.push(Claim::Aud)?;
    Ok(claims)
}

/// Whether a token has to name an audience, and any will do.
#[tactic(auto, using(crate::proofs::lemmas::Arguments::RequiredOptions::none_given))]
fn wants_any_audience(matches: &ArgMatches) -> bool
    ensures { result ≡ spec.wants_any_audience (options_of matches.now) }
{
    flag_of(matches, "require-aud") && text_of(matches, "aud").is_none()
}

/// The claims that have to be present.
#[tactic(auto, using(crate::proofs::lemmas::Arguments::RequiredOptions::present_known))]
fn present_of(alloc: Global, matches: &ArgMatches) -> Result<Vec<Claim>, Fault>
    ensures { IfOk result (λ claims. spec.present_in (options_of matches.now) ≡ Some claims.items) }
{
    let claims = claims_required(alloc, matches)?;
    if !wants_any_audience(matches) {
        return Ok(claims);
    }
    Ok(and_audience(claims)?)
}

/// The audience that has to be named.
#[tactic(auto, using(crate::proofs::lemmas::Arguments::RequiredOptions::audience_where))]
fn audience_of<'a>(matches: &ArgMatches<'a>) -> Option<&'a str>
    ensures { option_map text_value result
        ≡ spec.audience_required (flag_in (codes "require-aud") (options_of matches.now))
        (text_in (codes "aud") (options_of matches.now)) }
{
    if flag_of(matches, "require-aud") {
        text_of(matches, "aud")
    } else {
        None
    }
}

/// The number of an option's argument, where the option is there.
fn number_of(matches: &ArgMatches, option: &'static str) -> Result<Option<u64>, Fault>
    ensures { IfOk result (λ number. number ≡ number_in option.now (options_of matches.now)) }
{
    match matches.try_get_one::<u64>(option) {
        Ok(number) => Ok(number),
        Err(_) => Err(Fault::Line(option)),
    }
}

/// What the arguments require.
pub fn required_of<'a>(alloc: Global, matches: &ArgMatches<'a>) -> Result<Required<'a>, Fault>
    ensures { IfOk result (spec.RequiredFields (options_of matches.now)) }
{
    let present = present_of(alloc, matches)?;
    let iss = text_of(matches, "iss");
    let sub = text_of(matches, "sub");
    let aud = audience_of(matches);
    let lifetime = number_of(matches, "max-lifetime")?;
    let age = number_of(matches, "max-age")?;
    Ok(Required {
        present,
        iss,
        sub,
        aud,
        lifetime,
        age,
    })
}
