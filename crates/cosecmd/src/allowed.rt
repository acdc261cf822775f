//! Which of the usable keys of a set the arguments of `verify`, `cwt` and `digest` allow.

ghost use Rattle.std.specs.Prelude.{◌≡◌, ◌==◌, IfOk, Some, codes, map, option_map, unwrap_or};
ghost use Rattle.std.specs.List.{slice_split};
ghost use Rattle.cose_answers.specs.Allowed.{allowed_value};
ghost use Rattle.cosecmd.specs.Allowed as spec;
ghost use Rattle.cosecmd.specs.Options.{number_in, options_of};

use crate::arguments::text_of;
use clap::ArgMatches;
use cose_answers::{Allowed, Fault};
use cose_msg::Alg;
use std::alloc::{AllocError, Global};

/// A number, where an algorithm has it.
fn known(number: i128) -> Option<i128>
    ensures { result ≡ spec.number_known number }
{
    let alg = Alg::from_number(number)?;
    Some(alg.number())
}

/// The number of an algorithm that a text writes in decimal.
fn number_of(word: &str) -> Option<i128>
    ensures { result ≡ spec.algorithm_written word.now }
{
    match word.parse::<i64>() {
        Ok(number) => known(i128::from(number)),
        Err(_) => None,
    }
}

/// The parts of a list between its commas.
fn parts_of<'a>(alloc: Global, list: &'a str) -> Result<Vec<&'a str>, AllocError>
    ensures { IfOk result (λ parts. map (λ part. part.now) parts.items
        ≡ slice_split (λ byte. byte == 44) list.now) }
{
    list.split(',').collect(alloc)
}

/// The numbers of the algorithms that words write, where each writes one.
fn numbers_of(alloc: Global, words: &[&str]) -> Result<Option<Vec<i128>>, AllocError>
    ensures { IfOk result (λ numbers. option_map (λ numbers. numbers.items) numbers
        ≡ spec.algorithms_written (map (λ word. word.now) words.now)) }
{
    let mut numbers = Vec::new(alloc);
    'words: for word in words {
        match number_of(word) {
            Some(number) => numbers.push(number)?,
            None => return Ok(None),
        }
    }
    Ok(Some(numbers))
}

/// The numbers of the algorithms of a list, where each part of it writes one.
fn numbers_listed(alloc: Global, list: &str) -> Result<Option<Vec<i128>>, AllocError>
    ensures { IfOk result (λ numbers. option_map (λ numbers. numbers.items) numbers
        ≡ spec.algorithms_listed list.now) }
{
    let words = parts_of(alloc, list)?;
    numbers_of(alloc, words.as_slice())
}

/// Which part of a list is the first that is no number of an algorithm, the first being 1.
pub fn wrong_part(list: &str) -> Option<usize> {
    let mut number: usize = 0;
    for part in list.split(',') {
        number = number.saturating_add(1);
        if number_of(part).is_none() {
            return Some(number);
        }
    }
    None
}

/// The numbers of the algorithms that `--algs` lists, where it is there.
fn algorithms_of(alloc: Global, matches: &ArgMatches) -> Result<Option<Vec<i128>>, Fault>
    ensures { IfOk result (λ numbers. spec.algorithms_in (options_of matches.now)
        ≡ Some (option_map (λ numbers. numbers.items) numbers)) }
{
    match text_of(matches, "algs") {
        Some(list) => match numbers_listed(alloc, list)? {
            Some(numbers) => Ok(Some(numbers)),
            None => Err(Fault::Line("algs")),
        },
        None => Ok(None),
    }
}

/// The fewest bytes of a symmetric key that `--least-secret` states, and 0 where it isn't there.
fn least_secret_of(matches: &ArgMatches) -> Result<usize, Fault>
    ensures { IfOk result (λ least. least
        ≡ unwrap_or (number_in (codes "least-secret") (options_of matches.now)) 0) }
{
    match matches.try_get_one::<usize>("least-secret") {
        Ok(least) => Ok(least.unwrap_or(0)),
        Err(_) => Err(Fault::Line("least-secret")),
    }
}

/// Which keys the arguments allow.
pub fn allowed_of(alloc: Global, matches: &ArgMatches) -> Result<Allowed, Fault>
    ensures { IfOk result (λ allowed. spec.restrictions_in (options_of matches.now)
        ≡ Some (allowed_value allowed)) }
{
    let algorithms = algorithms_of(alloc, matches)?;
    let least_secret = least_secret_of(matches)?;
    Ok(Allowed {
        algorithms,
        least_secret,
    })
}
