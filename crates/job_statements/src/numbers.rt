//! The numbers of sets or of targets that texts state, one after the other.
//!
//! A text is `N`, the number of each station, or `NAME=N`, that of one. Each is added to those that
//! were stated before it, so a second number of the same station is found where it stands.

ghost use Rattle.std.specs.Prelude.{◌≡◌, IfErr, IfOk, List, None, Some, map};
ghost use Rattle.std.specs.List.{list_any};
ghost use Rattle.std.specs.Str.{bytes_eq};
ghost use Rattle.job_statements.specs.StatedNumbers.{IsStatedBy, OfStation, StatesOne, WritesNumber};
ghost use Rattle.job_statements.specs.WrongTexts.{AddsNumber, AddsText, IsFaultAfter, IsSecond};
ghost use Rattle.job_statements.specs.WrongTexts.{IsUnstated, IsUnstatedAfter, IsUnwritten};

use crate::stated::{NamedNumber, StatedNumber};
use crate::zeros::bare_name;
use adjust_kernel::Name;
use std::alloc::Global;

/// Why a text can't stand where it does.
#[derive(Clone, Copy)]
pub enum CountFault<'a> {
    /// What stands before its last `=` is no name of a station.
    Name,

    /// What stands after it is no number.
    Digits,

    /// This is a number, and none from 1 up to the largest.
    Range(&'a str),

    /// A number of each station is stated before it.
    EachTwice,

    /// A number of its station is stated before it.
    OneTwice,
}

/// Why texts state no numbers.
#[derive(Clone, Copy)]
pub enum Unstated<'a> {
    /// Memory ran out for them.
    Memory,

    /// This is the first that can't stand where it does, and why.
    Wrong(&'a str, CountFault<'a>),
}

/// What texts state, each a number from 1 up to a largest.
///
/// # Errors
///
/// The first text that can't stand where it does; or that memory ran out.
pub fn numbers_of<'a>(
    alloc: Global,
    texts: &[&'a str],
    largest: u32,
) -> Result<StatedNumber, Unstated<'a>>
    ensures stated { IfOk result (IsStatedBy largest (map (λ text. text.now) texts.now)) }
    ensures why { IfErr result (IsUnstated largest (map (λ text. text.now) texts.now)) }
{
    let mut stated = StatedNumber {
        of_each: None,
        of_one: Vec::new(alloc),
    };
    for &text in texts {
        stated = with_text(stated, text, largest)?;
    }
    Ok(stated)
}

/// What is stated with one text more.
fn with_text<'a>(
    stated: StatedNumber,
    text: &'a str,
    largest: u32,
) -> Result<StatedNumber, Unstated<'a>>
    ensures added { IfOk result (AddsText largest stated text.now) }
    ensures why { IfErr result (IsUnstatedAfter largest stated text.now) }
{
    match number_in(text, largest) {
        Ok((None, number)) => with_each(stated, text, number),
        Ok((Some(name), number)) => with_one(stated, text, name, number),
        Err(fault) => Err(Unstated::Wrong(text, fault)),
    }
}

/// What is stated with a number of each station, which a text states.
fn with_each<'a>(
    stated: StatedNumber,
    text: &'a str,
    number: u32,
) -> Result<StatedNumber, Unstated<'a>>
    ensures added { IfOk result (AddsNumber stated (None, number)) }
    ensures why { IfErr result (IsSecond stated None text.entry CountFault.EachTwice) }
{
    match stated.of_each {
        None => Ok(StatedNumber {
            of_each: Some(number),
            ..stated
        }),
        Some(_) => Err(Unstated::Wrong(text, CountFault::EachTwice)),
    }
}

/// What is stated with a number of one station, which a text states.
fn with_one<'a>(
    mut stated: StatedNumber,
    text: &'a str,
    name: Name,
    number: u32,
) -> Result<StatedNumber, Unstated<'a>>
    ensures added { IfOk result (AddsNumber stated (Some name, number)) }
    ensures why { IfErr result (IsSecond stated (Some name) text.entry CountFault.OneTwice) }
{
    if is_named(&stated.of_one, &name) {
        return Err(Unstated::Wrong(text, CountFault::OneTwice));
    }
    match stated.of_one.push(NamedNumber { name, number }) {
        Ok(()) => Ok(stated),
        Err(_) => Err(Unstated::Memory),
    }
}

/// Whether one of the numbers is that of the station of this name.
fn is_named(numbers: &[NamedNumber], name: &Name) -> bool
    ensures { result ≡ list_any (λ told. bytes_eq told.name name.now) numbers.now }
{
    numbers.iter().any(|told| told.name.is_same(name))
}

/// What a text states: the station's name, or that it is of each, and the number.
fn number_in<'a>(text: &'a str, largest: u32) -> Result<(Option<Name>, u32), CountFault<'a>>
    ensures stated { IfOk result (StatesOne largest text.now) }
    ensures fault { IfErr result (λ fault. (numbers : List OfStation)
        → IsFaultAfter largest numbers text.now fault) }
{
    let Some((before, digits)) = text.rsplit_once("=") else {
        let number = written_in(text, largest)?;
        return Ok((None, number));
    };
    let Some(name) = Name::new(before.as_bytes()) else {
        return Err(CountFault::Name);
    };
    let number = written_in(digits, largest)?;
    Ok((Some(bare_name(&name)), number))
}

/// The number that digits write, from 1 up to a largest.
fn written_in<'a>(digits: &'a str, largest: u32) -> Result<u32, CountFault<'a>>
    ensures writes { IfOk result (WritesNumber largest digits.now) }
    ensures fault { IfErr result (IsUnwritten largest digits.now) }
{
    match digits.parse::<u32>() {
        Ok(number) if 1 <= number && number <= largest => Ok(number),
        Ok(_) => Err(CountFault::Range(digits)),
        Err(_) => Err(CountFault::Digits),
    }
}
