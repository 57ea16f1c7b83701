//! What is stated of a field file.

ghost use Rattle.std.specs.Prelude.{◌≡◌, []};
ghost use Rattle.job_statements.specs.Numbers.{is_asked, is_another, number_of, numbers_of};
ghost use Rattle.job_statements.specs.Numbers.{number_said, own_number, said_in};

use adjust_kernel::Name;
use std::alloc::Global;

/// A number that is stated of the station of one name.
#[derive(Clone, Copy, Debug, PartialEq, Eq, Drop)]
pub struct NamedNumber {
    /// The name, as it is read in a field file: without zeros before it.
    pub name: Name,
    /// The number.
    pub number: u32,
}

/// A number that is stated of the stations of a field file that have sets: one of each of them, and
/// others of single ones, which stand there in its place.
#[derive(Debug, Drop)]
pub struct StatedNumber {
    /// The number of each station of which no other is stated.
    pub of_each: Option<u32>,
    /// The numbers of single stations.
    pub of_one: Vec<NamedNumber>,
}

/// What is stated of a field file, since no reading shows it.
#[derive(Debug, Drop)]
pub struct Stated {
    /// How many sets were read to the end.
    pub sets: StatedNumber,
    /// How many targets they have.
    pub targets: StatedNumber,
    /// Whether a name that comes again is another set-up: the second one is NAME-2, the third NAME-3.
    pub again: bool,
    /// Whether stations with a fault stay outside, and the others are marked.
    pub others: bool,
}

/// What is stated of the sets of one station.
#[derive(Clone, Copy, Debug, PartialEq, Eq, Drop)]
pub struct Numbers {
    /// How many were read to the end.
    pub sets: Option<u32>,
    /// How many targets they have.
    pub targets: Option<u32>,
}

/// The number that is stated of the station of this name by itself.
fn own_number(numbers: &[NamedNumber], name: &Name) -> Option<u32>
    ensures { result ≡ own_number numbers.now name.now }
{
    let mut left = numbers;
    'numbers: while let Some((named, rest)) = left.split_first() {
        if named.name.is_same(name) {
            return Some(named.number);
        }
        left = rest;
    }
    None
}

impl StatedNumber {
    /// This number of each station, or none.
    pub fn of_each(alloc: Global, number: Option<u32>) -> StatedNumber
        ensures each { result.of_each ≡ number }
        ensures one { result.of_one.items ≡ [] }
    {
        StatedNumber {
            of_each: number,
            of_one: Vec::new(alloc),
        }
    }

    /// The number that is stated of the station of this name: its own, or else that of each.
    pub fn of(&self, name: &Name) -> Option<u32>
        ensures { result ≡ number_of (number_said self.now) name.now }
    {
        match own_number(&self.of_one, name) {
            Some(number) => Some(number),
            None => self.of_each,
        }
    }
}

impl Stated {
    /// What is stated of the sets of the station of this name.
    pub fn of(&self, name: &Name) -> Numbers
        ensures { result ≡ numbers_of (said_in self.now) name.now }
    {
        Numbers {
            sets: self.sets.of(name),
            targets: self.targets.of(name),
        }
    }
}

/// Whether a number is stated, and is not this one.
pub fn is_another(stated: Option<u32>, found: usize) -> bool
    ensures { result ≡ is_another stated found }
{
    match stated {
        Some(number) => number as usize != found,
        None => false,
    }
}

/// Whether a number is needed, and is not stated.
pub fn is_asked(needed: bool, stated: Option<u32>) -> bool
    ensures { result ≡ is_asked needed stated }
{
    needed && stated.is_none()
}
