//! The code lines of a file's stations, and what is told of them.

ghost use Rattle.std.specs.Prelude.{◌≡◌, ◌<◌, ◌≤◌, ◌+◌, ◌++◌, ◌∷◌, [], All, IfOk, IfSome, None};
ghost use Rattle.std.specs.Prelude.{OnOk, Some, length, false, option_map, slice_get, nat_lt};
ghost use Rattle.std.specs.Prelude.{◌&&◌};
ghost use Rattle.adjust_kernel.specs.declared.bounds.TheConstants.{MOST_SETS};
ghost use Rattle.set_marks.specs.declared.division.Divided.TheVariants.{Flawed, NoSets, Sets};
ghost use Rattle.set_marks.specs.Divisions.{divided_unless, starts_of, in_span};
ghost use Rattle.set_marks.specs.Judging.{is_too_long, judged, sets_fault, targets_fault};
ghost use Rattle.set_marks.specs.Judging.{called, judged_called, none_before};
ghost use Rattle.station_book.specs.Places.{is_empty};
ghost use Rattle.set_marks.specs.Marks.{HasRoom, IsRoomy};
ghost use Rattle.job_statements.specs.Numbers.{said_in};
ghost use Rattle.set_marks.specs.Marking.{close_mark, mark_at, outside, set_marks, sets_marks};
ghost use Rattle.set_marks.specs.Keeping.{TakesStation, before_in};

use crate::division::{Divided, are_by_targets, divide, part, rest_after};
use crate::flaw::Flaw;
use crate::judging::{StationNames, sets_fault, targets_fault};
use crate::mark::{BlockMark, Code};
use crate::recognized::Recognized;
use crate::remarks::remarks_of;
use crate::set::sight_at;
use crate::sight::Sight;
use crate::span::Span;
use crate::starts::starts_of;
use crate::zeniths::ranges_of;
use adjust_kernel::Name;
use job_statements::Stated;
use std::alloc::{AllocError, Global};

/// The code lines of some stations, and what is told of them.
#[derive(Drop)]
pub(crate) struct Marking {
    /// What is stated of the file.
    pub(crate) stated: Stated,
    /// The code lines.
    pub(crate) marks: Vec<BlockMark>,
    /// What is told of each station.
    pub(crate) stations: Vec<Recognized>,
    /// The names of those that have sets, and of those that have a fault.
    pub(crate) names: StationNames,
    /// Whether a set is open.
    pub(crate) in_set: bool,
}

/// Puts a code line before the block of a reading, if there is one.
fn put(marks: &mut Vec<BlockMark>, sight: Option<&Sight>, code: Code) -> Result<(), AllocError>
    requires here { IfSome sight (λ s. HasRoom s.now.wide code) }
    requires room { All IsRoomy marks.old.items }
    ensures room { All IsRoomy marks.new.items }
    ensures put { OnOk result (marks.new.items
        ≡ marks.old.items ++ mark_at (option_map (λ s. s.now) sight.entry) code) }
{
    if let Some(sight) = sight {
        marks.push(BlockMark {
            block: sight.block,
            wide: sight.wide,
            code,
        })?;
    }
    Ok(())
}

/// Puts code 20 before the first reading of each set.
#[tactic(auto, using(crate::proofs::Joins::next_set))]
fn put_sets(
    marks: &mut Vec<BlockMark>,
    starts: &[usize],
    sights: &[Sight],
) -> Result<(), AllocError>
    requires few { length starts.now ≤ MOST_SETS }
    requires room { All IsRoomy marks.old.items }
    ensures room { All IsRoomy marks.new.items }
    ensures put { OnOk result (marks.new.items
        ≡ marks.old.items ++ set_marks 1 starts.now sights.now) }
{
    let mut number = 1;
    let mut left = starts;
    'sets: while let Some((from, rest)) = left.split_first() {
        let opening = sight_at(sights, *from);
        put(marks, opening, Code::Set(number))?;
        number += 1;
        left = rest;
    }
    Ok(())
}

/// Puts code 30 before the first of these readings, where a set is open.
fn put_close(marks: &mut Vec<BlockMark>, in_set: bool, sights: &[Sight]) -> Result<(), AllocError>
    requires room { All IsRoomy marks.old.items }
    ensures room { All IsRoomy marks.new.items }
    ensures put { OnOk result (marks.new.items ≡ marks.old.items ++ close_mark in_set sights.now) }
{
    if in_set {
        put(marks, sight_at(sights, 0), Code::Close)?;
    }
    Ok(())
}

/// Whether a set of an earlier station is open at readings before these sets.
fn is_left_open(in_set: bool, span: Span) -> bool
    ensures { result ≡ (in_set && nat_lt 0 span.from) }
{
    in_set && span.from > 0
}

/// Puts the code lines of a station whose sets stand here, and begin at these places of their own
/// readings.
#[tactic(auto, using(crate::proofs::Joins::has_its_room))]
fn put_station(
    marks: &mut Vec<BlockMark>,
    in_set: bool,
    name: &Name,
    sights: &[Sight],
    span: Span,
    starts: &[usize],
) -> Result<(), AllocError>
    requires few { length starts.now ≤ MOST_SETS }
    requires starts { starts.now ≡ starts_of (in_span span sights.now) }
    requires here { is_too_long name.now (slice_get sights.now span.from) ≡ false }
    requires room { All IsRoomy marks.old.items }
    ensures room { All IsRoomy marks.new.items }
    ensures put { OnOk result (marks.new.items ≡ marks.old.items
        ++ sets_marks in_set (record { name = name.now; sights = sights.now }) span) }
{
    // For the proof alone: a name keeps the rules of names.
    name.recall();
    put_close(marks, is_left_open(in_set, span), sights)?;
    let opening = sight_at(sights, span.from);
    put(marks, opening, Code::Station(*name))?;
    put_sets(marks, starts, part(span.from, span.to, sights))?;
    let after_sets = sight_at(sights, span.to);
    put(marks, after_sets, Code::Close)?;
    Ok(())
}

impl Marking {
    /// No code lines.
    pub(crate) fn new(alloc: Global, stated: Stated) -> Marking
        ensures stated { result.stated ≡ stated }
        ensures marks { result.marks.items ≡ [] }
        ensures stations { result.stations.items ≡ [] }
        ensures names { before_in result.names ≡ none_before }
        ensures in_set { result.in_set ≡ false }
    {
        Marking {
            stated,
            marks: Vec::new(alloc),
            stations: Vec::new(alloc),
            names: StationNames::new(alloc),
            in_set: false,
        }
    }

    /// Leaves the readings of a station outside.
    fn leave_outside(
        &mut self,
        name: &Name,
        sights: &[Sight],
        written_again: usize,
        fault: Option<Flaw>,
    ) -> Result<(), AllocError>
        requires room { All IsRoomy self.old.marks.items }
        ensures room { All IsRoomy self.new.marks.items }
        ensures stated { OnOk result (self.new.stated ≡ self.old.stated) }
        ensures marks { OnOk result (self.new.marks.items
            ≡ self.old.marks.items ++ close_mark self.old.in_set sights.now) }
        ensures stations { OnOk result (self.new.stations.items ≡ self.old.stations.items
            ++ outside written_again (record { name = name.now; sights = sights.now }) fault
            ∷ []) }
        ensures names { OnOk result (self.new.names ≡ self.old.names) }
        ensures in_set { OnOk result
            (self.new.in_set ≡ (self.old.in_set && is_empty sights.now)) }
    {
        put_close(&mut self.marks, self.in_set, sights)?;
        self.in_set = self.in_set && sights.is_empty();
        self.stations.push(Recognized {
            name: *name,
            fault,
            sets: 0,
            targets: 0,
            by_targets: false,
            before: sights.len(),
            after: 0,
            remarks: None,
            written_again,
        })?;
        Ok(())
    }

    /// Takes a station that has this fault.
    #[tactic(auto, using(crate::proofs::Taken::stays_outside))]
    fn take_faulty(
        &mut self,
        line: &Name,
        name: &Name,
        sights: &[Sight],
        written_again: usize,
        flaw: Flaw,
    ) -> Result<(), AllocError>
        requires room { All IsRoomy self.old.marks.items }
        ensures room { All IsRoomy self.new.marks.items }
        ensures takes { OnOk result (TakesStation line.now written_again
            (record { name = name.now; sights = sights.now }) (Flawed flaw) self.old self.new) }
    {
        self.leave_outside(name, sights, written_again, Some(flaw))?;
        self.names.faulty.add(name)?;
        self.names.visits.add(line)?;
        Ok(())
    }

    /// Takes a station whose sets stand here, unless its targets are too many.
    fn take_sets(
        &mut self,
        alloc: Global,
        line: &Name,
        name: &Name,
        sights: &[Sight],
        written_again: usize,
        span: Span,
    ) -> Result<(), AllocError>
        requires few { length (starts_of (in_span span sights.now)) ≤ MOST_SETS }
        requires here { is_too_long name.now (slice_get sights.now span.from) ≡ false }
        requires room { All IsRoomy self.old.marks.items }
        ensures room { All IsRoomy self.new.marks.items }
        ensures takes { OnOk result (TakesStation line.now written_again
            (record { name = name.now; sights = sights.now })
            (divided_unless (targets_fault (record { name = name.now; sights = sights.now })
            span) span) self.old self.new) }
    {
        let in_sets = part(span.from, span.to, sights);
        let starts = starts_of(alloc, in_sets)?;
        // Each target has a range, so they aren't counted by themselves.
        let ranges = ranges_of(alloc, in_sets)?;
        let targets = ranges.len();
        if let Some(flaw) = targets_fault(alloc, targets, in_sets)? {
            return self.take_faulty(line, name, sights, written_again, flaw);
        }
        let after = rest_after(span.to, sights);
        let remarks = remarks_of(alloc, &starts, in_sets, targets, &ranges, after)?;
        put_station(&mut self.marks, self.in_set, name, sights, span, &starts)?;
        self.in_set = sight_at(sights, span.to).is_none();
        self.names.marked.add(name)?;
        self.names.visits.add(line)?;
        self.stations.push(Recognized {
            name: *name,
            fault: None,
            sets: starts.len(),
            targets,
            by_targets: are_by_targets(in_sets),
            before: span.from,
            after: sights.len().saturating_sub(span.to),
            remarks,
            written_again,
        })?;
        Ok(())
    }

    /// Takes a station of the name of a set-up line, which was written again so often: it is judged
    /// by the name that it is called.
    pub(crate) fn take(
        &mut self,
        alloc: Global,
        line: &Name,
        sights: &[Sight],
        written_again: usize,
    ) -> Result<(), AllocError>
        requires room { All IsRoomy self.old.marks.items }
        ensures room { All IsRoomy self.new.marks.items }
        ensures takes { OnOk result (TakesStation line.now written_again
            (called self.old.stated.again (before_in self.old.names)
            (record { name = line.now; sights = sights.now }))
            (judged_called (said_in self.old.stated) (before_in self.old.names)
            (record { name = line.now; sights = sights.now })) self.old self.new) }
    {
        let name = self.names.called(self.stated.again, line, sights);
        self.take_called(alloc, line, &name, sights, written_again)
    }

    /// Takes a station that is called so: it is judged by itself, and marked where it has sets.
    #[tactic(auto, using(crate::proofs::Taken::is_judged, crate::proofs::Taken::stays_outside))]
    fn take_called(
        &mut self,
        alloc: Global,
        line: &Name,
        name: &Name,
        sights: &[Sight],
        written_again: usize,
    ) -> Result<(), AllocError>
        requires room { All IsRoomy self.old.marks.items }
        ensures room { All IsRoomy self.new.marks.items }
        ensures takes { OnOk result (TakesStation line.now written_again
            (record { name = name.now; sights = sights.now })
            (judged (said_in self.old.stated) (before_in self.old.names) line.now
            (record { name = name.now; sights = sights.now })) self.old self.new) }
    {
        match divide(alloc, self.stated.of(name), sights)? {
            Divided::NoSets => self.leave_outside(name, sights, written_again, None),
            Divided::Flawed(flaw) => match self.names.twice_fault(name, sights) {
                Some(twice) => self.take_faulty(line, name, sights, written_again, twice),
                None => self.take_faulty(line, name, sights, written_again, flaw),
            },
            Divided::Sets(span) => match sets_fault(&mut self.names, line, name, sights, span) {
                Some(flaw) => self.take_faulty(line, name, sights, written_again, flaw),
                None => self.take_sets(alloc, line, name, sights, written_again, span),
            },
        }
    }
}
