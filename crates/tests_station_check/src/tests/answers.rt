//! The calls of the program over bytes worked out by hand, and what each answers.

ghost use Rattle.std.specs.Prelude.{◌<◌};

use super::files::{ACCEPTED, LIST, SHEET};
use byte_ends::{Held, Script, Sink, Source};
use station_book::Limits;
use station_check::{run_check, run_list, run_means, run_words};
use std::alloc::Global;
use std::test::Fail;

/// Bytes that a sink has room for where no test wants less.
pub const AMPLE: usize = 200_000;

/// The limits of 2c and 2i that are taken where no others are named, in units of 0.00001 gon.
pub fn usual_limits() -> Result<Limits, Fail> {
    Ok(Limits::new(2_000, 2_000).ok_or("no limits")?)
}

/// A command of the program, with the usual limits. The means are those of S1.
#[derive(Clone, Copy, Debug)]
pub enum Command {
    Check,
    Means,
    List,
    Words,
}

impl Command {
    /// The status of a run of the command over these ends.
    pub fn run<R: Source, Q: Source, W: Sink, E: Sink>(
        self,
        alloc: Global,
        gsi: R,
        sheet: &mut Q,
        out: &mut W,
        err: &mut E,
    ) -> Result<u8, Fail> {
        let limits = usual_limits()?;
        Ok(match self {
            Command::Check => run_check(alloc, gsi, sheet, limits, None, out, err),
            Command::Means => run_means(alloc, gsi, b"S1", limits, out, err),
            Command::List => run_list(alloc, gsi, limits, out, err),
            Command::Words => run_words(alloc, gsi, out, err),
        })
    }
}

/// What a run answered: its status, what went out, and what was refused.
#[derive(Drop)]
pub struct Ran {
    status: u8,
    out: Held,
    err: Held,
}

impl Ran {
    fn new(alloc: Global) -> Result<Ran, Fail> {
        Ok(Ran {
            status: u8::MAX,
            out: Held::new(alloc, AMPLE, AMPLE, false)?,
            err: Held::new(alloc, AMPLE, AMPLE, false)?,
        })
    }

    /// The text written with status 0, or the line of a refusal, with status 1 and nothing written.
    pub fn text(&self) -> &[u8] {
        match (self.status, self.out.bytes(), self.err.bytes()) {
            (0, out, []) => out,
            (1, [], err) => err,
            _ => b"a status that doesn't fit what was written",
        }
    }
}

/// The check of a sheet against a field file, from readers that give so many bytes at a time.
pub fn checked(alloc: Global, gsi: &[u8], sheet: &[u8], step: usize) -> Result<Ran, Fail>
    requires { 0 < step }
{
    let mut ran = Ran::new(alloc)?;
    let gsi = Script::new(gsi, step, false);
    let mut sheet = Script::new(sheet, step, false);
    let limits = usual_limits()?;
    ran.status = run_check(
        alloc,
        gsi,
        &mut sheet,
        limits,
        None,
        &mut ran.out,
        &mut ran.err,
    );
    Ok(ran)
}

/// The list of a field file, from a reader that gives so many bytes at a time.
pub fn listed(alloc: Global, gsi: &[u8], limits: Limits, step: usize) -> Result<Ran, Fail>
    requires { 0 < step }
{
    let mut ran = Ran::new(alloc)?;
    let gsi = Script::new(gsi, step, false);
    ran.status = run_list(alloc, gsi, limits, &mut ran.out, &mut ran.err);
    Ok(ran)
}

/// The sheet of means of S1 of a field file, from a reader that gives so many bytes at a time.
pub fn means_of(alloc: Global, gsi: &[u8], step: usize) -> Result<Ran, Fail>
    requires { 0 < step }
{
    let mut ran = Ran::new(alloc)?;
    let gsi = Script::new(gsi, step, false);
    let limits = usual_limits()?;
    ran.status = run_means(alloc, gsi, b"S1", limits, &mut ran.out, &mut ran.err);
    Ok(ran)
}

/// Whether the calls answer as for `STATION`, from a reader that gives so many bytes at a time.
pub fn answers_as_ever(alloc: Global, gsi: &[u8], step: usize) -> Result<bool, Fail>
    requires { 0 < step }
{
    let verdict = checked(alloc, gsi, SHEET, step)?;
    let list = listed(alloc, gsi, usual_limits()?, step)?;
    let means = means_of(alloc, gsi, step)?;
    Ok(verdict.text() == ACCEPTED && list.text() == LIST && means.text() == SHEET)
}
