//! The check over each tally.

use super::answers::{AMPLE, usual_limits};
use super::files::{SHEET, STATION, edited};
use super::readings::{APART, APART_SHEET, ROUND, ROUND_SHEET, field_file};
use adjust_kernel::{KernelFault, Running, Scan, check, check_with};
use byte_ends::Script;
use station_book::Stations;
use station_check::stations_of_file;
use std::alloc::Global;
use std::test::Fail;

/// The stations of a field file.
fn stations_of(alloc: Global, gsi: &str) -> Result<Stations, Fail> {
    let gsi = Script::new(gsi.as_bytes(), AMPLE, false);
    let (surveyed, _) = stations_of_file(alloc, gsi, usual_limits()?);
    Ok(surveyed?)
}

#[test]
fn every_tally_gives_the_verdict(rt: HostRuntime) -> Result<(), Fail> {
    let station = str::from_utf8(STATION)?;
    let sheet = str::from_utf8(SHEET)?;
    let other_direction = edited(rt.alloc(), SHEET, &[("40000024", "40000025")])?;
    let other_station = edited(rt.alloc(), SHEET, &[("S1", "S2")])?;
    let round = field_file(rt.alloc(), ROUND)?;
    let apart = field_file(rt.alloc(), APART)?;
    let rows: [(&str, &str, Option<KernelFault>); 5] = [
        (station, sheet, None),
        (station, &other_direction, Some(KernelFault::TargetSum(2))),
        (station, &other_station, Some(KernelFault::Name)),
        (&round, ROUND_SHEET, None),
        (&apart, APART_SHEET, Some(KernelFault::NotConnected)),
    ];
    for (gsi, sheet, fault) in rows {
        let stations = stations_of(rt.alloc(), gsi)?;
        let station = stations.get(b"S1").ok_or("no station")?.station();
        let sheet = sheet_format::read_sheet(rt.alloc(), sheet.as_bytes())?;
        let verdict = check(station, &sheet, None);
        assert_eq!(rt; verdict.err(), fault);
        let scan = Scan::new(rt.alloc())?;
        assert_eq!(rt; check_with(scan, station, &sheet, None), verdict);
        assert_eq!(rt; check_with(Running::new(), station, &sheet, None), verdict);
    }
    Ok(())
}
