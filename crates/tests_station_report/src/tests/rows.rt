//! The rows of stations worked by hand.

use super::worked::{AMPLE, STEPS, given, held, limits, limits_with, refused, room_for, s1, s4};
use byte_ends::{OfRead, OfWrite};
use row_forms::RowForm;
use station_answers::{ReportRows, answer_of, run_answer, write_answer};
use station_compare::{CompareFault, Refusal};
use std::test::Fail;
use test_support::{Recovers, Resumes};

/// Rows with commas between cells.
const COMMAS: ReportRows = ReportRows {
    form: RowForm::Commas,
};

/// Rows with semicolons between cells, and commas in numbers.
const SEMICOLONS: ReportRows = ReportRows {
    form: RowForm::Semicolons,
};

#[test]
fn rows_are_printed_of_a_file_in_pieces(rt: HostRuntime) -> Result<(), Fail> {
    for worked in [s1(), s4()] {
        let name = worked.name;
        for step in STEPS {
            let gsi = given(worked.gsi, step, false);
            let (answer, _gsi) = answer_of(rt.alloc(), gsi, name, limits(&rt), &COMMAS);
            match answer {
                Ok(text) => assert_eq!(rt; text.as_slice(), worked.rows),
                Err(Refusal { fault, .. }) => assert!(rt; false, "{fault:?}"),
            }
            let gsi = given(worked.gsi, step, false);
            let mut out = room_for(rt.alloc(), AMPLE, false)?;
            let mut err = room_for(rt.alloc(), AMPLE, false)?;
            let limits = limits(&rt);
            let asked = COMMAS;
            let status = run_answer(rt.alloc(), gsi, name, limits, &asked, &mut out, &mut err);
            assert_eq!(rt; err.bytes(), b"".as_slice());
            assert_eq!(rt; out.bytes(), worked.rows);
            assert_eq!(rt; status, 0);
        }
    }
    Ok(())
}

#[test]
fn rows_for_a_spreadsheet_have_semicolons_and_decimal_commas(rt: HostRuntime) -> Result<(), Fail> {
    for worked in [s1(), s4()] {
        let gsi = given(worked.gsi, usize::MAX, false);
        let (answer, _gsi) = answer_of(rt.alloc(), gsi, worked.name, limits(&rt), &SEMICOLONS);
        match answer {
            Ok(text) => assert_eq!(rt; text.as_slice(), worked.semicolon_rows),
            Err(Refusal { fault, .. }) => assert!(rt; false, "{fault:?}"),
        }
    }
    Ok(())
}

#[test]
fn a_station_without_rows_is_refused(rt: HostRuntime) -> Result<(), Fail> {
    for (gsi, fails, name, line) in refused() {
        let gsi = given(gsi, 7, fails);
        let mut out = room_for(rt.alloc(), AMPLE, false)?;
        let mut err = room_for(rt.alloc(), AMPLE, false)?;
        let limits = limits(&rt);
        let asked = COMMAS;
        let status = run_answer(rt.alloc(), gsi, name, limits, &asked, &mut out, &mut err);
        assert_eq!(rt; err.bytes(), line);
        assert_eq!(rt; out.bytes(), b"".as_slice());
        assert_eq!(rt; status, 1);
    }
    Ok(())
}

#[test]
fn rows_are_refused_above_their_limit_of_residuals(rt: HostRuntime) -> Result<(), Fail> {
    for (worked, half_units, want) in held() {
        let limits = limits_with(&rt, half_units);
        let gsi = given(worked.gsi, usize::MAX, false);
        let mut out = room_for(rt.alloc(), AMPLE, false)?;
        let mut err = room_for(rt.alloc(), AMPLE, false)?;
        let name = worked.name;
        let asked = COMMAS;
        let status = run_answer(rt.alloc(), gsi, name, limits, &asked, &mut out, &mut err);
        let (rows, line, wanted) = match want {
            Ok(_) => (worked.rows, b"".as_slice(), 0),
            Err(line) => (b"".as_slice(), line, 1),
        };
        assert_eq!(rt; (out.bytes(), err.bytes(), status), (rows, line, wanted));
    }
    Ok(())
}

#[test]
fn a_writer_of_rows_without_room_or_whose_flush_fails_is_told(rt: HostRuntime) -> Result<(), Fail> {
    let worked = s4();
    for room in 0..=worked.rows.len() {
        let gsi = given(worked.gsi, usize::MAX, false);
        let mut out = room_for(rt.alloc(), room, room == worked.rows.len())?;
        let (name, limits) = (worked.name, limits(&rt));
        let answer = write_answer(rt.alloc(), gsi, name, limits, &COMMAS, &mut out);
        assert_eq!(rt;
            answer.map_err(|refusal| refusal.fault),
            Err(CompareFault::Write)
        );
        assert_eq!(rt; out.bytes(), &worked.rows[..room]);
    }
    Ok(())
}

#[test]
fn ends_of_rows_that_fail_once_are_not_asked_again(rt: HostRuntime) -> Result<(), Fail> {
    let worked = s1();
    for fails in [false, true] {
        let mut gsi = Recovers::new(worked.gsi, fails);
        let reader = OfRead::new(&mut gsi);
        let (name, limits) = (worked.name, limits(&rt));
        let (answer, reader) = answer_of(rt.alloc(), reader, name, limits, &COMMAS);
        drop(reader);
        assert_eq!(rt; answer.is_err(), fails);
        assert_eq!(rt; gsi.asked_on, 0);
    }
    let writes = worked.rows.len().div_ceil(50);
    for calls in 0..=writes {
        let gsi = given(worked.gsi, usize::MAX, false);
        let mut writer = Resumes::new(calls, 50);
        let mut out = OfWrite::new(&mut writer);
        let (name, limits) = (worked.name, limits(&rt));
        let answer = write_answer(rt.alloc(), gsi, name, limits, &COMMAS, &mut out);
        drop(out);
        assert_eq!(rt;
            answer.map_err(|refusal| refusal.fault),
            Err(CompareFault::Write)
        );
        assert_eq!(rt;
            writer.bytes,
            worked.rows.len().min(calls.saturating_mul(50))
        );
        assert_eq!(rt; writer.asked_on, 0);
    }
    Ok(())
}
