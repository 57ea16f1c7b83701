//! The calls of the program over bytes that come in pieces, of each width.

use super::answers::{AMPLE, answers_as_ever, usual_limits};
use super::files::{SHEET, STATION, widened};
use byte_ends::{Keeping, Script};
use gsi_file::{FileFault, FileKind};
use sheet_format::{RowKind, SheetFault};
use station_check::{Fault, check_kept, check_slices};
use std::test::Fail;

#[test]
fn pieces_of_any_length_give_the_same_answers(rt: HostRuntime) -> Result<(), Fail> {
    let wide = widened(rt.alloc(), str::from_utf8(STATION)?)?;
    for step in [1, 7, AMPLE] {
        assert!(rt;
            answers_as_ever(rt.alloc(), STATION, step)?,
            "{step} bytes a read"
        );
        assert!(rt;
            answers_as_ever(rt.alloc(), wide.as_bytes(), step)?,
            "{step} bytes a read"
        );
    }
    Ok(())
}

#[test]
fn bytes_at_hand_are_checked_whole(rt: HostRuntime) -> Result<(), Fail> {
    let limits = usual_limits()?;
    let accepted = check_slices(rt.alloc(), STATION, SHEET, limits, None).map(|a| (
        a.sets,
        a.targets,
        a.directions,
        a.greatest,
        a.denominator,
    ));
    assert_eq!(rt; accepted, Ok((2, 2, 4, 4, 4)));
    let rows: [(&[u8], &[u8], Fault); 3] = [
        (b"5", SHEET, Fault::Gsi(FileFault::At(1, FileKind::Word(1)))),
        (
            STATION,
            b"",
            Fault::Sheet(SheetFault::Row(1, RowKind::Unfinished)),
        ),
        (b"", SHEET, Fault::NoStation),
    ];
    for (gsi, sheet, fault) in rows {
        let verdict = check_slices(rt.alloc(), gsi, sheet, limits, None);
        assert_eq!(rt; verdict, Err(fault));
    }
    Ok(())
}

#[test]
fn readers_that_keep_have_kept_the_bytes_that_were_accepted(rt: HostRuntime) -> Result<(), Fail> {
    let alloc = rt.alloc();
    for step in [1, 7, AMPLE] {
        let gsi = Keeping::new(alloc, Script::new(STATION, step, false));
        let mut sheet = Keeping::new(alloc, Script::new(SHEET, step, false));
        let (answer, gsi) = check_kept(alloc, gsi, &mut sheet, usual_limits()?, None);
        assert!(rt; answer.is_ok(), "{step} bytes a read");
        assert_eq!(rt; gsi.kept(), Some(STATION));
        assert_eq!(rt; sheet.kept(), Some(SHEET));
    }
    Ok(())
}
