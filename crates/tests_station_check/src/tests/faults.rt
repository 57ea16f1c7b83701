//! The texts of the faults, for those who call the check from code of their own.

use adjust_kernel::KernelFault;
use gsi_file::{FileFault, FileKind};
use sheet_format::{RowKind, SheetFault};
use sheet_means::MeansFault;
use station_book::{BookFault, BookKind};
use station_check::Fault;
use std::test::Fail;

#[test]
fn a_fault_is_told_in_words(rt: HostRuntime) -> Result<(), Fail> {
    let rows = [
        (
            Fault::Gsi(FileFault::At(2, FileKind::LineTooLong)),
            "the field file has a fault: block 2: the line has more than 1024 bytes",
        ),
        (
            Fault::Book(BookFault::At(7, BookKind::FaceTwice)),
            "the field file has a fault: block 7: \
             the set has a reading of this target and face",
        ),
        (Fault::SheetRead, "a read of the sheet failed"),
        (
            Fault::NoStation,
            "the field file has no station of this name",
        ),
        (
            Fault::Means(MeansFault::Incomplete),
            "no sheet of means, some target was not observed in some set",
        ),
        (
            Fault::Kernel(KernelFault::TargetSum(2)),
            "the sheet is refused, the residuals of target 2 do not add to 0",
        ),
        (Fault::Write, "a write failed"),
        (Fault::Memory, "out of memory"),
    ];
    for (place, (fault, text)) in rows.iter().enumerate() {
        let told = format!(in rt.alloc(); "{fault}")?;
        assert_eq!(rt; told.as_str(), *text);
        for (other_place, (other, _)) in rows.iter().enumerate() {
            assert_eq!(rt; fault == other, place == other_place);
        }
    }
    let inner = SheetFault::Row(3, RowKind::Name);
    let told = format!(in rt.alloc(); "{}", Fault::Sheet(inner))?;
    let inner = format!(in rt.alloc(); "{inner}")?;
    assert_eq!(rt;
        told.as_str().strip_prefix("the sheet has a fault: "),
        Some(inner.as_str())
    );
    Ok(())
}
