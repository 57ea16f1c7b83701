//! The lines of what was judged.

ghost use Rattle.std.specs.Prelude.{◌≡◌, true, OnOk, OnErr};
ghost use Rattle.std.specs.Io.KnownBytes.{Appends};
ghost use Rattle.byte_ends.specs.Sink.{AppendsSome, failed_after};
ghost use Rattle.station_record.specs.Recorded.{recorded_text};

use byte_digests::write_digest_line;
use byte_ends::{Failed, Sink};

/// Writes the line of an answer and those of its two files, and flushes once.
pub(crate) fn write_recorded<W: Sink>(
    line: &[u8],
    gsi: &[u8; 32],
    gsi_name: &[u8],
    other: &[u8; 32],
    other_name: &[u8],
    out: &mut W,
) -> Result<(), Failed>
    ensures failed { W.failed out.new ≡ failed_after (W.failed out.old) result }
    ensures ok { OnOk result (Appends (W.holds out.old) (W.holds out.new)
        (recorded_text line.now gsi.now gsi_name.now other.now other_name.now)) }
    ensures flushed { OnOk result (W.flushed out.new ≡ true) }
    ensures cut_short { OnErr result (AppendsSome (W.holds out.old) (W.holds out.new)
        (recorded_text line.now gsi.now gsi_name.now other.now other_name.now)) }
{
    out.write_all(line)?;
    write_digest_line(gsi, gsi_name, out)?;
    write_digest_line(other, other_name, out)?;
    out.flush()
}
