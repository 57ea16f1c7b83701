//! A text that is written whole.

ghost use Rattle.std.specs.Prelude.{◌≡◌, true, OnOk, OnErr};
ghost use Rattle.std.specs.Io.KnownBytes.{Appends};
ghost use Rattle.byte_ends.specs.Sink.{AppendsSome, failed_after};

use byte_ends::{Failed, Sink};

/// Writes a text, and flushes once.
pub fn write_whole<W: Sink>(writer: &mut W, text: &[u8]) -> Result<(), Failed>
    ensures failed { W.failed writer.new ≡ failed_after (W.failed writer.old) result }
    ensures ok { OnOk result (Appends (W.holds writer.old) (W.holds writer.new) text.now) }
    ensures flushed { OnOk result (W.flushed writer.new ≡ true) }
    ensures cut_short { OnErr result
        (AppendsSome (W.holds writer.old) (W.holds writer.new) text.now) }
{
    writer.write_all(text)?;
    writer.flush()
}
