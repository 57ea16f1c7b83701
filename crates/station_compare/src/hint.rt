//! What is told of a refusal after its line.

ghost use Rattle.std.specs.Prelude.{◌≡◌, ◌≤◌, [], length};
ghost use Rattle.station_check.specs.declared.verdict_line.TheConstants.{LONGEST_VERDICT_LINE};

use station_check::VerdictLine;
use std::marker::Model;

/// What the numbers of a refusal stand for, in the words of the field: a line, with its line feed;
/// or nothing. It takes no memory but its own.
#[derive(Drop)]
pub struct Hint {
    line: VerdictLine,
}

impl Model for Hint {
    ghost use Rattle.std.specs.Prelude.{ℕ, List};

    ghost Value = { List ℕ };

    ghost view = { λ hint. hint.line.items };
}

impl Hint {
    /// No hint.
    pub fn none() -> Hint
        ensures { result ≡ [] }
    {
        Hint::of_line(VerdictLine::new())
    }

    /// The hint that is this line.
    pub(crate) fn of_line(line: VerdictLine) -> Hint
        ensures { result ≡ line.items }
    {
        Hint { line }
    }

    /// Its bytes.
    pub fn bytes(&self) -> &[u8]
        ensures value { result.now ≡ self.now }
        ensures short { length result.now ≤ LONGEST_VERDICT_LINE }
    {
        self.line.as_slice()
    }
}
