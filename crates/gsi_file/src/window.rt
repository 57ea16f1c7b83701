//! What is in hand: the line that was found, and the bytes after it.

ghost use Rattle.std.specs.Prelude.{◌≤◌, length};

use crate::buffer::Buffer;
use crate::search::FoundLine;

/// The bytes that were read and not yet given up. The line that was found stays at their front
/// until the next is looked for.
#[derive(Drop)]
pub(crate) struct Window {
    pub(crate) buffer: Buffer,
    /// How many bytes the line has.
    line_length: usize,
    /// How many bytes are used up with it.
    used: usize,
    ghost inner: { line_length ≤ used },
    ghost held: { used ≤ length buffer },
}

impl Window {
    ghost use Rattle.std.specs.Prelude.{◌≡◌, [], take, drop, length};
    ghost use Rattle.gsi_file.specs.Window.{line_in_window, unused};

    /// Nothing in hand, and no line found.
    pub(crate) fn new(buffer: Buffer) -> Window
        requires { buffer ≡ [] }
        ensures { unused result ≡ [] }
    {
        Window {
            buffer,
            line_length: 0,
            used: 0,
        }
    }

    /// The line that was found.
    pub(crate) fn line(&self) -> &[u8]
        ensures { result.now ≡ line_in_window self.now }
    {
        self.buffer.front(self.line_length)
    }

    /// Drops the line that was found, so that another can be.
    pub(crate) fn drop_line(&mut self)
        ensures buffer { self.new.buffer ≡ unused self.old }
        ensures none { self.new.used ≡ 0 }
    {
        self.buffer.drop_front(self.used);
        self.line_length = 0;
        self.used = 0;
    }

    /// Sets the line that was found at the front.
    pub(crate) fn set_line(&mut self, found: FoundLine)
        requires inner { found.line_length ≤ found.used }
        requires held { found.used ≤ length self.old.buffer }
        ensures kept { self.new.buffer ≡ self.old.buffer }
        ensures line { line_in_window self.new ≡ take found.line_length self.old.buffer }
        ensures unused { unused self.new ≡ drop found.used self.old.buffer }
    {
        self.line_length = found.line_length;
        self.used = found.used;
    }
}
