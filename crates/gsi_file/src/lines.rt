//! The numbered lines of a field file, one by one.
//!
//! A line is found, tested and counted first, and all that a fault changes is written then. Only
//! after that the block is lent, and it is seen by the shape that the test has found, so that its
//! words are not counted again.

ghost use Rattle.std.specs.Prelude.{◌≡◌, ◌≤◌, ◌+◌, ◌/◌, Bool, List, ℕ, All, true, IfOk, IfErr};
ghost use Rattle.gsi_word.specs.Words.{IsLineByte};
ghost use Rattle.gsi_word.specs.Shapes.{IsShape};
ghost use Rattle.gsi_file.specs.Failing.{failed_at, failed_by, failed_in};
ghost use Rattle.gsi_file.specs.ToCome.{IsFileFault};
ghost use Rattle.gsi_file.specs.declared.bounds.TheConstants.{LONGEST_FILE};

use crate::bounds::LONGEST_FILE;
use crate::buffer::Buffer;
use crate::file_fault::{FileFault, FileKind};
use crate::line::Line;
use crate::out_of_memory::OutOfMemory;
use crate::search::find_line;
use crate::window::Window;
use byte_ends::Source;
use gsi_word::steps::{Shape, block_in, check_printable, read_words};
use std::alloc::Global;

/// Whether more is to come.
#[derive(Clone, Copy)]
enum State {
    /// Lines may come.
    Open,
    /// The file has ended.
    End,
    /// Every call answers this.
    Failed(FileKind),
}

/// The numbered lines of what a reader gives.
#[derive(Drop)]
pub struct Lines<R> {
    reader: R,
    window: Window,
    /// How many lines came.
    count: u32,
    /// How many bytes of the file may still be taken.
    room: usize,
    state: State,
    // a line takes two bytes, or all that may be taken
    ghost counted: { count + (room + 1) / 2 ≤ LONGEST_FILE / 2 },
}

/// The shape of the block that a line is, or the line's fault. Its bytes are tested where they
/// are not known to be printable.
#[inline(always)]
pub(crate) fn check_line(line: &[u8], printable: bool) -> Result<Shape, FileKind>
    requires { printable ≡ true → All IsLineByte line.now }
    ensures shape { IfOk result (λ s. IsShape s line.now) }
    ensures fault { IfErr result (IsFileFault line.now) }
    ensures unread { IfErr result (λ kind. (old : Bool) → failed_at old kind ≡ old) }
{
    if !printable {
        if let Err(at) = check_printable(line) {
            return Err(FileKind::Byte(at));
        }
    }
    match read_words(line) {
        Ok(shape) => Ok(shape),
        Err(fault) => Err(FileKind::from(fault)),
    }
}

impl<R: Source> Lines<R> {
    ghost use Rattle.std.specs.Prelude.{◌≡◌, ◌<◌, ◌≤◌, List, ℕ, length, take, false, Some, IfOk};
    ghost use Rattle.std.specs.Prelude.{IfErr, IfSome, OnOk};
    ghost use Rattle.std.specs.Io.BufRead.{Rests};
    ghost use Rattle.std.specs.Borrow.{sem};
    ghost use Rattle.gsi_file.specs.contracts.lines.Lines.{the_row};
    ghost use Rattle.gsi_file.specs.FileAnswers.{file_answers};
    ghost use Rattle.gsi_file.specs.ToCome.{FindsNext, FindsBlock};
    ghost use Rattle.gsi_file.specs.Standing.{to_come, gives, reader_of, AsksNoMore, line_found};
    ghost use Rattle.gsi_file.specs.Standing.{bytes_left, is_settled, Progresses, IsOverBy};
    ghost use Rattle.gsi_file.specs.Standing.{IsOverWith, IsNext};
    ghost use Rattle.byte_ends.specs.Source.{Told, Through, reader_change};

    /// Takes the one buffer, and reads nothing. Where there is no memory the reader is dropped.
    pub fn new(alloc: Global, reader: R) -> Result<Lines<R>, OutOfMemory>
        ensures unread { IfOk result (λ l. reader_of l ≡ reader) }
        ensures number { IfOk result (λ l. (to_come R.told l).number ≡ 0) }
        ensures open { IfOk result (λ l. is_settled l ≡ false) }
        ensures room { IfOk result (λ l. bytes_left l ≡ LONGEST_FILE) }
        ensures answers { IfSome (R.told reader) (λ told. IfOk result
            (λ l. (to_come R.told l).answers ≡ Some (file_answers told))) }
        ensures whatever { IfOk result (λ l. (told : Told)
            → to_come (gives told) l ≡ record { number = 0; answers = Some (file_answers told) }) }
    {
        Lines::over(alloc, reader).map_err(|_| OutOfMemory)
    }

    /// What [`Lines::new`] gives, and where there is no memory the reader is given back.
    pub fn over(alloc: Global, reader: R) -> Result<Lines<R>, R>
        ensures unread { IfOk result (λ l. reader_of l ≡ reader) }
        ensures number { IfOk result (λ l. (to_come R.told l).number ≡ 0) }
        ensures open { IfOk result (λ l. is_settled l ≡ false) }
        ensures room { IfOk result (λ l. bytes_left l ≡ LONGEST_FILE) }
        ensures answers { IfSome (R.told reader) (λ told. IfOk result
            (λ l. (to_come R.told l).answers ≡ Some (file_answers told))) }
        ensures whatever { IfOk result (λ l. (told : Told)
            → to_come (gives told) l ≡ record { number = 0; answers = Some (file_answers told) }) }
        ensures back { IfErr result (λ r. r ≡ reader) }
    {
        match Buffer::new(alloc) {
            Ok(buffer) => Ok(Lines {
                reader,
                window: Window::new(buffer),
                count: 0,
                room: LONGEST_FILE,
                state: State::Open,
            }),
            Err(_) => Err(reader),
        }
    }

    /// The reader, as the reads have left it: it may have given bytes after the last line that
    /// came.
    pub fn into_inner(self) -> R
        ensures { result ≡ reader_of self }
    {
        self.reader
    }

    /// The next numbered line: a block, until the end comes or a fault.
    ///
    /// After the end each call answers `None`, and after a fault the same fault. It takes no
    /// memory: the line stands in the buffer that `new` took, so the next can't be asked for while
    /// it is held.
    ///
    /// A failed read is answered where one failed in this call or before it, and nowhere else. That
    /// is so of a reader that tells nothing, too; and whatever such a reader gives later, the
    /// answers of all calls are those of one file, in its order.
    #[inline(always)]
    pub fn next(&mut self) -> Result<Option<Line<'_>>, FileFault>
        ensures* after { sem 𝓛 (Rests (the_row R.row) self.entry
            (IsNext R.told R.failed R.gave self.old result)) }
    {
        match self.advance()? {
            Some(shape) => {
                let number = self.count;
                let block = block_in(self.window.line(), shape);
                Ok(Some(Line { number, block }))
            }
            None => Ok(None),
        }
    }

    /// Finds the next line and counts it, and answers the shape of its block.
    #[inline(always)]
    fn advance(&mut self) -> Result<Option<Shape>, FileFault>
        ensures shape { IfOk result
            (λ found. IfSome found (λ shape. IsShape shape (line_found self.new))) }
        ensures through { Through
            (reader_change R.told R.failed R.gave (reader_of self.old) (reader_of self.new))
            (λ before after. FindsNext (to_come (gives before) self.old) result
            (to_come (gives after) self.new) (line_found self.new)) }
        ensures settled { AsksNoMore result self.old self.new }
        ensures progress { Progresses result (bytes_left self.old) (bytes_left self.new) }
        ensures failed { R.failed (reader_of self.new)
            ≡ failed_in (is_settled self.old) (R.failed (reader_of self.old)) result }
        ensures over { is_settled self.old ≡ false
            → IsOverWith result (is_settled self.new) (R.told (reader_of self.new)) }
    {
        match self.state {
            State::Open => {}
            State::End => return Ok(None),
            State::Failed(kind) => return Err(FileFault::At(self.count + 1, kind)),
        }
        match self.find_block() {
            Ok(found) => Ok(found),
            Err(kind) => {
                self.state = State::Failed(kind);
                Err(FileFault::At(self.count + 1, kind))
            }
        }
    }

    /// Finds, tests and counts the next line, while the state is `Open`: the caller settles a
    /// fault.
    // Within its two callers: a call and its answer took one in 16 instructions of `list`.
    #[inline(always)]
    fn find_block(&mut self) -> Result<Option<Shape>, FileKind>
        requires { is_settled self.old ≡ false }
        ensures shape { IfOk result
            (λ found. IfSome found (λ shape. IsShape shape (line_found self.new))) }
        ensures through { Through
            (reader_change R.told R.failed R.gave (reader_of self.old) (reader_of self.new))
            (λ before after. FindsBlock (to_come (gives before) self.old) result
            (to_come (gives after) self.new) (line_found self.new)) }
        ensures settled { OnOk result (AsksNoMore result self.old self.new) }
        ensures progress { Progresses result (bytes_left self.old) (bytes_left self.new) }
        ensures failed { R.failed (reader_of self.new)
            ≡ failed_by (R.failed (reader_of self.old)) result }
        ensures over { IsOverBy result (is_settled self.new) (R.told (reader_of self.new)) }
    {
        self.window.drop_line();
        let Some(found) = find_line(&mut self.reader, &mut self.window.buffer, self.room)? else {
            self.state = State::End;
            return Ok(None);
        };
        self.window.set_line(found);
        self.room = found.room;
        let shape = check_line(self.window.line(), found.printable)?;
        self.count += 1;
        if found.last {
            self.state = State::End;
        }
        Ok(Some(shape))
    }
}
