//! Field files worked out by hand, what is printed of them, and readers and writers no file has.

use std::alloc::Global;
use std::io::{self, Read, Write};
use std::test::Fail;

/// The station S1 in two sets, twelve blocks.
pub const STATION: &[u8] = b"410001+00000010 42....+000000S1\r
410002+00000020 42....+00000001\r
110003+0000000A 21.102+00000000 22.102+10000000\r
110004+0000000B 21.102+05000000 22.102+10000000\r
110005+0000000B 21.102+25000010 22.102+30000000\r
110006+0000000A 21.102+20000006 22.102+29999998\r
410007+00000020 42....+00000002\r
110008+0000000A 21.102+10000000 22.102+10000000\r
110009+0000000B 21.102+15000004 22.102+10000000\r
110010+0000000B 21.102+35000008 22.102+30000000\r
110011+0000000A 21.102+30000004 22.102+30000000\r
410012+00000030\r
";

/// How many bytes of `STATION` are its first two lines.
pub const TWO_LINES: usize = 33 + 33;

/// How many bytes of `STATION` are its first three lines.
pub const THREE_LINES: usize = TWO_LINES + 49;

/// How many bytes of `STATION` are its first five lines.
pub const FIVE_LINES: usize = THREE_LINES + 49 + 49;

/// What is printed of the first three lines of `STATION`.
pub const THREE_LINES_WORDS: &[u8] = b"1 1 41 0001 +00000010
1 2 42 .... +000000S1
2 1 41 0002 +00000020
2 2 42 .... +00000001
3 1 11 0003 +0000000A
3 2 21 .102 +00000000
3 3 22 .102 +10000000
";

/// A reader that gives one text again and again, without an end, at most so many bytes at a time,
/// and counts how often it is asked.
#[derive(Drop)]
pub struct Endless {
    pub asked: u32,
    text: &'static [u8],
    place: usize,
    most: usize,
}

impl Endless {
    pub fn new(text: &'static [u8], most: usize) -> Endless {
        Endless {
            asked: 0,
            text,
            place: 0,
            most,
        }
    }

    fn next_byte(&mut self) -> u8 {
        if self.place >= self.text.len() {
            self.place = 0;
        }
        match self.text.get(self.place) {
            Some(&byte) => {
                self.place += 1;
                byte
            }
            None => 0,
        }
    }
}

impl Read for Endless {
    fn read(&mut self, buf: &mut [u8]) -> io::Result<usize> {
        self.asked = self.asked.saturating_add(1);
        let count = buf.len().min(self.most);
        for byte in &mut buf[..count] {
            *byte = self.next_byte();
        }
        Ok(count)
    }
}

/// A text, and after it so many blank lines that it fills several buffers.
pub fn with_blank_lines(alloc: Global, text: &[u8]) -> Result<Vec<u8>, Fail> {
    let mut long = Vec::new(alloc);
    long.extend_from_slice(text)?;
    for _ in 0..9_000 {
        long.push(b'\n')?;
    }
    Ok(long)
}

/// A writer that counts what it gets.
#[derive(Drop)]
pub struct Noted {
    /// How many bytes were written.
    pub bytes: usize,
    /// How many flushes there were.
    pub flushes: usize,
    /// Whether the last call was a flush.
    pub is_flushed: bool,
}

impl Noted {
    pub fn new() -> Noted {
        Noted {
            bytes: 0,
            flushes: 0,
            is_flushed: false,
        }
    }
}

impl Write for Noted {
    fn write(&mut self, buf: &[u8]) -> io::Result<usize> {
        self.bytes = self.bytes.saturating_add(buf.len());
        self.is_flushed = false;
        Ok(buf.len())
    }

    fn flush(&mut self) -> io::Result<()> {
        self.flushes = self.flushes.saturating_add(1);
        self.is_flushed = true;
        Ok(())
    }
}

/// The sheet of `STATION`: the means of its sets.
pub const SHEET: &[u8] = b"sheet,1,S1,4,
target,,A,0,
target,,B,40000024,
set,1,,-20,
set,2,,-80000020,
obs,1,A,6,0
obs,1,B,10000010,0
obs,2,A,20000004,0
obs,2,B,30000012,0
";

/// The line of the acceptance of `SHEET`.
pub const ACCEPTED: &[u8] =
    b"accepted S1: 2 sets, 2 targets, 4 directions, greatest residual 4/4\n";

/// The list of `STATION`.
pub const LIST: &[u8] = b"station S1: 2 sets, 2 targets, 4 directions
set 1, target A: p 6, 2c 6, 2i -2
set 1, target B: p 10000010, 2c 10, 2i 0
set 2, target A: p 20000004, 2c 4, 2i 0
set 2, target B: p 30000012, 2c 4, 2i 0
";

/// Parts of a text, and what stands in the place of each.
pub type Edits<'a> = &'a [(&'a str, &'a str)];

/// A text with some parts in the place of others, each wherever it stands. It must stand somewhere.
pub fn edited(alloc: Global, text: &[u8], edits: Edits<'_>) -> Result<String, Fail> {
    let mut made = String::from_str(alloc, str::from_utf8(text)?)?;
    for (from, to) in edits {
        made.find(*from).ok_or("a part that the text hasn't")?;
        made = made.replace(alloc, *from, to)?;
    }
    Ok(made)
}

/// The same lines with sixteen bytes of content in each word, each line ended by CR but the last,
/// which has no end.
pub fn widened(alloc: Global, narrow: &str) -> Result<String, Fail> {
    let wide = narrow.replace(alloc, "+", "+00000000")?;
    let starred = wide.trim_end().replace(alloc, "\r\n", "\r*")?;
    Ok(format!(in alloc; "*{starred}")?)
}
