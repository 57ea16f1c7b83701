//! A writer that fails once.

use std::io::{self, Error, ErrorKind, Write};

/// A writer that takes at most so many bytes at a time, fails once, and takes bytes again after.
#[derive(Drop)]
pub struct Resumes {
    /// How many calls come before the one that fails.
    calls: usize,
    most: usize,
    has_failed: bool,
    /// How many bytes were written.
    pub bytes: usize,
    /// How often it was asked after its failure.
    pub asked_on: usize,
}

impl Resumes {
    /// A writer that fails after so many calls, and takes at most so many bytes at a time.
    pub fn new(calls: usize, most: usize) -> Resumes {
        Resumes {
            calls,
            most,
            has_failed: false,
            bytes: 0,
            asked_on: 0,
        }
    }

    /// Counts a call, and fails at one of them.
    fn count(&mut self) -> io::Result<()> {
        if self.has_failed {
            self.asked_on = self.asked_on.saturating_add(1);
            return Ok(());
        }
        if self.calls == 0 {
            self.has_failed = true;
            return Err(Error::from(ErrorKind::Interrupted));
        }
        self.calls -= 1;
        Ok(())
    }
}

impl Write for Resumes {
    fn write(&mut self, buf: &[u8]) -> io::Result<usize> {
        self.count()?;
        let taken = buf.len().min(self.most);
        self.bytes = self.bytes.saturating_add(taken);
        Ok(taken)
    }

    fn flush(&mut self) -> io::Result<()> {
        self.count()
    }
}
