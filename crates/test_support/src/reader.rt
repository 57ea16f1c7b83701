//! A reader that fails or ends once.

use std::io::{self, Error, ErrorKind, Read};

/// A reader that gives a text, then fails or ends once, and then gives the text again and again.
#[derive(Drop)]
pub struct Recovers<'a> {
    text: &'a [u8],
    rest: &'a [u8],
    fails: bool,
    is_over: bool,
    /// How often it was asked after its failure or its end.
    pub asked_on: usize,
}

impl<'a> Recovers<'a> {
    /// A reader of a text that fails after it, or ends.
    pub fn new(text: &'a [u8], fails: bool) -> Recovers<'a> {
        Recovers {
            text,
            rest: text,
            fails,
            is_over: false,
            asked_on: 0,
        }
    }
}

impl Read for Recovers<'_> {
    fn read(&mut self, buf: &mut [u8]) -> io::Result<usize> {
        if self.is_over {
            self.asked_on = self.asked_on.saturating_add(1);
        }
        if self.rest.is_empty() {
            self.rest = self.text;
            if !self.is_over {
                self.is_over = true;
                if self.fails {
                    return Err(Error::from(ErrorKind::Interrupted));
                }
                return Ok(0);
            }
        }
        let given = self.rest.len().min(buf.len());
        buf[..given].copy_from_slice(&self.rest[..given]);
        self.rest = &self.rest[given..];
        Ok(given)
    }
}
