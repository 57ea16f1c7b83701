//! What a run asks for: the words of its command line, and the files that they name.

ghost use Rattle.std.specs.Prelude.{◌≡◌, ℕ, Bool, List, Option, IfOk, IfErr, OnErr, true, false};
ghost use Rattle.std.specs.Prelude.{map, string_bytes};
ghost use Rattle.byte_ends.specs.Source.{Told};
ghost use Rattle.command_run.specs.AsKnown.{IsAsKnown};
ghost use Rattle.command_run.specs.declared.host.NoWords.{NoWords as WhyNoWords};

use byte_ends::{Failed, OfRead, OfWrite, Sink, Source};
use std::fs::File;
use std::io::{BufReader, IsTerminal};
use std::{fs, io};

/// How many bytes of a file are read at once: a call of the system for each 4,096 took as long as all
/// that is done with them.
const READ_AT_ONCE: usize = 32_768;

const TERMINAL_IS_READ: &str =
    "reading from the terminal; Ctrl-D ends the input, and 'station_check --help' explains";

/// Why the words of the command line can't be had.
#[derive(Clone, Copy, Debug, PartialEq, Eq)]
pub enum NoWords {
    /// Memory was refused.
    OutOfMemory,

    /// An argument is not UTF-8 text.
    NotText,
}

/// What gives the words of a command line and the files of paths. In contracts, and only there, a
/// host may know what it gives: so a run is said to be of these words and these files, and of no
/// others. The code above a host is the same for every one.
pub trait Host {
    type File: Source;

    /// What its standard input is.
    type Input: Source;

    /// What its new files are.
    type New: Sink + Drop;

    // The words of the command line, where they are known.
    ghost known_words: { Self → Option (List (List ℕ)) };

    // Whether the words may be lacking for this reason.
    ghost may_lack: { Self → WhyNoWords → Bool };

    // What the file of a path gives, where that is known.
    ghost known_file: { Self → List ℕ → Option Told };

    // Whether the file of a path may be one that can't be opened.
    ghost may_not_open: { Self → List ℕ → Bool };

    // What a new file of a path holds, where that is known.
    ghost known_new: { Self → List ℕ → Option (List ℕ) };

    /// The words of the command line, of which the first is the program's name.
    fn words(&self) -> Result<Vec<String>, NoWords>
        ensures known { IfOk result (λ words.
            IsAsKnown (known_words self.now) (map string_bytes words.items)) }
        ensures lacking { IfErr result (λ reason. may_lack self.now reason ≡ true) };

    /// Opens the file of a path.
    fn open(&self, path: &str) -> Result<Self::File, Failed>
        ensures known { IfOk result (λ file. Self.File.told file ≡ known_file self.now path.now) }
        ensures unfailed { IfOk result (λ file. Self.File.failed file ≡ false) }
        ensures fails { OnErr result (may_not_open self.now path.now ≡ true) };

    /// Makes a file of a path, where nothing stands yet.
    fn create(&self, path: &str) -> Result<Self::New, Failed>
        ensures known { IfOk result (λ file. Self.New.holds file ≡ known_new self.now path.now) }
        ensures flushed { IfOk result (λ file. Self.New.flushed file ≡ true) };

    /// Tells a user that standard input is read, where it is a terminal.
    fn note_input(&self);
}

impl Host for HostRuntime {
    ghost use Rattle.std.specs.Prelude.{None};

    type File = OfRead<BufReader<File>>;

    type Input = OfRead<io::Stdin>;

    type New = OfWrite<File>;

    ghost known_words = { λ _. None };

    ghost may_lack = { λ _ _. true };

    ghost known_file = { λ _ _. None };

    ghost may_not_open = { λ _ _. true };

    ghost known_new = { λ _ _. None };

    fn words(&self) -> Result<Vec<String>, NoWords> {
        match std::env::args(self) {
            Ok(words) => words
                .collect(self.alloc())
                .map_err(|_| NoWords::OutOfMemory),
            Err(error) if error.kind() == io::ErrorKind::OutOfMemory => Err(NoWords::OutOfMemory),
            Err(_) => Err(NoWords::NotText),
        }
    }

    fn open(&self, path: &str) -> Result<OfRead<BufReader<File>>, Failed> {
        let file = open_file(self, path, READ_AT_ONCE)
            .or_else(|_| open_file(self, path, 0))
            .map_err(|_| Failed)?;
        note_terminal(self, file.get_ref());
        Ok(OfRead::new(file))
    }

    fn create(&self, path: &str) -> Result<OfWrite<File>, Failed> {
        match File::create_new(self, path) {
            Ok(file) => Ok(OfWrite::new(file)),
            Err(_) => Err(Failed),
        }
    }

    fn note_input(&self) {
        note_terminal(self, &self.stdin());
    }
}

/// Opens the file of a path, which is read through a buffer of so many bytes. Of 0 it takes no memory.
fn open_file(rt: &HostRuntime, path: &str, buffer: usize) -> io::Result<BufReader<File>> {
    BufReader::with_capacity(rt.alloc(), buffer, fs::open(rt, path)?)
}

/// Tells a user at a terminal that what is typed there is read.
fn note_terminal<T: IsTerminal>(rt: &HostRuntime, input: &T) {
    if input.is_terminal() {
        let _ = eprintln!(rt; "{TERMINAL_IS_READ}");
    }
}
