//! A file that is made at its first byte, or where it is flushed.

ghost use Rattle.std.specs.Prelude.{◌≡◌, None, false};
ghost use Rattle.std.specs.Option.{unwrap_or};

use crate::host::Host;
use byte_ends::{Failed, Sink};

/// The file of a path at which nothing stood. It is made at the first byte written, or where it is
/// flushed: a run that asks nothing of it makes no file.
#[derive(Drop)]
pub struct NewFile<'a, H, N> {
    host: &'a H,
    path: &'a str,
    file: Option<N>,
    has_failed: bool,
}

impl<'a, H: Host> NewFile<'a, H, H::New> {
    ghost use Rattle.command_run.specs.NewFiles.{file_of, has_failed, host_of, path_of};

    /// The file of a path, before it is made.
    pub(crate) fn new(host: &'a H, path: &'a str) -> NewFile<'a, H, H::New>
        ensures host { host_of result ≡ host.now }
        ensures path { path_of result ≡ path.now }
        ensures file { file_of result ≡ None }
        ensures unfailed { has_failed result ≡ false }
    {
        NewFile {
            host,
            path,
            file: None,
            has_failed: false,
        }
    }
}

impl<'a, H: Host> Sink for NewFile<'a, H, H::New> {
    ghost use Rattle.std.specs.Prelude.{option_map};
    ghost use Rattle.command_run.specs.NewFiles.{file_of, has_failed, host_of, path_of};

    ghost failed = { λ s. has_failed s };

    // Before it is made it holds what is known of a new file.
    ghost holds = { λ s.
        unwrap_or (option_map H.New.holds (file_of s)) (H.known_new (host_of s) (path_of s)) };

    // Before it is made nothing of it is at its path.
    ghost flushed = { λ s. unwrap_or (option_map H.New.flushed (file_of s)) false };

    fn write(&mut self, bytes: &[u8]) -> Result<usize, Failed> {
        if bytes.is_empty() {
            return Ok(0);
        }
        let was_made = self.file.is_some();
        let made = match self.file.take() {
            Some(file) => Ok(file),
            None => self.host.create(self.path),
        };
        let Ok(mut file) = made else {
            self.has_failed = true;
            return Err(Failed);
        };
        let taken = file.write(bytes);
        // (a file just made, whose first call failed, is not kept: nothing of it was flushed)
        if taken.is_ok() || was_made {
            self.file = Some(file);
        }
        if taken.is_err() {
            self.has_failed = true;
        }
        taken
    }

    fn flush(&mut self) -> Result<(), Failed> {
        let was_made = self.file.is_some();
        let made = match self.file.take() {
            Some(file) => Ok(file),
            None => self.host.create(self.path),
        };
        let Ok(mut file) = made else {
            self.has_failed = true;
            return Err(Failed);
        };
        let flushed = file.flush();
        if flushed.is_ok() || was_made {
            self.file = Some(file);
        }
        if flushed.is_err() {
            self.has_failed = true;
        }
        flushed
    }
}
