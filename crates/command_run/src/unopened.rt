//! A path that is refused, and the line that names it.

ghost use Rattle.std.specs.Prelude.{◌≡◌, IfOk, string_bytes};
ghost use Rattle.command_run.specs.Unopened as spec;

use std::alloc::{AllocError, Global};

/// A file that can't be opened.
#[derive(Debug, Drop)]
pub(crate) struct Unopened<'a> {
    pub path: &'a str,
}

/// The line that names the path of a file that can't be opened.
pub(crate) fn unopened_line(alloc: Global, path: &str) -> Result<String, AllocError>
    ensures { IfOk result (λ line. string_bytes line ≡ spec.unopened_line path.now) }
{
    path_line(alloc, "cannot open ", path)
}

/// The line that names the path of a file that is there already.
pub(crate) fn there_line(alloc: Global, path: &str) -> Result<String, AllocError>
    ensures { IfOk result (λ line. string_bytes line ≡ spec.there_line path.now) }
{
    path_line(alloc, "already there: ", path)
}

/// The line of a path after these words, with a `?` in the place of each control character, so that a
/// terminal shows it on one line.
#[tactic(auto, using(crate::proofs::UnopenedLaws::as_shown))]
fn path_line(alloc: Global, words: &str, path: &str) -> Result<String, AllocError>
    ensures { IfOk result (λ line. string_bytes line ≡ spec.path_line words.now path.now) }
{
    let mut line = String::from_str(alloc, words)?;
    for character in path.chars() {
        line.push(shown(character))?;
    }
    line.push('\n')?;
    Ok(line)
}

/// A character as it is shown: `?` in the place of a control character.
fn shown(character: char) -> char
    ensures { result ≡ spec.shown character }
{
    if character.is_control() {
        '?'
    } else {
        character
    }
}
