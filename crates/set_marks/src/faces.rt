//! The targets of the readings of a set, by the faces in which they are read.

ghost use Rattle.std.specs.Prelude.{◌≡◌, ◌++◌, ◌∷◌, [], IfOk, OnOk, not};
ghost use Rattle.station_book.specs.Places.{is_among, with_new};
ghost use Rattle.set_marks.specs.Searching.{names_in, KeepsFaces};

use crate::names::Names;
use adjust_kernel::Name;
use std::alloc::{AllocError, Global};

/// Targets, by the faces in which they are read.
#[derive(Drop)]
pub(crate) struct Faces {
    /// Those that are read in face I.
    ones: Names,
    /// Those that are read in face II.
    twos: Names,
}

impl Faces {
    /// No targets, with room for so many in each face.
    pub(crate) fn with_room(alloc: Global, count: usize) -> Result<Faces, AllocError>
        ensures { IfOk result (KeepsFaces []) }
    {
        Ok(Faces {
            ones: Names::with_room(alloc, count)?,
            twos: Names::with_room(alloc, count)?,
        })
    }

    /// Whether this target is read in this face.
    pub(crate) fn has(&mut self, second: bool, target: &Name) -> bool
        ensures value { result ≡ is_among (names_in second self.old) target.now }
        ensures unchanged { self.new ≡ self.old }
    {
        if second {
            self.twos.has(target)
        } else {
            self.ones.has(target)
        }
    }

    /// Adds a target in this face, and answers whether it was read in it already.
    pub(crate) fn add(&mut self, second: bool, target: &Name) -> Result<bool, AllocError>
        ensures known { IfOk result
            (λ known. known ≡ is_among (names_in second self.old) target.now) }
        ensures added { OnOk result
            (names_in second self.new ≡ with_new (names_in second self.old) target.now) }
        ensures other { OnOk result
            (names_in (not second) self.new ≡ names_in (not second) self.old) }
    {
        if second {
            self.twos.add(target)
        } else {
            self.ones.add(target)
        }
    }
}
