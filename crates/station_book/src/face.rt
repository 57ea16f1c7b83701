//! The two faces of an instrument.

ghost use Rattle.std.specs.Prelude.{◌≡◌};
ghost use Rattle.station_book.specs.Blocks.{other_face};

/// The face in which a target is read.
#[derive(Clone, Copy, Debug, PartialEq, Eq, Drop)]
pub enum Face {
    /// Face I.
    One,
    /// Face II, in which the telescope is turned over.
    Two,
}

impl Face {
    /// The other face.
    #[inline(always)]
    pub(crate) fn other(self) -> Face
        ensures { result ≡ other_face self }
    {
        match self {
            Face::One => Face::Two,
            Face::Two => Face::One,
        }
    }
}
