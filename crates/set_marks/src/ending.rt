//! How the stations of a field file end, one after another.
//!
//! A station ends where the next is set up, or with the file. Its code lines are found then, and
//! its readings are dropped. So no more than one station's readings lie in memory, and they are
//! still near at hand when they are divided into sets.

ghost use Rattle.std.specs.Prelude.{◌≡◌, [], All, IfOk, List, OnOk};
ghost use Rattle.station_book.specs.Places.{History};
ghost use Rattle.job_statements.specs.declared.beginnings.Beginnings.{Beginnings};
ghost use Rattle.job_statements.specs.Numbers.{Said, said_in};
ghost use Rattle.set_marks.specs.Marks.{IsRoomy};
ghost use Rattle.set_marks.specs.Stations.{stations_of};
ghost use Rattle.set_marks.specs.WrittenAgain.{written_again_of};
ghost use Rattle.set_marks.specs.Keeping.{AreMarked, AreMarkedFirst, Ends, Keeps};

use crate::marking::Marking;
use crate::readings::Readings;
use adjust_kernel::Name;
use job_statements::Stated;
use std::alloc::{AllocError, Global};

impl Readings {
    /// No readings, of the station of this name, where one is open.
    #[tactic(auto, using(crate::proofs::EndedStations::none_marked))]
    pub(crate) fn new(alloc: Global, station: Option<Name>, stated: Stated) -> Readings
        ensures station { result.station ≡ station }
        ensures sights { result.sights.items ≡ [] }
        ensures count { result.written_again ≡ 0 }
        ensures room { All IsRoomy result.marking.marks.items }
        ensures marked { AreMarkedFirst (said_in stated) [] [] result.marking }
        ensures blocks { result.blocks ≡ 0 }
    {
        Readings {
            station,
            sights: Vec::new(alloc),
            written_again: 0,
            marking: Marking::new(alloc, stated),
            blocks: 0,
        }
    }

    /// Ends the station that is open, if one is: it is judged and marked.
    pub(crate) fn end_station(&mut self, alloc: Global) -> Result<(), AllocError>
        requires room { All IsRoomy self.old.marking.marks.items }
        ensures room { All IsRoomy self.new.marking.marks.items }
        ensures ends { OnOk result (Ends self.old self.new) }
        ensures sights { OnOk result (self.new.sights.items ≡ []) }
        ensures blocks { self.new.blocks ≡ self.old.blocks }
    {
        self.mark_station(alloc)?;
        self.sights.clear();
        Ok(())
    }

    /// Judges and marks the station that is open.
    #[tactic(auto, using(crate::proofs::EndedStations::none_open))]
    fn mark_station(&mut self, alloc: Global) -> Result<(), AllocError>
        requires room { All IsRoomy self.old.marking.marks.items }
        ensures room { All IsRoomy self.new.marking.marks.items }
        ensures ends { OnOk result (Ends self.old self.new) }
        ensures blocks { self.new.blocks ≡ self.old.blocks }
    {
        let Some(name) = self.station else {
            return Ok(());
        };
        self.marking
            .take(alloc, &name, &self.sights, self.written_again)?;
        Ok(())
    }

    /// The code lines of all stations, and what is told of them, once the file has ended.
    pub(crate) fn finish(self, alloc: Global) -> Result<Marking, AllocError>
        requires room { All IsRoomy self.marking.marks.items }
        ensures room { IfOk result (λ m. All IsRoomy m.marks.items) }
        ensures marked { IfOk result (λ m. (beginnings : Beginnings) (stated : Said)
            (h : History) → Keeps beginnings stated h self
            → AreMarked stated (stations_of beginnings h) (written_again_of beginnings h) m) }
    {
        let mut readings = self;
        readings.end_station(alloc)?;
        Ok(readings.marking)
    }
}
