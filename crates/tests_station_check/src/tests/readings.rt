//! Readings of a station, and the field file that an instrument writes of them.

use std::alloc::Global;
use std::test::Fail;

/// A target in both faces of a set: the set, the target, and the directions in face I and face II,
/// in units of 0.00001 gon.
pub type Reading<'a> = (u32, &'a str, u32, u32);

/// Three sets that share a target with the next, and come full circle.
pub const ROUND: &[Reading<'static>] = &[
    (1, "A", 0, 20_000_000),
    (1, "B", 50, 20_000_050),
    (2, "B", 0, 20_000_000),
    (2, "C", 50, 20_000_050),
    (3, "C", 0, 20_000_000),
    (3, "A", 39_999_903, 19_999_903),
];

/// The sheet of `ROUND`.
pub const ROUND_SHEET: &str = "\
sheet,1,S1,1,
target,,A,0,
target,,B,98,
target,,C,196,
set,1,,-1,
set,2,,97,
set,3,,195,
obs,1,A,0,0
obs,1,B,100,0
obs,2,B,0,0
obs,2,C,100,0
obs,3,A,79999806,-1
obs,3,C,0,0
";

/// Two sets without a target in both.
pub const APART: &[Reading<'static>] = &[
    (1, "A", 0, 20_000_000),
    (1, "B", 50, 20_000_050),
    (2, "C", 0, 20_000_000),
    (2, "D", 50, 20_000_050),
];

/// A sheet of `APART` whose residuals are all 0.
pub const APART_SHEET: &str = "\
sheet,1,S1,1,
target,,A,0,
target,,B,100,
target,,C,0,
target,,D,100,
set,1,,0,
set,2,,0,
obs,1,A,0,0
obs,1,B,100,0
obs,2,C,0,0
obs,2,D,100,0
";

/// A field file as it grows.
#[derive(Drop)]
struct FieldFile {
    alloc: Global,
    text: String,
    blocks: u32,
}

impl FieldFile {
    /// The file that begins with the station S1.
    fn new(alloc: Global) -> Result<FieldFile, Fail> {
        let mut file = FieldFile {
            alloc,
            text: String::new(alloc),
            blocks: 0,
        };
        file.add_code("10", " 42....+000000S1")?;
        Ok(file)
    }

    /// The number that the next block shows, in four digits.
    fn next_number(&mut self) -> u32 {
        self.blocks = self.blocks.saturating_add(1);
        self.blocks % 10_000
    }

    fn add_code(&mut self, code: &str, word: &str) -> Result<(), Fail> {
        let number = self.next_number();
        let line = format!(in self.alloc; "41{number:04}+{code:0>8}{word}\r\n")?;
        Ok(self.text.push_str(&line)?)
    }

    /// Opens a set.
    fn add_set(&mut self, set: u32) -> Result<(), Fail> {
        let number = format!(in self.alloc; " 42....+{set:08}")?;
        self.add_code("20", &number)
    }

    fn add_face(&mut self, target: &str, direction: u32, zenith: u32) -> Result<(), Fail> {
        let number = self.next_number();
        let line = format!(in self.alloc;
            "11{number:04}+{target:0>8} 21.102+{direction:08} 22.102+{zenith:08}\r\n"
        )?;
        Ok(self.text.push_str(&line)?)
    }

    /// The text of the file, which ends with the end of its last set.
    fn finish(mut self) -> Result<String, Fail> {
        self.add_code("30", "")?;
        Ok(self.text)
    }
}

/// The largest number of a set in `field_file`.
const LAST_SET: u32 = 3;

/// The field file of the station S1 with these readings: of each set face I in their order, then
/// face II in the opposite order.
pub fn field_file(alloc: Global, readings: &[Reading<'_>]) -> Result<String, Fail> {
    let mut file = FieldFile::new(alloc)?;
    for set in 1..=LAST_SET {
        if readings.iter().any(|reading| reading.0 == set) {
            file.add_set(set)?;
        }
        for &(of, target, first, _) in readings {
            if of == set {
                file.add_face(target, first, 10_000_000)?;
            }
        }
        for &(of, target, _, second) in readings.iter().rev() {
            if of == set {
                file.add_face(target, second, 30_000_000)?;
            }
        }
    }
    file.finish()
}

/// The field file of the station S1 with many sets, of 100 targets each but for the first set. The
/// targets are numbered, and each is 1000 units from the one before.
pub fn large_file(alloc: Global, sets: u32, targets_of_first: u32) -> Result<String, Fail> {
    let mut file = FieldFile::new(alloc)?;
    for set in 1..=sets {
        file.add_set(set)?;
        let targets = if set == 1 { targets_of_first } else { 100 };
        for target in 1..=targets {
            let name = format!(in alloc; "{target}")?;
            file.add_face(&name, target.saturating_mul(1_000), 10_000_000)?;
        }
        for target in (1..=targets).rev() {
            let name = format!(in alloc; "{target}")?;
            let first = target.saturating_mul(1_000);
            file.add_face(&name, first.saturating_add(20_000_000), 30_000_000)?;
        }
    }
    file.finish()
}
