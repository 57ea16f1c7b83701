//! What each fault means that the line of a refusal can name: when it comes, a line that names it,
//! and what to do. `explain` prints these texts, and the page shows them.

ghost use Rattle.std.specs.Prelude.{IfSome, IfNone, IsTrue, IsFalse, All, Any, Contains};
ghost use Rattle.station_explain.specs.Naming.{HasName, HasNameInAnyCase, LacksName};
ghost use Rattle.station_explain.specs.Naming.{LacksNameInAnyCase, IsNoName, IsNoNameInAnyCase};
ghost use Rattle.station_explain.specs.Naming.{IsMeant};
ghost use Rattle.station_explain.specs.Table.{IsTheTable};

/// What is said of a fault.
///
/// The kind of the texts is a parameter, so that clauses can name a table of explanations: they can
/// name no constant whose struct has references for its fields.
pub struct Said<Names, Text> {
    /// Its names, as the line of a refusal has them, without what they carry.
    pub names: Names,

    /// What it is, in a few words.
    pub meaning: Text,

    /// When it comes.
    pub when: Text,

    /// The line of a refusal that names it.
    pub example: Text,

    /// What a user does about it.
    pub remedy: Text,
}

/// What the program says of a fault.
pub type Explanation = Said<&'static [&'static str], &'static str>;

impl Explanation {
    /// Whether this is a name of the fault.
    fn has_name(&self, name: &str) -> bool
        ensures named { IsTrue result → HasName name.now self.now }
        ensures missing { IsFalse result → LacksName name.now self.now }
    {
        self.names.iter().any(|&n| n == name)
    }

    /// Whether this is a name of the fault, be it in capitals or small letters.
    fn has_name_in_any_case(&self, name: &str) -> bool
        ensures named { IsTrue result → HasNameInAnyCase name.now self.now }
        ensures missing { IsFalse result → LacksNameInAnyCase name.now self.now }
    {
        self.names.iter().any(|&n| n.eq_ignore_ascii_case(name))
    }
}

/// The explanation of this name among some; none where it is no name of any.
// Loops here and below: no proof reaches a closure over a type with so many lifetimes.
fn explanation_of<'a>(entries: &'a [Explanation], name: &str) -> Option<&'a Explanation>
    ensures found { IfSome result (λ e. Contains entries.now e.now) }
    ensures named { IfSome result (λ e. HasName name.now e.now) }
    ensures missing { IfNone result (All (LacksName name.now) entries.now) }
{
    'entries: for entry in entries {
        if entry.has_name(name) {
            return Some(entry);
        }
    }
    None
}

/// The explanation of this name among groups of explanations; none where it is no name of any.
fn explanation_named<'a>(groups: &[&'a [Explanation]], name: &str) -> Option<&'a Explanation>
    ensures found { IfSome result (λ e. Any (λ g. Contains g.now e.now) groups.now) }
    ensures named { IfSome result (λ e. HasName name.now e.now) }
    ensures missing { IfNone result (IsNoName groups.now name.now) }
{
    'groups: for &group in groups {
        if let Some(entry) = explanation_of(group, name) {
            return Some(entry);
        }
    }
    None
}

/// The explanation of this name in capitals or small letters among some; none where it is no name
/// of any.
fn explanation_in_any_case<'a>(entries: &'a [Explanation], name: &str) -> Option<&'a Explanation>
    ensures found { IfSome result (λ e. Contains entries.now e.now) }
    ensures named { IfSome result (λ e. HasNameInAnyCase name.now e.now) }
    ensures missing { IfNone result (All (LacksNameInAnyCase name.now) entries.now) }
{
    'entries: for entry in entries {
        if entry.has_name_in_any_case(name) {
            return Some(entry);
        }
    }
    None
}

/// The explanation of this name in capitals or small letters among groups of explanations; none
/// where it is no name of any.
fn explanation_named_in_any_case<'a>(
    groups: &[&'a [Explanation]],
    name: &str,
) -> Option<&'a Explanation>
    ensures found { IfSome result (λ e. Any (λ g. Contains g.now e.now) groups.now) }
    ensures named { IfSome result (λ e. HasNameInAnyCase name.now e.now) }
    ensures missing { IfNone result (IsNoNameInAnyCase groups.now name.now) }
{
    'groups: for &group in groups {
        if let Some(entry) = explanation_in_any_case(group, name) {
            return Some(entry);
        }
    }
    None
}

/// The explanation that a name means among groups of explanations: that of the fault which has it
/// just as it is written, else in capitals or small letters; none where no fault has it.
pub fn explanation_meant<'a>(groups: &[&'a [Explanation]], name: &str) -> Option<&'a Explanation>
    ensures meant { IfSome result (λ e. IsMeant groups.now name.now e.now) }
    ensures missing { IfNone result (IsNoNameInAnyCase groups.now name.now) }
{
    match explanation_named(groups, name) {
        Some(explanation) => Some(explanation),
        None => explanation_named_in_any_case(groups, name),
    }
}

/// The explanations of all faults that the line of a refusal can name, in groups, about in the
/// order in which they are looked for.
pub fn all_explanations() -> [&'static [Explanation]; 15]
    ensures { IsTheTable result }
{
    EXPLANATIONS
}

/// The table that `all_explanations` hands out.
const EXPLANATIONS: [&[Explanation]; 15] = [
    FILE_FAULTS,
    STATION_FAULTS,
    NUMBER_FAULTS,
    ANGLE_FAULTS,
    FACE_FAULTS,
    BLOCK_MARK_FAULTS,
    SET_MARK_FAULTS,
    STATED_MARK_FAULTS,
    CHANGE_FAULTS,
    ROW_FAULTS,
    VALUE_FAULTS,
    MATCH_FAULTS,
    ADJUSTMENT_FAULTS,
    TABLE_FAULTS,
    END_FAULTS,
];

/// Faults of a field file: its bytes, lines and words.
const FILE_FAULTS: &[Explanation] = &[
    Said {
        names: &["Read"],
        meaning: "the field file, the sheet or the table could not be read to its end",
        when: "\
A read of the field file failed, and the block is the first line that had not ended then; or, as
'sheet: Read' or 'table: Read', a read of the sheet or the table failed. A read that failed is not
tried again. A folder can be opened and not read, so its name leads here. So does an input that
would block: a pipe or a terminal that another program has set not to wait, if its bytes are not
there yet (EAGAIN).",
        example: "refused: block 1: Read",
        remedy: "\
See that the path names a file and not a folder. Copy the file: if the copy fails too,
its medium is at fault. Name an input that would block by its path, as 'station_check words
/dev/stdin': then the program waits for it.",
    },
    Said {
        names: &["FileTooLong"],
        meaning: "the field file has more than 16777216 bytes",
        when: "\
The field file has a byte 16777217. It stands in this line, begins it or ends it.",
        example: "refused: block 1048577: FileTooLong",
        remedy: "\
Divide a copy before a block that opens a station, with code 10. A file of field work is
seldom so long: see that the path names one.",
    },
    Said {
        names: &["LineTooLong"],
        meaning: "a line has more than 1024 bytes",
        when: "\
The line has more than 1024 bytes, its blanks counted. A byte 13 (CR) or 10 (LF) ends a line.",
        example: "refused: block 1: LineTooLong",
        remedy: "\
See that the path names a field file: an archive or a picture mostly has such lines.
Blanks at the end of a line may be left out of a copy.",
    },
    Said {
        names: &["Byte"],
        meaning: "a byte of a line is no printable ASCII character",
        when: "\
The byte at this place of the line, from 1, is outside 20 to 7E (hex). Tabs are such bytes, letters
with accents, the byte 1A that old programs write at the end of a file, the byte order mark, EF BB
BF, that some editors write at its beginning, and the bytes 00 of a file in UTF-16.",
        example: "refused: block 1: Byte 16",
        remedy: "\
Transfer the file again, with no conversion of characters. If the byte is still there,
check a copy that 'prepare.py --plain' of the examples writes: with blanks for tabs, plain letters
for those with accents, and without byte order marks and bytes 1A. Save a file in UTF-16 as plain
text first.",
    },
    Said {
        names: &["Word"],
        meaning: "a word of a line is no GSI word",
        when: "\
The word of this number in its line, from 1, is too short, lacks the two digits of its index or its
sign, has a blank in its four bytes of information, or is not followed by one blank or the end of
the line. A line without any word has 'Word 1', so has a line of titles or remarks, and so has a
sheet in the place of the field file.",
        example: "refused: block 6: Word 3",
        remedy: "\
Look at that word. A cut word in the last line means that the transfer broke off:
transfer the file again, or leave the line out. Two lines in one mean that files were joined of
which the first lacked its last line end: join them again with one. Two blanks between words, or one
before the first, are too many. The words of a line have 16 bytes of content if it begins with '*',
and else 8. For a line of titles, check a copy without it, by 'change --leave-out BLOCK'; for a
sheet, name GSI first and SHEET second.",
    },
    Said {
        names: &["FirstWord"],
        meaning: "a line begins with neither word 11 nor word 41",
        when: "\
The first word of a line has the index 11 in a measurement, for the point number, or 41 in a code.
The first word of this line has another index.",
        example: "refused: block 1: FirstWord",
        remedy: "\
Have the instrument record the point number, or the code, as the first word. A line that
is neither a measurement nor a code is no part of a field file: check a copy without it.",
    },
];

/// Faults of the blocks that open a station or a set, or end one.
const STATION_FAULTS: &[Explanation] = &[
    Said {
        names: &["EmptySet"],
        meaning: "a set ends that has no reading",
        when: "\
At this block a set ends, by code 10, 20 or 30 or by the end of the file, in which no block has a
point number and a direction, word 21. The end of the file has the number after the last block.",
        example: "refused: block 3: EmptySet",
        remedy: "\
Check a copy without the code 20 of a set that was not observed. If its readings come
before the code, move the code before them in the copy.",
    },
    Said {
        names: &["OneFace"],
        meaning: "a set ends that has a target in one face only",
        when: "\
At this block a set ends, by code 10, 20 or 30 or by the end of the file, in which a target was read
in one face and not in the other. The end of the file has the number after the last block.",
        example: "refused: block 4: OneFace",
        remedy: "\
Look in 'station_check words GSI' for the target that stands once in the set: its
readings are the blocks before this one, back to its code 20. A name that is spelled in two ways is
two targets: 'change --rename BLOCK=NAME' gives one another name in a copy. If a face is missing,
or the set was broken off, check a copy without the other reading or without the set: prepare.py has
--blocks and --set for that. Record detail points after code 30.",
    },
    Said {
        names: &["WordTwice"],
        meaning: "a block has two words of one index",
        when: "\
The block has two or more words of this index, of which one counts: 42 has the name of a station or
the number of a set, 21 the direction of a reading, 22 its zenith angle.",
        example: "refused: block 1: WordTwice 42",
        remedy: "\
See which of the words is right, and check a copy without the others.",
    },
    Said {
        names: &["StationName"],
        meaning: "a station is opened without a name",
        when: "\
A block of code 10 opens a station, whose name is in word 42. This one has no word 42. So it is with
a block of the code that 'mark --station-code N' states.",
        example: "refused: block 1: StationName",
        remedy: "\
Check a copy that has the name of the station as word 42 of that block.",
    },
    Said {
        names: &["SetOutside"],
        meaning: "a set is opened before any station",
        when: "\
A block of code 20 opens a set of the station that is open, and no block before it has code 10.",
        example: "refused: block 1: SetOutside",
        remedy: "\
Codes 10 and 20 may be those of your office, for something else. Then leave them out of
a copy, with 'prepare.py --without-codes' of the examples, and put in the codes of stations and sets
with 'station_check mark'. Else check a copy that has a block of code 10, with the name of the
station in word 42, before the set.",
    },
    Said {
        names: &["SetNumber"],
        meaning: "a set is opened without a number from 1 to 9999",
        when: "\
A block of code 20 has the number of its set in word 42. This one has no word 42, or one that is not
digits alone, or a number that is not 1 to 9999. Blanks are no digits.",
        example: "refused: block 2: SetNumber",
        remedy: "\
Check a copy that has the number of the set as word 42 of that block: of the examples,
prepare.py writes it, by --rename BLOCK NUMBER.",
    },
];

/// Faults of what stands twice or too often, and of a missing angle.
const NUMBER_FAULTS: &[Explanation] = &[
    Said {
        names: &["StationTwice"],
        meaning: "a set is opened on a station that had sets before",
        when: "\
The station that is open has the name of an earlier one with sets, which another code 10 opened. A
file has one set-up of a station. As 'mark: StationTwice', a set-up line has the name of an
earlier one, and both stations have sets, or readings that aren't recognized as sets.",
        example: "refused: block 14: StationTwice",
        remedy: "\
If the instrument was not moved, and the set-up line was written again, mark the file
with --same-set-up; of a file with codes check a copy without the later codes 10 of this name, and
the sets go on. If the point was set up again, mark the file with --again, which calls the second
station NAME-2. Else give the second set-up a name of its own in a copy, with
'prepare.py --rename BLOCK NAME' of the examples: BLOCK is that of its code 10 or its set-up line,
before the one that is named. If the file was transferred twice, leave its second part out, with
--blocks.",
    },
    Said {
        names: &["SetTwice"],
        meaning: "a station has two sets of one number",
        when: "\
The block opens a set with a number that a set of this station has.",
        example: "refused: block 13: SetTwice",
        remedy: "\
In a copy, give one of the two sets another number, in word 42 of its code 20: of the
examples, prepare.py writes it, by --rename BLOCK NUMBER.",
    },
    Said {
        names: &["TooManyStations"],
        meaning: "the field file has more than 1000 stations with sets",
        when: "\
The block opens the first set of a station, and 1000 other stations have sets. As 'mark:
TooManyStations' it is the first reading of such a station.",
        example: "refused: block 4002: TooManyStations",
        remedy: "\
Divide a copy before a block that opens a station, with code 10, or before a set-up
line.",
    },
    Said {
        names: &["TooManySets"],
        meaning: "a station has more than 40 sets",
        when: "\
The block opens a set of a station that has 40. As 'mark: TooManySets' it is the first reading of
such a set.",
        example: "refused: block 122: TooManySets",
        remedy: "\
Copy some of the sets into a file of their own, to be adjusted by themselves.",
    },
    Said {
        names: &["NoZenith"],
        meaning: "a reading has no zenith angle",
        when: "\
A block with a point number and a direction, word 21, stands in a set and has no word 22. Its zenith
angle says which face it was read in.",
        example: "refused: block 6: NoZenith",
        remedy: "\
Have the instrument record Hz and V. Leave a sight that is no part of the set out of a
copy. A line that sets the instrument up and has a direction, word 21, is taken for a reading: if
the file has several, divide it there before you leave them out, for 'mark' cannot see where a
station begins without them.",
    },
];

/// Faults of a direction or a zenith angle.
const ANGLE_FAULTS: &[Explanation] = &[
    Said {
        names: &["Hz Unit", "Zenith Unit"],
        meaning: "an angle is not in gon with five decimals",
        when: "\
Place 6 of word 21 (Hz) or word 22 (Zenith) of a reading is not '2', which stands for gon with five
decimals.",
        example: "refused: block 3: Hz Unit",
        remedy: "\
Angles in degrees or mil are not read. Export the job again in gon with five decimals,
from the instrument or your office software, and set the instrument to gon.",
    },
    Said {
        names: &["Hz InputMode", "Zenith InputMode"],
        meaning: "an angle has an input mode that is not accepted",
        when: "\
Place 5 of word 21 (Hz) or word 22 (Zenith) of a reading, which says how the value came in, is none
of '.', '0', '2' and '3'.",
        example: "refused: block 3: Hz InputMode",
        remedy: "\
See where this value comes from. A set has values that the instrument measured; one that
was typed or computed is no reading.",
    },
    Said {
        names: &["Hz Sign", "Zenith Sign"],
        meaning: "an angle has a minus",
        when: "\
The sign of word 21 (Hz) or word 22 (Zenith) of a reading is not '+'.",
        example: "refused: block 3: Hz Sign",
        remedy: "\
See how the word was made: directions and zenith angles are never below 0. A zenith
angle with a minus is usually an elevation: export the job again with zenith angles, and set the
instrument to these.",
    },
    Said {
        names: &["Hz Digits", "Zenith Digits"],
        meaning: "an angle is not digits alone",
        when: "\
A byte of the content of word 21 (Hz) or word 22 (Zenith) of a reading is no digit.",
        example: "refused: block 3: Hz Digits",
        remedy: "\
Look at the word for a blank, a point or a letter. An angle is written in units of
0.00001 gon, with zeros before it.",
    },
    Said {
        names: &["Hz Range", "Zenith Range"],
        meaning: "an angle is a full circle or more",
        when: "\
Word 21 (Hz) or word 22 (Zenith) of a reading is 40000000 units of 0.00001 gon or more: 400 gon.",
        example: "refused: block 3: Hz Range",
        remedy: "\
See how the word was made: 400 gon is written as 0.",
    },
];

/// Faults of the readings of a target in both faces.
const FACE_FAULTS: &[Explanation] = &[
    Said {
        names: &["FaceUnclear"],
        meaning: "a zenith angle of 0 or 200 gon has no face",
        when: "\
The zenith angle of a reading is 0 or 20000000 units of 0.00001 gon. Between them is face I, above
20000000 face II.",
        example: "refused: block 3: FaceUnclear",
        remedy: "\
A sight straight up or down gives no direction: check a copy without both readings of
its pair. An elevation of 0 has this fault too: set the instrument to zenith angles.",
    },
    Said {
        names: &["FaceTwice"],
        meaning: "a set has two readings of a target in one face",
        when: "\
The set has a reading of this target in this face. A closing sight at the end of a half set comes
out so, a pointing that was repeated, and an elevation in place of a zenith angle, since both faces
of it read as one.",
        example: "refused: block 4: FaceTwice",
        remedy: "\
In 'station_check words GSI' this block has the target, and a block before it, back to
the code 20 of the set, has the other reading. Check a copy without the one that does not count: for
a repeated pointing the field book says which. Of the examples, prepare.py leaves out closing
sights, or blocks by their numbers, and writes a log. An orientation sight before the code 20 of the
first set is skipped, and so are closing sights and detail points after a code 30. If each target
has this fault, set the instrument to zenith angles.",
    },
    Said {
        names: &["TooManyTargets"],
        meaning: "a station has more than 100 targets",
        when: "\
The reading is of a target that its station has not had, and the station has 100. As 'mark:
TooManyTargets', more than 200 readings would be one set, or it is so of the sets of the station.",
        example: "refused: block 103: TooManyTargets",
        remedy: "\
Copy some of the sets into a file of their own, to be adjusted by themselves. To 'mark',
leave points that were read in both faces and are of no set out of a copy, with
'prepare.py --blocks' of the examples.",
    },
    Said {
        names: &["TwoC"],
        meaning: "the face difference 2c of a pair is above its limit",
        when: "\
With this reading its target has both faces in the set, and their directions differ from 200 gon by
more than the limit: 20 mgon, or what --two-c says.",
        example: "refused: block 4: TwoC",
        remedy: "\
See the value by 'station_check list --two-c 10000mgon GSI'. One that stands out has a
wrong target or a wrong name in one face: if the field book says so, check a copy without it. If all
are alike, the instrument has that collimation error, and a wider limit may be stated.",
    },
    Said {
        names: &["TwoI"],
        meaning: "the face difference 2i of a pair is above its limit",
        when: "\
With this reading its target has both faces in the set, and the sum of their zenith angles differs
from 400 gon by more than the limit: 20 mgon, or what --two-i says.",
        example: "refused: block 4: TwoI",
        remedy: "\
See the value by 'station_check list --two-i 10000mgon GSI'. One that stands out has a
wrong target or height in one face: if the field book says so, check a copy without it. If all are
alike, the instrument has that index error, and a wider limit may be stated.",
    },
];

/// Faults of the blocks and stations of a file into which codes are to be put.
const BLOCK_MARK_FAULTS: &[Explanation] = &[
    Said {
        names: &["TwoLines"],
        meaning: "two lines stand in one",
        when: "\
A word 11 or 41 stands within the line. A line begins with such a word, so this is two lines in one:
mostly files were joined, and the first had no line end after its last line. What the second line
says, for example that the instrument was set up, would be lost.",
        example: "refused: block 17: mark: TwoLines",
        remedy: "\
Join the files again with a line end between them: '(cat A.gsi; echo; cat B.gsi) > GSI'.
An empty line does no harm. Or put a line end before that word, in a copy. A file with codes needs
that too: 'list' and 'check' take such a line for one block.",
    },
    Said {
        names: &["HasCodes"],
        meaning: "codes are to be put in, and the file has code 10, 20 or 30",
        when: "\
The block has code 10, 20 or 30. They open stations and sets, or end sets, so 'mark' puts none of
them into a file that has one.",
        example: "refused: block 3: mark: HasCodes",
        remedy: "\
See what they mean. If they are those of this program, the file needs no 'mark': run
'station_check list GSI'. If they are those of your office, for something else, leave them out of a
copy with 'prepare.py --without-codes' of the examples, and mark that. Codes that begin stations
stay in: without them two set-ups can pass for one. If the file has these and none for sets, put
in the codes of each station with 'prepare.py --codes STATION BLOCKS LAST' of the examples.",
    },
    Said {
        names: &["HasSetUp"],
        meaning: "--station names the station, and a line of the file does too",
        when: "\
The block is a set-up line: a point number without a direction, vertical angle or distance, with the
coordinates of a station or the height of the instrument, in words 84, 85, 86 or 88. A station
begins there and has that name, so --station cannot name one. So it is of a code that --station-code
states, with the name in word 42.",
        example: "refused: block 1: mark: HasSetUp",
        remedy: "\
Leave --station out. If the name in the line is wrong, give the block another one in a
copy, with 'prepare.py --rename BLOCK NAME' of the examples.",
    },
    Said {
        names: &["NoSetUp"],
        meaning: "nothing names the station of a reading",
        when: "\
The block is a reading. No set-up line stands before it, and --station does not name its station. A
set-up line is a point number without a direction, vertical angle or distance, with a word 84, 85,
86 or 88.",
        example: "refused: block 1: mark: NoSetUp",
        remedy: "\
If the file is of one station, name it: 'station_check mark --station NAME GSI'. If a
code with the name in word 42 begins each, state its number: 'mark --station-code N GSI'. If set-up
lines come later, leave the readings before the first out of a copy; but if each was recorded after
its sights, put the codes of each station in with 'prepare.py --codes STATION BLOCKS LAST' of the
examples. Any other file of several stations is to be divided first: 'mark' cannot see where another
begins.",
    },
    Said {
        names: &["NameTooLong"],
        meaning: "the name is too long for the line",
        when: "\
A name of more than 8 characters has no room in a line of GSI-8. Of 'mark' it is the station's: the
code lines get the width of the lines beside them, and the first reading in a set stands in such a
line. Of 'change' it is the name that --rename states for this line; a line of GSI-16 has room for
16 characters.",
        example: "refused: block 1: mark: NameTooLong",
        remedy: "\
State a shorter name, with --station or with --rename; or rename the line that sets up
in a copy.",
    },
    Said {
        names: &["Empty"],
        meaning: "the file has no line",
        when: "\
The file has no bytes, or blank lines alone: the transfer from the instrument failed, or a shell
wrote over it, as 'mark job.gsi > job.gsi' does before the program begins.",
        example: "refused: block 1: mark: Empty",
        remedy: "\
Transfer the file again. Name the copy as 'mark job.gsi job_marked.gsi': a file that is
there is never written over.",
    },
    Said {
        names: &["NoSets"],
        meaning: "no station of the file has sets",
        when: "\
No reading is in face II, or a station begins with a sight back in both faces and reads detail alone
beside it; or the file has no readings. The number is that after the last block.",
        example: "refused: block 4: mark: NoSets",
        remedy: "\
See 'station_check words GSI'. A detail survey, a traverse in one face or a levelling
file has no two-face directions. Face II has zenith angles above 200 gon: if none is, the
instrument recorded elevations, or means of both faces.",
    },
    Said {
        names: &["NoSuchStation"],
        meaning: "a number is stated of a station that the file doesn't have, or that has no sets",
        when: "\
'--sets P7=3' or '--targets P7=6' states a number of the station P7 alone, and no station of this
name has sets. Zeros before a name don't count; small letters and capitals differ. The number of the
block is that after the last one.",
        example: "refused: block 43: mark: NoSuchStation",
        remedy: "\
The notes before the line have the name of each station: state the number of one of
them.",
    },
];

/// Faults of readings that are to be sets.
const SET_MARK_FAULTS: &[Explanation] = &[
    Said {
        names: &["ReadTwice"],
        meaning: "a target is read again in one face before the next set begins",
        when: "\
Sets begin at the 1st, 3rd, 5th .. reading of the first target, or of that after sights that stand
outside before them. This reading repeats a target of its set in the same face: a repeated pointing,
a closing sight, a name with other letters in face II, small ones too, another station whose set-up
line is missing, or a set that begins with another target than the first set.",
        example: "refused: block 7: mark: ReadTwice",
        remedy: "\
Leave out of a copy what belongs to no set, and mark that. Of the examples, prepare.py
does, with a log: --closing for closing sights; --blocks for a pointing that the field book calls
bad, a set that was given up, check sights between sets, or orientation sights before the first. If
a target has two names, --rename BLOCK NAME gives blocks the right one, and --capitals writes all
names in capitals. If the sets begin with different targets, put the codes in with 'prepare.py
--codes STATION BLOCKS LAST' of the examples: BLOCKS are the first ones of the sets, as 2,14,26, and
LAST ends them.",
    },
    Said {
        names: &["FaceMissing"],
        meaning: "a target is read in one face only before the next set begins",
        when: "\
Sets begin at the 1st, 3rd, 5th .. reading of the first target, or of that after sights that stand
outside before them. In the set of this reading its target has none in the other face: a reading is
missing, a name is spelled in two ways, the set was broken off, a detail point stands between the
first reading of the sets and the last, or the sets begin elsewhere. Check sights in face I may end
a station, but behind sets of two targets only where detail stands between.",
        example: "refused: block 10: mark: FaceMissing",
        remedy: "\
Compare the set with the field book by 'station_check words GSI', and let prepare.py of
the examples make a copy. If the station has one set, leave out with --blocks what stands before it
or after it, as sights to other targets or detail points. Else --broken-off leaves out a last set
that was broken off, --blocks a lone reading or a check sight, and --rename BLOCK NAME corrects a
misspelled name. Mark that copy.",
    },
    Said {
        names: &["OneTarget"],
        meaning: "a set would have one target",
        when: "\
The first target is read in both faces and then comes again, as an orientation in both faces before
the sets does, or a closing pair. Nothing shows where that set ends. After sets that are read by
faces the target that opens them may be checked in both faces, after sets of two targets only behind
detail; but no other target, and not after sets that are read target by target.",
        example: "refused: block 4: mark: OneTarget",
        remedy: "\
Leave the pair that the field book says is of no set out of a copy, with
'prepare.py --blocks' of the examples, and mark that. It may stand before the sets: where an
orientation to the target that ends the sets was read twice there, the pair at this block ends the
last set, and has to stay.",
    },
    Said {
        names: &["Order"],
        meaning: "a set is read in another order than the first one, or in none",
        when: "\
A set is read by faces, all targets in one face and then in the other, or target by target, both
faces of each before the next; and all sets of a station are read in the same of these two ways. The
set of this reading is not, or names are spelled in another way in one set: then two sets look like
one.",
        example: "refused: block 7: mark: Order",
        remedy: "\
See in the field book where the sets begin. If a reading was added later, leave both
readings of that target in this set out of a copy. If the sets are right as they are, put the codes
in with 'prepare.py --codes STATION BLOCKS LAST' of the examples: BLOCKS are the first ones of the
sets, as 2,14,26, and LAST ends them.",
    },
    Said {
        names: &["EndsElsewhere"],
        meaning: "a set ends with another target than the first set",
        when: "\
All sets of a station end with one target: otherwise readings of one set could pass for those of the
next. The set of this reading ends with another. It was broken off, its last target could not be
seen, or the sets begin elsewhere.",
        example: "refused: block 16: mark: EndsElsewhere",
        remedy: "\
Leave a last set that was broken off out of a copy, with 'prepare.py --broken-off' of
the examples, and mark that. If only the last target is missing, put the codes in with 'prepare.py
--codes STATION BLOCKS LAST', or leave that target out of all sets.",
    },
    Said {
        names: &["OneSet"],
        meaning: "before the only set stands what is no sight to its targets",
        when: "\
There is one set, which begins at this reading. Before it may stand sights to its own targets: all
in face I; or up to three to one target; or, where it is read by faces and has more than two
targets, a pair of each that is sighted. Where it has two targets, only the one that opens it may be
sighted. After other readings, detail points too, it could begin elsewhere: a second set shows that
sets begin there, and nothing else does.",
        example: "refused: block 4: mark: OneSet",
        remedy: "\
Leave the orientation sights, check sights and detail points before the set out
of a copy, with 'prepare.py --blocks' of the examples, and mark that.",
    },
    Said {
        names: &["FirstFace"],
        meaning: "after other readings the first set begins in face II",
        when: "\
The readings fit as sets only if the first set begins with this reading, in face II, and those
before it belong to none. So it is where sets were begun in face II after a sight for orientation.
But it looks the same where the first set begins with those before it, its targets are read in both
faces by turns, I and II, then II and I, and a check follows the last set: then each set would be
shifted. Where nothing but detail stands before them, sets may begin in face II.",
        example: "refused: block 2: mark: FirstFace",
        remedy: "\
See in the field book with which reading the first set begins, and leave what belongs to
no set out of a copy, with 'prepare.py --blocks' of the examples. If it begins with this one, these
are the sights before it. If it begins with one before, they are the checks after the last set, or
a last set that was broken off. Leave out no reading of the first set: the others would be marked,
each set shifted. Mark that copy. Or put the codes in with 'prepare.py --codes STATION BLOCKS
LAST': BLOCKS are the first ones of the sets, as 2,14,26, and LAST ends them.",
    },
    Said {
        names: &["MayBeShifted"],
        meaning: "the sets may begin or end elsewhere",
        when: "\
The readings fit as sets if the first set begins with this reading. But a reading before it is in
face II without its reading in face I; or the sets are read target by target, and before them stands
a pair to another of their targets than the first, or a sight to the one that ends them, where they
have two targets or a pair stands there too, or after them a reading in face II: then each set may
be shifted by some readings. Or the last readings can be taken in two ways, as check sights and as
readings to targets of no set.",
        example: "refused: block 3: mark: MayBeShifted",
        remedy: "\
See in the field book which target opened the first set, and put the codes in with
'prepare.py --codes STATION BLOCKS LAST' of the examples: BLOCKS are the first ones of the sets, as
2,14,26, and LAST ends them. Or leave out of a copy, with --blocks, the orientation and check sights
that the field book tells, before the sets and after them, and mark that.",
    },
    Said {
        names: &["PairAfter"],
        meaning: "a target in both faces follows sets that were read target by target",
        when: "\
The sets of the station end before this reading. It and the next one are of one target, one in each
face, as a set that is read target by target goes on: so the sets may begin with another target. A
set was given up and begun again, one begins further on than the others, or lacks its last target.",
        example: "refused: block 11: mark: PairAfter",
        remedy: "\
See in the field book where the sets begin. If these readings belong to none of them,
leave them out of a copy, with 'prepare.py --blocks' of the examples, and mark that. If the sets
begin with different targets, put the codes in with 'prepare.py --codes STATION BLOCKS LAST': BLOCKS
are the first ones of the sets, as 2,14,26, and LAST ends them.",
    },
    Said {
        names: &["OtherTargets"],
        meaning: "a set has other targets than the first set of its station",
        when: "\
The set begins with this reading, and no more than half of its targets are targets of the first set:
the instrument was set up again and no line says so, or the first set lacks many targets.",
        example: "refused: block 5: mark: OtherTargets",
        remedy: "\
If the instrument was set up again there, mark two copies: in one leave out all blocks
from this one to the next set-up line, with 'prepare.py --blocks' of the examples; in the other all
but these, and name the station with --station NAME. If it is one station, put the codes in with
'prepare.py --codes STATION BLOCKS LAST' of the examples: BLOCKS are the first ones of the sets,
as 2,14,26, and LAST ends them.",
    },
];

/// Faults of a station's name among its targets, and of what is stated of sets.
const STATED_MARK_FAULTS: &[Explanation] = &[
    Said {
        names: &["SightsItself"],
        meaning: "a station reads a target of its own name in face II",
        when: "\
The station has sets, and this is its first reading of a target that has its own name and is read in
face II. So it is in a traverse where the set-up line of the next station is missing: its backsight
is this station. Or the name of a target was entered at the set-up, or that of the station at a
target. Detail that is read in face I alone may have such a name.",
        example: "refused: block 10: mark: SightsItself",
        remedy: "\
See in the field book where the instrument was set up. If it was moved before this
reading, mark two copies: in one leave out all blocks from there to the next set-up line, with
'prepare.py --blocks' of the examples; in the other all but these, and name the station with
--station NAME. If a name is wrong, 'change --rename BLOCK=NAME' gives another in a copy.",
    },
    Said {
        names: &["ByTargets"],
        meaning: "sets are read target by target, and no number of them is stated",
        when: "\
The sets of the station begin with this reading, and both faces of each target follow each other.
Such readings don't show where a set begins: an orientation in both faces, and sets that begin one
target later, look just so. So the number of sets has to be stated, and of a single set that of its
targets too.",
        example: "refused: block 1: mark: ByTargets",
        remedy: "\
Count in the field book the sets that were read to the end, and state them with --sets;
of a single set state how many targets it has with --targets. A set that was broken off doesn't
count. The numbers are those of each station of the file that has sets; where one has another, state
its own beside them: '--sets 4 --sets P7=3'.",
    },
    Said {
        names: &["SetCount"],
        meaning: "a station has another number of sets than is stated",
        when: "\
The sets of the station begin with this reading, and are more or fewer than --sets states. A set
that was broken off was counted, or one that was read once more was not; an orientation in both
faces looks like a part of a set; a set-up line is missing, so that two set-ups are one station;
or the file has the same readings twice. Another number may fit, and its sets be shifted.",
        example: "refused: block 1: mark: SetCount",
        remedy: "\
See in the field book how many sets of this station were read to the end. If that is
another number, state it, of one station as --sets P7=4. If it is that, leave out of a copy what
belongs to none of them, with 'prepare.py --blocks' of the examples, and mark that; or put the codes
in with 'prepare.py --codes STATION BLOCKS LAST': BLOCKS are the first ones of the sets, as 2,14,26,
and LAST ends them.",
    },
    Said {
        names: &["TargetCount"],
        meaning: "the sets of a station have another number of targets than is stated",
        when: "\
The sets of the station begin with this reading, and have more or fewer targets in all than
--targets states. A target has two names in the file, small letters too; a target was left out of
all sets; a set-up line is missing, so that two set-ups are one station; or an orientation or a
check in both faces, before or after a single set that was read target by target, looks like one of
its targets. Another number may fit, and the set have readings that are none of its own.",
        example: "refused: block 1: mark: TargetCount",
        remedy: "\
Compare the names with the field book by 'station_check words GSI'. If it has another
number of targets, state that, of one station as --targets P7=5. 'prepare.py --rename BLOCK NAME' of
the examples gives blocks the right name in a copy, and --capitals writes all names in capitals. If
another station stands among these readings, or a sight before or after the only set, leave its
blocks out of a copy with --blocks, and mark that.",
    },
];

/// Faults of changes of lines.
const CHANGE_FAULTS: &[Explanation] = &[
    Said {
        names: &["NoSuchLine"],
        meaning: "the file has no line of this number",
        when: "\
A change is stated of this line, and the file has fewer. Lines count from 1 as the blocks of
refusals do: a line of blanks has no number.",
        example: "refused: block 62: change: NoSuchLine",
        remedy: "\
See the numbers in the first column of 'station_check words GSI'. All are those of the
field file, whatever is left out before them; a refusal of a copy counts the lines of the copy.",
    },
    Said {
        names: &["LineOrder"],
        meaning: "a change is stated of a line that has one, or of line 0",
        when: "\
Each line may be left out or renamed once, and lines count from 1. On the command line the changes
stand in any order. In the library each is of a line after that of the change before.",
        example: "refused: block 9: change: LineOrder",
        remedy: "\
State one change of this line.",
    },
    Said {
        names: &["ZeroBefore"],
        meaning: "the name for this line begins with a zero",
        when: "\
A name stands in its word with zeros before it, so it is read without them: 007 would be read as 7.
The name 0 alone may be stated.",
        example: "refused: block 9: change: ZeroBefore",
        remedy: "\
State the name without the zeros before it.",
    },
    Said {
        names: &["NoPoint"],
        meaning: "this line cannot have the name of a point",
        when: "\
The line would be no measurement with the name: no block that begins with word 11. It is a code
block, or a line of titles; or it is cut off, or has a word that is none.",
        example: "refused: block 1: change: NoPoint",
        remedy: "\
See the line in 'station_check words GSI'. Of what is no measurement, leave the line
out. To give a code block another word 42, 'prepare.py --rename BLOCK NAME' of the
examples writes a copy.",
    },
];

/// Faults of the bytes and the first rows of a sheet.
const ROW_FAULTS: &[Explanation] = &[
    Said {
        names: &["TooLong"],
        meaning: "the sheet or the table is too long",
        when: "\
The sheet, or as 'table: TooLong' the table, has more than 1048576 bytes, all its bytes counted; a
table of all stations, with --all, has more than 16777216.",
        example: "refused: sheet: TooLong",
        remedy: "\
See that the path names a sheet or a table: none that stations need is so long.",
    },
    Said {
        names: &["Fields"],
        meaning: "this row has the wrong number of columns",
        when: "\
A row of a sheet has five columns, separated by four commas; columns may be empty. A row of a table
has two, the name and the direction, and after them blank ones alone; or it has more, of which one
pair fits or is stated. The first row of a table of two tells what separates them: commas,
semicolons, tabs or blanks. A column that begins with a quote goes on to the next quote, over
separators and ends of lines.",
        example: "refused: sheet row 3: Fields",
        remedy: "\
Look at the separators and quotes of that row. A line of blanks or a comment is a row
too: leave it out. A spreadsheet may have written the sheet with semicolons in place of commas. A
table in UTF-16 has this fault in row 2: save it as plain text, in ASCII or UTF-8. In quotes stands
a name that has the separator, and a direction with a decimal comma if commas separate. If row 1 has
this fault, see that SHEET or TABLE names the right file; if row 2 of a table has it, titles may be
separated in another way than the rows: leave them out. Of a table with more columns state those of
the names and of the directions, as '--columns 2,5'.",
    },
    Said {
        names: &["Kind"],
        meaning: "the first column of a row is no kind that may stand there",
        when: "\
The first column of a row is its kind. The first row is of kind 'sheet'; then come those of kind
'target', then 'set', then 'obs', with at least one of each.",
        example: "refused: sheet row 5: Kind",
        remedy: "\
Put the rows into this order. A line of titles is no row, and stands in no sheet.
If row 1 looks right, the sheet may be in UTF-16: save it as plain text, in ASCII or UTF-8.",
    },
    Said {
        names: &["Version"],
        meaning: "the version of the sheet is neither 1 nor 2",
        when: "\
The second column of the first row is neither '1' nor '2'.",
        example: "refused: sheet row 1: Version",
        remedy: "\
Write 1 there, or 2 for a sheet whose numbers need the wider ranges of version 2.",
    },
    Said {
        names: &["NotEmpty"],
        meaning: "a column that must be empty is not",
        when: "\
Some columns are empty: the last of the sheet row, the second and the last of a target row, and the
third and the last of a set row.",
        example: "refused: sheet row 1: NotEmpty",
        remedy: "\
Delete what stands in that column, and keep its commas.",
    },
    Said {
        names: &["Name"],
        meaning: "a name in the sheet or the table is empty, too long or not printable",
        when: "\
The name of the station or of a target, in the third column of a sheet or the first of a table, has
not 1 to 16 bytes from 20 to 7E (hex).",
        example: "refused: sheet row 3: Name",
        remedy: "\
Write the name as 'station_check list GSI' prints it.",
    },
];

/// Faults of the values and the number of a sheet's rows.
const VALUE_FAULTS: &[Explanation] = &[
    Said {
        names: &["Number"],
        meaning: "a number of the sheet or the table is not written as it should be",
        when: "\
A number of a sheet is written as '0', or as a digit 1 to 9 with further digits, with a leading '-'
if it is negative: with no point, blank, plus or zero before it. A direction of a table has at most
3 digits before its decimal point or comma, a '+' or '-' before them if need be, any number of
decimals, and no unit but 'gon'. An exponent has its sign, as 1.5e-05 or 1.39e+02. With --degrees
there may be minutes and seconds, as 59-04-09.18: of two digits each, below 60, and with any
decimals of the seconds; with --dmmss they stand after the point, as 59.040918. A whole number is no
direction where its decimals, or wrong minutes, stand in the next column.",
        example: "refused: sheet row 3: Number",
        remedy: "\
Write the number so. Directions and orientations of a sheet are whole numbers too: they
are in half units of 0.005 mgon, times the denominator of the sheet. Those of a table are in gon, or
in degrees if --degrees is stated: state it for 59-04-09.18 and the like, with colons, blanks or the
signs of degrees, minutes and seconds (UTF-8) in place of the hyphens. Leave out any unit but 'gon'.
If the row names no target, state the columns of the names and of the directions, as
'--columns 1,2': then a row that is wrong is named, and titles or sums are passed over.",
    },
    Said {
        names: &["Range"],
        meaning: "a number of the sheet or the table is out of its range",
        when: "\
The denominator is 1 to 10^9, directions and orientations are -10^18 to 10^18; in version 2 these
are 1 to 10^12, and -10^21 to 10^21. The number of a set is 1 to 9999, a two-face direction 0 to
79999999, and full turns are -9 to 9. A direction of a table is from -400 to 400 gon, or with
--degrees or --dmmss from -360 to 360 degrees.",
        example: "refused: sheet row 3: Range",
        remedy: "\
See what made the number so large. A two-face direction is in half units of 0.005 mgon.
A sheet with larger numbers than those of version 1 is of version 2. From a larger direction of a
table take full circles of 400 gon, or of 360 degrees.",
    },
    Said {
        names: &["TooMany"],
        meaning: "the sheet has too many rows of a kind",
        when: "\
A sheet has at most 100 target rows, 40 set rows and 4000 obs rows.",
        example: "refused: sheet row 102: TooMany",
        remedy: "\
See that the sheet is of one station. No station of a field file has more.",
    },
    Said {
        names: &["Unfinished"],
        meaning: "the sheet ends before its obs rows",
        when: "\
The last row of the sheet is no obs row, or it has no row. The number is that after the last row.",
        example: "refused: sheet row 1: Unfinished",
        remedy: "\
See whether the sheet was written and copied whole.",
    },
];

/// Faults of a sheet that does not fit its station.
const MATCH_FAULTS: &[Explanation] = &[
    Said {
        names: &["no station"],
        meaning: "the field file has no station of this name, or not one where none is named",
        when: "\
No station of the field file that has sets has the name in the sheet or, for 'compare',
'differences', 'directions', 'report' and 'means', the name STATION; or STATION is left out, and the
file has none or several. Names are compared byte by byte. A job that was recorded without blocks of
the codes 10 and 20, as most jobs are, has no station and an empty list.",
        example: "refused: no station",
        remedy: "\
'station_check list GSI' lists the names. Blanks and small letters count; zeros at the
left of a name in the field file do not. If the list is empty, put the codes into a copy with
'station_check mark GSI' or 'station_check mark --station NAME GSI'.",
    },
    Said {
        names: &["Incomplete"],
        meaning: "there are no means of a station with a target missing in a set",
        when: "\
A target of the station was not observed in each of its sets. Then the adjustment is no mean, and
'means' has none to print.",
        example: "refused: means: Incomplete",
        remedy: "\
Print its directions by 'station_check directions', its residuals by 'station_check
report', or compare the directions of another program by 'station_check compare'. For a sheet,
have another program adjust the station, as adjust.py of the examples, and check its sheet with
'station_check check'.",
    },
    Said {
        names: &["TargetRow"],
        meaning: "the targets of the sheet are not those of the station",
        when: "\
The target of this number, from 1, is another one in the sheet than in the station, or one of them
has none. The targets of a station stand in the order of their first reading.",
        example: "refused: kernel: TargetRow 1",
        remedy: "\
Compare the target rows with 'station_check list GSI': names, order and number.",
    },
    Said {
        names: &["SetRow"],
        meaning: "the sets of the sheet are not those of the station",
        when: "\
The set of this place, from 1, has another number in the sheet than in the station, or one of them
has none. The sets of a station stand in the order in which they were opened.",
        example: "refused: kernel: SetRow 1",
        remedy: "\
Compare the set rows with 'station_check list GSI': numbers and order.",
    },
    Said {
        names: &["ObsRow"],
        meaning: "the observations of the sheet are not those of the station",
        when: "\
The observation of this place, from 1, has another set, target or two-face direction in the sheet
than in the station, or one of them has none. Observations stand by sets, and those of one set as
the targets stand.",
        example: "refused: kernel: ObsRow 4",
        remedy: "\
Compare the obs rows with 'station_check list GSI': set, target and p. If p differs,
the sheet was not made from this field file. A sheet may leave out no observation.",
    },
    Said {
        names: &["Datum"],
        meaning: "the direction of the first target is not 0",
        when: "\
Directions are stated from the first target of the station, so its own is 0.",
        example: "refused: kernel: Datum",
        remedy: "\
Take the direction of the first target from all directions and all orientations. No
residual changes by that.",
    },
];

/// Faults of a sheet's directions and orientations.
const ADJUSTMENT_FAULTS: &[Explanation] = &[
    Said {
        names: &["TargetSum"],
        meaning: "the residuals of a target do not add up to 0",
        when: "\
The residuals of the target of this number, from 1, do not add up to 0. So other directions and
orientations have a smaller sum of squares: the sheet is no least-squares adjustment.",
        example: "refused: kernel: TargetSum 2",
        remedy: "\
Ask for a sheet with exact numbers. One that was rounded has this fault: directions and
orientations are stated times a denominator, so that none need be rounded. Of the examples,
adjust.py writes such sheets. If a program rounds, compare its directions by 'station_check
compare'.",
    },
    Said {
        names: &["SetSum"],
        meaning: "the residuals of a set do not add up to 0",
        when: "\
The residuals of the set of this place, from 1, do not add up to 0. So other directions and
orientations have a smaller sum of squares: the sheet is no least-squares adjustment.",
        example: "refused: kernel: SetSum 1",
        remedy: "\
Ask for a sheet with exact numbers. One that was rounded has this fault: directions and
orientations are stated times a denominator, so that none need be rounded. Of the examples,
adjust.py writes such sheets. If a program rounds, compare its directions by 'station_check
compare'.",
    },
    Said {
        names: &["NotConnected"],
        meaning: "nothing ties some sets and targets to the others",
        when: "\
The sets and targets fall into two parts, with no observation of a target of one part in a set of
the other. Then one part can be turned against the other, and the adjustment has no single answer.",
        example: "refused: kernel: NotConnected",
        remedy: "\
Observe a target of one part in a set of the other, or adjust each part as a station of
its own.",
    },
    Said {
        names: &["Residual"],
        meaning: "a residual is above its limit",
        when: "\
As 'kernel: Residual', the residual of the obs row of this number, from 1, is above the limit that
'--residual' stated. As 'adjust: Residual', some least-squares residual is above what '--residual'
stated for 'compare', 'differences', 'directions' or 'report', or above 10 mgon where none is
stated; and that of the observation of this number, from 1, is the greatest. The observations of a
station are counted in the order in which 'station_check list GSI' has them.",
        example: "refused: kernel: Residual 1",
        remedy: "\
Look at that observation: 'station_check report --csv GSI STATION' has the residuals in
their order, if none is above 10 mgon, and 'station_check list --csv GSI' the directions. One that
stands out has a wrong target or a wrong name in both faces. If many do, the instrument was moved:
or two set-ups stand in one station, or sets are shifted, if 'mark' put in the codes: compare its
notes with the field book. In a sheet, look at the full turns of its row too: a wrong turn is 400
gon. If no better readings are to be had, a wider limit may be stated, up to 10mgon.",
    },
];

/// Faults of a table of directions, and of its comparison.
const TABLE_FAULTS: &[Explanation] = &[
    Said {
        names: &["Unknown"],
        meaning: "a row of the table names no target of the station",
        when: "\
The station has no target of the name in the first column of this row; or, with --all, no station
of the file has the name with which it begins. Names are compared byte by byte. Blanks around a
target's name are no part of it, unless the name has them.",
        example: "refused: table row 2: Unknown",
        remedy: "\
See the names by 'station_check list GSI'. Capitals and small letters differ, and blanks
within a name count; leave out the zeros at the left of a name. Leave out the row of a point that
was not observed from this station.",
    },
    Said {
        names: &["Twice"],
        meaning: "two rows of the table have one name",
        when: "\
An earlier row names the same target, with or without blanks around the name. A table has one
direction for each target, that of the whole adjustment, and not one for each set.",
        example: "refused: table row 2: Twice",
        remedy: "\
Leave out one of the two rows. If they differ, see which of them is the adjusted
direction.",
    },
    Said {
        names: &["Columns"],
        meaning: "more columns of the table fit than one",
        when: "\
The table has more than two columns, and these two, counted from 1, both name each target of the
station, or both have a direction in each row of a target.",
        example: "refused: table: Columns 3 4",
        remedy: "\
State which column names the targets and which has their directions, by their numbers:
'--columns 2,4'. If the two are degrees and minutes, with seconds after them, state --degrees.",
    },
    Said {
        names: &["NoTitle"],
        meaning: "no column of the table has the stated title",
        when: "\
With '--columns TARGETS,DIRECTIONS' the first title is looked for in each row, and the second in the
first row that has it. The number in the line says which has no column: 1 is that of the targets, 2
that of their directions. Titles are compared as they stand, capitals too, without blanks around
them.",
        example: "refused: table: NoTitle 2",
        remedy: "\
Write both titles as one row of the table has them; or state the columns by their
numbers: '--columns 2,4'.",
    },
    Said {
        names: &["TwiceTitled"],
        meaning: "more than one column of the table has the stated title",
        when: "\
The row of titles has this title in two cells. The number in the line says which: 1 is that of the
targets, 2 that of their directions.",
        example: "refused: table: TwiceTitled 1",
        remedy: "\
State the columns by their numbers, from 1: '--columns 2,4'.",
    },
    Said {
        names: &["SameTitle"],
        meaning: "the stated titles of both columns are the same",
        when: "\
The title of targets and that of directions, as '--columns' states them, are of one column.",
        example: "refused: table: SameTitle",
        remedy: "\
State the title of the targets, a comma, and that of their directions.",
    },
    Said {
        names: &["Missing"],
        meaning: "a target of the station has no row in the table",
        when: "\
No row of the table names the target of this number, from 1, in the order in which the field file
first observes the targets of the station.",
        example: "refused: table: Missing 1",
        remedy: "\
Add the row of that target. 'station_check directions GSI STATION' prints all of them
in their order. If it is the first row of the table, see its name and its direction: a first row
that has neither a target's name nor a number after it is read as titles. 'differences' takes a
table of fewer targets. To compare one, check a copy of the field file without the others.",
    },
    Said {
        names: &["NotFound"],
        meaning: "no exact adjustment was found",
        when: "\
'compare', 'differences', 'directions' and 'report' look for the exact adjustment of the station,
and test it. Here none was found, although the observations connect all sets and targets. No station
is known for which this happens.",
        example: "refused: adjust: NotFound",
        remedy: "\
Have another program adjust the station, as adjust.py of the examples, and check its
sheet with 'station_check check'.",
    },
    Said {
        names: &["Apart"],
        meaning: "the table is further from the adjustment than its limit",
        when: "\
After the best rotation some direction of the table is further from the least-squares one than the
limit that '--within' states. If none is stated the row with the most decimals tells it, for some
programs leave out zeros: half of its last decimal and 0.005 mgon, but 0.01 mgon at least. That is
0.055 mgon for 4 decimals, 0.505 for 3, 5.005 for 2, 50.005 for 1; of degrees 0.061, 0.561, 5.561
and 55.561; of seconds 0.16 without decimals and 0.021 with 1. Rows of gon or degrees without
decimals don't count, nor does 0-00-00. The first number in the line is how far, rounded up to 0.001
mgon: the least limit with which the table agrees. The second is the limit that it was held to.",
        example: "refused: compare: Apart 0.015 mgon, limit 0.010 mgon",
        remedy: "\
Print the difference of each target by 'station_check differences': in its last column
a direction that is wrong stands out alone, by its whole error. The protocol of the sets has the
same columns, by 'station_check report --table'. The best rotation halves the error of a single
target, since all others take the other half: 1 mgon shows as 0.500 mgon, and in the differences as
0.500 beside -0.500. If one row stands out, see what the program did: plain means of incomplete
sets, weights and observations that it left out give other directions. If all rows differ by no more
than the program rounds, as where it prints six digits of each number, state the first number of the
line, as '--within 0.015mgon'. If the program prints degrees, state --degrees; if 59.040918 is
59-04-09.18 there, --dmmss.",
    },
];

/// Faults of the files of the command line, of what takes the answer, and of memory.
const END_FAULTS: &[Explanation] = &[
    Said {
        names: &["cannot open"],
        meaning: "a file that the command line names could not be opened",
        when: "\
No file has this path, or a folder of it is missing, or is no folder; or its permissions, or those
of a folder above it, refuse it to you; or the path is longer than the system takes; or the system
has no more open files to give. In the path a '?' stands for each character that cannot be shown.
Nothing was read, and the exit status is 2.",
        example: "cannot open field.gsi",
        remedy: "\
See by 'ls -l' that the file is there and that you may read it: capitals and small
letters differ, and a path without '/' before it is looked for in the folder that you are in. '-' is
a path like any other: name /dev/stdin for standard input.",
    },
    Said {
        names: &["already there"],
        meaning: "a new file was asked for, and something has its name already",
        when: "\
'mark' and 'change' make a copy in a file of its own only where nothing has its name: they write
over nothing. Nothing was read, and the exit status is 2.",
        example: "already there: marked.gsi",
        remedy: "\
Name another file for the copy, or put the old one out of the way,
if it isn't the job itself.",
    },
    Said {
        names: &["write failed"],
        meaning: "what was to be printed could not be written whole",
        when: "\
A write to standard output failed: its disk is full, it is closed, or the program that read it has
left. Or the new file that was asked for could not be made or filled: its folder is missing, or
closed to you, or its disk is full. Some of the first bytes may have been written.",
        example: "refused: write failed",
        remedy: "\
See that the output has room and is read to its end, and run it again. What was written
is not whole: delete it.",
    },
    Said {
        names: &["out of memory"],
        meaning: "there was no memory",
        when: "\
The system refused memory. Nothing was printed, and nothing is said of the files.",
        example: "refused: out of memory",
        remedy: "\
Run it again with more memory.",
    },
];
