//! What `--help` says: of the program, and of each command.

pub const ABOUT: &str = "Prints least-squares directions of a GSI field file, and checks yours";

pub const LONG_ABOUT: &str = "\
Prints the least-squares directions of a GSI field file, and checks yours against them.

A total station writes the sets of directions that it measured to a field file, in Leica's GSI
format. Your program adjusts them, and prints a table with one direction for each target: 'compare'
says how far it is from the least-squares directions, 'differences' which target is off. Or your
program states exact fractions in a sheet, which 'check' accepts only if they are exactly right.
'directions' and 'report' print the adjustment itself. A refusal names the first fault, and
'explain' says what to do.

Units: 'list' prints two-face directions in half units of 0.005 mgon, of which a circle of 400 gon
has 80000000, and face differences in units of 0.01 mgon; 'check' prints residuals in half units;
'compare' counts units of 0.001 mgon. A limit is stated in mgon, as 0.3mgon, or in these units.";

pub const STATUSES: &str = "\
Without a command, station_check prints the words of the field file on standard input.

GSI, TABLE and SHEET are paths. '-' is a path like any other, and not standard input: name
/dev/stdin.

Exit status:
  0  it agrees, it is accepted, or all was written
  1  refused: the first fault is named on standard error
  2  a mistake on the command line, or a file that cannot be opened

Examples:
  station_check compare field.gsi S1 table.csv
  station_check differences field.gsi S1 table.csv
  station_check directions field.gsi S1 > table.csv
  station_check report field.gsi S1 > report.txt
  station_check report --csv field.gsi S1 > report.csv
  station_check check field.gsi sheet.csv
  station_check means field.gsi S1 > sheet.csv
  station_check mark job.gsi marked.gsi
  station_check list field.gsi
  station_check < field.gsi
  gunzip -c field.gsi.gz | station_check list /dev/stdin
  station_check explain TwoC";

pub const COMPARE_ABOUT: &str = "\
Compares a table of directions with a field file, whatever program printed it";

pub const COMPARE_LONG_ABOUT: &str = "\
Compares the directions that any program printed, complete sets or not, with the least-squares
directions of a station in a field file: least over all directions, orientations and full turns.

The table agrees if one rotation brings each of its directions within N units of 0.000001 gon (0.001
mgon) of the least-squares one. If not, the first fault is named: of the field file, then of the
table, then of the adjustment, in which no residual may be above 10 mgon, or the limit of
--residual; and last, how far the directions are apart.

TABLE is text with a row for each target of the station, in any order: its name and its direction.
Commas, semicolons, tabs or blanks separate the two; the first row decides which, and may be one of
titles. Of more columns the one pair that fits is read, and a note tells which; or those of
--columns. A direction is in gon, from -400 to 400: a sign or none, at most 3 digits, a decimal
point or comma with decimals if it has any, and an exponent as e-05 if it has one. Nine decimals are
read; the others count as a rounding. If commas separate, a decimal comma stands in quotes. The
first direction need not be 0.

With --degrees a direction is in degrees, from -360 to 360: with minutes and seconds, as
59-04-09.18, or with colons, blanks or the three signs in the place of the hyphens; or with
decimals, as 59.069217. With --dmmss it has minutes and seconds after the point, as 59.040918.
Minutes and seconds have two digits each.

With --all the second word is the path of one table of all stations, as 'directions --all' prints
it: each row begins with the name of its station.

STATION is a name of the field file, byte for byte, without the zeros on its left. Write '--' before
a name that begins with '-'. Of a file with one station it may be left out; not of a pipe, which
can't be read twice.";

pub const COMPARE_EXAMPLE: &str = "\
Exit status:
  0  it agrees: the line of the agreement is on standard output
  1  refused: the first fault is named on standard error
  2  a mistake on the command line, or GSI or TABLE cannot be opened

Example:
  station_check compare field.gsi S1 table.csv

  agrees S1: 2 sets, 2 targets, within 0.000 mgon, limit 0.010 mgon, greatest residual 0.005 mgon";

pub const TABLE_HELP: &str = "The table of directions, text of two columns or more";

pub const DIFFERENCES_LONG_ABOUT: &str = "\
Prints a row for each target of a station, complete sets or not: the direction that TABLE states,
the least-squares direction, and the difference of the two after one rotation. So it shows which
target makes 'compare' refuse a table. It is no verdict: however far apart they are, the status is
0. But a residual above 10 mgon, or the limit of --residual, is a fault.

The rotation is the one that makes the largest of the differences smallest: half of the gap between
the least and the greatest lies on each side of 0. If one target is off by 1 mgon and all others
agree, the one has 0.500 and the others -0.500, or the other way round. The last column is that
difference less the median of all, of two in the middle the lower: there the one has 1.000, and the
others are about 0.

The first row has the titles. Directions are in gon: the stated ones exact, with 6 decimals, or all
with 9 if one needs more; the least-squares ones counted from the first target, with 6. What is
stated in degrees is rounded to the ninth decimal of a gon. Differences are in mgon with 3 decimals.
Rounded values are rounded once, from the exact fraction, and halves go up.

TABLE is read as 'compare' reads it, also with --all, where each row begins with the name of its
station. It may lack targets if it has two or more: a target without a row has the least-squares
direction alone, and takes no part in the rotation and the median.

STATION is a name of the field file, byte for byte, without the zeros on its left. Write '--' before
a name that begins with '-'. Of a file with one station it may be left out; not of a pipe, which
can't be read twice.";

pub const DIFFERENCES_EXAMPLE: &str = "\
Exit status:
  0  all rows were written
  1  refused: the first fault is named on standard error, and nothing was written, unless a write
     failed
  2  a mistake on the command line, or GSI or TABLE cannot be opened

Example:
  station_check differences field.gsi S1 table.csv

  target,stated,least squares,difference,from the median
  A,100.000100,0.000000,0.015,0.030
  B,150.000100,50.000030,-0.015,0.000";

pub const DIRECTIONS_LONG_ABOUT: &str = "\
Prints the least-squares directions of a station, complete sets or not, as a table: least over all
directions, orientations and full turns. A residual above 10 mgon, or the limit of --residual, is a
fault.

Each row is NAME,DIRECTION. Targets come in the order of their first readings. Directions are in
gon, from 0 up to 400; the first is 0. They are rounded to K decimals, and the middle of two goes
up. 'compare' reads such a table.

With --all each row is STATION,NAME,DIRECTION, after a row of titles, station after station.

STATION is a name of the field file, byte for byte, without the zeros on its left. Write '--' before
a name that begins with '-'. Of a file with one station it may be left out; not of a pipe, which
can't be read twice.";

pub const DIRECTIONS_EXAMPLE: &str = "\
Exit status:
  0  the whole table was written
  1  refused: the first fault is named on standard error, and nothing was written, unless a write
     failed
  2  a mistake on the command line, or GSI cannot be opened

Example:
  station_check directions field.gsi S1 > table.csv

  A,0.000000
  B,50.000030

  station_check directions --all field.gsi > table.csv";

pub const REPORT_LONG_ABOUT: &str = "\
Prints the protocol of a station's sets, complete or not, as text of fixed columns for the files of
an office: by set and target what was read in both faces, the mean, 2c and 2i; the zenith angles,
and of each target their mean with its standard deviation; the adjusted directions; the residuals,
targets as rows and sets as columns; the greatest of them; and the standard deviation of one
two-face direction with its degrees of freedom. They are those of the least-squares directions,
orientations and full turns. A residual above 10 mgon, or the limit of --residual, is a fault.

With --table each direction of a table stands there too, in gon also if --degrees reads degrees,
with its difference from the adjusted one and from the median, as 'differences' prints them, the
limit, and whether the table agrees, as 'compare' says it. If their directions are apart the report
is printed whole, and the status is 1.

With --csv the observations are printed as rows for other programs: titles, and for each its
station, set and target, the readings, the two-face direction, 2c, 2i, the adjusted direction, the
residual, which is the adjusted direction less the two-face one, and the zenith angles of both faces
and their mean. Direction and residual add up to the adjusted direction, to the last digit, but for
a full circle. Values of a target or of the whole station are left out: 'directions' has the
adjusted directions. Below stand rows 'recorded' of instrument, date and time, as the field file has
them. With --decimal-comma too, semicolons stand between cells and commas in numbers, as a
spreadsheet reads them that is set to German or French.

With --all the protocol of each station begins a page, after a form feed but for the first; with
--csv the titles and what was recorded stand once.

Directions are in gon. Face differences are in mgon with 2 decimals, residuals and the standard
deviation in mgon with 3, each rounded from the exact fraction; the middle of two goes up. A mean is
counted from that of the first row of its set. A dash stands where a set has no direction of a
target. No line is wider than 78 bytes, but for those of paths, notes and what is missing. A path
stands as sha256sum prints it, a line feed as '\\n', but other control bytes as '\\x1b'.

STATION is a name of the field file, byte for byte, without the zeros on its left. Write '--' before
a name that begins with '-'. Of a file with one station it may be left out; not of a pipe, which
can't be read twice.";

pub const REPORT_EXAMPLE: &str = "\
Exit status:
  0  the whole report was written, and the table agrees if one is named
  1  refused: the first fault is named on standard error, and nothing was written, unless a write
     failed; or, with --table, the whole report was written and the directions are apart
  2  a mistake on the command line, or GSI or TABLE cannot be opened

Example:
  station_check report --sha256 --table table.csv field.gsi S1 > report.txt

  station_check report --csv field.gsi S1 | cut -d , -f 1-3,9-13

  station,set,target,adjusted,residual,zenith one,zenith two,zenith mean
  S1,1,A,0.000025,-0.005,100.000000,299.999980,100.000010";

pub const CHECK_LONG_ABOUT: &str = "\
Checks a sheet against the station of its name in a field file.

The sheet is accepted if its observations are exactly the two-face directions of its station in the
field file, every face difference is within its limit, and, with the sheet's full turns, no other
directions and orientations give a smaller sum of squared residuals. If not, the first fault is
named: of the field file, then of the sheet, then of the comparison.

With --residual no residual of an accepted sheet is above the limit, and no other full turns give a
smaller sum either.

The greatest residual is printed as G/D: the residual times D in half units (0.005 mgon), and the
denominator D of the sheet.";

pub const CHECK_EXAMPLE: &str = "\
Exit status:
  0  accepted: the line of the acceptance is on standard output
  1  refused: the first fault is named on standard error
  2  a mistake on the command line, or GSI or SHEET cannot be opened

Example:
  station_check check --residual 1mgon field.gsi sheet.csv

  accepted S1: 2 sets, 2 targets, 4 directions, greatest residual 4/4";

pub const MEANS_LONG_ABOUT: &str = "\
Prints the adjusted sheet of a station whose sets are complete: its directions and orientations are
means. The sheet is one that 'check' accepts for the same field file and limits, if no residual
limit is stated.

STATION is a name of the field file, byte for byte, without the zeros on its left. Write '--' before
a name that begins with '-'. Of a file with one station it may be left out; not of a pipe, which
can't be read twice.";

pub const MEANS_EXAMPLE: &str = "\
Exit status:
  0  the whole sheet was written
  1  refused: the first fault is named on standard error, and nothing was written, unless a write
     failed
  2  a mistake on the command line, or GSI cannot be opened

Example:
  station_check means field.gsi S1 > sheet.csv";

pub const MARK_ABOUT: &str = "\
Prints a copy of a job without codes, in which codes begin and end the sets";

pub const MARK_LONG_ABOUT: &str = "\
Prints a copy of a field file that was recorded without codes, and puts lines with three codes in:
10 begins a station, 20 begins a set, 30 ends a set. Nothing else is changed. The other commands
read the copy.

A station begins at each set-up line, as instruments record one: a block that begins with the point
number and has the word 84, 85, 86 or 88, and no direction, no vertical angle and no distance. With
--same-set-up a set-up line with the name of the station that is running begins nothing; with
--station-code N a code block N with a word 42 begins a station of that name. A file without any of
these is one station, which --station names. A set begins at the 1st, 3rd, 5th .. reading of its
first target, which is read once in each face. Readings before the first set and after the last
stay outside of the sets. What could be read in two ways is refused at a block.

Each station is judged by itself. If one isn't recognized, nothing is printed, and each station is
told with its fault; with --others the readings of these stations stay outside of the sets, and the
others are marked.

Sets that were read target by target, both faces of each before the next, don't show where they
begin: state with --sets how many were read to the end, and of a single set with --targets how many
targets it has, for all stations as --sets 4 or for one as --sets P7=3. Count them in the field
book; another number is refused.

What was found of each station is told on standard error: compare it with the field book.";

pub const MARK_EXAMPLE: &str = "\
Exit status:
  0  the whole copy was written
  1  refused: the stations are told and the first fault is named on standard error, and nothing was
     written, unless a write failed
  2  a mistake on the command line, or GSI cannot be opened, or COPY is there already

Example:
  station_check mark job.gsi marked.gsi

  note: station P7: 4 sets, 6 targets, from A to F; 1 reading before them and 2 after stay outside
  note: compare this with the field book";

pub const ALL_LONG_HELP: &str = "\
Answer all stations of the file, in its order, in the place of one: of each what its own
command prints. Nothing is printed unless each has an answer; the refusal is that of the
first that has none, and 'note: station NAME' names it";

pub const STATION_HELP: &str = "The name of the station [default: the only one of the file]";

pub const STATION_OR_TABLE_HELP: &str = "\
The name of the station, if the file has several; else the path of the table";

pub const STATION_OR_TABLE_LONG_HELP: &str = "\
The name of the station. Where no word follows it is the path of the table, and the
station is the only one of the file; with --all it is that of one table of all stations";

pub const COPY_LONG_HELP: &str = "\
The file that the copy goes to, in the place of standard output. It is made only where
nothing has its name yet, and only where there is a copy: after a refusal there is none";

pub const STATED_NAME_LONG_HELP: &str = "\
The name of the station, of a file without set-up lines: 1 to 16 characters of
ASCII, from the blank to '~'. Zeros on the left are no part of it";

pub const SAME_SET_UP_LONG_HELP: &str = "\
Go on with a station at a set-up line that has its name again, as where a height or a
coordinate was mended at the same set-up";

pub const AGAIN_LONG_HELP: &str = "\
Take a name that comes again for another set-up: the second station at P7 is called P7-2,
the third P7-3. Without it a name that comes again is refused";

pub const STATION_CODE_LONG_HELP: &str = "\
Begin a station at each code block N with a word 42, which names the station. Zeros on
the left of N are no part of it; 10, 20 and 30 are the codes that are put in";

pub const SETS_HELP: &str = "\
How many sets were read to the end: N at each station, NAME=N at one";

pub const SETS_LONG_HELP: &str = "\
How many sets were read to the end, 1 to 40: N at each station with sets, or NAME=N at
the station of this name. It may be stated several times: --sets 4 --sets P7=3 --sets P8=2
is 3 sets at P7, 2 at P8, and 4 at each other station. NAME is all before the last '='.
Sets that were read target by target are taken only so. A set that was broken off doesn't
count";

pub const TARGETS_HELP: &str = "\
How many targets these sets have: N at each station, NAME=N at one";

pub const TARGETS_LONG_HELP: &str = "\
How many targets these sets have, 1 to 100: N at each station with sets, or NAME=N at
the station of this name. It may be stated several times, as --sets. A single set that was
read target by target is taken only so";

pub const OTHERS_LONG_HELP: &str = "\
Leave the readings of stations that are not recognized outside of the sets, and mark the
others. A name that comes again is refused all the same, unless --again is stated";

pub const CHANGE_ABOUT: &str = "\
Prints a copy of a field file in which just the stated lines are left out or renamed";

pub const CHANGE_LONG_ABOUT: &str = "\
Prints a copy of a field file in which just the stated lines are changed: --leave-out N leaves line
N out, --rename N=NAME gives its point this name. Each other byte is the same, and the field file
stays as it is. Both may be stated any number of times and in any order, each line once.

N counts lines as refusals count blocks: from 1, without lines of blanks. All numbers are those of
the field file, whatever is left out before them. Lines may be such that no other command reads
them. A renamed line has to be a measurement: a block that begins with a word 11.

Each change is told on standard error. Why a line is changed, the field book has to say.";

pub const CHANGE_EXAMPLE: &str = "\
Exit status:
  0  the whole copy was written
  1  refused: the first change that cannot be made is named on standard error, and nothing was
     written, unless a write failed
  2  a mistake on the command line, or GSI cannot be opened, or COPY is there already

Example:
  station_check change --leave-out 17 --rename 9=P2 field.gsi field_changed.gsi

  note: line 9 has the name P2
  note: line 17 left out";

pub const LEAVE_OUT_LONG_HELP: &str = "\
Leave out line N with what ends it. Lines count from 1 as blocks in refusals, without
lines of blanks; it may be stated several times: --leave-out 17 --leave-out 18";

pub const RENAME_LONG_HELP: &str = "\
Give the point of line N this name, filled with zeros from the left: at most 8 characters
in a line of GSI-8, 16 in one of GSI-16, and no zero at its beginning. It may be stated
several times: --rename 9=P2 --rename 12=P2";

/// What may be stated as a line that is left out.
pub const LEFT_OUT_LINES: &str = "state the number of a line, from 1";

/// What may be stated as a line whose point has another name.
pub const RENAMED_LINES: &str = "\
state the number of a line, from 1, '=', and a name of 1 to 16 characters, from the blank to '~'";

pub const DATE_LONG_HELP: &str = "\
Print this date in the head of the report, as it is typed. The program asks no clock";

pub const LANGUAGE_LONG_HELP: &str = "\
Write the report in English (en), in German (de) or in French (fr). The line of a verdict
is in English in all of them, and numbers have points";

pub const NOTE_LONG_HELP: &str = "\
Print a line in the head of the report: KEY, and in the column of the head TEXT, as it is
typed. It may be stated several times, and the lines stand in this order:
--note 'Project=Dam, epoch 7' --note Observer=Huber. KEY is what stands before the first
=, with blanks one at a time and none at an end, and no label that the head has of its own";

pub const PAGES_LONG_HELP: &str = "\
Divide the report into pages of 60 lines at most. Each but the first begins with a form
feed, and says again of what it is";

/// What may be stated as the language of a report.
pub const LANGUAGES: &str = "state en for English, de for German or fr for French";

/// What may be stated as a note.
pub const NOTES: &str = "\
state KEY=TEXT, where KEY is not empty, has blanks one at a time and none at an end, and is no \
label that the head has of its own, as 'Station'";

pub const ROWS_ALONE: &str = "\
'--csv' prints rows alone: not with '--table', how it is read, '--within', '--language', \
'--pages', or what a report notes";

pub const COMMA_ALONE: &str = "\
'--decimal-comma' says how rows are written: print rows with '--csv'";

pub const JSON_WITH_POINTS: &str = "\
'--json' writes numbers with points: not with '--decimal-comma'";

pub const WITHIN_ALONE: &str = "\
'--within <LIMIT>' limits how far a table may be off: name it with '--table <TABLE>'";

pub const FORM_ALONE: &str = "\
'--degrees', '--dmmss' and '--columns' say how a table is read: name it with '--table <TABLE>'";

/// What may be stated as the columns of a table.
pub const NO_COLUMNS: &str = "\
two columns by their numbers from 1 or by their titles, with a comma between, as 2,6 or Target,Hz";

/// What is said of a text that is no number of sets.
pub const SETS_NUMBERS: &str = "state a whole number from 1 to 40, or NAME=N for one station";

/// What is said of a text that is no number of targets.
pub const TARGETS_NUMBERS: &str = "state a whole number from 1 to 100, or NAME=N for one station";

/// What is said after a number of sets that is none of those.
pub const NOT_IN_SETS: &str = " is not in 1..=40";

/// What is said after a number of targets that is none of those.
pub const NOT_IN_TARGETS: &str = " is not in 1..=100";

/// What is said of the second number of each station.
pub const EACH_TWICE: &str = "another number is stated for all stations before it";

/// What is said of the second number of one station.
pub const ONE_TWICE: &str = "another number is stated for this station before it";

/// What is said of a code of the stations that may not be one.
pub const NO_CODE: &str = "\
a code has 1 to 16 characters of ASCII, and is none of 10, 20 and 30, which 'mark' puts in";

pub const ALL_ALONE: &str = "\
'--all' is of all stations: not with a STATION, '--table', how it is read, '--within' or \
'--sha256'";

/// What is said where the grammar has taken words that lack an argument.
pub const MISSING: &str = "an argument is missing";

pub const TABLE_OF_ALL_ALONE: &str = "\
'--all' takes one table of all stations in the place of STATION: not with another TABLE, '--json' \
or '--sha256'";

pub const NO_NAME: &str = "\
the name of a station has 1 to 16 characters of ASCII, from the blank to '~'";

pub const LIST_LONG_ABOUT: &str = "\
Lists the stations of a field file that have sets. Under each station stand its observations: the
set, the target, the two-face direction p in half units (0.005 mgon), and the face differences in
units of 0.00001 gon (0.01 mgon): 2c, the direction in face II, less that in face I, less 200 gon;
and 2i, both zenith angles together, less 400 gon.

With --csv the same is printed for other programs: a row of titles, and a row for each observation
with its station, set and target, the direction in gon and the face differences in mgon. With
--decimal-comma too, semicolons stand between cells and commas in numbers, as a spreadsheet reads
them that is set to German or French.";

pub const LIST_EXAMPLE: &str = "\
Exit status:
  0  the whole list was written
  1  refused: the first fault is named on standard error, and nothing was written, unless a write
     failed
  2  a mistake on the command line, or GSI cannot be opened

Example:
  station_check list field.gsi

  station S1: 2 sets, 2 targets, 4 directions
  set 1, target A: p 6, 2c 6, 2i -2

  station_check list --csv field.gsi > list.csv

  station,set,target,direction,2c,2i
  S1,1,A,0.000030,0.06,-0.02";

pub const WORDS_LONG_ABOUT: &str = "\
Prints the words of a field file, one a line: the number of the block, the number of the word in
its block, the index, the four bytes of information, and the sign with the content.

A line that holds nothing but blanks is skipped and has no number. At the first fault the words
of all blocks before it are printed, and the fault is named on standard error.";

pub const WORDS_EXAMPLE: &str = "\
Exit status:
  0  all words were written
  1  refused: the first fault is named on standard error
  2  a mistake on the command line, or GSI cannot be opened

Example:
  station_check words field.gsi

  1 1 41 0001 +00000010
  1 2 42 .... +000000S1";

pub const EXPLAIN_LONG_ABOUT: &str = "\
Explains a fault that the line of a refusal names: when it comes, a line that names it, and what to
do. Without FAULT, the names of all faults are printed, one a line.

FAULT is the name as the line has it, in capitals or small letters. The whole line of a refusal
works too, without quotes.";

pub const EXPLAIN_EXAMPLE: &str = "\
Exit status:
  0  the explanation, or all names, were written
  1  refused: a write failed, or there was no memory
  2  a mistake on the command line: no fault has this name; names near it are on standard error

Example:
  station_check explain block 4: TwoC

  TwoC: the face difference 2c of a pair is above its limit";

pub const TWO_C_HELP: &str = "The limit of 2c, as 0.3mgon";

pub const TWO_C_LONG_HELP: &str = "\
The limit of 2c, as 0.3mgon: to 10000mgon, by 0.01; or in units of 0.01 mgon: 0 to
1000000. The face difference 2c of a target is its
direction in face II, less that in face I, less 200 gon";

pub const TWO_I_HELP: &str = "The limit of 2i, as 0.3mgon";

pub const TWO_I_LONG_HELP: &str = "\
The limit of 2i, as 0.3mgon: to 10000mgon, by 0.01; or in units of 0.01 mgon: 0 to
1000000. The face difference 2i of a target is
both its zenith angles together, less 400 gon";

pub const RESIDUAL_HELP: &str = "\
The limit of residuals, as 0.3mgon [default: 10mgon, of 'check' none]";

pub const RESIDUAL_LONG_HELP: &str = "\
The limit of residuals, as 0.3mgon: to 10mgon, by 0.005; or in half units of 0.005 mgon:
0 to 2000. If none is stated it is 10mgon, but 'check' then has none";

pub const WITHIN_HELP: &str = "\
How near the directions must be, as 0.05mgon [default: by the decimals]";

pub const WITHIN_LONG_HELP: &str = "\
How near the directions must be, as 0.05mgon: to 1000mgon, by 0.001; or in units of
0.001 mgon: 0 to 1000000. If none is stated it is 0.01mgon; of a table with fewer than
5 decimals, half of the last one and 0.005mgon, as 0.055mgon for 4 decimals; of degrees
alike, as 0.061mgon for 4 decimals and 0.021mgon for seconds with 1. Its row with the most
decimals counts";

pub const DEGREES_LONG_HELP: &str = "\
Read the directions of the table in degrees, and not in gon: with minutes and seconds, as
59-04-09.18, or with decimals, as 59.069217";

pub const DMMSS_LONG_HELP: &str = "\
Read the directions of the table in degrees with two digits of minutes and two of seconds
after the point: 59.040918 is 59-04-09.18";

pub const COLUMNS_LONG_HELP: &str = "\
Read these columns of the table: that of the targets and that of their directions, by
their numbers from 1, as 2,6, or by their titles in the first row that has them, as
Target,Hz. A title that is a whole number can't be stated. Where no columns are stated, a
table of more than two is read by the one pair of them that fits, and a note tells which";

/// What may be stated as a limit of face differences.
pub const FACE_LIMITS: &str = "\
state mgon, as 0.3mgon: from 0mgon to 10000mgon, by 0.01;
or units of 0.01 mgon: from 0 to 1000000";

/// What may be stated as a limit of residuals.
pub const RESIDUAL_LIMITS: &str = "\
state mgon, as 0.3mgon: from 0mgon to 10mgon, by 0.005;
or half units of 0.005 mgon: from 0 to 2000";

/// What may be stated as a limit of the directions of a table.
pub const TABLE_LIMITS: &str = "\
state mgon, as 0.05mgon: from 0mgon to 1000mgon, by 0.001;
or units of 0.001 mgon: from 0 to 1000000";

pub const DECIMALS_LONG_HELP: &str = "\
How many decimals of a gon a direction is written with: 1 to 8. The sixth is of
0.001 mgon";

pub const CSV_LONG_HELP: &str = "\
Print rows for other programs, as CSV with a row of titles: directions in gon with 6
decimals, face differences in mgon with 2, residuals in mgon with 3";

pub const DECIMAL_COMMA_HELP: &str = "\
Write rows for a spreadsheet that is set to German or French";

pub const DECIMAL_COMMA_LONG_HELP: &str = "\
Write semicolons between cells and commas in numbers, for a spreadsheet that is set to
German or French: there -0.134 is read as -134. 'list' and 'report' need '--csv'";

pub const JSON_LONG_HELP: &str = "\
Print each target as a JSON object on a line of its own, and no titles. It has what the
row has, digit by digit, and null for an empty field, under the keys target, stated,
least_squares, difference and from_median";

pub const SHA256_LONG_HELP: &str = "\
Print the SHA-256 digest of each file after the answer. They are those of the bytes that
were read and judged, each beside the path as it was given, as sha256sum prints them:
'sha256sum -c' tells later whether a file is still the same. If nothing is accepted,
agrees or is reported, none is printed";

pub const STATED_TABLE_LONG_HELP: &str = "\
A table of directions, as 'compare' reads it, which stands beside the adjusted ones with
the differences and whether it agrees";
