//! What each byte of a text does while its rows are read: the machine of `csv`.
//!
//! `csv`'s reader begins with tables of its machine, of a cell for each state and byte: 135,000
//! instructions, more than all else that a station's table takes. It hands out the fields of a row,
//! and not where the row stands. Here the same machine looks at each byte as it comes.
ghost use Rattle.std.specs.Prelude.{◌≡◌};
ghost use Rattle.csv.specs.Machine as machine;
ghost use Rattle.csv.specs.Reading.{is_bom, strip_bom};
ghost use Rattle.csv.specs.declared.parser.Terminator.TheVariants as terminator;
ghost use Rattle.row_forms.specs.ByteSteps as spec;

/// What stands around a field that holds separators or line ends; in it two stand for one.
const QUOTE: u8 = b'"';

/// Where the next byte of a text stands.
#[derive(Clone, Copy)]
pub enum Place {
    /// Before a row, where line ends are passed over.
    RowStart,
    /// Where a field begins that is not the first of its row.
    FieldStart,
    /// In a field, and in no quotes.
    InField,
    /// In quotes.
    InQuotes,
    /// After a quote in quotes: it ended them, or a second one follows.
    AfterQuote,
}

/// What a byte does.
#[derive(Clone, Copy)]
pub enum Step {
    /// It is no byte of a field, and leads here.
    Skip(Place),
    /// It is the next byte of the field, and leads here.
    Keep(Place),
    /// It ends the field.
    EndField,
    /// It ends the field and the row.
    EndRow,
}

/// Whether a byte ends a line.
fn ends_line(byte: u8) -> bool
    ensures { result ≡ machine.ends_with terminator.CRLF byte }
{
    byte == b'\r' || byte == b'\n'
}

/// What a byte does in a field, and in no quotes.
fn step_in_field(separator: u8, byte: u8) -> Step
    ensures { spec.IsStep result (machine.in_field (spec.config_with separator) byte) }
{
    if byte == separator {
        Step::EndField
    } else if ends_line(byte) {
        Step::EndRow
    } else {
        Step::Keep(Place::InField)
    }
}

/// What a byte does where a field begins.
fn step_at_field(separator: u8, byte: u8) -> Step
    ensures { spec.IsStep result (machine.start_field (spec.config_with separator) byte) }
{
    if byte == QUOTE {
        Step::Skip(Place::InQuotes)
    } else {
        step_in_field(separator, byte)
    }
}

/// What a byte does before a row.
fn step_at_row(separator: u8, byte: u8) -> Step
    ensures { spec.IsStep result (machine.start_record (spec.config_with separator) byte) }
{
    if ends_line(byte) {
        Step::Skip(Place::RowStart)
    } else {
        step_at_field(separator, byte)
    }
}

/// What a byte does that stands at this place of a text whose fields are separated so.
pub fn step_at(place: Place, separator: u8, byte: u8) -> Step
    ensures { spec.IsStep result
        (machine.step (spec.config_with separator) (spec.state_of place) byte) }
{
    match place {
        Place::RowStart => step_at_row(separator, byte),
        Place::FieldStart => step_at_field(separator, byte),
        Place::InField => step_in_field(separator, byte),
        Place::InQuotes if byte == QUOTE => Step::Skip(Place::AfterQuote),
        Place::InQuotes => Step::Keep(Place::InQuotes),
        Place::AfterQuote if byte == QUOTE => Step::Keep(Place::InQuotes),
        Place::AfterQuote => step_in_field(separator, byte),
    }
}

/// Whether a place is in a row, which ends with the text where the text ends there.
pub fn is_in_row(place: Place) -> bool
    ensures { result ≡ machine.ends_at_end (spec.state_of place) }
{
    match place {
        Place::RowStart => false,
        Place::FieldStart | Place::InField | Place::InQuotes | Place::AfterQuote => true,
    }
}

/// Whether three bytes are a byte order mark.
fn is_mark(first: u8, second: u8, third: u8) -> bool
    ensures { result ≡ is_bom first second third }
{
    first == 0xEF && second == 0xBB && third == 0xBF
}

/// A text without the byte order mark at its start.
#[tactic(auto, unfolding(csv::specs::Reading::strip_bom))]
pub fn without_mark(text: &[u8]) -> &[u8]
    ensures { result.now ≡ strip_bom text.now }
{
    match text {
        [first, second, third, rest @ ..] if is_mark(*first, *second, *third) => rest,
        _ => text,
    }
}
