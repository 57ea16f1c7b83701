//! What is answered of all stations of a field file: one text, of those that each alone has.
//!
//! `answer_of_all` reads a field file and answers, of each of its stations, the text that
//! `station_answers::answer_of` answers of it alone, one after another in the order of the file;
//! `run_answer_of_all` does the same as a command: the text, the line of a refusal, which names its
//! station, and the exit status. How the texts make one is an `Arrangement`.
#![tactic(auto)]

mod answering;
mod arrangement;
mod columns;
mod each;
mod note;
mod part;
mod refusal;
mod table;

pub use answering::{NotedText, answer_of_all, run_answer_of_all};
pub use arrangement::Arrangement;
pub use part::{PartAsked, PartText};
pub use refusal::{LONGEST_STATION_REFUSAL, StationRefusal, StationRefusalText, refusal_text};
pub use table::{run_table_answer_of_all, table_answer_of_all};
