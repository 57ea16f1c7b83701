//! What the words of a command line ask for: between them and a request.
//!
//! | File | Has |
//! |---|---|
//! | `asked` | `asked_for`: the request of a command line, or why there is none |
//! | `request` | the types of a request |
//! | `commands`, `arguments`, `help` | the grammar as `clap` builds it, and its help |
//! | `subcommands`, `found` | the request of each subcommand, by the words after its name |
//! | `stated_columns` | the columns of a table that a text states |
//! | `count_option` | the options that state numbers of sets or targets of stations |
//! | `stated_changes` | the options that state changes of lines |
//! | `stated_notes` | the options that state what a report notes |
//! | `mistakes`, `limit_option` | the mistakes of words that the grammar takes, and their texts |
//! | `laws` | a law of what is stated |
#![tactic(auto)]

mod arguments;
mod asked;
mod commands;
mod count_option;
mod found;
mod help;
pub mod laws;
mod limit_option;
mod mistakes;
mod request;
mod stated_changes;
mod stated_columns;
mod stated_notes;
mod subcommands;

pub use asked::asked_for;
pub use request::{
    AllTableText, Asked, ColumnsStated, Digests, FieldStation, FieldStations, FormStated, ListForm,
    Request, SheetCheck, StationText, StationsBeside, StationsText, TableBeside, TableText,
};
