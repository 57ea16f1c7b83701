//! What no clause says of reports: stations worked by hand and in exact fractions, with tables
//! beside them and as rows, from readers in pieces and into rooms of each size; ends that fail once
//! and go on.

mod rows;
mod texts;
mod with_table;
mod worked;
