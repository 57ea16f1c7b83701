//! The run that the words of a command line ask for: its files are opened, and its own call is made
//! over them.
//!
//! | File | Has |
//! |---|---|
//! | `status` | `run`: the exit status of the run that the words of a host ask for |
//! | `host` | what gives the words and the files of paths, and the runtime as such a host |
//! | `station_name` | the name of a station, as it is stated or found |
//! | `hindrance` | why no run is made of a request |
//! | `new_file` | a file that is made at its first byte, or where it is flushed |
//! | `answering` | a request with its files open, and the call that answers it |
//! | `explaining` | the run that explains a fault |
//! | `unopened` | the line that names a file which can't be opened |
#![tactic(auto)]

mod answering;
mod explaining;
mod hindrance;
mod host;
mod new_file;
mod station_name;
mod status;
mod unopened;

pub use host::{Host, NoWords};
pub use status::{USAGE, run};
