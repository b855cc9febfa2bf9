//! The resources of a server in a file that sqlite3 reads, which outlive a power cut.
#![tactic(auto)]

mod belonging;
mod damage;
mod error;
mod files;
mod finding;
mod keeper;
mod keeping;
pub mod laws;
mod left;
mod listing;
mod loading;
mod logged;
mod marking;
mod opening;
mod path;
mod reading;
mod rows;
mod starting;
mod whole;

pub use belonging::FRAMED_LOG;
pub use error::{KeepError, OpenStoreError};
pub use files::open_files;
pub use keeper::{FileKeeper, Forgetful, Keeper, Keeping};
pub use left::Left;
pub use path::{draw_mark, open};
pub use reading::{read_store, read_until_damage};
pub use sqlite_std_file::{Start, Unknown, Wary};
pub use whole::{are_same, whole_file};
