// The lines of a flag table (request 7), read and written, and what the flags program prints of a file.

#![tactic(auto)]

mod flags_put;
mod flags_read;

pub use flags_put::{flags_into, table_into};
pub use flags_read::read_flags;
