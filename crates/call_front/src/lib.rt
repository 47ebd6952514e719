// What the ten calls share: the records, the numbers that come first in every call, a record's pages, and a process that
// ends. Every call begins here, so that the order of numbers 1 to 5 is written once.

#![tactic(auto)]

// The records of processes.
pub mod record;

// 1, 38, 39, 2 and 3, with the check of the book.
mod first;

// 1, 38, 39 and 2 to 5, for each kind of call.
pub mod numbers;

// A process that ends, a call that is refused, and one that meets a bad address.
pub mod ending;

pub use ending::{bad_address, refused};
pub use first::sizes_ok;
pub use record::{is_number, lives, zero_proc};
