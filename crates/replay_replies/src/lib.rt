// The answers that the replay program writes. No contract says what is written: each function is proved safe and ends.

#![tactic(auto)]

mod answers;
mod map;
mod reply;
mod sums;

pub use reply::Reply;
