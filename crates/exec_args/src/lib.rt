// The arguments of a program, as r9's exec.rs checks and pushes them.

#![tactic(auto)]

mod args;
mod buffer;

pub use args::{args_size, below_zero, has_nul, lengths_fit, registers, stack_size};
pub use buffer::{BUFFER_SIZE, args_into, pointers_behind};
