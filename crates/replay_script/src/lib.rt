// What a line of a replay script asks for, by its words and the numbers and bytes that they give. Every function takes any bytes and any numbers.

#![tactic(auto)]

pub mod asked;
mod lines;
pub mod taken;

pub use lines::read;
