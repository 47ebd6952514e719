// Lent buffers: parts of them, the words of a line, and the bytes that a word gives. Every function takes any bytes and numbers.

#![tactic(auto)]

pub mod bytes;
pub mod room;
pub mod words;
