// The library for kernels in C and Rust: the ten calls, and functions that are no calls, under their plain names (include/holthrimi.h).
// Frames and book are lent as pointer and length, and the records stand behind one reference. What a call leaves and tells is what the
// definitions say, refusals too; no function has a `requires`.

#![tactic(auto)]

mod form;
mod reads;
mod records;
mod rules;
mod told;
