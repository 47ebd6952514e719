// The laws of frames and book: what every process sees, which words stand in the book and how many frames are free after pages
// are placed, released and written over. Everything is in proofs/; this crate has no code of its own.

#![tactic(auto)]
