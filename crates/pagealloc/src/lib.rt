// Frames and book, where r9 has its page allocator and the MMU's tables: frame bytes are lent, with seventeen 64-bit book words a
// frame, its places and its count of holders. A frame whose count is 0 is free; a page placed is its frame's only mapping. Callers
// have checked sizes, numbers and ranges: what these functions ask of them stands in their `requires`.

#![tactic(auto)]

// The bytes of frames.
pub mod frames;

// A page in its frame.
mod pages;

// Pages placed in free frames.
pub mod place;

// A process's bytes, written over.
pub mod user;
