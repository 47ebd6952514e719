// The book, where r9 has its page allocator's list and the MMU's tables: seventeen 64-bit words a frame, a place for each process and
// then the count of holders. A place is 0, or a mapping: page address + 16 × owner + permission. A frame whose count is 0 is free.

#![tactic(auto)]

// Book words, and searches of the book.
mod word;

// Pages released: their mappings become 0, and their frames lose a holder.
mod release;

// Text and rodata shared by a fork.
mod share;

pub use release::{release_owner, unmap_and_free};
pub use share::share_pages;
pub use word::{alone_count, frame_of, frames, free_count, owner_of, pack, page_of, perm_of};
