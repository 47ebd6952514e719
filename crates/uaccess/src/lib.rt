// Access to user memory from calls, as r9's uaccess.rs, which follows Plan 9's validaddr in port/fault.c: ranges (module ranges), copies
// (module copies) and the copy of a string (module strings), of the pages that a call looks up (module pages).
//
// Each page is checked, then its frame is read or written: where r9 uses a user address directly, here a page's frame is found by
// the table that the check of the book has left (`sound::prepare`). A bad range ends no process here: the calls above do that.

#![tactic(auto)]

mod copies;
mod pages;
mod ranges;
mod strings;

pub use pages::UserPages;
pub use strings::Unread;
