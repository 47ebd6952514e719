// The four calls that look at user memory, as calls of their own (uaccess.rs): the check of a range, bytes read, bytes written, and the
// string copy. Each gives the numbers that come first, then goes by crate uaccess. A bad
// address is only told here; in the two copies it ends the process.

#![tactic(auto)]

mod call_copy_from_user;
mod call_copy_to_user;
mod call_try_copy_str_from_user;
mod call_user_range_ok;

pub use call_copy_from_user::copy_from_user;
pub use call_copy_to_user::copy_to_user;
pub use call_try_copy_str_from_user::try_copy_str_from_user;
pub use call_user_range_ok::user_range_ok;
