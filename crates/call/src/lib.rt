// The ten calls, fork also with its list of segments lent (`fork_list`): the library's front door. Each takes the setup by value, frames
// and book lent, records by value and its own arguments, checks all of them, and answers. No caller has anything to check: no call has a
// `requires`. What a call leaves and answers is what `after` and `answer` of the specification say, refusals too.

#![tactic(auto)]

pub use call_access::{copy_from_user, copy_to_user, try_copy_str_from_user, user_range_ok};
pub use call_break::brk;
pub use call_end::end;
pub use call_fork::{fork, fork_list};
pub use call_push::push;
pub use call_replace::replace;
pub use call_start::start;
pub use spec::Left;
