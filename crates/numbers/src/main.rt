// Prints the machine numbers of the file on standard input, with the limit and the argument limit, or the number that it is refused with.
// The text is proved in crate setup; here bytes are read and written. If that fails, a line on standard error says so, and no number is
// printed.

#![tactic(auto)]

use std::process::ExitCode;

fn main(rt: HostRuntime) -> ExitCode {
    // One byte more than is read, so that a longer file is seen to be one.
    let mut bytes = [0u8; 4097];
    let mut out = [0u8; 174];
    files::print_text(
        &rt,
        "numbers",
        &mut rt.stdin(),
        &mut bytes,
        &mut out,
        |bytes, out| setup::numbers_into(bytes, out),
    )
}
