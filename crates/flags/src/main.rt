// Prints the flag table whose lines stand on standard input, a row a line, or the number that it is refused with. The text is proved in
// crate setup_flags; here bytes are read and written. If that fails, a line on standard error says so, and no number is printed.

#![tactic(auto)]

use std::process::ExitCode;

fn main(rt: HostRuntime) -> ExitCode {
    // One byte more than is read, so that a longer file is seen to be one.
    let mut bytes = [0u8; 4097];
    let mut out = [0u8; 96];
    files::print_text(
        &rt,
        "flags",
        &mut rt.stdin(),
        &mut bytes,
        &mut out,
        |bytes, out| setup_flags::table_into(bytes, out),
    )
}
