// Lists the image on standard input: its entry point, segments, bss and pages, or the number that it is refused with. The text is
// proved in crate listing_lines; here bytes are read and written. If that fails, a line on standard error says so, and no number is
// printed.

#![tactic(auto)]

use std::process::ExitCode;

fn main(rt: HostRuntime) -> ExitCode {
    // One byte more than is listed, so that a longer image is seen to be one.
    let mut image = [0u8; 32769];
    let mut out = [0u8; 1024];
    files::print_text(
        &rt,
        "listing",
        &mut rt.stdin(),
        &mut image,
        &mut out,
        |image, out| listing_lines::list_into(image, out),
    )
}
