// Lists the images in the file `cases`, each after its name. An image stands there as the length of its name in 1 byte, its own length in
// 3 bytes, little-endian, its name, and its bytes.

#![tactic(auto)]

use files::ReadError;
use std::fs;
use std::io::{Eprint, Print, Read};
use std::process::ExitCode;

// Why no further image is listed: there is none that is whole, or reading or writing failed.
#[derive(Clone, Copy)]
enum Stop {
    End,
    Failed,
}

// One byte more than is listed: of a longer image the rest is dropped.
const MOST: usize = 32769;

// Whether n bytes were read; if not, a line on standard error says why.
fn filled(rt: &impl Eprint, got: Result<usize, ReadError>, n: usize) -> Result<(), Stop> {
    match got {
        Err(ReadError { why, .. }) => {
            let _ = eprintln!(rt; "listing_cases: cases: {why}");
            Err(Stop::Failed)
        }
        Ok(k) => {
            if k < n {
                let _ = eprintln!(rt; "listing_cases: cases: it ends within an image");
                return Err(Stop::End);
            }
            Ok(())
        }
    }
}

// Fills `buf` from the file.
fn fill<R: Read>(rt: &impl Eprint, file: &mut R, buf: &mut [u8]) -> Result<(), Stop> {
    let got = files::read(file, buf);
    filled(rt, got, buf.len())
}

// Reads n bytes and drops them.
fn skip<R: Read>(rt: &impl Eprint, file: &mut R, n: usize) -> Result<(), Stop> {
    let mut left = n;
    // By `while`: the last part may be shorter.
    while left > 0 {
        let mut page = [0u8; 4096];
        let k = left.min(4096);
        fill(rt, file, &mut page[..k])?;
        left -= k;
    }
    Ok(())
}

// Writes text; if that fails, a line on standard error says why.
fn put(rt: &(impl Print + Eprint), text: &[u8]) -> Result<(), Stop> {
    if let Err(why) = rt.write_all(text) {
        let _ = eprintln!(rt; "listing_cases: standard output: {why}");
        return Err(Stop::Failed);
    }
    Ok(())
}

// Lists an image after its name.
fn list(rt: &(impl Print + Eprint), name: &[u8], image: &[u8]) -> Result<(), Stop> {
    let mut out = [0u8; 1024];
    let k = listing_lines::list_into(image, &mut out);
    put(rt, name)?;
    put(rt, b"\n")?;
    put(rt, &out[..k])
}

// Lists the next image of the file.
fn list_next<R: Read>(rt: &(impl Print + Eprint), file: &mut R) -> Result<(), Stop> {
    let mut head = [0u8; 4];
    match files::read(file, &mut head) {
        Ok(0) => return Err(Stop::End),
        got => filled(rt, got, 4)?,
    }
    let letters = usize::from(head[0]);
    let size = u32::from_le_bytes([head[1], head[2], head[3], 0]) as usize;
    let mut name = [0u8; 256];
    fill(rt, file, &mut name[..letters])?;
    let mut image = [0u8; MOST];
    let kept = size.min(MOST);
    fill(rt, file, &mut image[..kept])?;
    skip(rt, file, size - kept)?;
    list(rt, &name[..letters], &image[..kept])
}

fn main(rt: HostRuntime) -> ExitCode {
    let mut file = match fs::open(&rt, "cases") {
        Ok(file) => file,
        Err(why) => {
            let _ = eprintln!(rt; "listing_cases: cases: {why}");
            return ExitCode::FAILURE;
        }
    };
    // A proved loop has to end, and nothing says that a file does: there are fewer images than turns.
    for _ in 0..1000000 {
        match list_next(&rt, &mut file) {
            Ok(()) => {}
            Err(Stop::End) => return ExitCode::SUCCESS,
            Err(Stop::Failed) => return ExitCode::FAILURE,
        }
    }
    ExitCode::SUCCESS
}
