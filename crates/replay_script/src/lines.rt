// What each line asks for. A line is known by its first word and by how many words stand behind it. A new line of a call is a variant of
// `Asked` and an arm here. Of several words that give nothing, the first says why; of a start the image comes last.
ghost use Rattle.std.specs.Prelude.{◌≤◌};

use crate::asked::{Asked, FRAMES_MAX, Image, LINE_MAX};
use crate::taken::{Buffers, number};
use replay_buffers::bytes::Why;
use replay_buffers::{room, words};
use spec::{Form, VirtRange};
use std::rt::Files;

// The longest buffer that a copy is lent.
const BUFFER_MAX: usize = 65536;

// Word `first` and those behind it as N numbers.
fn numbers<const N: usize>(line: &[u8], first: usize) -> Result<[u64; N], Why> {
    let mut all = [0u64; N];
    for (x, word) in all.iter_mut().zip(line.split(|b| *b == b' ').skip(first)) {
        *x = number(word)?;
    }
    Ok(all)
}

// A number that is at most `most`.
fn size(n: u64, most: usize) -> Result<usize, Why> {
    if n <= most as u64 {
        Ok(n as usize)
    } else {
        Err(Why::Bad)
    }
}

// A number that is a byte.
fn byte(n: u64) -> Result<u8, Why> {
    u8::try_from(n).map_err(|_| Why::Bad)
}

// Which word the image of a start or replace is: the third, or the fourth behind one that says the form, `aout=MAGIC`.
fn image_place(line: &[u8]) -> usize
    ensures { result ≤ 4 }
{
    if words::word(line, 3).starts_with(b"aout=") {
        4
    } else {
        3
    }
}

// The form that word 3 says, if it says one.
fn form(line: &[u8]) -> Result<Form, Why> {
    match words::word(line, 3).strip_prefix(b"aout=") {
        Some(magic) => {
            let magic = u32::try_from(number(magic)?).map_err(|_| Why::Bad)?;
            Ok(Form::Aout(magic))
        }
        None => Ok(Form::Elf),
    }
}

// frames N [FILL]
fn frames(count: u64, fill: u64) -> Result<Asked, Why> {
    let count = size(count, FRAMES_MAX)?;
    let fill = byte(fill)?;
    Ok(Asked::Frames { count, fill })
}

// numbers BYTES: the lines of a file.
fn numbers_file(rt: &impl Files, b: &mut Buffers, line: &[u8]) -> Result<Asked, Why> {
    let n = b.take(rt, words::word(line, 1))?;
    match setup::read_setup(room::part(&b.bytes, 0, n)) {
        Ok(s) => Ok(Asked::Numbers {
            utzero: s.utzero,
            ustktop: s.ustktop,
            ustksize: s.ustksize,
            uaddrtop: s.uaddrtop,
        }),
        Err(e) => Ok(Asked::Refused(e)),
    }
}

// flags C0 .. C7
fn codes(line: &[u8]) -> Result<Asked, Why> {
    let mut flags = [0u8; 8];
    for (code, word) in flags.iter_mut().zip(line.split(|b| *b == b' ').skip(1)) {
        *code = byte(number(word)?)?;
    }
    Ok(Asked::Flags(flags))
}

// flags BYTES: the lines of a file.
fn flags_file(rt: &impl Files, b: &mut Buffers, line: &[u8]) -> Result<Asked, Why> {
    let n = b.take(rt, words::word(line, 1))?;
    match setup_flags::read_flags(room::part(&b.bytes, 0, n)) {
        Ok(flags) => Ok(Asked::Flags(flags)),
        Err(e) => Ok(Asked::Refused(e)),
    }
}

// lend BYTES WORDS, of so many bytes of frames and words of book.
fn lend(line: &[u8], bytes: usize, words: usize) -> Result<Asked, Why> {
    let [lent, lent_words] = numbers::<2>(line, 1)?;
    let bytes = size(lent, bytes)?;
    let words = size(lent_words, words)?;
    Ok(Asked::Lend { bytes, words })
}

// word I W, of so many words of book.
fn word(line: &[u8], words: usize) -> Result<Asked, Why> {
    let [place, word] = numbers::<2>(line, 1)?;
    let place = size(place, words)?;
    if place < words {
        Ok(Asked::Word { place, word })
    } else {
        Err(Why::Bad)
    }
}

// start NUMBER NAME [aout=MAGIC] IMAGE [ARG ..]
fn start(rt: &impl Files, b: &mut Buffers, line: &[u8]) -> Result<Asked, Why> {
    let [number] = numbers::<1>(line, 1)?;
    let name = b.take_name(rt, words::word(line, 2))?;
    let form = form(line)?;
    let place = image_place(line);
    let args = b.take_args(rt, line, place + 1)?;
    let size = b.take(rt, words::word(line, place))?;
    let image = Image { form, name, size };
    Ok(Asked::Start {
        number,
        image,
        args,
    })
}

// replace NUMBER NAME [aout=MAGIC] IMAGE ARGV
fn replace(rt: &impl Files, b: &mut Buffers, line: &[u8]) -> Result<Asked, Why> {
    let [number] = numbers::<1>(line, 1)?;
    let name = b.take_name(rt, words::word(line, 2))?;
    let form = form(line)?;
    let place = image_place(line);
    let size = b.take(rt, words::word(line, place))?;
    let [argv] = numbers::<1>(line, place + 1)?;
    let image = Image { form, name, size };
    Ok(Asked::Replace {
        number,
        image,
        argv,
    })
}

// push NUMBER PC TOP [ARG ..]
fn push(rt: &impl Files, b: &mut Buffers, line: &[u8]) -> Result<Asked, Why> {
    let [number, pc, top] = numbers::<3>(line, 1)?;
    let args = b.take_args(rt, line, 4)?;
    Ok(Asked::Push {
        number,
        pc,
        top,
        args,
    })
}

// fork PARENT CHILD START END PERM ..: as many numbers as there is room for.
fn fork_list(b: &mut Buffers, line: &[u8]) -> Result<Asked, Why> {
    let [number, child] = numbers::<2>(line, 1)?;
    let count = b.take_list(line, 3)?;
    if words::spaces(line) % 3 != 2 {
        return Err(Why::Bad);
    }
    Ok(Asked::ForkList {
        number,
        child,
        count,
    })
}

// range NUMBER ADDRESS LENGTH r|w
fn range(line: &[u8]) -> Result<Asked, Why> {
    let [number, addr, len] = numbers::<3>(line, 1)?;
    let write = match words::word(line, 4) {
        b"r" => false,
        b"w" => true,
        _ => return Err(Why::Bad),
    };
    Ok(Asked::Range {
        number,
        addr,
        len,
        write,
    })
}

// from NUMBER ADDRESS LENGTH
fn from(line: &[u8]) -> Result<Asked, Why> {
    let [number, src, len] = numbers::<3>(line, 1)?;
    let size = size(len, BUFFER_MAX)?;
    Ok(Asked::From { number, src, size })
}

// to NUMBER ADDRESS BYTES
fn to(rt: &impl Files, b: &mut Buffers, line: &[u8]) -> Result<Asked, Why> {
    let [number, dst] = numbers::<2>(line, 1)?;
    let size = b.take(rt, words::word(line, 3))?;
    Ok(Asked::To { number, dst, size })
}

// string NUMBER ADDRESS LENGTH
fn text(line: &[u8]) -> Result<Asked, Why> {
    let [number, src, len] = numbers::<3>(line, 1)?;
    let size = size(len, BUFFER_MAX)?;
    Ok(Asked::Text { number, src, size })
}

// rule START END FREE ADDRESS, or rule none none FREE ADDRESS
fn rule(line: &[u8]) -> Result<Asked, Why> {
    if words::word(line, 1) == b"none".as_slice() && words::word(line, 2) == b"none".as_slice() {
        let [free, addr] = numbers::<2>(line, 3)?;
        return Ok(Asked::Rule {
            bss: None,
            free,
            addr,
        });
    }
    let [start, end, free, addr] = numbers::<4>(line, 1)?;
    let bss = Some(VirtRange { start, end });
    Ok(Asked::Rule { bss, free, addr })
}

// The lines of a script: calls, rules by themselves, and what calls are handed and lent.
fn known(
    rt: &impl Files,
    b: &mut Buffers,
    line: &[u8],
    bytes: usize,
    words: usize,
) -> Result<Asked, Why> {
    let image = image_place(line);
    match (words::word(line, 0), words::spaces(line)) {
        (b"start", n) if image <= n => start(rt, b, line),
        (b"replace", n) if n == image + 1 => replace(rt, b, line),
        (b"push", 3..) => push(rt, b, line),
        (b"break", 2) => {
            let [number, addr] = numbers::<2>(line, 1)?;
            Ok(Asked::Break { number, addr })
        }
        (b"fork", 2) => {
            let [number, child] = numbers::<2>(line, 1)?;
            Ok(Asked::Fork { number, child })
        }
        (b"fork", 3..) => fork_list(b, line),
        (b"end", 1) => {
            let [number] = numbers::<1>(line, 1)?;
            Ok(Asked::End { number })
        }
        (b"range", 4) => range(line),
        (b"from", 3) => from(line),
        (b"to", 3) => to(rt, b, line),
        (b"string", 3) => text(line),
        (b"rule", 4) => rule(line),
        (b"name", 1) => {
            let size = b.take(rt, words::word(line, 1))?;
            Ok(Asked::Name { size })
        }
        (b"frames", 1) => {
            let [count] = numbers::<1>(line, 1)?;
            frames(count, 0)
        }
        (b"frames", 2) => {
            let [count, fill] = numbers::<2>(line, 1)?;
            frames(count, fill)
        }
        (b"lend", 2) => lend(line, bytes, words),
        (b"word", 2) => word(line, words),
        (b"numbers", 4) => {
            let [utzero, ustktop, ustksize, uaddrtop] = numbers::<4>(line, 1)?;
            Ok(Asked::Numbers {
                utzero,
                ustktop,
                ustksize,
                uaddrtop,
            })
        }
        (b"numbers", 1) => numbers_file(rt, b, line),
        (b"flags", 8) => codes(line),
        (b"flags", 1) => flags_file(rt, b, line),
        (b"sum", 0) => Ok(Asked::Sum),
        (b"map", 1) => {
            let [number] = numbers::<1>(line, 1)?;
            Ok(Asked::Map { number })
        }
        _ => Err(Why::Bad),
    }
}

// What a line asks for, of so many bytes of frames and words of book. The buffers get the bytes and lists that its words give.
pub fn read(
    rt: &impl Files,
    b: &mut Buffers,
    line: &[u8],
    bytes: usize,
    words: usize,
) -> Result<Asked, Why> {
    if line.is_empty() || line.starts_with(b"#") {
        return Ok(Asked::Nothing);
    }
    if LINE_MAX < line.len() {
        return Err(Why::TooLarge(LINE_MAX));
    }
    known(rt, b, line, bytes, words)
}
