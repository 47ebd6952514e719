// Fields and headers of an image, one at a time, as r9's elf.rs reads and judges them.

#![tactic(auto)]

mod field;
mod header;
mod phdr;

pub use field::{be32_at, has_magic, perm, u8_at, u16_at, u32_at, u64_at};
pub use header::{EHDR_SIZE, Ehdr, PHDR_SIZE, judge_ehdr, read_ehdr};
pub use phdr::{Phdr, in_text, is_load, judge_phdr, read_phdr};
