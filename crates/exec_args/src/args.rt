// The arguments of a program, as r9's exec.rs checks them: their size, where a push of them goes, and the registers. Arguments are bytes
// and lengths, where the Rust has `&[&[u8]]`.

ghost use Rattle.std.specs.Prelude.{◌≡◌, false, length, IfOk};
ghost use Rattle.spec.specs.Tests.{◌is◌, has, sum};
ghost use Rattle.spec.specs.Refusals.{number_of};
ghost use Rattle.spec.specs.Exec.{args_of, strings, stack_size};
ghost use Rattle.exec_args.specs.Sizes.{saturated, size_error, below_zero_by, registers_by};

use spec::{Refusal, Setup};

// Whether the lengths of arguments sum to their bytes. The sum isn't made, since it may pass 64 bits: what is left of the bytes is.
pub fn lengths_fit(bytes: &[u8], lengths: &[u64]) -> bool
    ensures { result ≡ (sum lengths.now is length bytes.now) }
{
    let mut left = bytes.len() as u64;
    for n in lengths {
        let Some(rest) = left.checked_sub(*n) else {
            return false;
        };
        left = rest;
    }
    left == 0
}

// Whether a NUL stands in `bytes`.
pub fn has_nul(bytes: &[u8]) -> bool
    ensures { result ≡ has 0 bytes.now }
{
    bytes.contains(&0)
}

// The stack that `nargs` arguments take, given their strings' size, NULs included: the strings, their pointers and the null after
// them, and 8 bytes of padding, the most that a 16-byte aligned top leaves below them. A size that 64 bits don't hold is given as
// their highest number, as the Rust has its last sum.
pub fn stack_size(strings: u64, nargs: u64) -> u64
    ensures { result ≡ saturated (stack_size strings nargs) }
{
    // All of it is words of 8 bytes.
    let words = strings.div_ceil(8).saturating_add(nargs).saturating_add(2);
    words.saturating_mul(8)
}

// Checks that arguments can be pushed onto a stack, and tells the size of their strings. Arguments may use at most a quarter of
// the stack, and may not hold a NUL.
pub fn args_size(setup: Setup, bytes: &[u8], lengths: &[u64]) -> Result<u64, Refusal>
    ensures number { number_of result ≡ size_error setup bytes.now lengths.now }
    ensures size { IfOk result (λ n. n ≡ length (strings (args_of bytes.now lengths.now))) }
{
    let limit = setup.ustksize / 4;
    if !lengths_fit(bytes, lengths) {
        return Err(Refusal::Sizes);
    }
    // The arguments are the bytes, so a NUL in one of them is a NUL there.
    if has_nul(bytes) {
        return Err(Refusal::BadArg);
    }
    let nargs = lengths.len() as u64;
    let strings = bytes.len() as u64 + nargs;
    if stack_size(strings, nargs) > limit {
        return Err(Refusal::NoMemory);
    }
    Ok(strings)
}

// Whether a push of arguments below `top` would go below address 0, given their strings' size. The Rust would panic or wrap.
pub fn below_zero(top: u64, size: u64, nargs: u64) -> bool
    ensures { result ≡ below_zero_by top size nargs }
{
    // Whole words from address 0 up to the strings, for the pointers and the null.
    size > top || (top - size) / 8 <= nargs
}

// The registers to start at `pc` with, once arguments are pushed below `top`: a stack pointer below the pointers, 16-byte aligned
// as AAPCS64 needs, and argc and argv.
pub fn registers(pc: u64, top: u64, size: u64, nargs: u64) -> spec::UserRegs
    requires { below_zero_by top size nargs ≡ false }
    ensures { result ≡ registers_by pc top size nargs }
{
    let argv = (top - size) / 8 * 8 - 8 * (nargs + 1);
    spec::UserRegs {
        pc,
        sp: argv / 16 * 16,
        argc: nargs,
        argv,
    }
}
