// The lines of a flag table, `flags0=refused` to `flags7=refused`, read into the table. A line is compared with what would be written.

ghost use Rattle.std.specs.Prelude.{◌≡◌, ◌<◌, length, drop, IfSome};
ghost use Rattle.spec.specs.FlagsText.{flag_line, code_at, read_flags};
ghost use Rattle.setup_flags.specs.Rows.{code_of, told};

use crate::flags_put::line_into;
use spec::Refusal;

// A row's code, and the bytes behind its line.
#[derive(Clone, Copy)]
struct Row<'a> {
    code: u8,
    rest: &'a [u8],
}

// The row whose line bytes begin with.
fn read_row(s: &[u8], row: u8) -> Option<Row>
    requires { row < 8 }
    ensures code { code_of result ≡ code_at row s.now }
    ensures rest { IfSome result (λ r. (r.code < 4) × (r.rest.now ≡ drop (length (flag_line row r.code)) s.now)) }
{
    for code in 0..4 {
        let mut line = [0u8; 15];
        let n = line_into(&mut line, row, code);
        if let Some(rest) = s.strip_prefix(&line[..n]) {
            return Some(Row { code, rest });
        }
    }
    None
}

// Reads a flag table: eight lines in their order, with no byte behind the last; then the rules.
pub fn read_flags(bytes: &[u8]) -> Result<[u8; 8], Refusal>
    ensures { told result ≡ read_flags bytes.now }
{
    let mut flags = [0u8; 8];
    let mut rest = bytes;
    for row in 0..8 {
        let read = read_row(rest, row).ok_or(Refusal::FlagTable)?;
        flags[row as usize] = read.code;
        rest = read.rest;
    }
    if !rest.is_empty() {
        return Err(Refusal::FlagTable);
    }
    if !setup::flags_ok(flags) {
        return Err(Refusal::FlagTable);
    }
    Ok(flags)
}
