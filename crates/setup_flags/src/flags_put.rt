// The lines of a flag table written into a buffer that the caller lends, and what the flags program prints of a file. The bytes are
// proved equal to the definitions', so that the program has only to read and write.

ghost use Rattle.std.specs.Prelude.{◌+◌, ◌≤◌, ◌<◌, ◌≡◌, ◌*◌, ℕ, List, true, length, take};
ghost use Rattle.text.specs.Text.{Puts};
ghost use Rattle.spec.specs.Flags.{flags_ok};
ghost use Rattle.spec.specs.FlagsText.{word_of, flag_line, table_line, row_lines, read_flags_file, table_text};
ghost use Rattle.setup_flags.specs.Texts.{line_of, flag_head, flags_in, table_in};
ghost use Rattle.setup_flags.specs.Rows.{told};

use spec::Refusal;
use text::Writer;

// Room for the longest texts: eight lines of `flags0=refused` and of `0=0 refused`, each with its line feed.
const FLAGS_MAX: usize = 120;

const TABLE_MAX: usize = 96;

// The longest file that is read.
const FILE_MAX: usize = 4096;

// Puts a code's word.
fn put_word(w: &mut Writer, code: u8)
    requires { w.old.len + 7 ≤ length w.old.out.now }
    ensures same_reference { w.new.out.ghost_name ≡ w.old.out.ghost_name }
    ensures puts { Puts w.old.out.now w.old.len (word_of code) w.new.out.now w.new.len }
    ensures upper_bound { w.new.len ≤ w.old.len + 7 }
{
    match code {
        1 => w.put(b"text"),
        2 => w.put(b"rodata"),
        3 => w.put(b"data"),
        _ => w.put(b"refused"),
    }
}

// What a row's line begins with.
fn flag_head(row: u8) -> [u8; 7]
    requires { row < 8 }
    ensures { result ≡ flag_head row }
{
    [b'f', b'l', b'a', b'g', b's', b'0' + row, b'=']
}

// Puts a line that begins with `head` and ends with a code's word.
fn put_line(w: &mut Writer, head: &[u8], code: u8)
    requires { w.old.len + length head.now + 8 ≤ length w.old.out.now }
    ensures same_reference { w.new.out.ghost_name ≡ w.old.out.ghost_name }
    ensures puts { Puts w.old.out.now w.old.len (line_of head.now code) w.new.out.now w.new.len }
    ensures upper_bound { w.new.len ≤ w.old.len + length head.now + 8 }
{
    w.put(head);
    put_word(w, code);
    w.put(b"\n");
}

// Puts a row's line of a code, and answers its length.
pub fn line_into(out: &mut [u8], row: u8, code: u8) -> usize
    requires { (row < 8) × (15 ≤ length out.old) }
    ensures { Puts out.old 0 (flag_line row code) out.new result }
{
    let mut w = Writer::new(out);
    put_line(&mut w, &flag_head(row), code);
    w.len()
}

// Puts the lines of a table. Two loops: one function for both would take what gives the beginning, and Rattle has no proof of a call of a
// closure whose array has a const parameter's length.
fn put_flags(w: &mut Writer, flags: [u8; 8])
    requires { w.old.len + 120 ≤ length w.old.out.now }
    ensures same_reference { w.new.out.ghost_name ≡ w.old.out.ghost_name }
    ensures puts { Puts w.old.out.now w.old.len (row_lines flag_line 0 flags) w.new.out.now w.new.len }
{
    for row in 0..8 {
        put_line(w, &flag_head(row), flags[row as usize]);
    }
}

// Puts the rows of an accepted table.
fn put_rows(w: &mut Writer, flags: [u8; 8])
    requires { (flags_ok flags ≡ true) × (w.old.len + 96 ≤ length w.old.out.now) }
    ensures same_reference { w.new.out.ghost_name ≡ w.old.out.ghost_name }
    ensures puts { Puts w.old.out.now w.old.len (row_lines table_line 0 flags) w.new.out.now w.new.len }
{
    for row in 0..8 {
        let code = flags[row as usize];
        put_line(w, &[b'0' + row, b'=', b'0' + code, b' '], code);
    }
}

// What a file is read as: a longer one is not as described.
fn read_file(bytes: &[u8]) -> Result<[u8; 8], Refusal>
    ensures { told result ≡ read_flags_file bytes.now }
{
    if bytes.len() > FILE_MAX {
        return Err(Refusal::FlagTable);
    }
    crate::flags_read::read_flags(bytes)
}

// Puts what the flags program prints of a file.
fn put_table(bytes: &[u8], w: &mut Writer)
    requires { w.old.len + 96 ≤ length w.old.out.now }
    ensures same_reference { w.new.out.ghost_name ≡ w.old.out.ghost_name }
    ensures puts { Puts w.old.out.now w.old.len (table_text bytes.now) w.new.out.now w.new.len }
{
    match read_file(bytes) {
        Ok(flags) => put_rows(w, flags),
        Err(_) => w.put(b"refused=39\n"),
    }
}

// Puts the lines of a table, and answers their length. Of a table that is refused, or into a buffer without room for the longest,
// nothing is put, and the answer is 0.
#[tactic(auto, unfolding(spec::specs::FlagsText::flags_text))]
pub fn flags_into(out: &mut [u8], flags: [u8; 8]) -> usize
    ensures puts { Puts out.old 0 (flags_in (length out.old) flags) out.new result }
    ensures upper_bound { (result ≤ length out.new) × (result ≡ length (take result out.new)) }
{
    if out.len() < FLAGS_MAX {
        return 0;
    }
    if !setup::flags_ok(flags) {
        return 0;
    }
    let mut w = Writer::new(out);
    put_flags(&mut w, flags);
    w.len()
}

// Puts what the flags program prints of a file, and answers its length. A buffer without room for the longest is left as it is, and the
// answer is 0.
pub fn table_into(bytes: &[u8], out: &mut [u8]) -> usize
    ensures puts { Puts out.old 0 (table_in (length out.old) bytes.now) out.new result }
    ensures upper_bound { (result ≤ length out.new) × (result ≡ length (take result out.new)) }
{
    if out.len() < TABLE_MAX {
        return 0;
    }
    let mut w = Writer::new(out);
    put_table(bytes, &mut w);
    w.len()
}
