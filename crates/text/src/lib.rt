// Text in bytes that the caller lends: bytes, numbers in decimal, and a named number's line, one behind the other.

#![tactic(auto)]

ghost use Rattle.std.specs.Prelude.{◌+◌, ◌≤◌, ◌≡◌, length};
ghost use Rattle.text.specs.Text.{Puts, number_text, field_text};

// Bytes that the caller lends, and how many of them are put, from the front on.
#[derive(Drop)]
pub struct Writer<'a> {
    out: &'a mut [u8],
    len: usize,
}

impl<'a> Writer<'a> {
    pub fn new(out: &'a mut [u8]) -> Writer<'a>
        ensures same_reference { result.out.ghost_name ≡ out.entry.ghost_name }
        ensures bytes { result.out.now ≡ out.old }
        ensures len { result.len ≡ 0 }
    {
        Writer { out, len: 0 }
    }

    // How many bytes are put.
    pub fn len(&self) -> usize
        ensures { result ≡ self.now.len }
    {
        self.len
    }

    // Puts bytes.
    pub fn put(&mut self, s: &[u8])
        requires { self.old.len + length s.now ≤ length self.old.out.now }
        ensures same_reference { self.new.out.ghost_name ≡ self.old.out.ghost_name }
        ensures puts { Puts self.old.out.now self.old.len s.now self.new.out.now self.new.len }
    {
        let end = self.len + s.len();
        self.out[self.len..end].copy_from_slice(s);
        self.len = end;
    }

    // Puts a number in decimal, which takes at most twenty digits.
    pub fn put_decimal(&mut self, n: u64)
        requires { self.old.len + 20 ≤ length self.old.out.now }
        ensures same_reference { self.new.out.ghost_name ≡ self.old.out.ghost_name }
        ensures puts { Puts self.old.out.now self.old.len (number_text n) self.new.out.now self.new.len }
        ensures upper_bound { self.new.len ≤ self.old.len + 20 }
    {
        let mut digits = [0u8; 20];
        let mut i = 20;
        let mut m = n;
        // By `while`: digits come from the last to the first, and only at the end is it known how many they are.
        while m >= 10 {
            i -= 1;
            digits[i] = b'0' + (m % 10) as u8;
            m /= 10;
        }
        i -= 1;
        digits[i] = b'0' + m as u8;
        self.put(&digits[i..]);
    }

    // Puts a name, a number and the end of the line.
    pub fn put_field(&mut self, name: &[u8], n: u64)
        requires { self.old.len + length name.now + 21 ≤ length self.old.out.now }
        ensures same_reference { self.new.out.ghost_name ≡ self.old.out.ghost_name }
        ensures puts { Puts self.old.out.now self.old.len (field_text name.now n) self.new.out.now self.new.len }
        ensures upper_bound { self.new.len ≤ self.old.len + length name.now + 21 }
    {
        self.put(name);
        self.put_decimal(n);
        self.put(b"\n");
    }
}
