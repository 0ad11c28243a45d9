// A page: a lent buffer, and how many bytes of it are written. Text and numbers go after these.
ghost use Rattle.std.specs.Prelude.{◌≡◌, ◌++◌};
ghost use Rattle.lines.specs.Text.{ascii, decimal, signed_decimal};
ghost use Rattle.lines.specs.Lines.{value};
ghost use Rattle.lines.specs.Pages.{HasRoom, Writes, sign};

#[derive(Drop)]
pub struct Page<'a> {
    pub bytes: &'a mut [u8],
    pub len: usize,
}

// What stands before the digits of a number.
fn sign(number: i32) -> &'static [u8]
    ensures { result.now ≡ sign number }
{
    if number < 0 { b"-" } else { b"" }
}

impl Page<'_> {
    pub(crate) fn put(&mut self, text: &[u8])
        requires { HasRoom text.now self.old }
        ensures { Writes text.now self.old self.new }
    {
        let end = self.len + text.len();
        self.bytes[self.len..end].copy_from_slice(text);
        self.len = end;
    }

    // The digits of a number.
    fn decimal(&mut self, n: u64)
        requires { HasRoom (decimal n) self.old }
        ensures { Writes (decimal n) self.old self.new }
    {
        let mut digits = [0u8; 20];
        let size = io::decimal(n, &mut digits);
        self.put(&digits[..size]);
    }

    // A number after a space.
    pub(crate) fn number(&mut self, n: usize)
        requires { HasRoom (ascii " " ++ decimal n) self.old }
        ensures { Writes (ascii " " ++ decimal n) self.old self.new }
    {
        self.put(b" ");
        self.decimal(n as u64);
    }

    // A name, and a number after a space.
    pub(crate) fn named(&mut self, name: &[u8], n: usize)
        requires { HasRoom (name.now ++ (ascii " " ++ decimal n)) self.old }
        ensures { Writes (name.now ++ (ascii " " ++ decimal n)) self.old self.new }
    {
        self.put(name);
        self.number(n);
    }

    // A minus sign before the digits of a number below 0.
    fn signed(&mut self, number: i32)
        requires { HasRoom (signed_decimal number) self.old }
        ensures { Writes (signed_decimal number) self.old self.new }
    {
        self.put(sign(number));
        self.decimal(u64::from(number.unsigned_abs()));
    }

    // The number that a word holds in two's complement, after a space.
    pub(crate) fn value(&mut self, word: u32)
        requires { HasRoom (ascii " " ++ value word) self.old }
        ensures { Writes (ascii " " ++ value word) self.old self.new }
    {
        self.put(b" ");
        self.signed(word.cast_signed());
    }

    pub(crate) fn end_line(&mut self)
        requires { HasRoom (ascii "\n") self.old }
        ensures { Writes (ascii "\n") self.old self.new }
    {
        self.put(b"\n");
    }
}
