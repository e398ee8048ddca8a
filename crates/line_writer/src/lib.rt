// Lines with a key and numbers, written into a lent buffer, one after the other (RULES 9). The writers of the layer text and of the result
// text stand on this crate.
#![tactic(auto)]

ghost use Rattle.std.specs.Prelude.{◌≡◌, [], ◌∷◌, ◌+◌, ◌≤◌, length};
ghost use Rattle.rules.specs.Lines.{decimal, comma_list, line};
ghost use Rattle.line_writer.specs.Writing.{HasRoom, Wrote, laid, keyed_line};

use itoa::Buffer;

// A lent buffer, and the place in it where the next text goes. Not the library's `Cursor`: its `write` answers how much was written, which each call would
// look at in vain where there is room, and of its `write_all` nothing shows that it is `Ok` there.
#[derive(Drop)]
pub struct Writer<'a> {
    buffer: &'a mut [u8],
    at: usize,
}

impl<'a> Writer<'a> {
    // At the buffer's front.
    pub fn new(buffer: &'a mut [u8]) -> Writer<'a>
        ensures reference { result.buffer.ghost_name ≡ buffer.entry.ghost_name }
        ensures buffer { result.buffer.now ≡ buffer.old }
        ensures at { result.at ≡ 0 }
    {
        Writer { buffer, at: 0 }
    }

    // The length of what was written.
    pub fn len(&self) -> usize
        ensures { result ≡ self.now.at }
    {
        self.at
    }

    fn byte(&mut self, b: u8)
        requires { HasRoom self.old (b ∷ []) }
        ensures { Wrote self.old (b ∷ []) self.new }
    {
        self.buffer[self.at] = b;
        self.at += 1;
    }

    // Bytes as they are.
    pub fn bytes(&mut self, bytes: &[u8])
        requires { HasRoom self.old bytes.now }
        ensures { Wrote self.old bytes.now self.new }
    {
        let end = self.at + bytes.len();
        self.buffer[self.at..end].copy_from_slice(bytes);
        self.at = end;
    }

    // By `itoa`, which takes no heap and can't fail, as `write!` may.
    fn number(&mut self, n: u32)
        requires { HasRoom self.old (decimal n) }
        ensures { Wrote self.old (decimal n) self.new }
    {
        let mut digits = Buffer::new();
        self.bytes(digits.format(n).as_bytes());
    }

    // Numbers with a comma between two.
    fn numbers(&mut self, numbers: &[u32])
        requires { HasRoom self.old (comma_list numbers.now) }
        ensures { Wrote self.old (comma_list numbers.now) self.new }
    {
        for (k, n) in numbers.iter().enumerate() {
            if k > 0 {
                self.byte(b',');
            }
            self.number(*n);
        }
    }

    // A line: a key, numbers with a comma between two, byte 10.
    pub fn line(&mut self, key: &[u8], numbers: &[u32])
        requires { HasRoom self.old (line key.now numbers.now) }
        ensures { Wrote self.old (line key.now numbers.now) self.new }
    {
        self.bytes(key);
        self.numbers(numbers);
        self.byte(b'\n');
    }

    // A line with one number.
    pub fn number_line(&mut self, key: &[u8], n: u32)
        requires { HasRoom self.old (line key.now (n ∷ [])) }
        ensures { Wrote self.old (line key.now (n ∷ [])) self.new }
    {
        self.line(key, &[n]);
    }

    // Lines with one number each.
    pub fn number_lines(&mut self, lines: &[(&[u8], u32)])
        requires { HasRoom self.old (laid keyed_line lines.now) }
        ensures { Wrote self.old (laid keyed_line lines.now) self.new }
    {
        for (key, n) in lines {
            self.number_line(key, *n);
        }
    }
}
