// Answers, put into a lent buffer and written to standard output when it is nearly full.
// A program writes the answers out long before that, so that a person sees each: what is put here is what is not yet written.
ghost use Rattle.std.specs.Prelude.{◌≡◌, ◌≤◌, ◌+◌, ◌∷◌, [], pos, length};
ghost use Rattle.line.specs.Printed.{SameOut, Ready, Puts, PutsNumber, PutsNext, PutsCount, PutsHex, PutsLine, PutsText, done_or_wrong};

// What is put in one go is no longer than this: a number with its minus, a word, hex digits.
const LONGEST: usize = 64;

// The buffer's bytes.
const BUFFER: usize = 16384;

// The digits of the greatest count.
const COUNT_DIGITS: usize = 20;

// A byte in hex.
const BYTE_DIGITS: usize = 2;

// The descriptor of standard output.
const STANDARD_OUTPUT: i32 = 1;

// A buffer to lend.
pub fn buffer() -> [u8; BUFFER]
    ensures { 16384 ≡ length result }
{
    [0; BUFFER]
}

// The buffer, and the place in it at which the next answer goes.
// Stays without the library's formatting: that answers a Result, and promises neither that there is no Err nor what becomes of the buffer with
// one. Here a printer cannot fail, the buffer stays the caller's, and a number that is printed goes through `text_put`.
#[derive(Drop)]
pub struct Out<'a> {
    pub buffer: &'a mut [u8],
    pub at: usize,
}

impl Out<'_> {
    // Writes out what stands before the place, which is the buffer's start then.
    pub fn flush(&mut self)
        ensures same { SameOut self.old self.new }
        ensures bytes { self.new.buffer.now ≡ self.old.buffer.now }
        ensures start { self.new.at ≡ 0 }
    {
        self.write_before();
        self.at = 0;
    }

    fn write_before(&self) {
        let at = self.at;
        if at <= self.buffer.len() {
            io::write_all(STANDARD_OUTPUT, &self.buffer[..at]);
        }
    }

    // Room behind the place: it is the start, once what stands before it is written out.
    fn make_room(&mut self)
        ensures same { SameOut self.old self.new }
        ensures bytes { self.new.buffer.now ≡ self.old.buffer.now }
        ensures place { Ready self.old self.new.at }
        ensures room { 64 ≤ length self.old.buffer.now → self.new.at + 64 ≤ length self.old.buffer.now }
    {
        let at = self.at;
        let room = self.buffer.len();
        if room < at {
            self.at = 0;
        } else if room - at < LONGEST {
            self.flush();
        }
    }

    // Some bytes: all of them, or nothing where they are more than the buffer has.
    pub fn put(&mut self, bytes: &[u8])
        ensures same { SameOut self.old self.new }
        ensures puts { Puts bytes.now self.old self.new }
    {
        self.make_room();
        let at = self.at;
        self.at = text_put::put(self.buffer, at, bytes);
    }

    // A number in decimal.
    pub fn number(&mut self, n: i64)
        ensures same { SameOut self.old self.new }
        ensures puts { PutsNumber n self.old self.new }
    {
        self.make_room();
        let at = self.at;
        self.at = text_put::put_number(self.buffer, at, n);
    }

    // One space, and a number in decimal.
    pub fn next_number(&mut self, n: i64)
        ensures same { SameOut self.old self.new }
        ensures puts { PutsNext (PutsNumber n) self.old self.new }
    {
        self.put(b" ");
        self.number(n);
    }

    // A count in decimal.
    pub fn count(&mut self, n: usize)
        ensures same { SameOut self.old self.new }
        ensures puts { PutsCount n self.old self.new }
    {
        let mut digits = [0u8; COUNT_DIGITS];
        let k = io::decimal(n as u64, &mut digits);
        self.put(&digits[..k]);
    }

    // One space, and a count in decimal.
    pub fn next_count(&mut self, n: usize)
        ensures same { SameOut self.old self.new }
        ensures puts { PutsNext (PutsCount n) self.old self.new }
    {
        self.put(b" ");
        self.count(n);
    }

    // A number in hex, of at least `width` digits.
    pub fn hex(&mut self, n: u32, width: usize)
        ensures same { SameOut self.old self.new }
        ensures puts { PutsHex n width self.old self.new }
    {
        self.make_room();
        let at = self.at;
        self.at = text_put::put_hex(self.buffer, at, n, width);
    }

    // The end of an answer.
    pub fn end(&mut self)
        ensures same { SameOut self.old self.new }
        ensures puts { Puts (10 ∷ []) self.old self.new }
    {
        self.put(b"\n");
    }

    // The answer of a command that is done and has nothing to tell.
    pub fn done(&mut self)
        ensures same { SameOut self.old self.new }
        ensures puts { Puts (48 ∷ 10 ∷ []) self.old self.new }
    {
        self.put(b"0\n");
    }

    // The answer to a line that is no command.
    pub fn wrong(&mut self)
        ensures same { SameOut self.old self.new }
        ensures puts { Puts (63 ∷ 10 ∷ []) self.old self.new }
    {
        self.put(b"?\n");
    }

    // The answer of a command that is done, or of one that could not be and so is none.
    pub fn done_if(&mut self, is_done: bool)
        ensures same { SameOut self.old self.new }
        ensures puts { Puts (done_or_wrong is_done) self.old self.new }
    {
        if is_done {
            self.done();
        } else {
            self.wrong();
        }
    }

    // A refusal: its number alone.
    pub fn refused(&mut self, refusal: u8)
        ensures same { SameOut self.old self.new }
        ensures puts { PutsLine (PutsNumber (pos refusal)) self.old self.new }
    {
        self.number(i64::from(refusal));
        self.end();
    }

    // The bytes of a text in hex, or a `-` where it has none.
    pub fn text(&mut self, bytes: &[u8])
        ensures same { SameOut self.old self.new }
        ensures puts { PutsText bytes.now self.old self.new }
    {
        if bytes.is_empty() {
            self.put(b"-");
            return;
        }
        for byte in bytes {
            self.hex(u32::from(*byte), BYTE_DIGITS);
        }
    }
}
