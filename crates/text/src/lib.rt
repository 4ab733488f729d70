// Text as octets: fixed words, decimal numbers and dotted quads, written one after the other into a lent buffer.
#![tactic(auto)]

ghost use Rattle.std.specs.Prelude.{◌≡◌, ℕ, List, [], ◌∷◌, ◌+◌, ◌≤◌, ◌<◌, length};
ghost use Rattle.octets.specs.Written.{Written};
ghost use Rattle.text.specs.Text.{decimal, dotted, line};
ghost use Rattle.text.specs.Steps.{before_dot};
ghost use Rattle.text.specs.Writer.{Puts, HasRoom};

// A lent buffer, and how far it is written.
#[derive(Drop)]
pub struct Writer<'a> {
    out: &'a mut [u8],
    end: usize,
}

// What can be written.
pub trait Text {
    ghost octets: { Self → List ℕ };

    // Stores it from index `at` on, and says where it ends.
    fn store(self, out: &mut [u8], at: usize) -> usize
        requires { at + length (octets self) ≤ length out.old }
        ensures { Written (octets self) at out.old out.new result };
}

impl Text for &[u8] {
    ghost octets = { λ word. word.now };

    fn store(self, out: &mut [u8], at: usize) -> usize {
        octets::put(out, at, self)
    }
}

impl<const N: usize> Text for &[u8; N] {
    ghost octets = { λ word. word.now };

    fn store(self, out: &mut [u8], at: usize) -> usize {
        octets::put(out, at, self)
    }
}

impl Text for u64 {
    ghost octets = { decimal };

    fn store(self, out: &mut [u8], at: usize) -> usize {
        put_decimal(out, at, self)
    }
}

impl Text for u32 {
    ghost octets = { decimal };

    fn store(self, out: &mut [u8], at: usize) -> usize {
        put_decimal(out, at, u64::from(self))
    }
}

// An address, written as a dotted quad.
#[derive(Clone, Copy)]
pub struct Address(pub u32);

impl Text for Address {
    ghost octets = { λ address. dotted address.0 };

    fn store(self, out: &mut [u8], at: usize) -> usize {
        put_dotted(out, at, u64::from(self.0))
    }
}

impl<'a> Writer<'a> {
    // Writes from the front on.
    pub fn new(out: &'a mut [u8]) -> Writer<'a>
        ensures begun { result.end ≡ 0 }
        ensures same_reference { result.out.ghost_name ≡ out.entry.ghost_name }
        ensures after { result.out.now ≡ out.old }
    {
        Writer { out, end: 0 }
    }

    // How many octets are written.
    pub fn end(&self) -> usize
        ensures { result ≡ self.now.end }
    {
        self.end
    }

    // Writes a value behind what is written.

    pub fn put<T: Text>(&mut self, value: T)
        requires { HasRoom self.old (T.octets value) }
        ensures { Puts (T.octets value) self.old self.new }
    {
        self.end = value.store(self.out, self.end);
    }

    // Writes a line: a name with its sign, and a value. A name of a length that is known is no call to copy.
    #[tactic(auto, unfolding(crate::specs::Text::line))]
    pub fn put_line<N: Text + Copy, T: Text>(&mut self, name: N, value: T)
        requires { HasRoom self.old (line (N.octets name) (T.octets value)) }
        ensures { Puts (line (N.octets name) (T.octets value)) self.old self.new }
    {
        let start = name.store(self.out, self.end);
        let end = value.store(self.out, start);
        self.end = octets::put(self.out, end, b"\n");
    }
}

// Writes a number of any length, the highest digit first.
fn put_long(out: &mut [u8], at: usize, n: u64) -> usize
    requires { at + length (decimal n) ≤ length out.old }
    ensures { Written (decimal n) at out.old out.new result }
{
    if n < 10 {
        out[at] = b'0' + n as u8;
        return at + 1;
    }
    let end = put_long(out, at, n / 10);
    out[end] = b'0' + (n % 10) as u8;
    end + 1
}

// Writes a number of at most three digits, as nearly all are: a digit a store, and no call.
fn put_digits(out: &mut [u8], at: usize, n: u64) -> usize
    requires { (n < 1000) × (at + length (decimal n) ≤ length out.old) }
    ensures { Written (decimal n) at out.old out.new result }
{
    if n < 10 {
        out[at] = b'0' + n as u8;
        return at + 1;
    }
    if n < 100 {
        out[at] = b'0' + (n / 10) as u8;
        out[at + 1] = b'0' + (n % 10) as u8;
        return at + 2;
    }
    out[at] = b'0' + (n / 10 / 10) as u8;
    out[at + 1] = b'0' + (n / 10 % 10) as u8;
    out[at + 2] = b'0' + (n % 10) as u8;
    at + 3
}

// Writes a number, the highest digit first.
fn put_decimal(out: &mut [u8], at: usize, n: u64) -> usize
    requires { at + length (decimal n) ≤ length out.old }
    ensures { Written (decimal n) at out.old out.new result }
{
    if n < 1000 {
        return put_digits(out, at, n);
    }
    put_long(out, at, n)
}

// Writes one of the first three numbers of a dotted quad, and the dot behind it.
fn put_before_dot(out: &mut [u8], at: usize, n: u64) -> usize
    requires { at + length (before_dot n) ≤ length out.old }
    ensures { Written (before_dot n) at out.old out.new result }
{
    let end = put_decimal(out, at, n);
    octets::put(out, end, b".")
}

// Writes an address as a dotted quad.
fn put_dotted(out: &mut [u8], at: usize, address: u64) -> usize
    requires { at + length (dotted address) ≤ length out.old }
    ensures { Written (dotted address) at out.old out.new result }
{
    let first = put_before_dot(out, at, address / 16777216 % 256);
    let second = put_before_dot(out, first, address / 65536 % 256);
    let third = put_before_dot(out, second, address / 256 % 256);
    put_decimal(out, third, address % 256)
}
