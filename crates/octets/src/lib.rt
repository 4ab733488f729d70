// Octets: big-endian numbers read and stored at an index; octets stored in a lent buffer.
#![tactic(auto)]

ghost use Rattle.std.specs.Prelude.{◌≡◌, ◌+◌, ◌≤◌, [], length, drop, get_or};
ghost use Rattle.std.proofs.lemmas.List.Edits.{sets};
ghost use Rattle.octets.specs.Numbers.{word16, word32, octets16, octets32};
ghost use Rattle.octets.specs.Buffer.{over};
ghost use Rattle.octets.specs.Written.{Written};

// The octet at index i, and 0 past the end.
pub fn octet(octets: &[u8], i: usize) -> u8
    ensures { result ≡ get_or octets.now i 0 }
{
    octets.get(i).copied().unwrap_or(0)
}

// The octets from index i on, none past the end.
fn from_index(octets: &[u8], i: usize) -> &[u8]
    ensures { result.now ≡ drop i octets.now }
{
    octets.get(i..).unwrap_or(&[])
}

// The 16-bit number at index i, octets past the end read as 0.
pub fn word16_at(octets: &[u8], i: usize) -> u16
    ensures { result ≡ word16 octets.now i }
{
    let rest = from_index(octets, i);
    u16::from_be_bytes([octet(rest, 0), octet(rest, 1)])
}

// The 32-bit number at index i, octets past the end read as 0. Four octets that are there are one load.
pub fn word32_at(octets: &[u8], i: usize) -> u32
    ensures { result ≡ word32 octets.now i }
{
    let rest = from_index(octets, i);
    match rest.first_chunk() {
        Some(word) => u32::from_be_bytes(*word),
        None => u32::from_be_bytes([octet(rest, 0), octet(rest, 1), octet(rest, 2), 0]),
    }
}

// Writes a 16-bit number from index at on.
pub fn put16(out: &mut [u8], at: usize, number: u16)
    requires { at + 2 ≤ length out.old }
    ensures { out.new ≡ sets out.old at (octets16 number []) }
{
    out[at..at + 2].copy_from_slice(&number.to_be_bytes());
}

// Writes a 32-bit number from index at on.
pub fn put32(out: &mut [u8], at: usize, number: u32)
    requires { at + 4 ≤ length out.old }
    ensures { out.new ≡ sets out.old at (octets32 number []) }
{
    out[at..at + 4].copy_from_slice(&number.to_be_bytes());
}

// Lays octets over the front of buffer, and says how many.
pub fn store(buffer: &mut [u8], octets: &[u8]) -> usize
    requires { length octets.now ≤ length buffer.old }
    ensures value { result ≡ length octets.now }
    ensures buffer_after { buffer.new ≡ over octets.now buffer.old }
{
    buffer[..octets.len()].copy_from_slice(octets);
    octets.len()
}

// Stores octets from index `at` on, and says where they end.
pub fn put(out: &mut [u8], at: usize, octets: &[u8]) -> usize
    requires { at + length octets.now ≤ length out.old }
    ensures { Written octets.now at out.old out.new result }
{
    // An octet a store: most words are short, and a copy of them is a call.
    let mut end = at;
    for &octet in octets {
        out[end] = octet;
        end += 1;
    }
    end
}
