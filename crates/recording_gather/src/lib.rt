// A recording comes in pieces of any size: the octets of one line are gathered in a lent buffer until octet 10 ends it.
#![tactic(auto)]

ghost use Rattle.std.specs.Prelude.{◌≡◌, ◌≤◌, set, take, length};
ghost use Rattle.recording_gather.specs.Gathering.{longer, gathered, line_after, line_held};

// One octet more than the longest good line has: a line that fills it is bad, whatever follows.
pub const LONGEST: u16 = 4118;

// How many octets of the piece were used, how many of the line are held, and whether the line ended.
#[derive(Clone, Copy)]
pub struct Gathered {
    pub used: usize,
    pub held: u16,
    pub ended: bool,
}

// One octet more is held; past the longest line they are no longer counted.
#[tactic(auto, unfolding(crate::specs::Gathering::longer))]
fn count_one(held: u16) -> u16
    ensures { result ≡ longer held }
{
    if held < LONGEST { held + 1 } else { held }
}

// Keeps an octet, if the buffer has room for it.
fn keep(line: &mut [u8], at: usize, octet: u8)
    ensures { line.new ≡ set line.old at octet }
{
    if at < line.len() {
        line[at] = octet;
    }
}

// Takes octets from a piece up to the end of the line, or all of them. The buffer is the host's, and how much of it is
// held is the player's: they are lent apart.
pub fn gather(line: &mut [u8], held: u16, input: &[u8]) -> Gathered
    ensures value { result ≡ gathered 0 held input.now }
    ensures line_after { line.new ≡ line_after held line.old input.now }
{
    let mut size = held;
    for (i, &octet) in input.iter().enumerate() {
        if octet == b'\n' {
            return Gathered {
                used: i + 1,
                held: size,
                ended: true,
            };
        }
        keep(line, usize::from(size), octet);
        size = count_one(size);
    }
    Gathered {
        used: input.len(),
        held: size,
        ended: false,
    }
}

// Puts a line together outside the lent buffer, which stays as it is: what was held of it, and the octets of a piece.
pub fn join_piece(whole: &mut [u8], line: &[u8], held: u16, input: &[u8]) -> Gathered
    requires { (4118 ≤ length line.now) × (length whole.old ≡ 4118) }
    ensures value { result ≡ gathered 0 held input.now }
    ensures whole_after { whole.new ≡ line_after held (take 4118 line.now) input.now }
{
    octets::put(whole, 0, &line[..4118]);
    gather(whole, held, input)
}

// The line that is held; where the buffer was too short for it, an empty one, which is bad.
#[tactic(auto, unfolding(crate::specs::Gathering::line_held))]
pub fn held_line(line: &[u8], held: u16) -> &[u8]
    ensures { result.now ≡ line_held held line.now }
{
    let end = usize::from(held);
    if line.len() < end {
        return &[];
    }
    &line[..end]
}
