// Storing the rows of an Update that the walk found good into a slot's part of the table, of a table of numbers or of
// their octets: three numbers a row, the rest zero.
#![tactic(auto)]

ghost use Rattle.std.specs.Prelude.{◌≡◌, ℕ, List, true, [], ◌∷◌, ◌+◌, ◌-◌, ◌^◌, ◌≤◌, ◌<◌, length, take, drop, get_or, set};
ghost use Rattle.std.proofs.lemmas.List.Edits.{sets};
ghost use native.Mathlib.Nat.{le_refl};
ghost use Rattle.octets_words.specs.Words.{words_of};
ghost use Rattle.octets_words.proofs.Words.{words_few};
ghost use Rattle.nets.specs.Classes.{net_width, good_net};
ghost use Rattle.nets.specs.Rows.{Row, flat};
ghost use Rattle.update_walk.specs.Body.{Got, big_endian, many, left_justified, net_row, group_rows, block_rows, walked_blocks};
ghost use Rattle.update_rows.specs.Storing.{zeros, padded, Storable, Room, Stored, walked_rows};

// What a table is made of: its numbers, or their octets.
pub trait TableUnit: Copy {
    // the numbers that stand in a part of the table
    ghost numbers: { List Self → List ℕ };

    // One row, from this number of the part on.
    fn put_row(part: &mut [Self], at: usize, net: u32, gateway: u32, third: u32)
        requires { at + 3 ≤ length (numbers part.old) }
        ensures { numbers part.new ≡ sets (numbers part.old) at (net ∷ gateway ∷ third ∷ []) };

    // Zero from this number of the part on.
    fn clear_from(part: &mut [Self], at: usize)
        requires { at ≤ length (numbers part.old) }
        ensures { numbers part.new ≡ sets (numbers part.old) at (zeros (length (numbers part.old) - at)) };

    ghost few: { (part : List Self) → length (numbers part) ≤ length part };
}

impl TableUnit for u32 {
    ghost numbers = { λ part. part };

    fn put_row(part: &mut [u32], at: usize, net: u32, gateway: u32, third: u32) {
        part[at] = net;
        part[at + 1] = gateway;
        part[at + 2] = third;
    }

    fn clear_from(part: &mut [u32], at: usize) {
        part[at..].fill(0);
    }

    ghost few = { λ part. le_refl (length part) };
}

impl TableUnit for u8 {
    ghost numbers = { words_of };

    fn put_row(part: &mut [u8], at: usize, net: u32, gateway: u32, third: u32) {
        put_number(part, at, net);
        put_number(part, at + 1, gateway);
        put_number(part, at + 2, third);
    }

    fn clear_from(part: &mut [u8], at: usize) {
        part[at * 4..].fill(0);
    }

    ghost few = { words_few };
}

// A number in its octets, at this place among the numbers of the part. It is turned round and stored lowest octet
// first: of four octets so the compiler makes one store, and turns gateway and distance once for all nets of a group.
fn put_number(part: &mut [u8], at: usize, number: u32)
    requires { at < length (words_of part.old) }
    ensures { words_of part.new ≡ set (words_of part.old) at number }
{
    let at = at * 4;
    part[at..at + 4].copy_from_slice(&number.swap_bytes().to_le_bytes());
}

// Where the next number goes, and the octets that are left.
#[derive(Clone, Copy)]
struct Put<'a> {
    at: usize,
    rest: &'a [u8],
}

// What stands in an Update so many times, one after the other, and holds rows.
trait Element {
    // its rows, read from the front of these octets
    ghost reading: { Self → List ℕ → Got (List Row) };

    // Stores the rows of the one at the front.
    fn put<'a, U: TableUnit>(&self, part: &mut [U], at: usize, t: &'a [u8]) -> Put<'a>
        requires { Room (reading self.now t.now) at (U.numbers part.old) }
        ensures { Stored (reading self.now t.now) at (U.numbers part.old) (U.numbers part.new) result };
}

// The distance groups of a gateway on one side: 0 for internal, 256 for external.
#[derive(Clone, Copy)]
struct Group {
    side: u32,
    gateway: u32,
    ghost side_bound: { side ≤ 256 },
}

impl Element for Group {
    ghost reading = { λ group. group_rows group.side group.gateway };

    // Each row is stored as its net is met: the group's end is not looked for first.
    fn put<'a, U: TableUnit>(&self, part: &mut [U], at: usize, t: &'a [u8]) -> Put<'a> {
        let third = self.side + u32::from(t[0]);
        put_nets(part, at, &t[2..], t[1], self.gateway, third)
    }
}

// The gateway blocks of one side, of an Update of this common net.
#[derive(Clone, Copy)]
struct Block {
    side: u32,
    net: u32,
    ghost side_bound: { side ≤ 256 },
    ghost net_good: { good_net net ≡ true },
}

impl Element for Block {
    ghost reading = { λ block. block_rows block.side block.net };

    fn put<'a, U: TableUnit>(&self, part: &mut [U], at: usize, t: &'a [u8]) -> Put<'a> {
        let host = update_walk::host_width(self.net);
        let group = Group {
            side: self.side,
            gateway: self.net + host_part(t, host),
        };
        put_each(&group, part, at, &t[host + 1..], t[host])
    }
}

// A net: its number, left justified, and how many octets it takes.
#[derive(Clone, Copy)]
struct Net {
    number: u32,
    width: usize,
}

// The net that starts here. A branch for each class: a width computed from the first octet would make each net's place
// wait for the octets of the net before it.
fn net_at(t: &[u8], i: usize) -> Net
    requires { (0 < net_width (get_or t.now i 0)) × (i + net_width (get_or t.now i 0) ≤ length t.now) }
    ensures width { result.width ≡ net_width (get_or t.now i 0) }
    ensures number { result.number ≡ left_justified (net_width (get_or t.now i 0)) (drop i t.now) }
{
    let first = t[i];
    if first < 128 {
        return Net {
            number: u32::from_be_bytes([first, 0, 0, 0]),
            width: 1,
        };
    }
    if first < 192 {
        return Net {
            number: u32::from_be_bytes([first, t[i + 1], 0, 0]),
            width: 2,
        };
    }
    Net {
        number: u32::from_be_bytes([first, t[i + 1], t[i + 2], 0]),
        width: 3,
    }
}

// The number of the host part at the front, of this width.
pub fn host_part(t: &[u8], host: usize) -> u32
    requires { (0 < host) × (host < 4) × (host ≤ length t.now) }
    ensures number { result ≡ big_endian (take host t.now) }
    ensures bound { result < 256 ^ host }
{
    if host == 3 {
        u32::from_be_bytes([0, t[0], t[1], t[2]])
    } else if host == 2 {
        u32::from_be_bytes([0, 0, t[0], t[1]])
    } else {
        u32::from(t[0])
    }
}

// The rows of the nets of one distance group.
fn put_nets<'a, U: TableUnit>(
    part: &mut [U],
    mut at: usize,
    t: &'a [u8],
    count: u8,
    gateway: u32,
    third: u32,
) -> Put<'a>
    requires { Room (many (net_row gateway third) count t.now) at (U.numbers part.old) }
    ensures { Stored (many (net_row gateway third) count t.now) at (U.numbers part.old) (U.numbers part.new) result }
{
    let mut i = 0;
    for _net in 0..count {
        let net = net_at(t, i);
        U::put_row(part, at, net.number, gateway, third);
        i += net.width;
        at += 3;
    }
    Put { at, rest: &t[i..] }
}

// The rows of so many elements, one after the other.
fn put_each<'a, E: Element, U: TableUnit>(
    element: &E,
    part: &mut [U],
    at: usize,
    t: &'a [u8],
    count: u8,
) -> Put<'a>
    requires { Room (many (E.reading element.now) count t.now) at (U.numbers part.old) }
    ensures { Stored (many (E.reading element.now) count t.now) at (U.numbers part.old) (U.numbers part.new) result }
{
    let mut put = Put { at, rest: t };
    for _element in 0..count {
        put = element.put(part, put.at, put.rest);
    }
    put
}

// Zero in the whole part.
pub fn clear(part: &mut [u32])
    ensures { part.new ≡ zeros (length part.old) }
{
    part.fill(0);
}

// The rows of an Update that the walk found good, then zeros.
pub fn store_rows<U: TableUnit>(part: &mut [U], net: u32, message: &[u8])
    requires { Storable net message.now (U.numbers part.old) }
    ensures { U.numbers part.new ≡ padded (length (U.numbers part.old)) (flat (walked_rows (walked_blocks net message.now))) }
{
    let internal = Block { side: 0, net };
    let external = Block { side: 256, net };
    let inside = put_each(&internal, part, 0, &message[16..], message[10]);
    let outside = put_each(&external, part, inside.at, inside.rest, message[11]);
    U::clear_from(part, outside.at);
}
