// The walk over the gateway blocks of an Update: counts rows, or finds the first octet that can't be right.
#![tactic(auto)]

ghost use Rattle.std.specs.Prelude.{◌≡◌, ℕ, List, ◌^◌, ◌≤◌, ◌<◌, length, IfOk};
ghost use Rattle.nets.specs.Rows.{Row};
ghost use Rattle.update_walk.specs.Body.{big_endian, Got, many, net_row, group_rows, host_width, block_rows, both_sides, update_of, walked_of, refusal_of, walked_number};
ghost use Rattle.update_walk.specs.Walked.{Skipped, Within, group_nets, past_group};

use checks::Refusal;
use std::error::Error;
use std::fmt;

// Why an Update's blocks are refused: the offset of the first octet that can't be right, or more rows than there is
// room for.
#[derive(Clone, Copy, Debug, PartialEq, Eq)]
pub enum BodyError {
    Broken(usize),
    TooMany,
}

impl From<BodyError> for Refusal {
    ghost from_gives = { λ error refusal. refusal ≡ refusal_of error };

    fn from(error: BodyError) -> Refusal {
        match error {
            BodyError::Broken(_) => Refusal::BrokenBlocks,
            BodyError::TooMany => Refusal::TooManyRows,
        }
    }
}

impl fmt::Display for BodyError {
    fn fmt<W: fmt::Write>(&self, f: &mut fmt::Formatter<W>) -> fmt::Result {
        match self {
            BodyError::Broken(offset) => write!(f, "the octet at {offset} can't be right"),
            BodyError::TooMany => f.write_str("there are more rows than there is room for"),
        }
    }
}

impl Error for BodyError {}

// How far a part of the walk came: past so many rows, and the octets that are left there.
#[derive(Clone, Copy)]
struct Past<'a> {
    rows: usize,
    rest: &'a [u8],
}

// Where the walk stopped: how many octets are left at the first that can't be right.
#[derive(Clone, Copy)]
struct Stop {
    left: usize,
}

// A distance group that was read: its nets as a part of the received octets, uncopied, and how far it came.
#[derive(Clone, Copy)]
struct Group<'a> {
    nets: &'a [u8],
    past: Past<'a>,
}

// The number that at most four octets make, big-endian.
pub fn value(octets: &[u8]) -> u32
    requires { length octets.now ≤ 4 }
    ensures number { result ≡ big_endian octets.now }
    ensures bound { result < 256 ^ length octets.now }
{
    let mut sum = 0;
    for &octet in octets {
        sum = sum * 256 + u32::from(octet);
    }
    sum
}

// How many octets a host part of this net takes.
pub fn host_width(net: u32) -> usize
    ensures { result ≡ host_width net }
{
    4 - nets::width_of(net)
}

// Past the nets of one distance group. A branch for each class: a width computed from the first octet would make each
// net's place wait for the octets of the net before it. Class B tests the length itself, which keeps the compiler from
// joining the branches. Whether a net's octets are all there shows at the next net or at the end.
fn skip_nets<'a>(t: &'a [u8], count: u8) -> Result<Past<'a>, Stop>
    ensures { (gateway third : ℕ) → Skipped (many (net_row gateway third) count t.now) result }
{
    let mut i = 0;
    for _net in 0..count {
        let Some(&first) = t.get(i) else {
            return Err(Stop { left: 0 });
        };
        if first < 128 {
            i += 1;
        } else if first < 192 {
            if t.len() <= i + 1 {
                return Err(Stop { left: 0 });
            }
            i += 2;
        } else if first < 224 {
            i += 3;
        } else {
            return Err(Stop { left: t.len() - i });
        }
    }
    if t.len() < i {
        return Err(Stop { left: 0 });
    }
    Ok(Past {
        rows: count as usize,
        rest: &t[i..],
    })
}

// The distance group at the front: distance, number of nets, nets. A group of no nets is good, and a bad one has none.
fn group_nets<'a>(t: &'a [u8]) -> Result<Group<'a>, Stop>
    ensures nets { IfOk result (λ group. group.nets.now ≡ group_nets t.now) }
    ensures past { (side gateway : ℕ) → Skipped (group_rows side gateway t.now) (past_group result) }
{
    if t.len() < 2 {
        return Err(Stop { left: 0 });
    }
    let nets = &t[2..];
    let past = skip_nets(nets, t[1])?;
    Ok(Group {
        nets: &nets[..nets.len() - past.rest.len()],
        past,
    })
}

// Past one distance group.
fn skip_group<'a>(t: &'a [u8]) -> Result<Past<'a>, Stop>
    ensures { (side gateway : ℕ) → Skipped (group_rows side gateway t.now) result }
{
    Ok(group_nets(t)?.past)
}

// Past so many elements, one after the other.
fn skip_each<'a, F: Fn(&'a [u8]) -> Result<Past<'a>, Stop>>(
    t: &'a [u8],
    count: u8,
    skip: F,
) -> Result<Past<'a>, Stop>
    requires callable { F.IsAlwaysCallable skip }
    requires within { (u : _) (r : _) → F.post skip u r → Within u.now r }
    ensures { (f : List ℕ → Got (List Row)) → ((u : _) (r : _) → F.post skip u r → Skipped (f u.now) r) → Skipped (many f count t.now) result }
{
    let mut rows = 0;
    let mut rest = t;
    for _element in 0..count {
        let past = skip(rest)?;
        rows += past.rows;
        rest = past.rest;
    }
    Ok(Past { rows, rest })
}

// Past one gateway block: host, number of distances, distance groups.
fn skip_block<'a>(net: u32, t: &'a [u8]) -> Result<Past<'a>, Stop>
    ensures { (side : ℕ) → Skipped (block_rows side net t.now) result }
{
    let host = host_width(net);
    if t.len() <= host {
        return Err(Stop { left: 0 });
    }
    skip_each(&t[host + 1..], t[host], skip_group)
}

// Past the gateway blocks of one side.
fn skip_blocks<'a>(net: u32, t: &'a [u8], count: u8) -> Result<Past<'a>, Stop>
    ensures { (side : ℕ) → Skipped (many (block_rows side net) count t.now) result }
{
    skip_each(t, count, |block| skip_block(net, block))
}

// Past the internal gateway blocks, then the external ones.
fn skip_sides<'a>(net: u32, internal: u8, external: u8, body: &'a [u8]) -> Result<Past<'a>, Stop>
    ensures { Skipped (both_sides net internal external body.now) result }
{
    let inside = skip_blocks(net, body, internal)?;
    let outside = skip_blocks(net, inside.rest, external)?;
    Ok(Past {
        rows: inside.rows + outside.rows,
        rest: outside.rest,
    })
}

// How many rows an Update has, if they are no more than there is room for, or why it is refused: the offset of its
// first octet that can't be right, or too many rows.
pub fn walk(net: u32, message: &[u8], room: usize) -> Result<usize, BodyError>
    ensures { result ≡ walked_of (update_of room net message.now) }
{
    let end = message.len();
    if end < 16 {
        return Err(BodyError::Broken(end));
    }
    if !nets::good_net(net) || value(&message[12..16]) != net {
        return Err(BodyError::Broken(12));
    }
    match skip_sides(net, message[10], message[11], &message[16..]) {
        Err(stop) => Err(BodyError::Broken(end - stop.left)),
        Ok(past) if !past.rest.is_empty() => Err(BodyError::Broken(end - past.rest.len())),
        Ok(past) if past.rows <= room => Ok(past.rows),
        Ok(_) => Err(BodyError::TooMany),
    }
}

// 01's number for what the walk found: 0, 14 or 15.
pub fn update_number(walked: Result<usize, BodyError>) -> u8
    ensures { result ≡ walked_number walked }
{
    match walked {
        Ok(_) => 0,
        Err(error) => u8::from(Refusal::from(error)),
    }
}
