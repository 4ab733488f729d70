// Takes the checksums of messages on standard input, over and over: the checksum alone, for timing. A record is 8
// octets, how often (32 bits), how many octets a message has (16) and how many follow (16), and then these: messages
// one behind the other. The answer is the sum of their checksums, as often as was asked, modulo 2^32.
#![tactic(auto)]

ghost use Rattle.std.specs.Prelude.{◌≤◌, length};

use std::io::{Read, Write};

// The sum of the checksums of the messages of size octets that stand in octets.
fn sum_once(octets: &[u8], size: usize) -> u32 {
    let mut sum = 0u32;
    if size == 0 {
        return sum;
    }
    let mut rest = octets;
    while size <= rest.len() {
        sum = sum.wrapping_add(octets_checksum::checksum(&rest[..size]) as u32);
        rest = &rest[size..];
    }
    sum
}

fn sum_often(octets: &[u8], size: usize, times: u32) -> u32 {
    let mut sum = 0u32;
    for _ in 0..times {
        sum = sum.wrapping_add(sum_once(octets, size));
    }
    sum
}

// Writes a number of 32 bits.
fn show(output: &mut impl Write, n: u32) -> bool {
    output.write_all(&n.to_be_bytes()).is_ok()
}

// Reads octets from standard input to the front. Where the input ends or fails before, the rest stays as it was.
fn take_octets(input: &mut impl Read, room: &mut [u8], count: usize)
    requires { count ≤ length room.old }
{
    let _ = input.read_exact(&mut room[..count]);
}

// The messages at the front, summed up.
fn sum_front(room: &[u8], count: usize, size: usize, times: u32) -> u32
    requires { count ≤ length room.now }
{
    sum_often(&room[..count], size, times)
}

// The rest of a record whose head is read, and its answer.
fn serve(
    input: &mut impl Read,
    output: &mut impl Write,
    room: &mut [u8; 65536],
    head: &[u8],
) -> bool {
    let times = octets::word32_at(head, 0);
    let size = octets::word16_at(head, 4) as usize;
    let count = octets::word16_at(head, 6) as usize;
    take_octets(input, room, count);
    show(output, sum_front(room, count, size, times))
}

// The next record, if there is one.
fn turn(input: &mut impl Read, output: &mut impl Write, room: &mut [u8; 65536]) -> bool {
    let mut head = [0u8; 8];
    if input.read_exact(&mut head).is_err() {
        return false;
    }
    serve(input, output, room, &head)
}

// Records until the input ends. Nothing says that it ends, so the turns are counted, up to a number that no run uses
// up.
fn play(input: &mut impl Read, output: &mut impl Write, room: &mut [u8; 65536]) {
    for _ in 0..u64::MAX {
        if !turn(input, output, room) {
            return;
        }
    }
}

fn main(rt: HostRuntime) {
    let mut room = [0u8; 65536];
    play(&mut rt.stdin(), &mut rt.stdout(), &mut room);
}
