// Makes the calls that records on standard input name, and writes what each leaves. docs/COMPARISON.md has the format.
#![tactic(auto)]

ghost use Rattle.std.specs.Prelude.{◌≡◌, true, ◌*◌, ◌≤◌, length};
ghost use Rattle.program_driver.specs.Bounds.{InBounds};

use driver_records::RecordHead;
use gateway_state::{Outcome, State};
use std::io::{Read, Write};

// What one record leaves for the next.
#[derive(Clone, Copy)]
struct Turn {
    state: State,
    // How many numbers the lent table has.
    count: usize,
    // Whether another record may follow.
    is_open: bool,
}

// What the driver answers where it can make no call: the number of no rule.
const NO_CALL: u8 = 255;

// A state that the host hands in, or one that no call touched.
fn kept(st: State) -> Outcome {
    Outcome {
        answer: 0,
        first: 0,
        second: 0,
        state: st,
    }
}

fn unmade(st: State) -> Outcome {
    gateway_state::refused(st, NO_CALL)
}

// The state whose block the host hands in.
fn hand_state(st: State, block: &[u8]) -> Outcome {
    if block.len() < host_state_block::BLOCK {
        return unmade(st);
    }
    kept(host_state_block::read_state(block))
}

// Reading alone: the meaning and 384 numbers go into the buffer, and the first length is the number of rows.
fn read_alone(st: State, buffer: &mut [u8], net: u32, message: &[u8]) -> Outcome {
    let reading = codec::read(net, message);
    match reading.meaning {
        Err(refusal) => gateway_state::refused(st, u8::from(refusal)),
        Ok(m) => {
            if buffer.len() < 1560 {
                return unmade(st);
            }
            octets::store(buffer, &host_meaning::meaning_octets(m));
            octets_words::write_words(&mut buffer[24..], &reading.rows);
            Outcome {
                answer: 0,
                first: reading.count,
                second: 0,
                state: st,
            }
        }
    }
}

fn write_alone(st: State, buffer: &mut [u8], octets: &[u8], rows: &[u32]) -> Outcome {
    match codec::write(buffer, host_meaning::read_meaning(octets), rows) {
        Err(refusal) => gateway_state::refused(st, u8::from(refusal)),
        Ok(length) => Outcome {
            answer: 0,
            first: length,
            second: 0,
            state: st,
        },
    }
}

// The call that a record names.
fn call(
    st: State,
    table: &mut [u32],
    buffer: &mut [u8],
    head: RecordHead,
    octets: &[u8],
    numbers: &[u32],
) -> Outcome {
    let kind = head.kind;
    match kind {
        0 => gateway_slots::fresh(driver_records::settings_in(head)),
        1 => gateway_slots::add(st, head.address, head.asn),
        2 => gateway_slots::remove(st, head.address),
        3 => gateway_calls::start(st, table, buffer, head.address),
        4 => gateway_calls::stop(st, table, buffer, head.address),
        5 => gateway_calls::tick(st, table, buffer, head.address),
        6 => gateway_calls::receive(st, table, buffer, numbers, head.address, octets),
        7 => listing::listing(st, table, buffer),
        8 => read_alone(st, buffer, head.net, octets),
        9 => write_alone(st, buffer, octets, numbers),
        10 => hand_state(st, octets),
        _ => unmade(st),
    }
}

// A tick made so many times, each from the same state: one time is the rule, more are for timing.
fn repeat_tick(
    st: State,
    table: &mut [u32],
    buffer: &mut [u8],
    address: u32,
    times: u32,
) -> Outcome {
    let mut outcome = unmade(st);
    for _ in 0..times {
        outcome = gateway_calls::tick(st, table, buffer, address);
    }
    outcome
}

// A message received so many times, each from the same state.
fn repeat_receive(
    st: State,
    table: &mut [u32],
    buffer: &mut [u8],
    home: &[u32],
    address: u32,
    octets: &[u8],
    times: u32,
) -> Outcome {
    let mut outcome = unmade(st);
    for _ in 0..times {
        outcome = gateway_calls::receive(st, table, buffer, home, address, octets);
    }
    outcome
}

// Any call made so many times, each from the same state.
fn repeat_call(
    st: State,
    table: &mut [u32],
    buffer: &mut [u8],
    head: RecordHead,
    octets: &[u8],
    numbers: &[u32],
) -> Outcome {
    let mut outcome = unmade(st);
    for _ in 0..head.times {
        outcome = call(st, table, buffer, head, octets, numbers);
    }
    outcome
}

// The call made as often as the record says. A tick and a message have loops of their own, so that little but the call is timed.
fn repeat(
    st: State,
    table: &mut [u32],
    buffer: &mut [u8],
    head: RecordHead,
    octets: &[u8],
    numbers: &[u32],
) -> Outcome {
    let kind = head.kind;
    match kind {
        5 => repeat_tick(st, table, buffer, head.address, head.times),
        6 => repeat_receive(st, table, buffer, numbers, head.address, octets, head.times),
        _ => repeat_call(st, table, buffer, head, octets, numbers),
    }
}

// Writes the octets at the front.
fn show_front(output: &mut impl Write, octets: &[u8], size: usize) -> bool
    requires { size ≤ length octets.now }
{
    output.write_all(&octets[..size]).is_ok()
}

// Writes the answer's head and the state's block.
fn show_outcome(output: &mut impl Write, o: Outcome, room: u32, count: u32, raw: &mut [u8]) -> bool
    requires { 420 ≤ length raw.old }
{
    octets::store(
        raw,
        &driver_records::answer_octets(o.answer, o.first, o.second, room, count),
    );
    let st = o.state;
    host_state_block::write_state(&mut raw[16..], st);
    show_front(output, raw, 420)
}

// Writes the numbers of the table.
fn show_table(output: &mut impl Write, table: &[u32], raw: &mut [u8]) -> bool
    requires { length table.now * 4 ≤ length raw.old }
{
    octets_words::write_words(raw, table);
    show_front(output, raw, table.len() * 4)
}

// Writes what a call left: its outcome, the whole buffer and the whole table.
fn show(
    output: &mut impl Write,
    o: Outcome,
    buffer: &[u8],
    room: usize,
    table: &[u32],
    count: usize,
) -> bool
    requires room_in_bounds { (room ≤ length buffer.now) × (room ≤ 70000) }
    requires count_in_bounds { (count ≤ length table.now) × (count ≤ 4096) }
{
    let mut raw = [0u8; 16384];
    if !show_outcome(output, o, room as u32, count as u32, &mut raw) {
        return false;
    }
    if !show_front(output, buffer, room) {
        return false;
    }
    show_table(output, &table[..count], &mut raw)
}

// Reads octets from standard input to the front. Where the input ends or fails before, the rest stays as it was.
fn take_octets(input: &mut impl Read, octets: &mut [u8], size: usize)
    requires { size ≤ length octets.old }
{
    let _ = input.read_exact(&mut octets[..size]);
}

// Reads numbers from standard input to the front.
fn take_numbers(input: &mut impl Read, numbers: &mut [u32], count: usize)
    requires { (count ≤ length numbers.old) × (count ≤ 4096) }
{
    let mut raw = [0u8; 16384];
    take_octets(input, &mut raw, count * 4);
    octets_words::read_words(&mut numbers[..count], &raw);
}

// The buffer as it is lent.
fn lend(buffer: &mut [u8], room: usize, octet: u8)
    requires { room ≤ length buffer.old }
{
    driver_records::fill(&mut buffer[..room], octet);
}

// Whether the sizes that a record names are within what the driver keeps.
fn is_within(head: RecordHead) -> bool
    ensures { result ≡ true → InBounds head }
{
    if 4096 < head.octets {
        return false;
    }
    if 4096 < head.numbers {
        return false;
    }
    head.room <= 70000
}

// The next record's head. Where the input ends, one that asks for more than the driver keeps.
fn next_head(input: &mut impl Read) -> RecordHead {
    let mut first = [0u8; 32];
    if input.read_exact(&mut first).is_err() {
        return driver_records::read_head(&[255u8; 32]);
    }
    driver_records::read_head(&first)
}

// A record that hands in a table.
fn hand_in(
    input: &mut impl Read,
    output: &mut impl Write,
    st: State,
    table: &mut [u32; 4096],
    head: RecordHead,
) -> Turn
    requires { InBounds head }
    ensures { result.count ≤ 4096 }
{
    let count = head.numbers as usize;
    take_numbers(input, table, count);
    let is_open = show(output, kept(st), b"", 0, table, count);
    Turn {
        state: st,
        count,
        is_open,
    }
}

// The rest of a record, and the buffer as it is lent.
fn take_rest(
    input: &mut impl Read,
    head: RecordHead,
    octets: &mut [u8],
    numbers: &mut [u32],
    buffer: &mut [u8; 70000],
)
    requires in_bounds { InBounds head }
    requires octets_len { (length octets.old ≡ 4096) × (length numbers.old ≡ 4096) }
{
    take_octets(input, octets, head.octets as usize);
    take_numbers(input, numbers, head.numbers as usize);
    lend(buffer, head.room as usize, head.octet);
}

// The call on the parts of the rooms that the record names.
fn make(
    st: State,
    table: &mut [u32],
    count: usize,
    head: RecordHead,
    octets: &[u8],
    numbers: &[u32],
    buffer: &mut [u8],
) -> Outcome
    requires { (count ≤ length table.old) × (head.octets ≤ length octets.now) × (head.numbers ≤ length numbers.now) × (head.room ≤ length buffer.old) }
{
    let size = head.octets as usize;
    let given = head.numbers as usize;
    let room = head.room as usize;
    repeat(
        st,
        &mut table[..count],
        &mut buffer[..room],
        head,
        &octets[..size],
        &numbers[..given],
    )
}

// A record whose head is read: the rest of it, its call and the answer.
fn serve(
    input: &mut impl Read,
    output: &mut impl Write,
    st: State,
    table: &mut [u32; 4096],
    count: usize,
    head: RecordHead,
    buffer: &mut [u8; 70000],
) -> Turn
    requires { (count ≤ 4096) × InBounds head }
    ensures { result.count ≤ 4096 }
{
    if head.kind == 11 {
        return hand_in(input, output, st, table, head);
    }
    let mut octets = [0u8; 4096];
    let mut numbers = [0u32; 4096];
    take_rest(input, head, &mut octets, &mut numbers, buffer);
    let o = make(st, table, count, head, &octets, &numbers, buffer);
    let is_open = show(output, o, buffer, head.room as usize, table, count);
    let after = o.state;
    Turn {
        state: after,
        count,
        is_open,
    }
}

// Records until the input ends, from the all-zero state. Nothing says that an input ends, so the turns are counted, up
// to a number that no run uses up.
fn play(
    input: &mut impl Read,
    output: &mut impl Write,
    table: &mut [u32; 4096],
    buffer: &mut [u8; 70000],
) {
    let mut st = host_state_block::read_state(&[0u8; 404]);
    let mut count = 3072;
    for _ in 0..u64::MAX {
        let head = next_head(input);
        if !is_within(head) {
            return;
        }
        let next = serve(input, output, st, table, count, head, buffer);
        if !next.is_open {
            return;
        }
        st = next.state;
        count = next.count;
    }
}

fn main(rt: HostRuntime) {
    let mut table = [0u32; 4096];
    let mut buffer = [0u8; 70000];
    play(&mut rt.stdin(), &mut rt.stdout(), &mut table, &mut buffer);
}
