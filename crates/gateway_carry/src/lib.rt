// A verdict carried out: its reply written into the buffer, its rows into the table, its neighbour into the slot.
#![tactic(auto)]

ghost use Rattle.std.specs.Prelude.{◌≡◌, true, List, ℕ, ◌≤◌, ◌<◌, length};
ghost use Rattle.nets.specs.Rows.{rows_of};
ghost use Rattle.update_walk.specs.Body.{Walk, walked_blocks};
ghost use Rattle.update_rows.specs.Storing.{walked_rows};
ghost use Rattle.neighbour_seconds.specs.Seconds.{most_seconds, seconds_sum, seconds_formed};
ghost use Rattle.gateway_state.specs.Places.{row_counts};
ghost use Rattle.gateway_rules.specs.Ruling.{Ruling, keep};
ghost use Rattle.gateway_rules.specs.Seconds.{has_time, second_more, booked};
ghost use Rattle.gateway_rules.specs.Carried.{table_after, count_after, slot_after, outcome_after, refused_with, buffer_after};
ghost use Rattle.gateway_carry.specs.Asked.{sendable, lengths_of, takes, change_of, ruling_of};

use gateway_rules::{Effect, Verdict};
use gateway_state::{Outcome, Slot, State};
use neighbour::Neighbour;
use neighbour_machine::{Event, Reply};
use neighbour_seconds::Seconds;

// The lengths of the reply's two messages.
#[derive(Clone, Copy)]
pub struct Lengths {
    pub first: u16,
    pub second: u16,
}

// Writes a reply at the front of the buffer, its second message straight after the first.
pub fn send(buffer: &mut [u8], reply: Reply, home: &[u32]) -> Lengths
    requires { (sendable reply home.now ≡ true) × (2048 ≤ length buffer.old) }
    ensures value { result ≡ lengths_of reply (rows_of home.now) }
    ensures buffer_after { buffer.new ≡ buffer_after buffer.old reply (rows_of home.now) }
{
    match reply {
        Reply::Nothing => Lengths {
            first: 0,
            second: 0,
        },
        Reply::One(m) => {
            let first = codec_writing::write_message(buffer, m, home);
            Lengths {
                first: first as u16,
                second: 0,
            }
        }
        Reply::Two(m, next) => {
            let first = codec_writing::write_message(buffer, m, home);
            let second = codec_writing::write_message(&mut buffer[first..], next, home);
            Lengths {
                first: first as u16,
                second: second as u16,
            }
        }
    }
}

// Leaves, zeroes or replaces the rows of slot i, in its part of the table.
fn change_rows(table: &mut [u32], i: usize, effect: Effect, net: u32, message: &[u8])
    requires i_bound { (i < 8) × (length table.old ≡ 3072) }
    requires message_value { takes effect (walked_blocks net message.now) ≡ true }
    ensures { (counts : List ℕ) → table.new ≡ table_after table.old counts i (change_of effect (walked_rows (walked_blocks net message.now))) }
{
    let start = gateway_state::place(i);
    let end = start + gateway_state::SLOT_NUMBERS;
    match effect {
        Effect::Keep => {}
        Effect::Clear => update_rows::clear(&mut table[start..end]),
        Effect::Replace(_) => update_rows::store_rows(&mut table[start..end], net, message),
    }
}

// The row count after a verdict.
fn count_after(count: u16, effect: Effect) -> u16
    ensures { (walk : Walk) → takes effect walk ≡ true → result ≡ count_after count (change_of effect (walked_rows walk)) }
{
    match effect {
        Effect::Keep => count,
        Effect::Clear => 0,
        Effect::Replace(new) => new,
    }
}

pub fn slot_after(slot: Slot, v: Verdict) -> Slot
    ensures { (walk : Walk) → takes v.effect walk ≡ true → result ≡ slot_after slot (ruling_of v (walked_rows walk)) }
{
    Slot {
        neighbour: v.neighbour,
        rows: count_after(slot.rows, v.effect),
        ..slot
    }
}

// The slot with another record, its rows kept.
pub fn with_neighbour(slot: Slot, n: Neighbour) -> Slot
    ensures { (x : Ruling) → x.neighbour ≡ n → x.change ≡ keep → result ≡ slot_after slot x }
{
    Slot {
        neighbour: n,
        ..slot
    }
}

// Whether the clock has room for this event: a tick alone takes a second.
#[tactic(auto, unfolding(gateway_rules::specs::Seconds::has_time))]
pub fn has_time(event: Event, seconds: Seconds) -> bool
    ensures { result ≡ has_time event seconds }
{
    match event {
        Event::Tick => !seconds.is_full(),
        _ => true,
    }
}

fn second_more(slot: Slot) -> Slot
    requires { seconds_sum slot.seconds < most_seconds }
    ensures { result ≡ second_more slot }
{
    Slot {
        seconds: slot.seconds.count(slot.neighbour.phase),
        ..slot
    }
}

// The slot as an event's own rules find it: a tick is booked on the state before it.
#[tactic(auto, unfolding(gateway_rules::specs::Seconds::booked))]
pub fn book(event: Event, slot: Slot) -> Slot
    requires { (seconds_formed slot.seconds ≡ true) × (has_time event slot.seconds ≡ true) }
    ensures { result ≡ booked event slot }
{
    match event {
        Event::Tick => second_more(slot),
        _ => slot,
    }
}

// Carries a verdict on the neighbour in slot i, booked as this, out: the reply, the rows, the slot.
pub fn apply(
    mut st: State,
    i: usize,
    slot: Slot,
    v: Verdict,
    table: &mut [u32],
    buffer: &mut [u8],
    home: &[u32],
    message: &[u8],
) -> Outcome
    requires i_bound { (i < 8) × (length table.old ≡ 3072) × (2048 ≤ length buffer.old) }
    requires home_value { (sendable v.reply home.now ≡ true) × (takes v.effect (walked_blocks st.settings.net message.now) ≡ true) }
    ensures value { result ≡ outcome_after st i slot (ruling_of v (walked_rows (walked_blocks st.settings.net message.now))) (rows_of home.now) }
    ensures table_after { table.new ≡ table_after table.old (row_counts st) i (change_of v.effect (walked_rows (walked_blocks st.settings.net message.now))) }
    ensures buffer_after { buffer.new ≡ buffer_after buffer.old v.reply (rows_of home.now) }
{
    let lengths = send(buffer, v.reply, home);
    change_rows(table, i, v.effect, st.settings.net, message);
    st.slots[i] = slot_after(slot, v);
    Outcome {
        answer: v.answer,
        first: lengths.first,
        second: lengths.second,
        state: st,
    }
}

// Refuses a call: the reply that the number names is written, and nothing else changes.
pub fn refuse(st: State, answer: u8, buffer: &mut [u8], reply: Reply, home: &[u32]) -> Outcome
    requires { (sendable reply home.now ≡ true) × (2048 ≤ length buffer.old) }
    ensures value { result ≡ refused_with st answer reply (rows_of home.now) }
    ensures buffer_after { buffer.new ≡ buffer_after buffer.old reply (rows_of home.now) }
{
    let lengths = send(buffer, reply, home);
    Outcome {
        answer,
        first: lengths.first,
        second: lengths.second,
        state: st,
    }
}
