// A line of the trace: what a call found and left of its neighbour, and every message that was received or sent.
#![tactic(auto)]

ghost use Rattle.std.specs.Prelude.{◌≡◌, List, ℕ, ◌+◌, ◌≤◌, length};
ghost use Rattle.octets.specs.Buffer.{over};
ghost use Rattle.text.specs.Writer.{Puts, Room};
ghost use Rattle.recording_trace.specs.Trace.{deed_word, slot_word, received_text, sent_text, slot_for, told_slot, record_numbers, front_text, record_text, messages_text, trace_text, is_unchanged, is_quiet_tick, is_tick, is_passed_over};
ghost use Rattle.recording_trace.specs.Steps.{happened_in};

use gateway_state::{Outcome, Slot, State};
use text::Writer;

// Which event a call is.
#[derive(Clone, Copy, Debug, PartialEq, Eq)]
pub enum Deed {
    Add,
    Remove,
    Start,
    Stop,
    Tick,
    Receive,
}

// How a call is told of: by a line of the trace, or by its replies alone; the number of its line, how many ticks of that
// line were passed over since the last one told of, and whether it is the line's last call.
#[derive(Clone, Copy)]
pub struct Telling {
    pub traced: bool,
    pub line: u64,
    pub passed: u64,
    pub last: bool,
}

#[tactic(auto, unfolding(crate::specs::Trace::deed_word, text::specs::Text::text))]
fn deed_word(deed: Deed) -> &'static [u8]
    ensures word { result.now ≡ deed_word deed }
    ensures upper_bound { length result.now ≤ 6 }
{
    match deed {
        Deed::Add => b"add",
        Deed::Remove => b"remove",
        Deed::Start => b"start",
        Deed::Stop => b"stop",
        Deed::Tick => b"tick",
        Deed::Receive => b"rx",
    }
}

// The word of a slot's state; of a free one none.
#[tactic(auto, unfolding(crate::specs::Trace::slot_word, text::specs::Text::text))]
fn slot_word(slot: Slot) -> &'static [u8]
    ensures { result.now ≡ slot_word slot }
{
    if slot.address == 0 {
        return b"none";
    }
    listing_lines::state_word(slot.neighbour.phase)
}

// The message that was received, if the call is one.
fn put_received(out: &mut Writer<'_>, deed: Deed, net: u32, message: &[u8])
    requires message_len_bound { length message.now ≤ 2049 }
    requires room { Room out.old 14110 }
    ensures written { Puts (received_text deed net message.now) out.old out.new }
    ensures upper_bound { out.new.end ≤ out.old.end + 14110 }
{
    if let Deed::Receive = deed {
        recording_message::put_message(out, b" received=", net, message);
    }
}

// A message that was sent, if there is one.
fn put_sent(out: &mut Writer<'_>, net: u32, message: &[u8])
    requires message_len_bound { length message.now ≤ 2049 }
    requires room { Room out.old 14110 }
    ensures written { Puts (sent_text net message.now) out.old out.new }
    ensures upper_bound { out.new.end ≤ out.old.end + 14110 }
{
    if !message.is_empty() {
        recording_message::put_message(out, b" sent=", net, message);
    }
}

// The slot of the neighbour with this address, or a free one.
fn slot_for(st: State, address: u32) -> Slot
    ensures { result ≡ slot_for st address }
{
    match gateway_state::slot_of(st, address) {
        Some(i) => st.slots[i],
        None => gateway_state::free_slot(),
    }
}

// What is told of: the slot that a call leaves, or, where it leaves none, the one that it found.
fn told_slot(found: Slot, left: Slot) -> Slot
    ensures { result ≡ told_slot found left }
{
    if left.address == 0 {
        return found;
    }
    left
}

// The record's numbers.
fn record_numbers(passed: u64, found: Slot, left: Slot, told: Slot) -> [u64; 17]
    ensures { result ≡ record_numbers passed found left told }
{
    let n = told.neighbour;
    [
        passed,
        found.rows as u64,
        left.rows as u64,
        found.neighbour.register as u64,
        left.neighbour.register as u64,
        told.asn as u64,
        n.s as u64,
        n.r as u64,
        n.period1 as u64,
        n.period2 as u64,
        n.t1 as u64,
        n.t2 as u64,
        n.t3 as u64,
        n.heard as u64,
        n.cause as u64,
        n.sincehello as u64,
        n.sincepoll as u64,
    ]
}

// The line's front: its number, the neighbour, the event, the second and the answer.
fn put_front(out: &mut Writer<'_>, line: u64, deed: Deed, address: u32, second: u64, answer: u8)
    requires { Room out.old 120 }
    ensures written { Puts (front_text line deed address second answer) out.old out.new }
    ensures upper_bound { out.new.end ≤ out.old.end + 120 }
{
    recording_message::put_fields(out, b"line=", &[line]);
    recording_message::put_address(out, b" neighbour=", address);
    out.put(b" event=");
    out.put(deed_word(deed));
    recording_message::put_fields(out, b" second= answer=", &[second, answer as u64]);
}

// The neighbour's record: its state before and after, and the numbers.
fn put_record(out: &mut Writer<'_>, passed: u64, found: Slot, left: Slot)
    requires { Room out.old 520 }
    ensures written { Puts (record_text passed found left) out.old out.new }
    ensures upper_bound { out.new.end ≤ out.old.end + 520 }
{
    let told = told_slot(found, left);
    out.put(b" before=");
    out.put(slot_word(found));
    out.put(b" after=");
    out.put(slot_word(left));
    out.put(b" mode=");
    out.put(listing_lines::mode_word(told.neighbour.mode));
    recording_message::put_fields(
        out,
        b" quiet= rowsbefore= rowsafter= registerbefore= registerafter= peer= S= R= T1= T2= t1= t2= t3= heard= cause= sincehello= sincepoll=",
        &record_numbers(passed, found, left, told),
    );
}

// The messages of a call.
fn put_messages(
    out: &mut Writer<'_>,
    deed: Deed,
    net: u32,
    received: &[u8],
    first: &[u8],
    second: &[u8],
)
    requires received_len_bound { (length received.now ≤ 2049) × (length first.now ≤ 2049) × (length second.now ≤ 2049) }
    requires room { Room out.old 42330 }
    ensures written { Puts (messages_text deed net received.now first.now second.now) out.old out.new }
    ensures upper_bound { out.new.end ≤ out.old.end + 42330 }
{
    put_received(out, deed, net, received);
    put_sent(out, net, first);
    put_sent(out, net, second);
}

// Writes the line of a call at the front of out, and says how long it is.
pub fn put_trace(
    out: &mut [u8],
    t: Telling,
    deed: Deed,
    address: u32,
    st: State,
    o: Outcome,
    received: &[u8],
    reply: &[u8],
) -> usize
    requires received_len_bound { (length received.now ≤ 2049) × (o.first + o.second ≤ length reply.now) × (length reply.now ≤ 2048) }
    requires in_bounds { 65536 ≤ length out.old }
    ensures value { result ≡ length (trace_text t (happened_in deed address received.now st o reply.now)) }
    ensures out_after { out.new ≡ over (trace_text t (happened_in deed address received.now st o reply.now)) out.old }
{
    let found = slot_for(st, address);
    let left = slot_for(o.state, address);
    let told = told_slot(found, left);
    let second = told.seconds.sum();
    let first = o.first as usize;
    let end = first + o.second as usize;
    let mut writer = Writer::new(out);
    put_front(&mut writer, t.line, deed, address, second, o.answer);
    put_record(&mut writer, t.passed, found, left);
    put_messages(
        &mut writer,
        deed,
        st.settings.net,
        received,
        &reply[..first],
        &reply[first..end],
    );
    writer.put(b"\n");
    writer.end()
}

// Whether state, register and row count are the same.
fn is_unchanged(found: Slot, left: Slot) -> bool
    ensures { result ≡ is_unchanged found left }
{
    if u8::from(found.neighbour.phase) != u8::from(left.neighbour.phase) {
        return false;
    }
    if found.neighbour.register != left.neighbour.register {
        return false;
    }
    found.rows == left.rows
}

// Whether a tick is quiet: nothing was sent, and neither state nor register nor rows changed.
fn is_quiet_tick(deed: Deed, address: u32, st: State, o: Outcome, reply: &[u8]) -> bool
    requires { o.first ≤ length reply.now }
    ensures { (received : List ℕ) → result ≡ is_quiet_tick (happened_in deed address received st o reply.now) }
{
    if o.first != 0 {
        return false;
    }
    is_unchanged(slot_for(st, address), slot_for(o.state, address))
}

#[tactic(auto, unfolding(crate::specs::Trace::is_tick))]
fn is_tick(deed: Deed) -> bool
    ensures { result ≡ is_tick deed }
{
    matches!(deed, Deed::Tick)
}

// Whether no line tells of a call: a quiet tick that is not its line's last.
pub fn is_passed_over(
    t: Telling,
    deed: Deed,
    address: u32,
    st: State,
    o: Outcome,
    reply: &[u8],
) -> bool
    requires { o.first ≤ length reply.now }
    ensures { (received : List ℕ) → result ≡ is_passed_over t (happened_in deed address received st o reply.now) }
{
    if t.last {
        return false;
    }
    if !is_tick(deed) {
        return false;
    }
    is_quiet_tick(deed, address, st, o, reply)
}
