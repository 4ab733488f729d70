// One call, as a recording asks for it: with a zeroed reply buffer and an empty home list; and what is told of it.
#![tactic(auto)]

ghost use Rattle.std.specs.Prelude.{◌≡◌, true, List, [], ℕ, ◌+◌, ◌≤◌, length};
ghost use Rattle.octets.specs.Buffer.{over};
ghost use Rattle.text_values.specs.Hex.{is_hex, hex_octets};
ghost use Rattle.model.specs.Model.{add, remove, start, stop, tick, receive};
ghost use Rattle.model.specs.Theorem.{table_left};
ghost use Rattle.recording_trace.specs.Steps.{happened_in};
ghost use Rattle.recording_call.specs.Told.{lent, tell_text, called_for, call_text, called_of, on};
ghost use Rattle.recording_call.specs.Steps.{called_with};

use gateway_state::{Outcome, State};
use recording_trace::{Deed, Telling};

// What a call leaves: the state, its number, how many octets of lines were written, and how many ticks were passed over
// since the last one told of.
#[derive(Clone, Copy)]
pub struct Called {
    pub state: State,
    pub answer: u8,
    pub written: usize,
    pub passed: u64,
}

// What is left of an outcome once its lines are written.
fn told(o: Outcome, written: usize, passed: u64) -> Called
    ensures { result ≡ called_with o written passed }
{
    let st = o.state;
    Called {
        state: st,
        answer: o.answer,
        written,
        passed,
    }
}

// A call told of by a line of the trace, or by none.
fn trace(
    out: &mut [u8],
    t: Telling,
    deed: Deed,
    address: u32,
    st: State,
    o: Outcome,
    received: &[u8],
    reply: &[u8],
) -> Called
    requires traced_value { (t.traced ≡ true) × (65536 ≤ length out.old) }
    requires received_len_bound { (length received.now ≤ 2049) × (o.first + o.second ≤ length reply.now) × (length reply.now ≤ 2048) }
    ensures value { result ≡ called_for t (happened_in deed address received.now st o reply.now) }
    ensures out_after { out.new ≡ over (tell_text t (happened_in deed address received.now st o reply.now)) out.old }
{
    if recording_trace::is_passed_over(t, deed, address, st, o, reply) {
        return told(o, 0, recording_bad_line::one_more(t.passed));
    }
    let written = recording_trace::put_trace(out, t, deed, address, st, o, received, reply);
    told(o, written, 0)
}

// A call told of as the host asks for it: by its replies alone, or by a line of the trace.
fn tell(
    out: &mut [u8],
    t: Telling,
    deed: Deed,
    address: u32,
    st: State,
    o: Outcome,
    received: &[u8],
    reply: &[u8],
) -> Called
    requires received_len_bound { (length received.now ≤ 2049) × (o.first + o.second ≤ 2048) × (length reply.now ≡ 2048) }
    requires in_bounds { 65536 ≤ length out.old }
    ensures value { result ≡ called_for t (happened_in deed address received.now st o reply.now) }
    ensures out_after { out.new ≡ over (tell_text t (happened_in deed address received.now st o reply.now)) out.old }
{
    if t.traced {
        return trace(out, t, deed, address, st, o, received, reply);
    }
    let written = recording_replies::put_replies(out, o, reply, address);
    told(o, written, 0)
}

// Add and remove have no replies.
fn tell_silent(
    out: &mut [u8],
    t: Telling,
    deed: Deed,
    address: u32,
    st: State,
    o: Outcome,
) -> Called
    requires first_value { (o.first ≡ 0) × (o.second ≡ 0) }
    requires in_bounds { t.traced ≡ true → 65536 ≤ length out.old }
    ensures value { result ≡ called_for t (happened_in deed address [] st o []) }
    ensures out_after { out.new ≡ over (tell_text t (happened_in deed address [] st o [])) out.old }
{
    if t.traced {
        return trace(out, t, deed, address, st, o, &[], &[]);
    }
    told(o, 0, 0)
}

pub fn add_neighbour(st: State, out: &mut [u8], t: Telling, address: u32, asn: u16) -> Called
    requires { t.traced ≡ true → 65536 ≤ length out.old }
    ensures value { (table : List ℕ) → result ≡ called_of t (add address asn) (on st table) }
    ensures out_after { (table : List ℕ) → out.new ≡ over (call_text t (add address asn) (on st table)) out.old }
{
    let o = gateway_slots::add(st, address, asn);
    tell_silent(out, t, Deed::Add, address, st, o)
}

pub fn remove_neighbour(st: State, out: &mut [u8], t: Telling, address: u32) -> Called
    requires { t.traced ≡ true → 65536 ≤ length out.old }
    ensures value { (table : List ℕ) → result ≡ called_of t (remove address) (on st table) }
    ensures out_after { (table : List ℕ) → out.new ≡ over (call_text t (remove address) (on st table)) out.old }
{
    let o = gateway_slots::remove(st, address);
    tell_silent(out, t, Deed::Remove, address, st, o)
}

pub fn start_neighbour(
    st: State,
    table: &mut [u32],
    out: &mut [u8],
    t: Telling,
    address: u32,
) -> Called
    requires { 65536 ≤ length out.old }
    ensures value { result ≡ called_of t (start address lent) (on st table.old) }
    ensures table_after { table.new ≡ table_left (start address lent) (on st table.old) }
    ensures out_after { out.new ≡ over (call_text t (start address lent) (on st table.old)) out.old }
{
    let mut reply = [0u8; 2048];
    let o = gateway_calls::start(st, table, &mut reply, address);
    tell(out, t, Deed::Start, address, st, o, &[], &reply)
}

pub fn stop_neighbour(
    st: State,
    table: &mut [u32],
    out: &mut [u8],
    t: Telling,
    address: u32,
) -> Called
    requires { 65536 ≤ length out.old }
    ensures value { result ≡ called_of t (stop address lent) (on st table.old) }
    ensures table_after { table.new ≡ table_left (stop address lent) (on st table.old) }
    ensures out_after { out.new ≡ over (call_text t (stop address lent) (on st table.old)) out.old }
{
    let mut reply = [0u8; 2048];
    let o = gateway_calls::stop(st, table, &mut reply, address);
    tell(out, t, Deed::Stop, address, st, o, &[], &reply)
}

pub fn tick_neighbour(
    st: State,
    table: &mut [u32],
    out: &mut [u8],
    t: Telling,
    address: u32,
) -> Called
    requires { 65536 ≤ length out.old }
    ensures value { result ≡ called_of t (tick address lent) (on st table.old) }
    ensures table_after { table.new ≡ table_left (tick address lent) (on st table.old) }
    ensures out_after { out.new ≡ over (call_text t (tick address lent) (on st table.old)) out.old }
{
    let mut reply = [0u8; 2048];
    let o = gateway_calls::tick(st, table, &mut reply, address);
    tell(out, t, Deed::Tick, address, st, o, &[], &reply)
}

// A message from this neighbour, its octets in hex.
pub fn hear_neighbour(
    st: State,
    table: &mut [u32],
    out: &mut [u8],
    t: Telling,
    address: u32,
    digits: &[u8],
) -> Called
    requires { (is_hex digits.now ≡ true) × (length digits.now ≤ 4098) × (65536 ≤ length out.old) }
    ensures value { result ≡ called_of t (receive address (hex_octets digits.now) [] lent) (on st table.old) }
    ensures table_after { table.new ≡ table_left (receive address (hex_octets digits.now) [] lent) (on st table.old) }
    ensures out_after { out.new ≡ over (call_text t (receive address (hex_octets digits.now) [] lent) (on st table.old)) out.old }
{
    let mut octets = [0u8; 2049];
    let size = text_values::read_hex(&mut octets, digits);
    let mut reply = [0u8; 2048];
    let home = [0u32; 0];
    let o = gateway_calls::receive(st, table, &mut reply, &home, address, &octets[..size]);
    tell(
        out,
        t,
        Deed::Receive,
        address,
        st,
        o,
        &octets[..size],
        &reply,
    )
}
