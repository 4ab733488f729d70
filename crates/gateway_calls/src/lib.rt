// The calls about one neighbour: Start, Stop, tick and message, with the lent table and reply buffer.
#![tactic(auto)]

ghost use Rattle.std.specs.Prelude.{◌≡◌, true, List, ℕ, ◌<◌, length};
ghost use Rattle.neighbour_machine.specs.Intrinsics.{Intrinsic, Start, Stop, Tick, as_event};
ghost use Rattle.checks.specs.Refusals.{answer_of};
ghost use Rattle.gateway_calls.specs.Steps.{EventSlot, MessageSlot};
ghost use Rattle.gateway_rules.specs.Calls.{table_fits, buffer_fits, lent_checks, event_outcome, event_table, event_buffer, message_outcome, message_table, message_buffer};

use checks::Refusal;
use gateway_state::{Outcome, State};
use neighbour::{Neighbour, Phase};
use neighbour_machine::Event;
use neighbour_messages::Head;

// How many rows an Update may bring.
const UPDATE_ROOM: u16 = 128;

// Checks 1, 2 and 3, of a table and a buffer of these lengths.
fn check_lent(st: &State, numbers: usize, octets: usize) -> Result<(), Refusal>
    ensures { (table buffer : List ℕ) → length table ≡ numbers → length buffer ≡ octets → answer_of result ≡ lent_checks st.now (table_fits table) (buffer_fits buffer) 0 }
{
    if !gateway_state::is_well_formed(st) {
        return Err(Refusal::IllFormedState);
    }
    if numbers != 3072 {
        return Err(Refusal::WrongTable);
    }
    if octets < 2048 {
        return Err(Refusal::ShortBuffer);
    }
    Ok(())
}

// The slot that an event finds, or why the call is refused.
fn slot_for_event(
    st: &State,
    numbers: usize,
    octets: usize,
    address: u32,
    event: Event,
) -> Result<usize, Refusal>
    ensures { (table buffer : List ℕ) → length table ≡ numbers → length buffer ≡ octets → EventSlot event st.now table buffer address result }
{
    check_lent(st, numbers, octets)?;
    let Some(i) = gateway_state::slot_of(*st, address) else {
        return Err(Refusal::UnknownNeighbour);
    };
    if !gateway_carry::has_time(event, st.slots[i].seconds) {
        return Err(Refusal::ClockFull);
    }
    Ok(i)
}

// The slot that a message finds, or why the call is refused before the message is read.
fn slot_for_message(
    st: &State,
    numbers: usize,
    octets: usize,
    home: &[u32],
    address: u32,
) -> Result<usize, Refusal>
    ensures { (table buffer : List ℕ) → length table ≡ numbers → length buffer ≡ octets → MessageSlot st.now table buffer home.now address result }
{
    check_lent(st, numbers, octets)?;
    if !gateway_home::good_home(st.settings, home) {
        return Err(Refusal::BadHomeList);
    }
    let Some(i) = gateway_state::slot_of(*st, address) else {
        return Err(Refusal::UnknownNeighbour);
    };
    Ok(i)
}

// Whether nothing but the timers changes.
pub fn only_counts(event: Event, n: Neighbour) -> bool
    ensures { result ≡ true → (event ≡ Event.Tick) × (n.phase ≡ Phase.Up) × (1 < n.t1) × (1 < n.t2) × (1 < n.t3) }
{
    match event {
        Event::Tick => neighbour_tick::only_counts(n),
        _ => false,
    }
}

// What the operator or the clock asks of the neighbour with this address.
fn happen(mut st: State, table: &mut [u32], reply: &mut [u8], address: u32, event: Event) -> Outcome
    ensures value { (e : Intrinsic) → event ≡ as_event e → result ≡ event_outcome e st table.old reply.old address }
    ensures table_after { (e : Intrinsic) → event ≡ as_event e → table.new ≡ event_table e st table.old reply.old address }
    ensures reply_after { (e : Intrinsic) → event ≡ as_event e → reply.new ≡ event_buffer e st table.old reply.old address }
{
    let i = match slot_for_event(&st, table.len(), reply.len(), address, event) {
        Ok(i) => i,
        Err(refusal) => return gateway_state::refused(st, u8::from(refusal)),
    };
    let slot = gateway_carry::book(event, st.slots[i]);
    let n = slot.neighbour;
    if only_counts(event, n) {
        st.slots[i] = gateway_carry::with_neighbour(slot, neighbour_tick::count_down(n));
        return Outcome {
            answer: 0,
            first: 0,
            second: 0,
            state: st,
        };
    }
    let head = Head {
        first: 0,
        second: 0,
        third: 0,
    };
    let after = neighbour_step::step(st.settings, slot.asn, n, event, head);
    let v = gateway_stages::step_verdict(n, after);
    gateway_carry::apply(st, i, slot, v, table, reply, &[], &[])
}

// The operator wants this neighbour.
pub fn start(st: State, table: &mut [u32], reply: &mut [u8], address: u32) -> Outcome
    ensures value { result ≡ event_outcome Start st table.old reply.old address }
    ensures table_after { table.new ≡ event_table Start st table.old reply.old address }
    ensures reply_after { reply.new ≡ event_buffer Start st table.old reply.old address }
{
    happen(st, table, reply, address, Event::Start)
}

// The operator wants it no longer.
pub fn stop(st: State, table: &mut [u32], reply: &mut [u8], address: u32) -> Outcome
    ensures value { result ≡ event_outcome Stop st table.old reply.old address }
    ensures table_after { table.new ≡ event_table Stop st table.old reply.old address }
    ensures reply_after { reply.new ≡ event_buffer Stop st table.old reply.old address }
{
    happen(st, table, reply, address, Event::Stop)
}

// A second has gone by for this neighbour.
pub fn tick(st: State, table: &mut [u32], reply: &mut [u8], address: u32) -> Outcome
    ensures value { result ≡ event_outcome Tick st table.old reply.old address }
    ensures table_after { table.new ≡ event_table Tick st table.old reply.old address }
    ensures reply_after { reply.new ≡ event_buffer Tick st table.old reply.old address }
{
    happen(st, table, reply, address, Event::Tick)
}

// A message came from this address, an IP payload; the home list answers a Poll.
pub fn receive(
    mut st: State,
    table: &mut [u32],
    reply: &mut [u8],
    home: &[u32],
    address: u32,
    message: &[u8],
) -> Outcome
    ensures value { result ≡ message_outcome st table.old reply.old home.now address message.now }
    ensures table_after { table.new ≡ message_table st table.old reply.old home.now address message.now }
    ensures reply_after { reply.new ≡ message_buffer st table.old reply.old home.now address message.now }
{
    let i = match slot_for_message(&st, table.len(), reply.len(), home, address) {
        Ok(i) => i,
        Err(refusal) => return gateway_state::refused(st, u8::from(refusal)),
    };
    let settings = st.settings;
    let slot = st.slots[i];
    let n = slot.neighbour;
    let meaning = gateway_stages::read(slot.asn, message);
    let Ok(m) = meaning else {
        let number = checks::answer_of(&meaning);
        let named = gateway_stages::reply_to(settings, n, message, number);
        return gateway_carry::refuse(st, number, reply, named, home);
    };
    if gateway_stages::tells_reach(n, m) {
        let after = gateway_stages::note_reach(settings, n, m);
        let lengths = gateway_carry::send(reply, after.reply, home);
        st.slots[i] = gateway_carry::with_neighbour(slot, after.neighbour);
        return Outcome {
            answer: 0,
            first: lengths.first,
            second: lengths.second,
            state: st,
        };
    }
    let v = gateway_stages::take(settings, slot.asn, n, message, m, UPDATE_ROOM);
    gateway_carry::apply(st, i, slot, v, table, reply, home, message)
}
