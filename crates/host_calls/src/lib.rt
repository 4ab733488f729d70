// The calls about one neighbour for a C host: Start, Stop, tick and message, on the state block and the table's octets.
// One slot is read and written back; of the table, the slot's part where its rows change.
#![tactic(auto)]

ghost use Rattle.std.specs.Prelude.{◌≡◌, true, List, ℕ, ◌≤◌, ◌<◌, length, IfOk};
ghost use Rattle.std.proofs.lemmas.List.Edits.{sets};
ghost use Rattle.checks.specs.Checks.{if_ok};
ghost use Rattle.checks.specs.Refusals.{answer_of};
ghost use Rattle.nets.specs.Rows.{rows_of};
ghost use Rattle.update_walk.specs.Body.{walked_blocks};
ghost use Rattle.update_rows.specs.Storing.{walked_rows};
ghost use Rattle.neighbour_machine.specs.Intrinsics as I;
ghost use Rattle.gateway_rules.specs.Carried as Carried;
ghost use Rattle.gateway_carry.specs.Asked.{sendable, lengths_of, takes, change_of, ruling_of};
ghost use Rattle.model.specs.Model as M;
ghost use Rattle.host_result.specs.Packed.{packed};
ghost use Rattle.host_state_block.specs.Block.{block_size, slot_start, slot_octets};
ghost use Rattle.host_home.specs.Home.{home_in};
ghost use Rattle.host_rules.specs.Held.{table_size};
ghost use Rattle.host_rules.specs.Calls.{result_of, block_after, table_after, buffer_after};
ghost use Rattle.host_calls.specs.Steps.{host_lent, EventSlot, MessageSlot, octets_after};

use checks::Refusal;
use gateway_carry::Lengths;
use gateway_rules::{Effect, Verdict};
use gateway_state::Slot;
use message::Message;
use neighbour_machine::{Event, Reply};
use neighbour_messages::Head;

// The octets of the table, 3,072 numbers of four, and of a slot's part of it.
const TABLE: usize = 12288;

const PART: usize = 1536;

// How many rows an Update may bring.
const UPDATE_ROOM: u16 = 128;

// Checks 20, 1, 2 and 3, of a table and a reply buffer of these lengths.
fn check_lent(block: &[u8], table: usize, reply: usize) -> Result<(), Refusal>
    ensures value { (octets buffer : List ℕ) → length octets ≡ table → length buffer ≡ reply → answer_of result ≡ host_lent block.now octets buffer }
    ensures block_len { IfOk result (λ _. length block.now ≡ block_size) }
{
    if block.len() != host_state_block::BLOCK {
        return Err(Refusal::WrongBlock);
    }
    if !host_state_block::is_formed(block) {
        return Err(Refusal::IllFormedState);
    }
    if table != TABLE {
        return Err(Refusal::WrongTable);
    }
    if reply < 2048 {
        return Err(Refusal::ShortBuffer);
    }
    Ok(())
}

// The slot that an event finds, or why the call is refused.
fn slot_for_event(
    block: &[u8],
    table: usize,
    reply: usize,
    address: u32,
    event: Event,
) -> Result<usize, Refusal>
    ensures { (octets buffer : List ℕ) → length octets ≡ table → length buffer ≡ reply → EventSlot event block.now octets buffer address result }
{
    check_lent(block, table, reply)?;
    let Some(i) = host_state_block::slot_of(block, address) else {
        return Err(Refusal::UnknownNeighbour);
    };
    if !gateway_carry::has_time(event, host_state_block::slot_at(block, i).seconds) {
        return Err(Refusal::ClockFull);
    }
    Ok(i)
}

// The slot that a message finds, or why the call is refused before the message is read.
fn slot_for_message(
    block: &[u8],
    table: usize,
    reply: usize,
    home: &[u8],
    address: u32,
) -> Result<usize, Refusal>
    ensures { (octets buffer : List ℕ) → length octets ≡ table → length buffer ≡ reply → MessageSlot block.now octets buffer home.now address result }
{
    check_lent(block, table, reply)?;
    if !host_home::good_home(host_state_block::settings_of(block), home) {
        return Err(Refusal::BadHomeList);
    }
    let Some(i) = host_state_block::slot_of(block, address) else {
        return Err(Refusal::UnknownNeighbour);
    };
    Ok(i)
}

// Writes a reply at the front of the buffer, an Update with the rows of the home list.
fn send(buffer: &mut [u8], reply: Reply, home: &[u8]) -> Lengths
    requires { (sendable reply (home_in home.now) ≡ true) × (2048 ≤ length buffer.old) }
    ensures value { result ≡ lengths_of reply (rows_of (home_in home.now)) }
    ensures buffer_after { buffer.new ≡ Carried.buffer_after buffer.old reply (rows_of (home_in home.now)) }
{
    let none = [0u32; 0];
    let Reply::One(m) = reply else {
        return gateway_carry::send(buffer, reply, &none);
    };
    let Message::Update {
        asn,
        sequence,
        status,
        net,
    } = m
    else {
        return gateway_carry::send(buffer, reply, &none);
    };
    let first = host_home::write_update(buffer, asn, sequence, status, net, home);
    Lengths {
        first: first as u16,
        second: 0,
    }
}

// Leaves, zeroes or replaces the rows of slot i, in its part of the table.
fn change_rows(table: &mut [u8], i: usize, effect: Effect, net: u32, message: &[u8])
    requires i_bound { (i < 8) × (length table.old ≡ table_size) }
    requires message_value { takes effect (walked_blocks net message.now) ≡ true }
    ensures { (counts : List ℕ) → table.new ≡ octets_after table.old counts i (change_of effect (walked_rows (walked_blocks net message.now))) }
{
    let start = i * PART;
    let end = start + PART;
    match effect {
        Effect::Keep => {}
        Effect::Clear => host_rows::clear(&mut table[start..end]),
        Effect::Replace(_) => host_rows::store_rows(&mut table[start..end], net, message),
    }
}

// Carries a verdict on the neighbour in slot i out: the reply, and unless it is refused the rows and the slot.
fn apply(
    block: &mut [u8],
    i: usize,
    slot: Slot,
    v: Verdict,
    table: &mut [u8],
    buffer: &mut [u8],
    home: &[u8],
    net: u32,
    message: &[u8],
) -> u64
    requires block_len { (length block.old ≡ block_size) × (i < 8) × (length table.old ≡ table_size) × (2048 ≤ length buffer.old) }
    requires home_value { (sendable v.reply (home_in home.now) ≡ true) × (takes v.effect (walked_blocks net message.now) ≡ true) }
    ensures value { result ≡ packed v.answer (lengths_of v.reply (rows_of (home_in home.now))).first (lengths_of v.reply (rows_of (home_in home.now))).second }
    ensures block_after { block.new ≡ if_ok v.answer (sets block.old (slot_start i) (slot_octets (Carried.slot_after slot (ruling_of v (walked_rows (walked_blocks net message.now)))))) block.old }
    ensures table_after { (counts : List ℕ) → table.new ≡ if_ok v.answer (octets_after table.old counts i (change_of v.effect (walked_rows (walked_blocks net message.now)))) table.old }
    ensures buffer_after { buffer.new ≡ Carried.buffer_after buffer.old v.reply (rows_of (home_in home.now)) }
{
    let lengths = send(buffer, v.reply, home);
    let result = host_result::pack(v.answer, lengths.first, lengths.second);
    if v.answer != 0 {
        return result;
    }
    change_rows(table, i, v.effect, net, message);
    host_state_block::put_slot(block, i, gateway_carry::slot_after(slot, v));
    result
}

// What the operator or the clock asks of the neighbour with this address.
fn happen(block: &mut [u8], table: &mut [u8], reply: &mut [u8], address: u32, event: Event) -> u64
    ensures value { (e : I.Intrinsic) → event ≡ I.as_event e → result ≡ result_of (M.happen e address reply.old) block.old table.old }
    ensures block_after { (e : I.Intrinsic) → event ≡ I.as_event e → block.new ≡ block_after (M.happen e address reply.old) block.old table.old }
    ensures table_after { (e : I.Intrinsic) → event ≡ I.as_event e → table.new ≡ table_after (M.happen e address reply.old) block.old table.old }
    ensures reply_after { (e : I.Intrinsic) → event ≡ I.as_event e → reply.new ≡ buffer_after (M.happen e address reply.old) block.old table.old }
{
    let i = match slot_for_event(block, table.len(), reply.len(), address, event) {
        Ok(i) => i,
        Err(refusal) => return host_result::answered(Err(refusal)),
    };
    let slot = gateway_carry::book(event, host_state_block::slot_at(block, i));
    let n = slot.neighbour;
    if gateway_calls::only_counts(event, n) {
        let next = gateway_carry::with_neighbour(slot, neighbour_tick::count_down(n));
        host_state_block::put_slot(block, i, next);
        return host_result::alone(0);
    }
    let settings = host_state_block::settings_of(block);
    let head = Head {
        first: 0,
        second: 0,
        third: 0,
    };
    let after = neighbour_step::step(settings, slot.asn, n, event, head);
    let v = gateway_stages::step_verdict(n, after);
    let none = [0u8; 0];
    apply(block, i, slot, v, table, reply, &none, settings.net, &none)
}

// The operator wants this neighbour.
pub fn start(block: &mut [u8], table: &mut [u8], reply: &mut [u8], address: u32) -> u64
    ensures value { result ≡ result_of (M.happen I.Start address reply.old) block.old table.old }
    ensures block_after { block.new ≡ block_after (M.happen I.Start address reply.old) block.old table.old }
    ensures table_after { table.new ≡ table_after (M.happen I.Start address reply.old) block.old table.old }
    ensures reply_after { reply.new ≡ buffer_after (M.happen I.Start address reply.old) block.old table.old }
{
    happen(block, table, reply, address, Event::Start)
}

// The operator wants it no longer.
pub fn stop(block: &mut [u8], table: &mut [u8], reply: &mut [u8], address: u32) -> u64
    ensures value { result ≡ result_of (M.happen I.Stop address reply.old) block.old table.old }
    ensures block_after { block.new ≡ block_after (M.happen I.Stop address reply.old) block.old table.old }
    ensures table_after { table.new ≡ table_after (M.happen I.Stop address reply.old) block.old table.old }
    ensures reply_after { reply.new ≡ buffer_after (M.happen I.Stop address reply.old) block.old table.old }
{
    happen(block, table, reply, address, Event::Stop)
}

// A second has gone by for this neighbour.
pub fn tick(block: &mut [u8], table: &mut [u8], reply: &mut [u8], address: u32) -> u64
    ensures value { result ≡ result_of (M.happen I.Tick address reply.old) block.old table.old }
    ensures block_after { block.new ≡ block_after (M.happen I.Tick address reply.old) block.old table.old }
    ensures table_after { table.new ≡ table_after (M.happen I.Tick address reply.old) block.old table.old }
    ensures reply_after { reply.new ≡ buffer_after (M.happen I.Tick address reply.old) block.old table.old }
{
    happen(block, table, reply, address, Event::Tick)
}

// Refuses a message: the reply that the number names is written, and nothing else changes.
fn refuse(answer: u8, buffer: &mut [u8], reply: Reply, home: &[u8]) -> u64
    requires { (sendable reply (home_in home.now) ≡ true) × (2048 ≤ length buffer.old) }
    ensures value { result ≡ packed answer (lengths_of reply (rows_of (home_in home.now))).first (lengths_of reply (rows_of (home_in home.now))).second }
    ensures buffer_after { buffer.new ≡ Carried.buffer_after buffer.old reply (rows_of (home_in home.now)) }
{
    let lengths = send(buffer, reply, home);
    host_result::pack(answer, lengths.first, lengths.second)
}

// A message came from this address, an IP payload; the home list answers a Poll.
pub fn receive(
    block: &mut [u8],
    table: &mut [u8],
    reply: &mut [u8],
    home: &[u8],
    address: u32,
    message: &[u8],
) -> u64
    ensures value { result ≡ result_of (M.receive address message.now home.now reply.old) block.old table.old }
    ensures block_after { block.new ≡ block_after (M.receive address message.now home.now reply.old) block.old table.old }
    ensures table_after { table.new ≡ table_after (M.receive address message.now home.now reply.old) block.old table.old }
    ensures reply_after { reply.new ≡ buffer_after (M.receive address message.now home.now reply.old) block.old table.old }
{
    let i = match slot_for_message(block, table.len(), reply.len(), home, address) {
        Ok(i) => i,
        Err(refusal) => return host_result::answered(Err(refusal)),
    };
    let settings = host_state_block::settings_of(block);
    let slot = host_state_block::slot_at(block, i);
    let n = slot.neighbour;
    let meaning = gateway_stages::read(slot.asn, message);
    let Ok(m) = meaning else {
        let number = checks::answer_of(&meaning);
        let named = gateway_stages::reply_to(settings, n, message, number);
        return refuse(number, reply, named, home);
    };
    if gateway_stages::tells_reach(n, m) {
        let after = gateway_stages::note_reach(settings, n, m);
        let next = gateway_carry::with_neighbour(slot, after.neighbour);
        let lengths = send(reply, after.reply, home);
        host_state_block::put_slot(block, i, next);
        return host_result::pack(0, lengths.first, lengths.second);
    }
    let v = gateway_stages::take(settings, slot.asn, n, message, m, UPDATE_ROOM);
    apply(block, i, slot, v, table, reply, home, settings.net, message)
}
