// The state as a block of octets (02's state block): read, checked and written a slot at a time.
#![tactic(auto)]

ghost use Rattle.std.specs.Prelude.{◌≡◌, true, ◌+◌, ◌*◌, ◌-◌, ◌≤◌, ◌<◌, length, drop};
ghost use Rattle.std.specs.List.{list_all};
ghost use Rattle.std.proofs.lemmas.List.Edits.{sets};
ghost use Rattle.octets.specs.Buffer.{over};
ghost use Rattle.gateway_state.specs.Slots as Slots;
ghost use Rattle.gateway_state.specs.Found.{Finds};
ghost use Rattle.host_state_block.specs.Block.{own_size, slot_size, block_size, slot_start, phase_at, mode_at, own_octets, slot_octets, slots_octets, block_of, settings_in, slot_in, state_in};
ghost use Rattle.host_state_block.specs.Formed.{in_range, block_formed};
ghost use Rattle.host_state_block.specs.Steps.{part_formed, parts_formed};

use gateway_state::{Slot, State};
use neighbour::{Mode, Neighbour, Phase, Settings};
use neighbour_seconds::Seconds;

// The octets of a block: 12 of the settings, 49 of each slot.
pub const BLOCK: usize = 404;

const OWN: usize = 12;

const SLOT: usize = 49;

// The state that a number stands for, counted from 0 in 01's order; numbers above 4 stand for none.
#[tactic(auto, using(crate::proofs::Slots::phase_read))]
fn phase_at(number: u8) -> Phase
    ensures { result ≡ phase_at number }
{
    Phase::try_from(number).unwrap_or(Phase::Idle)
}

// The mode that a number stands for: none, active, passive.
#[tactic(auto, using(crate::proofs::Slots::mode_read))]
fn mode_at(number: u8) -> Mode
    ensures { result ≡ mode_at number }
{
    Mode::try_from(number).unwrap_or(Mode::Unset)
}

// The settings in their part of a block.
fn read_settings(part: &[u8]) -> Settings
    requires { length part.now ≡ own_size }
    ensures { result ≡ settings_in part.now }
{
    Settings {
        asn: u16::from_be_bytes([part[0], part[1]]),
        own: u32::from_be_bytes([part[2], part[3], part[4], part[5]]),
        capability: part[6],
        net: u32::from_be_bytes([part[7], part[8], part[9], part[10]]),
        quiet: part[11],
    }
}

// A neighbour's record in its slot's part of a block.
fn read_neighbour(part: &[u8]) -> Neighbour
    requires { length part.now ≡ slot_size }
    ensures { result ≡ (slot_in part.now).neighbour }
{
    Neighbour {
        s: u16::from_be_bytes([part[6], part[7]]),
        r: u16::from_be_bytes([part[8], part[9]]),
        period1: u16::from_be_bytes([part[10], part[11]]),
        period2: u16::from_be_bytes([part[12], part[13]]),
        t1: u16::from_be_bytes([part[14], part[15]]),
        t2: u16::from_be_bytes([part[16], part[17]]),
        t3: u16::from_be_bytes([part[18], part[19]]),
        phase: phase_at(part[22]),
        mode: mode_at(part[23]),
        register: part[24],
        heard: part[25],
        cause: part[26],
        sincehello: part[27],
        sincepoll: part[28],
    }
}

// The seconds at the end of a slot's part.
fn read_seconds(part: &[u8]) -> Seconds
    requires { length part.now ≡ slot_size }
    ensures { result ≡ (slot_in part.now).seconds }
{
    Seconds {
        idle: u32::from_be_bytes([part[29], part[30], part[31], part[32]]),
        acquisition: u32::from_be_bytes([part[33], part[34], part[35], part[36]]),
        down: u32::from_be_bytes([part[37], part[38], part[39], part[40]]),
        up: u32::from_be_bytes([part[41], part[42], part[43], part[44]]),
        cease: u32::from_be_bytes([part[45], part[46], part[47], part[48]]),
    }
}

// A slot in its part of a block.
fn read_slot(part: &[u8]) -> Slot
    requires { length part.now ≡ slot_size }
    ensures { result ≡ slot_in part.now }
{
    Slot {
        address: u32::from_be_bytes([part[0], part[1], part[2], part[3]]),
        asn: u16::from_be_bytes([part[4], part[5]]),
        neighbour: read_neighbour(part),
        rows: u16::from_be_bytes([part[20], part[21]]),
        seconds: read_seconds(part),
    }
}

// Where the octets of slot i begin.
fn slot_start(i: usize) -> usize
    requires { i ≤ 8 }
    ensures { result ≡ slot_start i }
{
    OWN + i * SLOT
}

// The settings of a block.
pub fn settings_of(block: &[u8]) -> Settings
    requires { block_size ≤ length block.now }
    ensures { result ≡ (state_in block.now).settings }
{
    read_settings(&block[..OWN])
}

// Slot i of a block.
pub fn slot_at(block: &[u8], i: usize) -> Slot
    requires { (block_size ≤ length block.now) × (i < 8) }
    ensures { result ≡ Slots.slot_at (state_in block.now) i }
{
    let start = slot_start(i);
    read_slot(&block[start..start + SLOT])
}

// The state whose block this is, whole. The calls read one slot.
pub fn read_state(block: &[u8]) -> State
    requires { block_size ≤ length block.now }
    ensures { result ≡ state_in block.now }
{
    State {
        settings: settings_of(block),
        slots: std::array::from_fn(|i| slot_at(block, i)),
    }
}

// ---- check 1

// Whether a slot's state and mode stand for one.
#[tactic(auto, unfolding(crate::specs::Formed::in_range, crate::specs::Layout::numbers_at))]
fn is_in_range(part: &[u8; SLOT]) -> bool
    ensures { result ≡ in_range part.now }
{
    part[22] <= 4 && part[23] <= 2
}

#[tactic(auto, unfolding(crate::specs::Steps::part_formed))]
fn is_slot_formed(settings: Settings, part: &[u8; SLOT]) -> bool
    ensures { result ≡ part_formed settings part.now }
{
    is_in_range(part) && gateway_state::is_slot_formed(settings, read_slot(part))
}

// A short way for a slot in Up, which most are: true where it is formed. Of another slot false says nothing.
fn is_up_formed(settings: Settings, part: &[u8; SLOT]) -> bool
    ensures { result ≡ true → part_formed settings part.now ≡ true }
{
    is_in_range(part)
        && gateway_state::is_up_slot_formed(
            settings,
            u32::from_be_bytes([part[0], part[1], part[2], part[3]]),
            u16::from_be_bytes([part[4], part[5]]),
            read_neighbour(part),
            u16::from_be_bytes([part[20], part[21]]),
            read_seconds(part),
        )
}

// The index of the first slot that the short way does not find formed, or how many they are.
fn first_to_check(settings: Settings, parts: &[[u8; SLOT]]) -> usize
    ensures upper_bound { result ≤ length parts.now }
    ensures parts_value { list_all (part_formed settings) parts.now ≡ list_all (part_formed settings) (drop result parts.now) }
{
    parts
        .iter()
        .position(|part| !is_up_formed(settings, part))
        .unwrap_or(parts.len())
}

// Whether each of these slots is formed, by the long way.
fn are_formed(settings: Settings, parts: &[[u8; SLOT]]) -> bool
    ensures { result ≡ list_all (part_formed settings) parts.now }
{
    parts.iter().all(|part| is_slot_formed(settings, part))
}

// Of the eight slots' octets. Two loops: one keeps all fields of a slot at hand for the long way, which few slots need.
fn are_slots_formed(settings: Settings, slots: &[u8]) -> bool
    requires { length slots.now ≡ 8 * slot_size }
    ensures { result ≡ parts_formed settings 8 slots.now }
{
    let (parts, _) = slots.as_chunks::<SLOT>();
    let from = first_to_check(settings, parts);
    are_formed(settings, &parts[from..])
}

// The address of slot i, at its front.
fn address_at(block: &[u8], i: usize) -> u32
    requires { (block_size ≤ length block.now) × (i < 8) }
    ensures { result ≡ Slots.address_of (Slots.slot_at (state_in block.now) i) }
{
    let at = slot_start(i);
    u32::from_be_bytes([block[at], block[at + 1], block[at + 2], block[at + 3]])
}

// The eight addresses: check 1 and the look-up both go over them.
pub fn addresses_of(block: &[u8]) -> [u32; 8]
    requires { block_size ≤ length block.now }
    ensures { result ≡ Slots.addresses (state_in block.now) }
{
    std::array::from_fn(|i| address_at(block, i))
}

// Check 1.
pub fn is_formed(block: &[u8]) -> bool
    requires { length block.now ≡ block_size }
    ensures { result ≡ block_formed block.now }
{
    let settings = settings_of(block);
    gateway_state::good_settings(settings)
        && are_slots_formed(settings, &block[OWN..])
        && gateway_state::are_distinct(&addresses_of(block))
}

// ---- the look-up

// The index of the used slot with this address.
pub fn slot_of(block: &[u8], address: u32) -> Option<usize>
    requires { block_size ≤ length block.now }
    ensures { Finds (Slots.slot_of (state_in block.now) address) result }
{
    gateway_state::index_of(&addresses_of(block), address)
}

// The index of the lowest free slot.
pub fn lowest_free(block: &[u8]) -> Option<usize>
    requires { block_size ≤ length block.now }
    ensures { Finds (Slots.lowest_free (state_in block.now)) result }
{
    gateway_state::first_free(&addresses_of(block))
}

// ---- written

// The settings' twelve octets.
fn settings_octets(s: Settings) -> [u8; 12]
    ensures { result ≡ own_octets s }
{
    let mut octets = [0; 12];
    octets::put16(&mut octets, 0, s.asn);
    octets::put32(&mut octets, 2, s.own);
    octets[6] = s.capability;
    octets::put32(&mut octets, 7, s.net);
    octets[11] = s.quiet;
    octets
}

// A slot's 49 octets.
fn slot_octets(slot: Slot) -> [u8; 49]
    ensures { result ≡ slot_octets slot }
{
    let n = slot.neighbour;
    let s = slot.seconds;
    let mut octets = [0; 49];
    octets::put32(&mut octets, 0, slot.address);
    octets::put16(&mut octets, 4, slot.asn);
    octets::put16(&mut octets, 6, n.s);
    octets::put16(&mut octets, 8, n.r);
    octets::put16(&mut octets, 10, n.period1);
    octets::put16(&mut octets, 12, n.period2);
    octets::put16(&mut octets, 14, n.t1);
    octets::put16(&mut octets, 16, n.t2);
    octets::put16(&mut octets, 18, n.t3);
    octets::put16(&mut octets, 20, slot.rows);
    octets[22] = u8::from(n.phase);
    octets[23] = u8::from(n.mode);
    octets[24] = n.register;
    octets[25] = n.heard;
    octets[26] = n.cause;
    octets[27] = n.sincehello;
    octets[28] = n.sincepoll;
    octets::put32(&mut octets, 29, s.idle);
    octets::put32(&mut octets, 33, s.acquisition);
    octets::put32(&mut octets, 37, s.down);
    octets::put32(&mut octets, 41, s.up);
    octets::put32(&mut octets, 45, s.cease);
    octets
}

// Writes a slot's octets from index at on.
fn put_slot_at(out: &mut [u8], at: usize, slot: Slot)
    requires { at + slot_size ≤ length out.old }
    ensures { out.new ≡ sets out.old at (slot_octets slot) }
{
    octets::store(&mut out[at..], &slot_octets(slot));
}

// Writes slot i.
pub fn put_slot(block: &mut [u8], i: usize, slot: Slot)
    requires { (block_size ≤ length block.old) × (i < 8) }
    ensures { block.new ≡ sets block.old (slot_start i) (slot_octets slot) }
{
    put_slot_at(block, slot_start(i), slot);
}

// Writes the octets of the slots, one after the other, behind those of the settings.
fn put_slots(out: &mut [u8], st: State)
    requires { block_size ≤ length out.old }
    ensures { out.new ≡ sets out.old (slot_start 0) (slots_octets st.slots) }
{
    for i in 0..gateway_state::SLOTS {
        put_slot_at(out, slot_start(i), st.slots[i]);
    }
}

// Writes a state's block at the front of out.
pub fn write_state(out: &mut [u8], st: State)
    requires { block_size ≤ length out.old }
    ensures { out.new ≡ over (block_of st) out.old }
{
    octets::store(out, &settings_octets(st.settings));
    put_slots(out, st);
}
