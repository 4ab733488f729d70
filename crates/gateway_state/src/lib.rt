// The gateway's state: its settings and eight slots, check 1, and the look-up of a neighbour.
#![tactic(auto)]

ghost use Rattle.std.specs.Prelude.{◌≡◌, true, List, ℕ, ◌≤◌, ◌<◌, length, drop};
ghost use Rattle.neighbour.specs.Record.{is_up};
ghost use Rattle.neighbour_wellformed.specs.Formed.{well_formed};
ghost use Rattle.checks.specs.Lists.{distinct};
ghost use Rattle.std.specs.List.{position, list_all};
ghost use Rattle.gateway_state.specs.Slots.{newcomer, free_slot, slot_at, with_slot, addresses, clash, apart, is_none, slot_of, lowest_free};
ghost use Rattle.gateway_state.specs.Found.{Finds};
ghost use Rattle.gateway_state.specs.Places as Places;
ghost use Rattle.gateway_state.specs.Formed.{good_settings, good_peer, rows_formed, free_formed, used_formed, slot_formed, state_formed};
ghost use Rattle.gateway_state.specs.Outcomes.{refused_of};

use neighbour::{Neighbour, Phase, Settings};
use neighbour_seconds::Seconds;

// 01's number of slots.
pub const SLOTS: usize = 8;

// The numbers of a slot's rows in the table: 128 rows, three numbers a row.
pub const SLOT_NUMBERS: usize = 384;

// A slot is free where its address is 0, and then all zero.
#[derive(Clone, Copy)]
pub struct Slot {
    pub address: u32,
    pub asn: u16,
    pub neighbour: Neighbour,
    // How many rows of the slot's part of the table are used.
    pub rows: u16,
    // What the neighbour's ticks found it in.
    pub seconds: Seconds,
}

// What stands between calls; the caller keeps it, with the table.
#[derive(Clone, Copy)]
pub struct State {
    pub settings: Settings,
    pub slots: [Slot; 8],
}

// What every call answers: 01's number, the lengths of the reply's two messages, and the state after it.
#[derive(Clone, Copy)]
pub struct Outcome {
    pub answer: u8,
    pub first: u16,
    pub second: u16,
    pub state: State,
}

// A neighbour that is added is Idle, its clock at zero.
pub fn new_slot(address: u32, asn: u16) -> Slot
    ensures { result ≡ newcomer address asn }
{
    Slot {
        address,
        asn,
        neighbour: Neighbour::idle(),
        rows: 0,
        seconds: Seconds::none(),
    }
}

pub fn free_slot() -> Slot
    ensures { result ≡ free_slot }
{
    new_slot(0, 0)
}

// The slot of this index; past the last there is a free one.
#[tactic(auto, unfolding(crate::specs::Slots::slot_at))]
pub fn slot_at(st: State, i: usize) -> Slot
    ensures { result ≡ slot_at st i }
{
    match st.slots.get(i) {
        Some(slot) => *slot,
        None => free_slot(),
    }
}

// The state with another slot of this index; past the last nothing changes.
pub fn with_slot(mut st: State, i: usize, slot: Slot) -> State
    ensures { result ≡ with_slot st i slot }
{
    if i < SLOTS {
        st.slots[i] = slot;
    }
    st
}

// The index of slot i's first number in the table, whatever the row counts.
pub fn place(i: usize) -> usize
    requires { i < 8 }
    ensures { (counts : List ℕ) → result ≡ Places.place counts i }
{
    i * SLOT_NUMBERS
}

// The slots' addresses, in their order.
fn addresses_of(st: &State) -> [u32; 8]
    ensures { result ≡ addresses st.now }
{
    let mut addresses = [0; 8];
    for i in 0..SLOTS {
        addresses[i] = st.slots[i].address;
    }
    addresses
}

// Whether both are one neighbour's. 0 stands in free slots, and is no neighbour's.
#[tactic(auto, unfolding(crate::specs::Slots::clash))]
fn is_same_neighbour(a: u32, b: u32) -> bool
    ensures { result ≡ clash a b }
{
    a != 0 && a == b
}

// Where an address stands.
pub fn index_of(addresses: &[u32], address: u32) -> Option<usize>
    ensures { result ≡ position (clash address) addresses.now }
{
    addresses
        .iter()
        .position(|&other| is_same_neighbour(address, other))
}

// Where the first free slot stands.
pub fn first_free(addresses: &[u32]) -> Option<usize>
    ensures { result ≡ position is_none addresses.now }
{
    addresses.iter().position(|&address| address == 0)
}

// The index of the used slot with this address.
pub fn slot_of(st: State, address: u32) -> Option<usize>
    ensures { Finds (slot_of st address) result }
{
    index_of(&addresses_of(&st), address)
}

// The index of the lowest free slot.
pub fn lowest_free(st: State) -> Option<usize>
    ensures { Finds (lowest_free st) result }
{
    first_free(&addresses_of(&st))
}

// What fresh asks of its settings.
#[tactic(auto, unfolding(crate::specs::Formed::good_settings))]
pub fn good_settings(settings: Settings) -> bool
    ensures { result ≡ good_settings settings }
{
    settings.asn != 0
        && settings.capability <= 2
        && settings.quiet <= 1
        && nets::good_net(settings.net)
        && nets::on_net(settings.net, settings.own)
}

// What add asks of a neighbour, wherever else it may be present.
#[tactic(auto, unfolding(crate::specs::Formed::good_peer))]
pub fn good_peer(settings: Settings, address: u32, asn: u16) -> bool
    ensures { result ≡ good_peer settings address asn }
{
    asn != 0 && asn != settings.asn && address != 0 && address != settings.own
}

pub fn is_up(phase: Phase) -> bool
    ensures { result ≡ is_up phase }
{
    matches!(phase, Phase::Up)
}

#[tactic(auto, unfolding(crate::specs::Formed::rows_formed))]
fn are_rows_formed(phase: Phase, rows: u16) -> bool
    ensures { result ≡ rows_formed phase rows }
{
    rows <= 128 && (is_up(phase) || rows == 0)
}

// A well-formed record in Idle is all zero.
#[tactic(auto, using(crate::proofs::FormedLaws::idle_zero), unfolding(crate::specs::Formed::free_formed))]
fn is_free_formed(slot: Slot) -> bool
    requires { well_formed slot.neighbour ≡ true }
    ensures { result ≡ free_formed slot }
{
    slot.asn == 0 && slot.neighbour.phase.is_idle() && slot.rows == 0 && slot.seconds.are_none()
}

#[tactic(auto, unfolding(crate::specs::Formed::used_formed))]
fn is_used_formed(settings: Settings, slot: Slot) -> bool
    requires { well_formed slot.neighbour ≡ true }
    ensures { result ≡ used_formed settings slot }
{
    good_peer(settings, slot.address, slot.asn)
        && are_rows_formed(slot.neighbour.phase, slot.rows)
        && slot.seconds.are_formed()
}

#[tactic(auto, using(crate::proofs::FormedLaws::ill_slot), unfolding(crate::specs::Formed::slot_formed))]
pub fn is_slot_formed(settings: Settings, slot: Slot) -> bool
    ensures { result ≡ slot_formed settings slot }
{
    if !neighbour_wellformed::well_formed(slot.neighbour) {
        return false;
    }
    if slot.address == 0 {
        return is_free_formed(slot);
    }
    is_used_formed(settings, slot)
}

// A short way for a slot in Up, which most are: true where a slot of these is formed. Of another slot false says nothing.
#[tactic(auto, using(crate::proofs::FormedLaws::up_slot))]
pub fn is_up_slot_formed(
    settings: Settings,
    address: u32,
    asn: u16,
    n: Neighbour,
    count: u16,
    seconds: Seconds,
) -> bool
    ensures { result ≡ true → slot_formed settings (record { address = address; asn = asn; neighbour = n; rows = count; seconds = seconds }) ≡ true }
{
    neighbour_wellformed::is_up_formed(n)
        && good_peer(settings, address, asn)
        && count <= 128
        && seconds.are_formed()
}

// A short way for a slot in Up, which most are: true where it is formed. Of another slot false says nothing.
fn is_up_formed(settings: Settings, slot: &Slot) -> bool
    ensures { result ≡ true → slot_formed settings slot.now ≡ true }
{
    is_up_slot_formed(
        settings,
        slot.address,
        slot.asn,
        slot.neighbour,
        slot.rows,
        slot.seconds,
    )
}

// The index of the first slot that the short way does not find formed, or how many they are.
fn first_to_check(settings: Settings, slots: &[Slot]) -> usize
    ensures upper_bound { result ≤ length slots.now }
    ensures slots_value { list_all (slot_formed settings) slots.now ≡ list_all (slot_formed settings) (drop result slots.now) }
{
    slots
        .iter()
        .position(|slot| !is_up_formed(settings, slot))
        .unwrap_or(slots.len())
}

// Whether each of these slots is formed, by the long way.
fn are_formed(settings: Settings, slots: &[Slot]) -> bool
    ensures { result ≡ list_all (slot_formed settings) slots.now }
{
    slots.iter().all(|slot| is_slot_formed(settings, *slot))
}

// Two loops: behind the first slot that is not in Up the short way would be tried in vain.
fn are_slots_formed(settings: Settings, slots: &[Slot]) -> bool
    ensures { result ≡ list_all (slot_formed settings) slots.now }
{
    let from = first_to_check(settings, slots);
    are_formed(settings, &slots[from..])
}

// Whether none of the others is the same neighbour's.
fn is_apart_from(address: u32, others: &[u32]) -> bool
    ensures { result ≡ list_all (apart address) others.now }
{
    others
        .iter()
        .all(|&other| !is_same_neighbour(address, other))
}

// Whether no two of the addresses are one neighbour's.
pub fn are_distinct(addresses: &[u32]) -> bool
    ensures { result ≡ distinct apart addresses.now }
{
    let mut rest = addresses;
    while let Some((&address, later)) = rest.split_first() {
        if !is_apart_from(address, later) {
            return false;
        }
        rest = later;
    }
    true
}

// 01's check 1, of a state that is lent: a copy of one costs as much as half the check.
#[tactic(auto, using(crate::proofs::Finding::every_all), unfolding(crate::specs::Formed::state_formed))]
pub fn is_well_formed(st: &State) -> bool
    ensures { result ≡ state_formed st.now }
{
    good_settings(st.settings)
        && are_slots_formed(st.settings, &st.slots)
        && are_distinct(&addresses_of(st))
}

pub fn well_formed(st: State) -> bool
    ensures { result ≡ state_formed st }
{
    is_well_formed(&st)
}

// A refusal without a reply. Its number may be one that no `Refusal` has: the driver answers one of its own.
#[tactic(auto, unfolding(crate::specs::Outcomes::refused_of))]
pub fn refused(st: State, answer: u8) -> Outcome
    ensures { result ≡ refused_of st answer }
{
    Outcome {
        answer,
        first: 0,
        second: 0,
        state: st,
    }
}
