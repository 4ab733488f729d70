// The calls that take no table and no buffer: fresh, add and remove.
#![tactic(auto)]

ghost use Rattle.std.specs.Prelude.{◌≡◌};
ghost use Rattle.gateway_state.specs.Slots.{newcomer, free_slot};
ghost use Rattle.gateway_state.specs.Outcomes.{silent_of};
ghost use Rattle.gateway_slots.specs.Calls.{empty_state, fresh_of, add_of, remove_of};
ghost use Rattle.gateway_slots.specs.Steps.{placed};

use checks::Refusal;
use gateway_state::{Outcome, State};
use neighbour::Settings;

// Settings, and no neighbour.
fn empty(settings: Settings) -> State
    ensures { result ≡ empty_state settings }
{
    let slots = [gateway_state::free_slot(); 8];
    State { settings, slots }
}

// A call that never replies, carried out: the state that it leaves.
#[tactic(auto, unfolding(gateway_state::specs::Outcomes::silent_of, checks::specs::Checks::if_ok))]
fn carried_out(st: State) -> Outcome
    ensures { result ≡ silent_of 0 st st }
{
    Outcome {
        answer: 0,
        first: 0,
        second: 0,
        state: st,
    }
}

// A new state. Where the settings are bad, the all-zero state, which no call takes.
pub fn fresh(settings: Settings) -> Outcome
    ensures { result ≡ fresh_of settings }
{
    if !gateway_state::good_settings(settings) {
        let none = Settings {
            asn: 0,
            own: 0,
            capability: 0,
            net: 0,
            quiet: 0,
        };
        return gateway_state::refused(empty(none), u8::from(Refusal::BadArgument));
    }
    carried_out(empty(settings))
}

// Where another neighbour's slot goes. A place is handed on, not a state: a state is copied each time.
fn place_for(st: State, address: u32, asn: u16) -> Result<usize, Refusal>
    ensures { placed st (newcomer address asn) result ≡ add_of st address asn }
{
    if !gateway_state::well_formed(st) {
        return Err(Refusal::IllFormedState);
    }
    if !gateway_state::good_peer(st.settings, address, asn) {
        return Err(Refusal::BadArgument);
    }
    if gateway_state::slot_of(st, address).is_some() {
        return Err(Refusal::BadArgument);
    }
    let Some(free) = gateway_state::lowest_free(st) else {
        return Err(Refusal::NoFreeSlot);
    };
    Ok(free)
}

pub fn add(st: State, address: u32, asn: u16) -> Outcome
    ensures { result ≡ add_of st address asn }
{
    match place_for(st, address, asn) {
        Ok(i) => carried_out(gateway_state::with_slot(
            st,
            i,
            gateway_state::new_slot(address, asn),
        )),
        Err(refusal) => gateway_state::refused(st, u8::from(refusal)),
    }
}

// Where the neighbour's slot is. Only an Idle one is removed, so that no row of the table outlives it.
fn place_of(st: State, address: u32) -> Result<usize, Refusal>
    ensures { placed st free_slot result ≡ remove_of st address }
{
    if !gateway_state::well_formed(st) {
        return Err(Refusal::IllFormedState);
    }
    let Some(i) = gateway_state::slot_of(st, address) else {
        return Err(Refusal::UnknownNeighbour);
    };
    if !gateway_state::slot_at(st, i).neighbour.phase.is_idle() {
        return Err(Refusal::NotIdle);
    }
    Ok(i)
}

pub fn remove(st: State, address: u32) -> Outcome
    ensures { result ≡ remove_of st address }
{
    match place_of(st, address) {
        Ok(i) => carried_out(gateway_state::with_slot(st, i, gateway_state::free_slot())),
        Err(refusal) => gateway_state::refused(st, u8::from(refusal)),
    }
}
