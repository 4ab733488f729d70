// Fresh, add and remove for a C host, on the state block. A refusal touches no octet of it.
#![tactic(auto)]

ghost use Rattle.std.specs.Prelude.{◌≡◌, List, ℕ};
ghost use Rattle.checks.specs.Refusals.{answer_of};
ghost use Rattle.model.specs.Model as M;
ghost use Rattle.host_result.specs.Packed.{bare};
ghost use Rattle.host_rules.specs.Calls.{result_of, block_after, fresh_result, fresh_block};

use checks::Refusal;
use neighbour::Settings;

// A new state.
pub fn fresh(block: &mut [u8], settings: Settings) -> u64
    ensures value { result ≡ fresh_result settings block.old }
    ensures block_after { block.new ≡ fresh_block settings block.old }
{
    if block.len() != host_state_block::BLOCK {
        return host_result::alone(20);
    }
    let o = gateway_slots::fresh(settings);
    if o.answer != 0 {
        return host_result::alone(o.answer);
    }
    host_state_block::write_state(block, o.state);
    host_result::alone(0)
}

// Adds a neighbour, or says why not.
fn put_neighbour(block: &mut [u8], address: u32, asn: u16) -> Result<(), Refusal>
    ensures value { (table : List ℕ) → bare (answer_of result) ≡ result_of (M.add address asn) block.old table }
    ensures block_after { (table : List ℕ) → block.new ≡ block_after (M.add address asn) block.old table }
{
    if block.len() != host_state_block::BLOCK {
        return Err(Refusal::WrongBlock);
    }
    if !host_state_block::is_formed(block) {
        return Err(Refusal::IllFormedState);
    }
    if !gateway_state::good_peer(host_state_block::settings_of(block), address, asn) {
        return Err(Refusal::BadArgument);
    }
    if host_state_block::slot_of(block, address).is_some() {
        return Err(Refusal::BadArgument);
    }
    let Some(free) = host_state_block::lowest_free(block) else {
        return Err(Refusal::NoFreeSlot);
    };
    host_state_block::put_slot(block, free, gateway_state::new_slot(address, asn));
    Ok(())
}

pub fn add(block: &mut [u8], address: u32, asn: u16) -> u64
    ensures value { (table : List ℕ) → result ≡ result_of (M.add address asn) block.old table }
    ensures block_after { (table : List ℕ) → block.new ≡ block_after (M.add address asn) block.old table }
{
    host_result::answered(put_neighbour(block, address, asn))
}

// Removes a neighbour, or says why not. Only an Idle one is removed, so that no row of the table outlives it.
fn free_neighbour(block: &mut [u8], address: u32) -> Result<(), Refusal>
    ensures value { (table : List ℕ) → bare (answer_of result) ≡ result_of (M.remove address) block.old table }
    ensures block_after { (table : List ℕ) → block.new ≡ block_after (M.remove address) block.old table }
{
    if block.len() != host_state_block::BLOCK {
        return Err(Refusal::WrongBlock);
    }
    if !host_state_block::is_formed(block) {
        return Err(Refusal::IllFormedState);
    }
    let Some(i) = host_state_block::slot_of(block, address) else {
        return Err(Refusal::UnknownNeighbour);
    };
    if !host_state_block::slot_at(block, i)
        .neighbour
        .phase
        .is_idle()
    {
        return Err(Refusal::NotIdle);
    }
    host_state_block::put_slot(block, i, gateway_state::free_slot());
    Ok(())
}

pub fn remove(block: &mut [u8], address: u32) -> u64
    ensures value { (table : List ℕ) → result ≡ result_of (M.remove address) block.old table }
    ensures block_after { (table : List ℕ) → block.new ≡ block_after (M.remove address) block.old table }
{
    host_result::answered(free_neighbour(block, address))
}
