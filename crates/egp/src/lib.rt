// What a C program links: the calls under their C names, over numbers and octets only (include/egp.h).
#![tactic(auto)]

ghost use Rattle.std.specs.Prelude.{◌≡◌, List, ℕ};
ghost use Rattle.neighbour_machine.specs.Intrinsics as I;
ghost use Rattle.model.specs.Model as M;
ghost use Rattle.host_codec.specs.Codec.{reading_result, reading_buffer, writing_result, writing_buffer};
ghost use Rattle.host_rules.specs.Calls.{result_of, block_after, table_after, buffer_after, fresh_result, fresh_block};

use neighbour::Settings;

#[unsafe(no_mangle)]
pub extern "C" fn egp_fresh(
    block: &mut [u8],
    asn: u16,
    own: u32,
    capability: u8,
    net: u32,
    quiet: u8,
) -> u64
    ensures value { result ≡ fresh_result (record { asn = asn; own = own; capability = capability; net = net; quiet = quiet }) block.old }
    ensures block_after { block.new ≡ fresh_block (record { asn = asn; own = own; capability = capability; net = net; quiet = quiet }) block.old }
{
    host_slots::fresh(
        block,
        Settings {
            asn,
            own,
            capability,
            net,
            quiet,
        },
    )
}

#[unsafe(no_mangle)]
pub extern "C" fn egp_add(block: &mut [u8], address: u32, asn: u16) -> u64
    ensures value { (table : List ℕ) → result ≡ result_of (M.add address asn) block.old table }
    ensures block_after { (table : List ℕ) → block.new ≡ block_after (M.add address asn) block.old table }
{
    host_slots::add(block, address, asn)
}

#[unsafe(no_mangle)]
pub extern "C" fn egp_remove(block: &mut [u8], address: u32) -> u64
    ensures value { (table : List ℕ) → result ≡ result_of (M.remove address) block.old table }
    ensures block_after { (table : List ℕ) → block.new ≡ block_after (M.remove address) block.old table }
{
    host_slots::remove(block, address)
}

#[unsafe(no_mangle)]
pub extern "C" fn egp_start(
    block: &mut [u8],
    table: &mut [u8],
    reply: &mut [u8],
    address: u32,
) -> u64
    ensures value { result ≡ result_of (M.happen I.Start address reply.old) block.old table.old }
    ensures block_after { block.new ≡ block_after (M.happen I.Start address reply.old) block.old table.old }
    ensures table_after { table.new ≡ table_after (M.happen I.Start address reply.old) block.old table.old }
    ensures reply_after { reply.new ≡ buffer_after (M.happen I.Start address reply.old) block.old table.old }
{
    host_calls::start(block, table, reply, address)
}

#[unsafe(no_mangle)]
pub extern "C" fn egp_stop(
    block: &mut [u8],
    table: &mut [u8],
    reply: &mut [u8],
    address: u32,
) -> u64
    ensures value { result ≡ result_of (M.happen I.Stop address reply.old) block.old table.old }
    ensures block_after { block.new ≡ block_after (M.happen I.Stop address reply.old) block.old table.old }
    ensures table_after { table.new ≡ table_after (M.happen I.Stop address reply.old) block.old table.old }
    ensures reply_after { reply.new ≡ buffer_after (M.happen I.Stop address reply.old) block.old table.old }
{
    host_calls::stop(block, table, reply, address)
}

#[unsafe(no_mangle)]
pub extern "C" fn egp_tick(
    block: &mut [u8],
    table: &mut [u8],
    reply: &mut [u8],
    address: u32,
) -> u64
    ensures value { result ≡ result_of (M.happen I.Tick address reply.old) block.old table.old }
    ensures block_after { block.new ≡ block_after (M.happen I.Tick address reply.old) block.old table.old }
    ensures table_after { table.new ≡ table_after (M.happen I.Tick address reply.old) block.old table.old }
    ensures reply_after { reply.new ≡ buffer_after (M.happen I.Tick address reply.old) block.old table.old }
{
    host_calls::tick(block, table, reply, address)
}

#[unsafe(no_mangle)]
pub extern "C" fn egp_message(
    block: &mut [u8],
    table: &mut [u8],
    reply: &mut [u8],
    home: &[u8],
    address: u32,
    message: &[u8],
) -> u64
    ensures value { result ≡ result_of (M.receive address message.now home.now reply.old) block.old table.old }
    ensures block_after { block.new ≡ block_after (M.receive address message.now home.now reply.old) block.old table.old }
    ensures table_after { table.new ≡ table_after (M.receive address message.now home.now reply.old) block.old table.old }
    ensures reply_after { reply.new ≡ buffer_after (M.receive address message.now home.now reply.old) block.old table.old }
{
    host_calls::receive(block, table, reply, home, address, message)
}

#[unsafe(no_mangle)]
pub extern "C" fn egp_listing(block: &[u8], table: &[u8], text: &mut [u8]) -> u64
    ensures value { result ≡ result_of (M.listing text.old) block.now table.now }
    ensures text_after { text.new ≡ buffer_after (M.listing text.old) block.now table.now }
{
    host_listing::listing(block, table, text)
}

#[unsafe(no_mangle)]
pub extern "C" fn egp_read(buffer: &mut [u8], net: u32, message: &[u8]) -> u64
    ensures value { result ≡ reading_result net message.now buffer.old }
    ensures buffer_after { buffer.new ≡ reading_buffer net message.now buffer.old }
{
    host_codec::read(buffer, net, message)
}

#[unsafe(no_mangle)]
pub extern "C" fn egp_write(buffer: &mut [u8], meaning: &[u8], rows: &[u8]) -> u64
    ensures value { result ≡ writing_result meaning.now rows.now buffer.old }
    ensures buffer_after { buffer.new ≡ writing_buffer meaning.now rows.now buffer.old }
{
    host_codec::write(buffer, meaning, rows)
}
