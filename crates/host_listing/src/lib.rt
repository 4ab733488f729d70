// The listing of the table for a C host, on the octets of state block and table: slot by slot, and of a used slot only
// its used rows are turned into numbers.
#![tactic(auto)]

ghost use Rattle.std.specs.Prelude.{◌≡◌, true, List, ℕ, ◌+◌, ◌*◌, ◌/◌, ◌≤◌, ◌<◌, length};
ghost use Rattle.checks.specs.Lists.{every};
ghost use Rattle.checks.specs.Refusals.{answer_of};
ghost use Rattle.octets.specs.Buffer.{over};
ghost use Rattle.octets_words.specs.Words.{words_of};
ghost use Rattle.text.specs.Writer.{Puts, HasRoom};
ghost use Rattle.nets.specs.Rows.{rows_of};
ghost use Rattle.gateway_state.specs.Places.{slot_rows, slot_numbers};
ghost use Rattle.listing_lines.specs.Lines.{entry_text, listing_text};
ghost use Rattle.listing_lines.specs.Listing.{entries, marked_row, listable};
ghost use Rattle.listing_lines.specs.Steps.{slot_entry};
ghost use Rattle.listing.specs.Steps.{slot_text, slot_listable, slots_text};
ghost use Rattle.model.specs.Model as Model;
ghost use Rattle.host_state_block.specs.Block.{block_size, state_in};
ghost use Rattle.host_rules.specs.Held.{table_size};
ghost use Rattle.host_rules.specs.Calls.{number_of, result_of, buffer_after};
ghost use Rattle.host_listing.specs.Steps.{Lent, used_octets};

use checks::Refusal;
use gateway_state::Slot;
use text::Writer;

// The octets of a number, and of a row of three.
const NUMBER: usize = 4;

const ROW: usize = 12;

// Whether no third number of rows is above 511.
fn are_rows_marked(rows: &[u8]) -> bool
    ensures { result ≡ every marked_row (rows_of (words_of rows.now)) }
{
    for row in rows.chunks_exact(ROW) {
        if 511 < octets::word32_at(row, 8) {
            return false;
        }
    }
    true
}

// The octets of so many rows of slot i.
fn used_rows(table: &[u8], i: usize, rows: u16) -> &[u8]
    requires { (i < 8) × (rows ≤ slot_rows) × (length table.now ≡ table_size) }
    ensures { (counts : List ℕ) → result.now ≡ used_octets table.now counts i rows }
{
    let start = NUMBER * gateway_state::place(i);
    let end = start + ROW * rows as usize;
    &table[start..end]
}

fn is_slot_listable(block: &[u8], i: usize, table: &[u8]) -> bool
    requires { Lent block.now table.now × (i < 8) }
    ensures { result ≡ slot_listable (state_in block.now) i (words_of table.now) }
{
    let slot = host_state_block::slot_at(block, i);
    if slot.address == 0 {
        return true;
    }
    are_rows_marked(used_rows(table, i, slot.rows))
}

fn are_slots_listable(block: &[u8], table: &[u8]) -> bool
    requires { Lent block.now table.now }
    ensures { result ≡ every listable (entries (state_in block.now) (words_of table.now)) }
{
    for i in 0..gateway_state::SLOTS {
        if !is_slot_listable(block, i, table) {
            return false;
        }
    }
    true
}

// Checks 20, 1, 2 and 3, of a buffer of this length.
fn check(block: &[u8], table: &[u8], octets: usize) -> Result<(), Refusal>
    ensures { (buffer : List ℕ) → length buffer ≡ octets → answer_of result ≡ number_of (Model.listing buffer) block.now table.now }
{
    if block.len() != host_state_block::BLOCK {
        return Err(Refusal::WrongBlock);
    }
    if !host_state_block::is_formed(block) {
        return Err(Refusal::IllFormedState);
    }
    if table.len() != 12288 {
        return Err(Refusal::WrongTable);
    }
    if !are_slots_listable(block, table) {
        return Err(Refusal::WrongTable);
    }
    if octets < 65536 {
        return Err(Refusal::ShortBuffer);
    }
    Ok(())
}

// Writes the lines of slot i, whose rows' octets these are; numbers is the room in which they become numbers.
fn put_used(out: &mut Writer<'_>, i: usize, slot: Slot, numbers: &mut [u32], octets: &[u8])
    requires i_bound { (i ≤ 8) × (length octets.now / 4 ≤ length numbers.old) × (length numbers.old ≤ slot_numbers) }
    requires room { HasRoom out.old (entry_text (slot_entry i slot (rows_of (words_of octets.now)))) }
    ensures { Puts (entry_text (slot_entry i slot (rows_of (words_of octets.now)))) out.old out.new }
{
    let count = octets.len() / NUMBER;
    octets_words::read_words(&mut numbers[..count], octets);
    let rows = &numbers[..count];
    listing_lines::put_head(out, i, slot, rows);
    listing_lines::put_rows(out, rows);
}

// The same, if slot i is used.
fn put_slot(out: &mut Writer<'_>, block: &[u8], i: usize, table: &[u8])
    requires lent { Lent block.now table.now × (i < 8) }
    requires room { HasRoom out.old (slot_text (state_in block.now) i (words_of table.now)) }
    ensures { Puts (slot_text (state_in block.now) i (words_of table.now)) out.old out.new }
{
    let slot = host_state_block::slot_at(block, i);
    if slot.address == 0 {
        return;
    }
    let mut numbers = [0u32; 384];
    put_used(out, i, slot, &mut numbers, used_rows(table, i, slot.rows));
}

fn put_slots(out: &mut Writer<'_>, block: &[u8], table: &[u8])
    requires lent { Lent block.now table.now }
    requires room { HasRoom out.old (slots_text (state_in block.now) (words_of table.now)) }
    ensures { Puts (slots_text (state_in block.now) (words_of table.now)) out.old out.new }
{
    for i in 0..gateway_state::SLOTS {
        put_slot(out, block, i, table);
    }
}

// How many slots are used.
fn neighbours(block: &[u8]) -> usize
    requires { length block.now ≡ block_size }
    ensures { (table : List ℕ) → result ≡ length (entries (state_in block.now) table) }
{
    let mut count = 0;
    for i in 0..gateway_state::SLOTS {
        if host_state_block::slot_at(block, i).address != 0 {
            count += 1;
        }
    }
    count
}

// Writes the whole text at the front of the buffer.
fn put_listing(out: &mut [u8], block: &[u8], table: &[u8]) -> usize
    requires lent { Lent block.now table.now }
    requires room { length (listing_text (entries (state_in block.now) (words_of table.now))) ≤ length out.old }
    ensures value { result ≡ length (listing_text (entries (state_in block.now) (words_of table.now))) }
    ensures out_after { out.new ≡ over (listing_text (entries (state_in block.now) (words_of table.now))) out.old }
{
    let mut writer = Writer::new(out);
    writer.put_line(b"neighbours=", neighbours(block) as u64);
    put_slots(&mut writer, block, table);
    writer.end()
}

// Lists the table as text.
pub fn listing(block: &[u8], table: &[u8], text: &mut [u8]) -> u64
    ensures value { result ≡ result_of (Model.listing text.old) block.now table.now }
    ensures text_after { text.new ≡ buffer_after (Model.listing text.old) block.now table.now }
{
    if let Err(refusal) = check(block, table, text.len()) {
        return host_result::alone(u8::from(refusal));
    }
    let length = put_listing(text, block, table);
    host_result::pack(0, length as u16, 0)
}
