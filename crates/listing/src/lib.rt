// The call that lists the table as text.
#![tactic(auto)]

ghost use Rattle.checks.specs.Refusals.{answer_of};
ghost use Rattle.std.specs.Prelude.{◌≡◌, true, List, ℕ, ◌+◌, ◌≤◌, ◌<◌, length};
ghost use Rattle.std.specs.List.{filter};
ghost use Rattle.checks.specs.Lists.{every};
ghost use Rattle.checks.specs.Refusals.{answer_of};
ghost use Rattle.octets.specs.Buffer.{over};
ghost use Rattle.nets.specs.Rows.{rows_of};
ghost use Rattle.text.specs.Writer.{Puts, HasRoom};
ghost use Rattle.gateway_state.specs.Formed.{state_formed};
ghost use Rattle.listing_lines.specs.Lines.{listing_text};
ghost use Rattle.listing_lines.specs.Listing.{entries, marked_row, listable, listing_checks, listing_outcome, listing_buffer};
ghost use Rattle.listing.specs.Steps.{is_used, slot_text, slot_listable, slots_text};

use checks::Refusal;
use gateway_state::{Outcome, State};
use text::Writer;

// Whether no third number of rows is above 511.
fn are_rows_marked(rows: &[u32]) -> bool
    ensures { result ≡ every marked_row (rows_of rows.now) }
{
    for row in rows.chunks_exact(3) {
        if 511 < row[2] {
            return false;
        }
    }
    true
}

// The same of the used rows of slot i.
fn is_slot_listable(st: State, i: usize, table: &[u32]) -> bool
    requires { (state_formed st ≡ true) × (i < 8) × (length table.now ≡ 3072) }
    ensures { result ≡ slot_listable st i table.now }
{
    let slot = st.slots[i];
    if slot.address == 0 {
        return true;
    }
    let start = gateway_state::place(i);
    let end = start + 3 * slot.rows as usize;
    are_rows_marked(&table[start..end])
}

fn are_slots_listable(st: State, table: &[u32]) -> bool
    requires { (state_formed st ≡ true) × (length table.now ≡ 3072) }
    ensures { result ≡ every listable (entries st table.now) }
{
    for i in 0..gateway_state::SLOTS {
        if !is_slot_listable(st, i, table) {
            return false;
        }
    }
    true
}

// Checks 1, 2 and 3, of a buffer of this length.
fn check(st: State, table: &[u32], octets: usize) -> Result<(), Refusal>
    ensures { (buffer : List ℕ) → length buffer ≡ octets → answer_of result ≡ listing_checks st table.now buffer }
{
    if !gateway_state::well_formed(st) {
        return Err(Refusal::IllFormedState);
    }
    if table.len() != 3072 {
        return Err(Refusal::WrongTable);
    }
    if !are_slots_listable(st, table) {
        return Err(Refusal::WrongTable);
    }
    if octets < 65536 {
        return Err(Refusal::ShortBuffer);
    }
    Ok(())
}

// Writes the lines of slot i, if it is used.
fn put_slot(out: &mut Writer<'_>, st: State, i: usize, table: &[u32])
    requires st_value { (state_formed st ≡ true) × (i < 8) × (length table.now ≡ 3072) }
    requires room { HasRoom out.old (slot_text st i table.now) }
    ensures { Puts (slot_text st i table.now) out.old out.new }
{
    let slot = st.slots[i];
    if slot.address == 0 {
        return;
    }
    let from = gateway_state::place(i);
    let to = from + 3 * slot.rows as usize;
    let rows = &table[from..to];
    listing_lines::put_head(out, i, slot, rows);
    listing_lines::put_rows(out, rows);
}

fn put_slots(out: &mut Writer<'_>, st: State, table: &[u32])
    requires st_value { (state_formed st ≡ true) × (length table.now ≡ 3072) }
    requires room { HasRoom out.old (slots_text st table.now) }
    ensures { Puts (slots_text st table.now) out.old out.new }
{
    for i in 0..gateway_state::SLOTS {
        put_slot(out, st, i, table);
    }
}

// How many slots are used.
fn neighbours(st: State) -> usize
    ensures { result ≡ length (filter is_used st.slots) }
{
    st.slots.iter().filter(|slot| slot.address != 0).count()
}

// Writes the whole text at the front of the buffer.
fn put_listing(out: &mut [u8], st: State, table: &[u32]) -> usize
    requires st_value { (state_formed st ≡ true) × (length table.now ≡ 3072) }
    requires room { length (listing_text (entries st table.now)) ≤ length out.old }
    ensures value { result ≡ length (listing_text (entries st table.now)) }
    ensures out_after { out.new ≡ over (listing_text (entries st table.now)) out.old }
{
    let mut writer = Writer::new(out);
    writer.put_line(b"neighbours=", neighbours(st) as u64);
    put_slots(&mut writer, st, table);
    writer.end()
}

// Lists the table as text.
pub fn listing(st: State, table: &[u32], buffer: &mut [u8]) -> Outcome
    ensures value { result ≡ listing_outcome st table.now buffer.old }
    ensures buffer_after { buffer.new ≡ listing_buffer st table.now buffer.old }
{
    if let Err(refusal) = check(st, table, buffer.len()) {
        return gateway_state::refused(st, u8::from(refusal));
    }
    let length = put_listing(buffer, st, table);
    Outcome {
        answer: 0,
        first: length as u16,
        second: 0,
        state: st,
    }
}
