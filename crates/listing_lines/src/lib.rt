// The listing of the table, one slot's text: its lines and those of its rows. The definitions are in specs/.
#![tactic(auto)]

ghost use Rattle.std.specs.Prelude.{◌≡◌, ◌+◌, ◌≤◌, length};
ghost use Rattle.checks.specs.Lists.{join};
ghost use Rattle.text.specs.Writer.{Puts, HasRoom};
ghost use Rattle.nets.specs.Rows.{rows_of};
ghost use Rattle.gateway_state.specs.Places.{slot_numbers};
ghost use Rattle.listing_lines.specs.Lines.{state_word, mode_word, side_word, seconds_lines, head_lines, row_text};
ghost use Rattle.listing_lines.specs.Steps.{slot_entry, rows_text};

use gateway_state::Slot;
use neighbour::{Mode, Phase};
use neighbour_seconds::Seconds;
use text::{Address, Writer};

// The word of a neighbour's state.
#[tactic(auto, unfolding(crate::specs::Lines::state_word, text::specs::Text::text))]
pub fn state_word(phase: Phase) -> &'static [u8]
    ensures { result.now ≡ state_word phase }
{
    match phase {
        Phase::Idle => b"idle",
        Phase::Acquisition => b"acquisition",
        Phase::Down => b"down",
        Phase::Up => b"up",
        Phase::Cease => b"cease",
    }
}

// The word of its mode.
#[tactic(auto, unfolding(crate::specs::Lines::mode_word, text::specs::Text::text))]
pub fn mode_word(mode: Mode) -> &'static [u8]
    ensures { result.now ≡ mode_word mode }
{
    match mode {
        Mode::Unset => b"none",
        Mode::Active => b"active",
        Mode::Passive => b"passive",
    }
}

// The word of a row's side.
#[tactic(auto, unfolding(crate::specs::Lines::side_word, text::specs::Text::text))]
pub fn side_word(third: u32) -> &'static [u8; 3]
    ensures { result.now ≡ side_word third }
{
    if 256 <= third { b"ext" } else { b"int" }
}

// Writes the lines of the seconds in each state.
#[tactic(auto, unfolding(checks::specs::Lists::join, crate::specs::Lines::seconds_lines, text::specs::Text::text))]
fn put_seconds(out: &mut Writer<'_>, s: Seconds)
    requires { HasRoom out.old (join (seconds_lines s)) }
    ensures { Puts (join (seconds_lines s)) out.old out.new }
{
    out.put_line(b"sidle=", s.idle);
    out.put_line(b"sacq=", s.acquisition);
    out.put_line(b"sdown=", s.down);
    out.put_line(b"sup=", s.up);
    out.put_line(b"scease=", s.cease);
}

// Writes the lines of a slot before those of its rows.
#[tactic(auto, using(update_writing::proofs::Lists::rows_length), unfolding(checks::specs::Lists::join, crate::specs::Lines::head_lines, text::specs::Text::text))]
pub fn put_head(out: &mut Writer<'_>, i: usize, slot: Slot, rows: &[u32])
    requires i_bound { (i ≤ 8) × (length rows.now ≤ slot_numbers) }
    requires rows_in_bounds { HasRoom out.old (join (head_lines (slot_entry i slot (rows_of rows.now)))) }
    ensures { Puts (join (head_lines (slot_entry i slot (rows_of rows.now)))) out.old out.new }
{
    out.put_line(b"slot=", i as u64);
    out.put_line(b"addr=", Address(slot.address));
    out.put_line(b"as=", u32::from(slot.asn));
    out.put_line(b"state=", state_word(slot.neighbour.phase));
    out.put_line(b"mode=", mode_word(slot.neighbour.mode));
    out.put_line(b"rows=", (rows.len() / 3) as u64);
    put_seconds(out, slot.seconds);
}

// Writes the lines of a row.
#[tactic(auto, unfolding(checks::specs::Lists::join, crate::specs::Lines::row_text, crate::specs::Lines::row_lines, crate::specs::Lines::distance_in, text::specs::Text::text))]
fn put_row(out: &mut Writer<'_>, net: u32, gateway: u32, third: u32)
    requires { HasRoom out.old (row_text (record { net = net; gateway = gateway; third = third })) }
    ensures { Puts (row_text (record { net = net; gateway = gateway; third = third })) out.old out.new }
{
    out.put_line(b"net=", Address(net));
    out.put_line(b"gw=", Address(gateway));
    out.put_line(b"dist=", third % 256);
    out.put_line(b"side=", side_word(third));
}

// Writes the lines of rows.
pub fn put_rows(out: &mut Writer<'_>, rows: &[u32])
    requires { HasRoom out.old (rows_text (rows_of rows.now)) }
    ensures { Puts (rows_text (rows_of rows.now)) out.old out.new }
{
    for row in rows.chunks_exact(3) {
        put_row(out, row[0], row[1], row[2]);
    }
}
