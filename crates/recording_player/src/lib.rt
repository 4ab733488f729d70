// Plays a recording that comes in pieces of any size. Each turn makes at most one call, so the output of a turn is
// bounded.
#![tactic(auto)]

ghost use Rattle.std.specs.Prelude.{◌≡◌, true, false, List, ℕ, ◌≤◌, ◌<◌, leb, length, Option, Some};
ghost use Rattle.checks.specs.Refusals.{answer_of};
ghost use Rattle.octets.specs.Buffer.{over};
ghost use Rattle.recording_lines.specs.Meant.{said};
ghost use Rattle.recording_lines.specs.Steps.{has_hex};
ghost use Rattle.recording_player.specs.Player.{beginning, next_line, telling_of, roomy, call_checks, formed_check, reported, given, with_used, bad_step, broken_step, silent_step, fresh_step, head_step, is_setting, event_step, event_checked, line_step, line_checked, tick_step, turn_step, held_of, told_of, close_step, finish_step};
ghost use Rattle.recording_player.specs.Steps.{settings_of, carried_turn};

use checks::Refusal;
use gateway_state::State;
use neighbour::Settings;
use recording_call::Called;
use recording_lines::LineEvent;
use recording_trace::Telling;

// The least output buffer, as for a listing.
pub const ROOM: usize = 65536;

// Stray messages are answered, unless the line behind that of the net says otherwise.
const ANSWERED: u8 = 0;

// What is known between two turns. The host lends the line buffer, the table and the output buffer.
#[derive(Clone, Copy)]
pub struct Player {
    // Lines taken so far.
    pub lines: u64,
    // Octets held of the line that is coming in.
    pub held: u16,
    // Whether one of the first four lines was bad: then nothing is played or listed.
    pub broken: bool,
    // The neighbour for which ticks are due, and how many.
    pub address: u32,
    pub ticks: u32,
    // The settings as far as they are read.
    pub settings: Settings,
    pub state: State,
    // Whether calls are told of by a trace, and how many ticks were passed over since the last one told of.
    pub traced: bool,
    pub passed: u64,
}

// What a turn leaves: how many octets of the piece it used and how many it wrote, and the number of 01 or 19 for a bad
// line.
#[derive(Clone, Copy)]
pub struct Told {
    pub player: Player,
    pub answer: u8,
    pub used: usize,
    pub written: usize,
}

impl Player {
    // One line more was taken, and none of the next is held.
    #[tactic(auto, unfolding(crate::specs::Player::next_line))]
    fn next_line(self) -> Player
        ensures { result ≡ next_line self }
    {
        Player {
            lines: recording_bad_line::one_more(self.lines),
            held: 0,
            ..self
        }
    }

    // How the player's next call is told of.
    #[tactic(auto, unfolding(crate::specs::Player::telling_of))]
    fn telling(self, passed: u64, last: bool) -> Telling
        ensures { result ≡ telling_of self passed last }
    {
        Telling {
            traced: self.traced,
            line: self.lines,
            passed,
            last,
        }
    }
}

// A turn that uses and writes nothing: all is as given.
#[tactic(auto, unfolding(crate::specs::Player::silent_step, crate::specs::Player::told_of))]
fn silent(player: Player, answer: u8) -> Told
    ensures { (table : List ℕ) → result ≡ told_of (silent_step player table answer) }
{
    Told {
        player,
        answer,
        used: 0,
        written: 0,
    }
}

// What a call with replies asks of the host.
#[tactic(auto, unfolding(gateway_rules::specs::Calls::lent_checks, checks::specs::Checks::check))]
fn check_call(state: State, numbers: usize, room: usize) -> Result<(), Refusal>
    ensures { answer_of result ≡ call_checks (leb 65536 room) state numbers }
{
    if !gateway_state::well_formed(state) {
        return Err(Refusal::IllFormedState);
    }
    if numbers != 3072 {
        return Err(Refusal::WrongTable);
    }
    if room < ROOM {
        return Err(Refusal::ShortBuffer);
    }
    Ok(())
}

// Add and remove ask for a state only, and for room where a line tells of them.
#[tactic(auto, unfolding(crate::specs::Player::formed_check, checks::specs::Checks::check))]
fn check_formed(traced: bool, state: State, room: usize) -> Result<(), Refusal>
    ensures { answer_of result ≡ formed_check traced (leb 65536 room) state }
{
    if !gateway_state::well_formed(state) {
        return Err(Refusal::IllFormedState);
    }
    if traced && room < ROOM {
        return Err(Refusal::ShortBuffer);
    }
    Ok(())
}

// A bad event line.
fn skip_line(p: Player, used: usize, out: &mut [u8]) -> Told
    ensures value { (table : List ℕ) → result ≡ told_of (reported (roomy out.old) p table used (bad_step p table)) }
    ensures out_after { (table : List ℕ) → out.new ≡ over (reported (roomy out.old) p table used (bad_step p table)).text out.old }
{
    let bad_line = u8::from(Refusal::BadLine);
    if out.len() < ROOM {
        return silent(p, bad_line);
    }
    let player = p.next_line();
    let written = recording_bad_line::put_bad(out, player.lines);
    Told {
        player,
        answer: bad_line,
        used,
        written,
    }
}

// One of the first four lines is bad or missing, or fresh refused them.
fn give_up(p: Player, answer: u8, used: usize, out: &mut [u8]) -> Told
    requires { answer ≡ 0 → ⊥ }
    ensures value { (table : List ℕ) → result ≡ told_of (reported (roomy out.old) p table used (broken_step p table answer)) }
    ensures out_after { (table : List ℕ) → out.new ≡ over (reported (roomy out.old) p table used (broken_step p table answer)).text out.old }
{
    if out.len() < ROOM {
        return silent(p, answer);
    }
    let next = p.next_line();
    let written = recording_bad_line::put_bad(out, next.lines);
    Told {
        player: Player {
            broken: true,
            ..next
        },
        answer,
        used,
        written,
    }
}

// The settings with that of the line behind so many: our own AS, our own address, the capability, the common net, and
// `quiet`.
fn read_setting(settings: Settings, lines: u64, line: &[u8]) -> Option<Settings>
    ensures { result ≡ settings_of settings lines line.now }
{
    Some(match lines {
        0 => Settings {
            asn: recording_lines::own_as(line)? as u16,
            ..settings
        },
        1 => Settings {
            own: recording_lines::own(line)?,
            ..settings
        },
        2 => Settings {
            capability: recording_lines::capability(line)? as u8,
            ..settings
        },
        3 => Settings {
            net: recording_lines::net(line)?,
            quiet: ANSWERED,
            ..settings
        },
        _ => Settings {
            quiet: recording_lines::quiet(line)? as u8,
            ..settings
        },
    })
}

// Whether the line behind so many is a setting: the first four are, and a good `quiet` line right after them.
fn is_setting(lines: u64, line: &[u8]) -> bool
    ensures { result ≡ is_setting lines line.now }
{
    lines < 4 || lines == 4 && recording_lines::quiet(line).is_some()
}

// All that are to come before it are read: a fresh state.
fn begin_state(p: Player, settings: Settings, used: usize, out: &mut [u8]) -> Told
    ensures value { (table : List ℕ) → result ≡ told_of (reported (roomy out.old) p table used (fresh_step p table settings)) }
    ensures out_after { (table : List ℕ) → out.new ≡ over (reported (roomy out.old) p table used (fresh_step p table settings)).text out.old }
{
    let o = gateway_slots::fresh(settings);
    if o.answer != 0 {
        return give_up(p, o.answer, used, out);
    }
    let next = Player {
        settings,
        state: o.state,
        ..p.next_line()
    };
    Told {
        used,
        ..silent(next, 0)
    }
}

// A line of settings.
fn take_setting(p: Player, line: &[u8], used: usize, out: &mut [u8]) -> Told
    ensures value { (table : List ℕ) → result ≡ told_of (reported (roomy out.old) p table used (head_step p table line.now)) }
    ensures out_after { (table : List ℕ) → out.new ≡ over (reported (roomy out.old) p table used (head_step p table line.now)).text out.old }
{
    let Some(settings) = read_setting(p.settings, p.lines, line) else {
        return give_up(p, u8::from(Refusal::BadLine), used, out);
    };
    if p.lines < 3 {
        // More are to come.
        let next = Player {
            settings,
            ..p.next_line()
        };
        return Told {
            used,
            ..silent(next, 0)
        };
    }
    begin_state(p, settings, used, out)
}

// What a call leaves.
#[tactic(auto, unfolding(crate::specs::Steps::carried_turn, crate::specs::Player::having, crate::specs::Player::passing))]
fn carry(p: Player, c: Called) -> Told
    ensures { result ≡ carried_turn p c }
{
    Told {
        player: Player {
            state: c.state,
            passed: c.passed,
            ..p
        },
        answer: c.answer,
        used: 0,
        written: c.written,
    }
}

// What an event asks of the host.
#[tactic(auto, unfolding(crate::specs::Player::event_checked))]
fn check_event(p: Player, event: LineEvent<'_>, numbers: usize, room: usize) -> Result<(), Refusal>
    ensures { answer_of result ≡ event_checked p.traced (leb 65536 room) p.state numbers (said event.entry) }
{
    match event {
        LineEvent::Add(..) | LineEvent::Remove(_) => check_formed(p.traced, p.state, room),
        LineEvent::Tick(..) => Ok(()),
        LineEvent::Start(_) | LineEvent::Stop(_) | LineEvent::Receive(..) => {
            check_call(p.state, numbers, room)
        }
    }
}

// An event that has what it asks for.
fn play_event(p: Player, event: LineEvent<'_>, table: &mut [u32], out: &mut [u8]) -> Told
    requires { (has_hex event ≡ true) × (event_checked p.traced (roomy out.old) p.state (length table.old) (said event) ≡ 0) }
    ensures value { result ≡ told_of (event_step p table.old (said event.entry)) }
    ensures table_after { table.new ≡ (event_step p table.old (said event.entry)).table }
    ensures out_after { out.new ≡ over (event_step p table.old (said event.entry)).text out.old }
{
    let next = p.next_line();
    let t = next.telling(0, true);
    match event {
        LineEvent::Add(a, asn) => carry(
            next,
            recording_call::add_neighbour(p.state, out, t, a, asn),
        ),
        LineEvent::Remove(a) => carry(next, recording_call::remove_neighbour(p.state, out, t, a)),
        LineEvent::Start(a) => carry(
            next,
            recording_call::start_neighbour(p.state, table, out, t, a),
        ),
        LineEvent::Stop(a) => carry(
            next,
            recording_call::stop_neighbour(p.state, table, out, t, a),
        ),
        LineEvent::Tick(address, ticks) => {
            let next = Player {
                address,
                ticks,
                passed: 0,
                ..next
            };
            silent(next, 0)
        }
        LineEvent::Receive(a, digits) => carry(
            next,
            recording_call::hear_neighbour(p.state, table, out, t, a, digits),
        ),
    }
}

// A line that has ended.
fn take_line(p: Player, line: &[u8], used: usize, table: &mut [u32], out: &mut [u8]) -> Told
    ensures value { result ≡ told_of (given p table.old (line_checked (roomy out.old) p table.old line.now) (with_used used (line_step p table.old line.now))) }
    ensures table_after { table.new ≡ (given p table.old (line_checked (roomy out.old) p table.old line.now) (with_used used (line_step p table.old line.now))).table }
    ensures out_after { out.new ≡ over (given p table.old (line_checked (roomy out.old) p table.old line.now) (with_used used (line_step p table.old line.now))).text out.old }
{
    if is_setting(p.lines, line) {
        return take_setting(p, line, used, out);
    }
    let Some(event) = recording_lines::event(line) else {
        return skip_line(p, used, out);
    };
    if let Err(refusal) = check_event(p, event, table.len(), out.len()) {
        return silent(p, u8::from(refusal));
    }
    Told {
        used,
        ..play_event(p, event, table, out)
    }
}

// One of the ticks that are due.
fn make_tick(p: Player, table: &mut [u32], out: &mut [u8]) -> Told
    requires { 0 < p.ticks }
    ensures value { result ≡ told_of (given p table.old (call_checks (roomy out.old) p.state (length table.old)) (tick_step p table.old)) }
    ensures table_after { table.new ≡ (given p table.old (call_checks (roomy out.old) p.state (length table.old)) (tick_step p table.old)).table }
    ensures out_after { out.new ≡ over (given p table.old (call_checks (roomy out.old) p.state (length table.old)) (tick_step p table.old)).text out.old }
{
    if let Err(refusal) = check_call(p.state, table.len(), out.len()) {
        return silent(p, u8::from(refusal));
    }
    let next = Player {
        ticks: p.ticks - 1,
        passed: 0,
        ..p
    };
    let t = p.telling(p.passed, p.ticks == 1);
    carry(
        next,
        recording_call::tick_neighbour(p.state, table, out, t, p.address),
    )
}

// Before the first line.
pub fn begin(traced: bool) -> Player
    ensures { result ≡ beginning traced }
{
    let settings = Settings {
        asn: 0,
        own: 0,
        capability: 0,
        net: 0,
        quiet: 0,
    };
    Player {
        lines: 0,
        held: 0,
        broken: false,
        address: 0,
        ticks: 0,
        settings,
        state: gateway_slots::fresh(settings).state,
        traced,
        passed: 0,
    }
}

// What a piece of the recording gives where no tick is due: a line, if it ends one. In a function of its own: a function
// pays for its locals when it is entered, so a turn that makes a tick would pay for the line's.
fn take_piece(p: Player, line: &mut [u8], table: &mut [u32], input: &[u8], out: &mut [u8]) -> Told
    requires { (p.broken ≡ false) × (p.ticks ≤ 0) × (4118 ≤ length line.old) }
    ensures value { result ≡ told_of (turn_step (roomy out.old) p line.old table.old input.now) }
    ensures line_after { line.new ≡ held_of p line.old input.now }
    ensures table_after { table.new ≡ (turn_step (roomy out.old) p line.old table.old input.now).table }
    ensures out_after { out.new ≡ over (turn_step (roomy out.old) p line.old table.old input.now).text out.old }
{
    let mut whole = [0u8; 4118];
    let g = recording_gather::join_piece(&mut whole, line, p.held, input);
    if !g.ended {
        recording_gather::gather(line, p.held, input);
        let next = Player { held: g.held, ..p };
        return Told {
            used: g.used,
            ..silent(next, 0)
        };
    }
    take_line(
        p,
        recording_gather::held_line(&whole, g.held),
        g.used,
        table,
        out,
    )
}

// One turn: a tick if any is due, else the line that the piece of the recording ends, if it does. Where the host has
// not lent what it needs, it is refused, and the host comes back with all as it was.
pub fn turn(p: Player, line: &mut [u8], table: &mut [u32], input: &[u8], out: &mut [u8]) -> Told
    ensures value { result ≡ told_of (turn_step (roomy out.old) p line.old table.old input.now) }
    ensures line_after { line.new ≡ held_of p line.old input.now }
    ensures table_after { table.new ≡ (turn_step (roomy out.old) p line.old table.old input.now).table }
    ensures out_after { out.new ≡ over (turn_step (roomy out.old) p line.old table.old input.now).text out.old }
{
    if p.broken {
        return Told {
            used: input.len(),
            ..silent(p, 0)
        };
    }
    if 0 < p.ticks {
        return make_tick(p, table, out);
    }
    if line.len() < 4118 {
        return silent(p, u8::from(Refusal::ShortBuffer));
    }
    take_piece(p, line, table, input, out)
}

// The recording is over: a line that did not end is bad, and so is a missing one of the first four.
pub fn close(p: Player, out: &mut [u8]) -> Told
    ensures value { (table : List ℕ) → result ≡ told_of (close_step (roomy out.old) p table) }
    ensures out_after { (table : List ℕ) → out.new ≡ over (close_step (roomy out.old) p table).text out.old }
{
    if p.broken {
        return silent(p, 0);
    }
    if p.lines < 4 {
        return give_up(p, u8::from(Refusal::BadLine), 0, out);
    }
    if 0 < p.held {
        return skip_line(p, 0, out);
    }
    silent(p, 0)
}

// After that, the listing.
pub fn finish(p: Player, table: &[u32], out: &mut [u8]) -> Told
    ensures value { result ≡ told_of (finish_step out.old p table.now) }
    ensures out_after { out.new ≡ over (finish_step out.old p table.now).text out.old }
{
    if p.broken || p.lines < 4 {
        return silent(p, 0);
    }
    let o = listing::listing(p.state, table, out);
    Told {
        player: p,
        answer: o.answer,
        used: 0,
        written: o.first as usize,
    }
}
