// One neighbour: its record, the settings, and the rules of 01's "One neighbour" that need no event.
#![tactic(auto)]

ghost use Rattle.std.specs.Prelude.{◌≡◌, ◌<◌, MatchResult};
ghost use Rattle.neighbour.specs.Record.{is_idle, is_up, acquired, phase_number, mode_number, idle, left_idle, waiting, initialised, shifted, polled, one_more, aged};
ghost use Rattle.neighbour.specs.Rules.{is_command, must_carry_s, in_sequence, commanded, indicates, noted, too_quick, recounted, unacceptable, mode_of, offer_of, ones_of, goes_up, goes_down, judged};

use message::{Kind, Message};
use std::error::Error;
use std::fmt;

// RFC 904's parameters, in seconds: hello and poll intervals, retry, and the two lengths of t3.
pub const P1: u16 = 30;

pub const P2: u16 = 120;

pub const P3: u16 = 30;

pub const P4: u16 = 3600;

pub const P5: u16 = 120;

// Where the counts of ticks since a Hello and since a Poll hold.
pub const HOLDS_AT: u8 = 120;

// RFC 904's states (01: state), in 01's order.
#[derive(Clone, Copy, Debug, Default, PartialEq, Eq)]
pub enum Phase {
    #[default]
    Idle,
    Acquisition,
    Down,
    Up,
    Cease,
}

// 01: M. It is unset outside Down and Up.
#[derive(Clone, Copy, Debug, Default, PartialEq, Eq)]
pub enum Mode {
    #[default]
    Unset,
    Active,
    Passive,
}

// A number that stands for no state, or for no mode.
#[derive(Clone, Copy, Debug, PartialEq, Eq)]
pub struct UnknownNumber(pub u8);

// What a gateway is told when its state is made, in an order that leaves no gap: a state is handed on by value.
#[derive(Clone, Copy, Debug, PartialEq, Eq)]
pub struct Settings {
    pub asn: u16,
    // Which modes we can take; a number, since a bad one must be refused.
    pub capability: u8,
    // 1 if Idle leaves stray messages unanswered, else 0; a number for the same reason.
    pub quiet: u8,
    pub own: u32,
    pub net: u32,
}

// What is kept of one neighbour, in the order of the state block. Address, AS and row count stand outside.
#[derive(Clone, Copy, Debug, Default, PartialEq, Eq)]
pub struct Neighbour {
    // The number that our commands carry, and that responses must carry.
    pub s: u16,
    // The number of the last command received, which our responses carry.
    pub r: u16,
    // 01: T1 and T2, the seconds that t1 and t2 run for.
    pub period1: u16,
    pub period2: u16,
    pub t1: u16,
    pub t2: u16,
    pub t3: u16,
    pub phase: Phase,
    pub mode: Mode,
    // One bit for each of the last four hello intervals, the latest lowest.
    pub register: u8,
    pub heard: u8,
    // The status of the Cease that we sent, for repeats.
    pub cause: u8,
    // Ticks since the last Hello and since the last Poll carried out in this acquisition, held at 120.
    pub sincehello: u8,
    pub sincepoll: u8,
}

// What a Request or a Confirm that we take agrees on: T1, T2 and M.
#[derive(Clone, Copy, Debug, PartialEq, Eq)]
pub struct Terms {
    pub period1: u16,
    pub period2: u16,
    pub mode: Mode,
}

impl Phase {
    pub fn is_idle(self) -> bool
        ensures { result ≡ is_idle self }
    {
        self == Phase::Idle
    }

    pub fn is_up(self) -> bool
        ensures { result ≡ is_up self }
    {
        self == Phase::Up
    }

    // Down and Up, where alone an Error is sent and an indication noted.
    pub fn is_acquired(self) -> bool
        ensures { result ≡ acquired self }
    {
        matches!(self, Phase::Down | Phase::Up)
    }
}

impl From<Phase> for u8 {
    ghost from_gives = { λ phase number. number ≡ phase_number phase };

    // The state's place in 01's order, from 0 on.
    fn from(phase: Phase) -> u8 {
        match phase {
            Phase::Idle => 0,
            Phase::Acquisition => 1,
            Phase::Down => 2,
            Phase::Up => 3,
            Phase::Cease => 4,
        }
    }
}

impl TryFrom<u8> for Phase {
    type Error = UnknownNumber;

    ghost try_from_gives = { λ number result. MatchResult result (λ phase. number ≡ phase_number phase) (λ _. 4 < number) };

    fn try_from(number: u8) -> Result<Phase, UnknownNumber> {
        match number {
            0 => Ok(Phase::Idle),
            1 => Ok(Phase::Acquisition),
            2 => Ok(Phase::Down),
            3 => Ok(Phase::Up),
            4 => Ok(Phase::Cease),
            _ => Err(UnknownNumber(number)),
        }
    }
}

impl From<Mode> for u8 {
    ghost from_gives = { λ mode number. number ≡ mode_number mode };

    // None, active and passive, from 0 on.
    fn from(mode: Mode) -> u8 {
        match mode {
            Mode::Unset => 0,
            Mode::Active => 1,
            Mode::Passive => 2,
        }
    }
}

impl TryFrom<u8> for Mode {
    type Error = UnknownNumber;

    ghost try_from_gives = { λ number result. MatchResult result (λ mode. number ≡ mode_number mode) (λ _. 2 < number) };

    fn try_from(number: u8) -> Result<Mode, UnknownNumber> {
        match number {
            0 => Ok(Mode::Unset),
            1 => Ok(Mode::Active),
            2 => Ok(Mode::Passive),
            _ => Err(UnknownNumber(number)),
        }
    }
}

impl fmt::Display for UnknownNumber {
    fn fmt<W: fmt::Write>(&self, f: &mut fmt::Formatter<W>) -> fmt::Result {
        write!(f, "no state or mode has the number {}", self.0)
    }
}

impl Error for UnknownNumber {}

// The records that a transition leaves, and the rules for a message that need no table.
impl Neighbour {
    #[tactic(auto, unfolding(crate::specs::Record::idle))]
    pub fn idle() -> Neighbour
        ensures { result ≡ idle }
    {
        Neighbour::default()
    }

    // A neighbour that leaves Idle: S is 0, R is given.
    #[tactic(auto, unfolding(crate::specs::Record::left_idle, crate::specs::Record::idle, crate::specs::Record::with_numbers))]
    pub fn leave_idle(r: u16) -> Neighbour
        ensures { result ≡ left_idle r }
    {
        Neighbour {
            r,
            ..Neighbour::idle()
        }
    }

    // Entering Acquisition or Cease.
    #[tactic(auto, unfolding(crate::specs::Record::waiting, crate::specs::Record::idle))]
    pub fn to_waiting(self, phase: Phase, cause: u8) -> Neighbour
        ensures { result ≡ waiting self phase cause }
    {
        Neighbour {
            s: self.s,
            r: self.r,
            t1: P3,
            t3: P5,
            phase,
            cause,
            sincehello: self.sincehello,
            sincepoll: self.sincepoll,
            ..Neighbour::idle()
        }
    }

    // What 01's A and B have in common: Down with the intervals and the mode agreed on.
    #[tactic(auto, unfolding(crate::specs::Record::initialised, crate::specs::Record::idle))]
    pub fn initialise(self, terms: Terms) -> Neighbour
        ensures { result ≡ initialised self terms.period1 terms.period2 terms.mode }
    {
        Neighbour {
            s: self.s,
            r: self.r,
            period1: terms.period1,
            period2: terms.period2,
            t1: terms.period1,
            t3: P5,
            phase: Phase::Down,
            mode: terms.mode,
            sincehello: HOLDS_AT,
            sincepoll: HOLDS_AT,
            ..Neighbour::idle()
        }
    }

    // The end of a hello interval. The register is shifted in a wider type, where nothing is lost.
    #[tactic(auto, unfolding(crate::specs::Record::shifted, crate::specs::Record::with_reach, crate::specs::Record::with_timers))]
    pub fn shift(self) -> Neighbour
        ensures { result ≡ shifted self }
    {
        Neighbour {
            t1: self.period1,
            register: ((u16::from(self.register) * 2 + u16::from(self.heard)) % 16) as u8,
            heard: 0,
            ..self
        }
    }

    // A Poll is about to be sent.
    #[tactic(auto, unfolding(crate::specs::Record::polled, crate::specs::Record::with_numbers, crate::specs::Record::with_timers))]
    pub fn count_poll(self) -> Neighbour
        ensures { result ≡ polled self }
    {
        Neighbour {
            s: self.s.wrapping_add(1),
            t2: self.period2,
            ..self
        }
    }

    // A tick outside Idle, as far as it concerns the two counts.
    #[tactic(auto, unfolding(crate::specs::Record::aged))]
    pub fn age(self) -> Neighbour
        ensures { result ≡ aged self }
    {
        Neighbour {
            sincehello: one_more(self.sincehello),
            sincepoll: one_more(self.sincepoll),
            ..self
        }
    }

    // 01's check 13: a response carries S. In Idle none is checked.
    #[tactic(auto, unfolding(crate::specs::Rules::in_sequence))]
    pub fn in_sequence(self, m: Message) -> bool
        ensures { result ≡ in_sequence self m }
    {
        self.phase.is_idle() || !must_carry_s(m.kind()) || m.sequence() == self.s
    }

    // Outside Idle a command sets R, whether or not its cell does anything.
    #[tactic(auto, unfolding(crate::specs::Rules::commanded, crate::specs::Record::with_numbers))]
    pub fn set_r(self, m: Message) -> Neighbour
        ensures { result ≡ commanded self m }
    {
        if self.phase.is_idle() || !is_command(m.kind()) {
            return self;
        }
        Neighbour {
            r: m.sequence(),
            ..self
        }
    }

    // Whether a Hello or a Poll comes too soon after the last one carried out, in Down and Up alone.
    #[tactic(auto, unfolding(crate::specs::Rules::too_quick))]
    pub fn is_too_quick(self, m: Message) -> bool
        ensures { result ≡ too_quick self m }
    {
        self.phase.is_acquired()
            && match m {
                Message::Hello { .. } => u16::from(self.sincehello) < P1,
                Message::Poll { .. } => u16::from(self.sincepoll) < P2,
                _ => false,
            }
    }

    // A Hello or a Poll carried out in Down or Up: its own count starts anew.
    #[tactic(auto, unfolding(crate::specs::Rules::recounted))]
    pub fn recount(self, m: Message) -> Neighbour
        ensures { result ≡ recounted self m }
    {
        if !self.phase.is_acquired() {
            return self;
        }
        match m {
            Message::Hello { .. } => Neighbour {
                sincehello: 0,
                ..self
            },
            Message::Poll { .. } => Neighbour {
                sincepoll: 0,
                ..self
            },
            _ => self,
        }
    }

    // An indication, in Down and Up alone.
    #[tactic(auto, unfolding(crate::specs::Rules::noted, crate::specs::Record::heard_from, crate::specs::Record::with_reach, crate::specs::Record::with_timers))]
    pub fn note(self, m: Message) -> Neighbour
        ensures { result ≡ noted self m }
    {
        if !self.phase.is_acquired() || !is_indication(self.mode, m.kind(), m.status()) {
            return self;
        }
        Neighbour {
            heard: 1,
            t3: P4,
            ..self
        }
    }

    // The state that the register calls for.
    #[tactic(auto, unfolding(crate::specs::Rules::judged, crate::specs::Record::under, crate::specs::Record::enter_up, crate::specs::Record::leave_up, crate::specs::Record::with_reach, crate::specs::Record::with_timers))]
    pub fn judge(self) -> Neighbour
        ensures { result ≡ judged self }
    {
        let count = ones(self.register);
        match self.phase {
            Phase::Down if goes_up(self.mode, count) => Neighbour {
                phase: Phase::Up,
                ..self
            },
            Phase::Up if goes_down(self.mode, count) => Neighbour {
                phase: Phase::Down,
                t2: 0,
                ..self
            },
            _ => self,
        }
    }
}

// A tick more, up to 120. A count above that, which no call leaves, stays as it is: `min` would lower it.
#[tactic(auto, unfolding(crate::specs::Record::one_more))]
fn one_more(count: u8) -> u8
    ensures { result ≡ one_more count }
{
    if count < HOLDS_AT { count + 1 } else { count }
}

// Sequence numbers.

fn is_command(kind: Kind) -> bool
    ensures { result ≡ is_command kind }
{
    matches!(kind, Kind::Request | Kind::Cease | Kind::Hello | Kind::Poll)
}

fn must_carry_s(kind: Kind) -> bool
    ensures { result ≡ must_carry_s kind }
{
    matches!(
        kind,
        Kind::Confirm | Kind::Refuse | Kind::CeaseAck | Kind::IHeardYou | Kind::Update
    )
}

// Reachability.

// Whether a message carried out in Down or Up shows that the neighbour is reachable.
#[tactic(auto, unfolding(crate::specs::Rules::indicates))]
fn is_indication(mode: Mode, kind: Kind, status: u8) -> bool
    ensures { result ≡ indicates mode kind status }
{
    match (mode, kind) {
        (Mode::Active, Kind::Confirm | Kind::IHeardYou | Kind::Update) => true,
        (Mode::Passive, Kind::Hello | Kind::Poll) => status == 1,
        // solicited or not
        (Mode::Passive, Kind::Update) => status % 128 == 1,
        _ => false,
    }
}

// How many of the register's four bits are ones.
fn ones(register: u8) -> u32
    ensures { result ≡ ones_of register }
{
    (register % 16).count_ones()
}

// Whether Down goes Up with so many ones.
#[tactic(auto, unfolding(crate::specs::Rules::goes_up))]
fn goes_up(mode: Mode, count: u32) -> bool
    ensures { result ≡ goes_up mode count }
{
    match mode {
        Mode::Unset => false,
        Mode::Active => 3 <= count,
        Mode::Passive => 1 <= count,
    }
}

// Whether Up goes Down with so many ones.
#[tactic(auto, unfolding(crate::specs::Rules::goes_down))]
fn goes_down(mode: Mode, count: u32) -> bool
    ensures { result ≡ goes_down mode count }
{
    match mode {
        Mode::Unset => false,
        Mode::Active => count <= 1,
        Mode::Passive => count == 0,
    }
}

// What Request and Confirm agree on.

#[tactic(auto, unfolding(crate::specs::Rules::unacceptable))]
fn is_unacceptable(capability: u8, status: u8, hello: u16, poll: u16) -> bool
    ensures { result ≡ unacceptable capability status hello poll }
{
    120 < hello || 480 < poll || (capability == 2 && status == 2)
}

// The mode of this end, given the other end's status on Request or Confirm and its AS.
#[tactic(auto, unfolding(crate::specs::Rules::mode_of))]
fn mode_of(capability: u8, status: u8, own: u16, peer: u16) -> Mode
    ensures { result ≡ mode_of capability status own peer }
{
    match (capability, status) {
        (1, _) => Mode::Active,
        (2, _) => Mode::Passive,
        (_, 1) => Mode::Passive,
        (_, 2) => Mode::Active,
        _ if own < peer => Mode::Active,
        _ => Mode::Passive,
    }
}

impl Settings {
    // What a Request or a Confirm with these fields offers, if we take it. Only acceptable intervals are added to.
    #[tactic(auto, unfolding(crate::specs::Rules::offer_of, crate::specs::Rules::unacceptable, crate::specs::Rules::period1_of, crate::specs::Rules::period2_of))]
    pub fn offer_of(self, asn: u16, status: u8, hello: u16, poll: u16) -> Option<Terms>
        ensures { result ≡ offer_of self asn status hello poll }
    {
        if is_unacceptable(self.capability, status, hello, poll) {
            return None;
        }
        Some(Terms {
            period1: P1.max(hello) + 2,
            period2: P2.max(poll) + 2,
            mode: mode_of(self.capability, status, self.asn, asn),
        })
    }
}
