// Check 1 as far as it concerns one neighbour's record: 01's paragraph "Well formed means", by the record's state.
#![tactic(auto)]

ghost use Rattle.std.specs.Prelude.{◌≡◌, ◌&&◌, ◌||◌, eqb};
ghost use Rattle.neighbour.specs.Record.{is_up};
ghost use Rattle.neighbour_wellformed.specs.Formed.{agreed, well_formed};
ghost use Rattle.neighbour_wellformed.specs.ByState.{timers_formed, reached_formed, waiting_formed};

use neighbour::{HOLDS_AT, Mode, Neighbour, Phase};

// t1, t3 and the two counts, outside Idle.
#[tactic(auto, unfolding(crate::specs::Formed::counts_formed))]
fn are_timers_formed(n: Neighbour) -> bool
    ensures { result ≡ timers_formed n }
{
    (1..=122).contains(&n.t1)
        && (1..=3600).contains(&n.t3)
        && n.sincehello <= HOLDS_AT
        && n.sincepoll <= HOLDS_AT
}

// T1, T2 and M, as agreed on.
#[tactic(auto, unfolding(crate::specs::Formed::agreed))]
fn are_terms_formed(n: Neighbour) -> bool
    ensures { result ≡ agreed n }
{
    (32..=122).contains(&n.period1) && (122..=482).contains(&n.period2) && n.mode != Mode::Unset
}

// What is asked in Down and Up alike, with the bounds of t2 in that state.
fn is_reached_formed(n: Neighbour, low: u16, high: u16) -> bool
    ensures { result ≡ reached_formed low high n }
{
    (low..=high).contains(&n.t2)
        && are_timers_formed(n)
        && are_terms_formed(n)
        && n.register <= 15
        && n.heard <= 1
        && n.cause == 0
}

// What is asked in Acquisition and Cease alike.
fn is_waiting_formed(n: Neighbour) -> bool
    ensures { result ≡ waiting_formed n }
{
    are_timers_formed(n)
        && n.t2 == 0
        && n.period1 == 0
        && n.period2 == 0
        && n.mode == Mode::Unset
        && n.register == 0
        && n.heard == 0
}

// Stop or expiry is cause 5, an unacceptable Request cause 6.
fn is_cause(cause: u8) -> bool
    ensures { result ≡ (eqb cause 5 || eqb cause 6) }
{
    matches!(cause, 5 | 6)
}

// The gateway asks this first of every slot.
pub fn is_up_formed(n: Neighbour) -> bool
    ensures { result ≡ (is_up n.phase && well_formed n) }
{
    n.phase.is_up() && is_reached_formed(n, 1, 482)
}

// 01's check 1, as far as it concerns this record: by its state.
pub fn well_formed(n: Neighbour) -> bool
    ensures { result ≡ well_formed n }
{
    match n.phase {
        Phase::Idle => n == Neighbour::idle(),
        Phase::Acquisition => n.cause == 0 && is_waiting_formed(n),
        Phase::Down => is_reached_formed(n, 0, 0),
        Phase::Up => is_up_formed(n),
        Phase::Cease => is_cause(n.cause) && is_waiting_formed(n),
    }
}
