// The tick of one neighbour: 01's paragraph, a function for each part of it.
#![tactic(auto)]

ghost use Rattle.std.specs.Prelude.{◌≡◌, true};
ghost use Rattle.neighbour_machine.specs.Table.{unanswered};
ghost use Rattle.neighbour_machine.specs.Tick.{repeats, listens, polls, takes_t2, tick_on, tick_outside, on_tick, OnlyCounts};

use message::Message;
use neighbour::{Neighbour, P3, Phase, Settings};
use neighbour_machine::After;

// Acquisition and Cease send their command again when t1 reaches 0.
#[tactic(auto, unfolding(neighbour_machine::specs::Tick::repeats, neighbour::specs::Record::with_timers))]
fn repeat(n: Neighbour, m: Message) -> After
    ensures { result ≡ repeats n m }
{
    if n.t1 <= 1 {
        neighbour_transitions::answer(Neighbour { t1: P3, ..n }, m)
    } else {
        neighbour_transitions::keep(Neighbour { t1: n.t1 - 1, ..n })
    }
}

// Down and Up judge the register when t1 reaches 0. Hello then has the new state.
#[tactic(auto, unfolding(neighbour_machine::specs::Tick::listens, neighbour::specs::Record::with_timers))]
fn listen(settings: Settings, n: Neighbour) -> After
    ensures { result ≡ listens settings n }
{
    if n.t1 <= 1 {
        let next = n.shift().judge();
        neighbour_transitions::then_hello(settings, neighbour_transitions::keep(next))
    } else {
        neighbour_transitions::keep(Neighbour { t1: n.t1 - 1, ..n })
    }
}

// S goes up, and then the Poll is said.
#[tactic(auto, unfolding(neighbour_machine::specs::Tick::polls))]
fn poll(settings: Settings, x: After) -> After
    ensures { result ≡ polls settings x }
{
    let next = x.neighbour.count_poll();
    neighbour_transitions::say(
        After {
            neighbour: next,
            ..x
        },
        neighbour_messages::poll_message(settings, next),
    )
}

// Up before this tick and after it: the Poll when t2 reaches 0.
#[tactic(auto, unfolding(neighbour_machine::specs::Tick::takes_t2, neighbour::specs::Record::with_timers))]
fn take_t2(settings: Settings, x: After) -> After
    ensures { result ≡ takes_t2 settings x }
{
    let n = x.neighbour;
    if n.t2 <= 1 {
        poll(settings, x)
    } else {
        After {
            neighbour: Neighbour { t2: n.t2 - 1, ..n },
            ..x
        }
    }
}

// The rest of a tick, once 1 is taken from t3.
#[tactic(auto, unfolding(neighbour_machine::specs::Tick::tick_on, neighbour_machine::specs::Tick::polls_on_entry, neighbour_machine::specs::Tick::polls_in_up, neighbour::specs::Record::under))]
fn run(settings: Settings, n: Neighbour) -> After
    ensures { result ≡ tick_on settings n }
{
    match n.phase {
        Phase::Idle => neighbour_transitions::keep(n),
        Phase::Acquisition => repeat(n, neighbour_messages::request_message(settings, n)),
        Phase::Down => {
            let x = listen(settings, n);
            match x.neighbour.phase {
                Phase::Up => poll(settings, x),
                _ => x,
            }
        }
        Phase::Up => {
            let x = listen(settings, n);
            match x.neighbour.phase {
                Phase::Up => take_t2(settings, x),
                _ => x,
            }
        }
        Phase::Cease => repeat(n, neighbour_messages::cease_message(settings, n)),
    }
}

// A tick outside Idle, once the counts have gone up. Where t3 reaches 0 it is Stop.
#[tactic(auto, unfolding(neighbour_machine::specs::Tick::tick_outside, neighbour_machine::specs::Tick::expired, neighbour::specs::Record::with_timers))]
fn tick_outside(settings: Settings, n: Neighbour) -> After
    ensures { result ≡ tick_outside settings n }
{
    if n.t3 <= 1 {
        neighbour_transitions::on_stop(settings, n)
    } else {
        run(settings, Neighbour { t3: n.t3 - 1, ..n })
    }
}

#[tactic(auto, unfolding(neighbour_machine::specs::Tick::on_tick))]
pub fn on_tick(settings: Settings, n: Neighbour) -> After
    ensures { result ≡ on_tick settings n }
{
    if n.phase.is_idle() {
        neighbour_transitions::keep(n)
    } else {
        tick_outside(settings, n.age())
    }
}

// Whether a tick does nothing but count: the neighbour is Up, and no timer ends.
pub fn only_counts(n: Neighbour) -> bool
    ensures { result ≡ true → OnlyCounts n }
{
    n.phase == Phase::Up && 1 < n.t1 && 1 < n.t2 && 1 < n.t3
}

// Such a tick, without the machine.
#[tactic(auto, unfolding(neighbour::specs::Record::aged))]
pub fn count_down(n: Neighbour) -> Neighbour
    requires { OnlyCounts n }
    ensures result_value { (settings : Settings) → unanswered result ≡ on_tick settings n }
    ensures phase_value { result.phase ≡ Phase.Up }
{
    let aged = n.age();
    Neighbour {
        t1: aged.t1 - 1,
        t2: aged.t2 - 1,
        t3: aged.t3 - 1,
        ..aged
    }
}
