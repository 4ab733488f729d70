// One event of one neighbour: the machine whole.
#![tactic(auto)]

ghost use Rattle.std.specs.Prelude.{◌≡◌};
ghost use Rattle.neighbour_machine.specs.Step.{step_of};

use neighbour::{Neighbour, Settings};
use neighbour_machine::{After, Event};
use neighbour_messages::Head;

// What an event makes of a neighbour whose AS is `asn`. `head` is that of the message received.
#[tactic(auto, unfolding(neighbour_machine::specs::Step::step_of))]
pub fn step(settings: Settings, asn: u16, n: Neighbour, event: Event, head: Head) -> After
    ensures { result ≡ step_of settings asn n event head }
{
    match event {
        Event::Received(m) => {
            let counted = n.set_r(m).note(m).recount(m);
            neighbour_transitions::on_message(settings, asn, counted, m, head)
        }
        Event::Start => neighbour_transitions::on_start(settings, n),
        Event::Stop => neighbour_transitions::on_stop(settings, n),
        Event::Tick => neighbour_tick::on_tick(settings, n),
    }
}
