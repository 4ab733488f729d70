// 01's table of one neighbour: what a message, Start or Stop makes of its record, row by row.
// Settings and record are two parameters and no struct with methods: these may stand only in the crate of the struct,
// and the messages, this table and the tick are crates of their own.
#![tactic(auto)]

ghost use Rattle.std.specs.Prelude.{◌≡◌};
ghost use Rattle.neighbour_machine.specs.Table.{overfull, followed, unanswered, answers, says, hello_if, then_hello, does_a, does_b, ceases, repeats_cease, acquires, stray, on_request, on_confirm, on_refuse, on_cease, on_cease_ack, on_hello, on_i_heard_you, answers_poll, on_poll, on_start, on_stop};
ghost use Rattle.neighbour_machine.specs.Step.{on_message};

use message::Message;
use neighbour::{Mode, Neighbour, Phase, Settings, Terms};
use neighbour_machine::{After, Reply};
use neighbour_messages::Head;

// What a third message would make of a reply. No step says one.
fn overflow() -> Reply
    ensures { result ≡ overfull }
{
    let none = Message::Update {
        asn: 0,
        sequence: 0,
        status: 0,
        net: 0,
    };
    Reply::Two(none, none)
}

// A reply with one message more.
#[tactic(auto, unfolding(neighbour_machine::specs::Table::followed))]
fn follow(reply: Reply, m: Message) -> Reply
    ensures { result ≡ followed reply m }
{
    match reply {
        Reply::Nothing => Reply::One(m),
        Reply::One(first) => Reply::Two(first, m),
        Reply::Two(_, _) => overflow(),
    }
}

// This record, and nothing sent.
#[tactic(auto, unfolding(neighbour_machine::specs::Table::unanswered))]
pub fn keep(n: Neighbour) -> After
    ensures { result ≡ unanswered n }
{
    After {
        neighbour: n,
        reply: Reply::Nothing,
    }
}

// This record, and one message sent.
#[tactic(auto, unfolding(neighbour_machine::specs::Table::answers))]
pub fn answer(n: Neighbour, m: Message) -> After
    ensures { result ≡ answers n m }
{
    After {
        neighbour: n,
        reply: Reply::One(m),
    }
}

// The same record, and one message more.
#[tactic(auto, unfolding(neighbour_machine::specs::Table::says))]
pub fn say(x: After, m: Message) -> After
    ensures { result ≡ says x m }
{
    After {
        reply: follow(x.reply, m),
        ..x
    }
}

// A Hello after what is said already, in active mode.
#[tactic(auto, unfolding(neighbour_machine::specs::Table::hello_if))]
pub fn hello_if(mode: Mode, settings: Settings, x: After) -> After
    ensures { result ≡ hello_if mode settings x }
{
    match mode {
        Mode::Active => say(x, neighbour_messages::hello_message(settings, x.neighbour)),
        Mode::Unset | Mode::Passive => x,
    }
}

// The same, by the mode of the record.
pub fn then_hello(settings: Settings, x: After) -> After
    ensures { result ≡ then_hello settings x }
{
    hello_if(x.neighbour.mode, settings, x)
}

// 01's A: Confirm, and Hello if active.
#[tactic(auto, unfolding(neighbour_machine::specs::Table::does_a))]
fn do_a(settings: Settings, n: Neighbour, terms: Terms) -> After
    ensures { result ≡ does_a settings n terms.period1 terms.period2 terms.mode }
{
    let next = n.initialise(terms);
    let x = answer(next, neighbour_messages::confirm_message(settings, next));
    then_hello(settings, x)
}

// 01's B: Hello if active.
#[tactic(auto, unfolding(neighbour_machine::specs::Table::does_b))]
fn do_b(settings: Settings, n: Neighbour, terms: Terms) -> After
    ensures { result ≡ does_b settings n terms.period1 terms.period2 terms.mode }
{
    then_hello(settings, keep(n.initialise(terms)))
}

// Enter Cease, with the cause that its Cease carries.
#[tactic(auto, unfolding(neighbour_machine::specs::Table::ceases))]
fn cease(settings: Settings, n: Neighbour, cause: u8) -> After
    ensures { result ≡ ceases settings n cause }
{
    let next = n.to_waiting(Phase::Cease, cause);
    answer(next, neighbour_messages::cease_message(settings, next))
}

// Send the Cease again.
#[tactic(auto, unfolding(neighbour_machine::specs::Table::repeats_cease))]
fn repeat_cease(settings: Settings, n: Neighbour) -> After
    ensures { result ≡ repeats_cease settings n }
{
    answer(n, neighbour_messages::cease_message(settings, n))
}

// Enter Acquisition, or enter it again.
#[tactic(auto, unfolding(neighbour_machine::specs::Table::acquires))]
fn acquire(settings: Settings, n: Neighbour) -> After
    ensures { result ≡ acquires settings n }
{
    let next = n.to_waiting(Phase::Acquisition, 0);
    answer(next, neighbour_messages::request_message(settings, next))
}

// A message to an idle neighbour that thinks it is still acquired.
#[tactic(auto, unfolding(neighbour_machine::specs::Table::stray))]
fn answer_stray(settings: Settings, n: Neighbour) -> After
    ensures { result ≡ stray settings n }
{
    if settings.quiet == 1 {
        keep(n)
    } else {
        answer(n, neighbour_messages::stray_cease_message(settings))
    }
}

// The rows of 01's table.

#[tactic(auto, unfolding(neighbour_machine::specs::Table::on_request, neighbour::specs::Record::under))]
fn on_request(settings: Settings, n: Neighbour, sequence: u16, offer: Option<Terms>) -> After
    ensures { result ≡ on_request settings n sequence offer }
{
    match offer {
        Some(terms) => match n.phase {
            Phase::Idle => do_a(settings, Neighbour::leave_idle(sequence), terms),
            Phase::Acquisition | Phase::Down | Phase::Up => do_a(settings, n, terms),
            Phase::Cease => repeat_cease(settings, n),
        },
        None => match n.phase {
            Phase::Idle => answer(n, neighbour_messages::refuse_message(settings, sequence, 6)),
            Phase::Acquisition => keep(Neighbour::idle()),
            Phase::Down | Phase::Up => cease(settings, n, 6),
            Phase::Cease => repeat_cease(settings, n),
        },
    }
}

#[tactic(auto, unfolding(neighbour_machine::specs::Table::on_confirm, neighbour_machine::specs::Table::settles, neighbour::specs::Record::under))]
fn on_confirm(settings: Settings, n: Neighbour, offer: Option<Terms>) -> After
    ensures { result ≡ on_confirm settings n offer }
{
    match (n.phase, offer) {
        (Phase::Idle, _) => answer_stray(settings, n),
        (Phase::Acquisition, Some(terms)) => do_b(settings, n, terms),
        (Phase::Acquisition, None) => keep(Neighbour::idle()),
        (Phase::Down | Phase::Up | Phase::Cease, _) => keep(n),
    }
}

#[tactic(auto, unfolding(neighbour_machine::specs::Table::on_refuse, neighbour::specs::Record::under))]
fn on_refuse(settings: Settings, n: Neighbour) -> After
    ensures { result ≡ on_refuse settings n }
{
    match n.phase {
        Phase::Idle => answer_stray(settings, n),
        Phase::Acquisition => keep(Neighbour::idle()),
        Phase::Down | Phase::Up | Phase::Cease => keep(n),
    }
}

// A Cease ends everything, in every state.
#[tactic(auto, unfolding(neighbour_machine::specs::Table::on_cease))]
fn on_cease(settings: Settings, sequence: u16) -> After
    ensures { result ≡ on_cease settings sequence }
{
    answer(
        Neighbour::idle(),
        neighbour_messages::cease_ack_message(settings, sequence),
    )
}

#[tactic(auto, unfolding(neighbour_machine::specs::Table::on_cease_ack, neighbour::specs::Record::under))]
fn on_cease_ack(n: Neighbour) -> After
    ensures { result ≡ on_cease_ack n }
{
    match n.phase {
        Phase::Cease => keep(Neighbour::idle()),
        Phase::Idle | Phase::Acquisition | Phase::Down | Phase::Up => keep(n),
    }
}

#[tactic(auto, unfolding(neighbour_machine::specs::Table::on_hello, neighbour::specs::Record::under))]
fn on_hello(settings: Settings, n: Neighbour) -> After
    ensures { result ≡ on_hello settings n }
{
    match n.phase {
        Phase::Idle => answer_stray(settings, n),
        Phase::Down | Phase::Up => answer(n, neighbour_messages::i_heard_you_message(settings, n)),
        Phase::Acquisition | Phase::Cease => keep(n),
    }
}

// An I-H-U or an Update: nothing but the indication, and in Idle a stray message.
#[tactic(auto, unfolding(neighbour_machine::specs::Table::on_i_heard_you, neighbour::specs::Record::under))]
fn on_indication(settings: Settings, n: Neighbour) -> After
    ensures { result ≡ on_i_heard_you settings n }
{
    match n.phase {
        Phase::Idle => answer_stray(settings, n),
        Phase::Acquisition | Phase::Down | Phase::Up | Phase::Cease => keep(n),
    }
}

#[tactic(auto, unfolding(neighbour_machine::specs::Table::on_poll, neighbour::specs::Record::under))]
fn on_poll(settings: Settings, n: Neighbour, net: u32, head: Head) -> After
    ensures { result ≡ on_poll settings n net head }
{
    match n.phase {
        Phase::Idle => answer_stray(settings, n),
        Phase::Up => answer_poll(settings, n, net, head),
        Phase::Acquisition | Phase::Down | Phase::Cease => keep(n),
    }
}

// A Poll in Up.
#[tactic(auto, unfolding(neighbour_machine::specs::Table::answers_poll))]
fn answer_poll(settings: Settings, n: Neighbour, net: u32, head: Head) -> After
    ensures { result ≡ answers_poll settings n net head }
{
    if net == settings.net {
        answer(n, neighbour_messages::update_message(settings, n))
    } else {
        answer(n, neighbour_messages::error_message(settings, n, 3, head))
    }
}

#[tactic(auto, unfolding(neighbour_machine::specs::Table::on_start, neighbour::specs::Record::under))]
pub fn on_start(settings: Settings, n: Neighbour) -> After
    ensures { result ≡ on_start settings n }
{
    match n.phase {
        Phase::Idle => acquire(settings, Neighbour::leave_idle(0)),
        Phase::Acquisition | Phase::Down | Phase::Up => acquire(settings, n),
        Phase::Cease => keep(n),
    }
}

#[tactic(auto, unfolding(neighbour_machine::specs::Table::on_stop, neighbour::specs::Record::under))]
pub fn on_stop(settings: Settings, n: Neighbour) -> After
    ensures { result ≡ on_stop settings n }
{
    match n.phase {
        Phase::Idle => keep(n),
        Phase::Acquisition | Phase::Cease => keep(Neighbour::idle()),
        Phase::Down | Phase::Up => cease(settings, n, 5),
    }
}

// The row of a message.
#[tactic(auto, unfolding(neighbour_machine::specs::Step::on_message, neighbour_machine::specs::Table::on_i_heard_you, neighbour_machine::specs::Table::on_update))]
pub fn on_message(settings: Settings, asn: u16, n: Neighbour, m: Message, head: Head) -> After
    ensures { result ≡ on_message settings asn n m head }
{
    match m {
        Message::Request {
            sequence,
            status,
            hello,
            poll,
            ..
        } => on_request(
            settings,
            n,
            sequence,
            settings.offer_of(asn, status, hello, poll),
        ),
        Message::Confirm {
            status,
            hello,
            poll,
            ..
        } => on_confirm(settings, n, settings.offer_of(asn, status, hello, poll)),
        Message::Refuse { .. } => on_refuse(settings, n),
        Message::Cease { sequence, .. } => on_cease(settings, sequence),
        Message::CeaseAck { .. } => on_cease_ack(n),
        Message::Hello { .. } => on_hello(settings, n),
        Message::Poll { net, .. } => on_poll(settings, n, net, head),
        Message::IHeardYou { .. } | Message::Update { .. } => on_indication(settings, n),
        Message::Error { .. } => keep(n),
    }
}
