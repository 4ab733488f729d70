// What becomes of one neighbour: the machine's step, or for a message from it the checks 6 to 15 and 21 stage by stage, then
// the machine's step.
#![tactic(auto)]

ghost use Rattle.std.specs.Prelude.{◌≡◌, true, ◌&&◌, List, ℕ, Ok};
ghost use Rattle.checks.specs.Refusals.{number_of};
ghost use Rattle.message.specs.Kinds.{kind_of};
ghost use Rattle.message.specs.declared.Kind.TheVariants.{Update};
ghost use Rattle.neighbour.specs.Record.{is_up};
ghost use Rattle.neighbour.specs.Rules.{same};
ghost use Rattle.neighbour_machine.specs.declared.Event.TheVariants.{Received};
ghost use Rattle.neighbour_machine.specs.Step.{step_of};
ghost use Rattle.update_walk.specs.Body.{update_of};
ghost use Rattle.gateway_rules.specs.Number.{error_head, error_to, refuse_to, named_reply};
ghost use Rattle.gateway_rules.specs.Ruling.{leaving, effect_of, stepped, refuses, receive_ruling, verdict_of};
ghost use Rattle.gateway_stages.specs.Stages.{read_from, taken_update, Reach, keeping};

use checks::Refusal;
use gateway_rules::{Effect, Verdict};
use message::Message;
use neighbour::{Neighbour, Phase, Settings};
use neighbour_machine::{After, Event, Reply};
use neighbour_messages::Head;

// Leaving Up clears the rows.
#[tactic(auto, unfolding(gateway_rules::specs::Ruling::leaving, gateway_rules::specs::Ruling::effect_of))]
fn effect_of(before: Phase, now: Phase) -> Effect
    ensures { result ≡ effect_of (leaving before now) }
{
    if before.is_up() && !now.is_up() {
        return Effect::Clear;
    }
    Effect::Keep
}

// The machine's step as a verdict.
#[tactic(auto, unfolding(gateway_rules::specs::Ruling::stepped, gateway_rules::specs::Ruling::verdict_of))]
pub fn step_verdict(n: Neighbour, after: After) -> Verdict
    ensures { result ≡ verdict_of (stepped n after) }
{
    Verdict {
        answer: 0,
        reply: after.reply,
        neighbour: after.neighbour,
        effect: effect_of(n.phase, after.neighbour.phase),
    }
}

// The first twelve octets of a message as three words, zero-filled.
#[tactic(auto, unfolding(gateway_rules::specs::Number::error_head))]
fn head_of(message: &[u8]) -> Head
    ensures { result ≡ error_head message.now }
{
    Head {
        first: octets::word32_at(message, 0),
        second: octets::word32_at(message, 4),
        third: octets::word32_at(message, 8),
    }
}

// The Error that a refused message draws: in Down and Up alone, and never to a message of type 8.
#[tactic(auto, unfolding(gateway_rules::specs::Number::error_to))]
fn error_to(settings: Settings, n: Neighbour, message: &[u8], reason: u16) -> Reply
    ensures { result ≡ error_to settings n message.now reason }
{
    if !n.phase.is_acquired() || octets::octet(message, 1) == 8 {
        return Reply::Nothing;
    }
    Reply::One(neighbour_messages::error_message(settings, n, reason, head_of(message)))
}

// The Refuse that a Request with another AS draws in Idle.
#[tactic(auto, unfolding(gateway_rules::specs::Number::refuse_to, message::specs::Kinds::plain_status))]
fn refuse_to(settings: Settings, n: Neighbour, message: &[u8]) -> Reply
    ensures { result ≡ refuse_to settings n message.now }
{
    if n.phase.is_idle()
        && octets::octet(message, 1) == 3
        && octets::octet(message, 2) == 0
        && octets::octet(message, 3) <= 2
        && message.len() == 14
    {
        return Reply::One(neighbour_messages::refuse_message(
            settings,
            octets::word16_at(message, 8),
            4,
        ));
    }
    Reply::Nothing
}

// The reply that 01 names beside the number.
#[tactic(auto, unfolding(gateway_rules::specs::Number::named_reply))]
pub fn reply_to(settings: Settings, n: Neighbour, message: &[u8], number: u8) -> Reply
    ensures { result ≡ named_reply settings n message.now number }
{
    match number {
        9 => refuse_to(settings, n, message),
        10..=12 => error_to(settings, n, message, 1),
        14 => error_to(settings, n, message, 2),
        15 => error_to(settings, n, message, 0),
        21 => error_to(settings, n, message, 4),
        _ => Reply::Nothing,
    }
}

// A refusal: the neighbour as it was, and the reply that the refusal draws.
#[tactic(auto, unfolding(gateway_rules::specs::Ruling::verdict_of, gateway_rules::specs::Ruling::refuses, gateway_rules::specs::Ruling::effect_of))]
fn refuse(settings: Settings, n: Neighbour, message: &[u8], refusal: Refusal) -> Verdict
    ensures { result ≡ verdict_of (refuses n (number_of refusal) (named_reply settings n message.now (number_of refusal))) }
{
    let number = u8::from(refusal);
    Verdict {
        answer: number,
        reply: reply_to(settings, n, message, number),
        neighbour: n,
        effect: Effect::Keep,
    }
}

// What a message from the neighbour with this AS says, by checks 6 to 12.
#[tactic(auto, unfolding(crate::specs::Stages::read_from))]
pub fn read(asn: u16, message: &[u8]) -> Result<Message, Refusal>
    ensures { result ≡ read_from asn message.now }
{
    message_reading::read_header(message)?;
    if octets::word16_at(message, 6) != asn {
        return Err(Refusal::OtherAs);
    }
    message_reading::decode(message)
}

// Whether a message's blocks are read: those of an Update that finds its neighbour Up.
fn brings_rows(phase: Phase, m: Message) -> bool
    ensures { result ≡ (same (kind_of m) Update && is_up phase) }
{
    match m {
        Message::Update { .. } => phase.is_up(),
        _ => false,
    }
}

// The machine's step for a message.
fn step_for(settings: Settings, asn: u16, n: Neighbour, message: &[u8], m: Message) -> After
    ensures { result ≡ step_of settings asn n (Received m) (error_head message.now) }
{
    neighbour_step::step(settings, asn, n, Event::Received(m), head_of(message))
}

// An Update in Up: its blocks are walked whole before anything is done with it.
fn take_update(
    settings: Settings,
    asn: u16,
    n: Neighbour,
    message: &[u8],
    m: Message,
    room: u16,
) -> Verdict
    ensures { result ≡ verdict_of (taken_update settings n message.now (step_of settings asn n (Received m) (error_head message.now)) (update_of room settings.net message.now)) }
{
    let count = match update_walk::walk(settings.net, message, room as usize) {
        Ok(count) => count,
        Err(error) => return refuse(settings, n, message, Refusal::from(error)),
    };
    let after = step_for(settings, asn, n, message, m);
    Verdict {
        answer: 0,
        reply: after.reply,
        neighbour: after.neighbour,
        effect: Effect::Replace(count as u16),
    }
}

// A message that passed 6 to 12: checks 13, 21, 14 and 15, then the machine.
pub fn take(
    settings: Settings,
    asn: u16,
    n: Neighbour,
    message: &[u8],
    m: Message,
    room: u16,
) -> Verdict
    requires { read_from asn message.now ≡ Ok m }
    ensures { result ≡ verdict_of (receive_ruling room settings asn n message.now) }
{
    if !n.in_sequence(m) {
        return refuse(settings, n, message, Refusal::OutOfSequence);
    }
    if n.is_too_quick(m) {
        return refuse(settings, n, message, Refusal::TooQuick);
    }
    if brings_rows(n.phase, m) {
        return take_update(settings, asn, n, message, m, room);
    }
    step_verdict(n, step_for(settings, asn, n, message, m))
}

// Whether a message is a Hello in Up that doesn't come too soon, or an I-H-U there that carries S.
pub fn tells_reach(n: Neighbour, m: Message) -> bool
    ensures { result ≡ true → Reach n m }
{
    if !n.phase.is_up() {
        return false;
    }
    match m {
        Message::Hello { .. } => !n.is_too_quick(m),
        Message::IHeardYou { sequence, .. } => sequence == n.s,
        _ => false,
    }
}

// What such a message leaves, without the machine: the rows stay.
pub fn note_reach(settings: Settings, n: Neighbour, m: Message) -> After
    requires { Reach n m }
    ensures { (room asn : ℕ) (o : List ℕ) → read_from asn o ≡ Ok m → keeping result ≡ receive_ruling room settings asn n o }
{
    let next = n.set_r(m).note(m).recount(m);
    match m {
        Message::Hello { .. } => After {
            neighbour: next,
            reply: Reply::One(neighbour_messages::i_heard_you_message(settings, next)),
        },
        _ => After {
            neighbour: next,
            reply: Reply::Nothing,
        },
    }
}
