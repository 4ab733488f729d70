// The messages that a gateway sends to a neighbour.
#![tactic(auto)]

ghost use Rattle.std.specs.Prelude.{◌≡◌};
ghost use Rattle.neighbour_messages.specs.Sent.{status_in, request_message, confirm_message, refuse_message, cease_message, stray_cease_message, cease_ack_message, hello_message, i_heard_you_message, poll_message, update_message, error_message};

use message::Message;
use neighbour::{Neighbour, P1, P2, Phase, Settings};

// A received message's first twelve octets, zero-filled, for Error.
#[derive(Clone, Copy, Debug, PartialEq, Eq)]
pub struct Head {
    pub first: u32,
    pub second: u32,
    pub third: u32,
}

// The status that says our state, on Hello, I-H-U, Poll, Update and Error.
fn status_in(phase: Phase) -> u8
    ensures { result ≡ status_in phase }
{
    match phase {
        Phase::Down => 2,
        Phase::Up => 1,
        Phase::Idle | Phase::Acquisition | Phase::Cease => 0,
    }
}

pub fn request_message(settings: Settings, n: Neighbour) -> Message
    ensures { result ≡ request_message settings n }
{
    Message::Request {
        asn: settings.asn,
        sequence: n.s,
        status: settings.capability,
        hello: P1,
        poll: P2,
    }
}

pub fn confirm_message(settings: Settings, n: Neighbour) -> Message
    ensures { result ≡ confirm_message settings n }
{
    Message::Confirm {
        asn: settings.asn,
        sequence: n.r,
        status: settings.capability,
        hello: P1,
        poll: P2,
    }
}

pub fn refuse_message(settings: Settings, sequence: u16, status: u8) -> Message
    ensures { result ≡ refuse_message settings sequence status }
{
    Message::Refuse {
        asn: settings.asn,
        sequence,
        status,
    }
}

pub fn cease_message(settings: Settings, n: Neighbour) -> Message
    ensures { result ≡ cease_message settings n }
{
    Message::Cease {
        asn: settings.asn,
        sequence: n.s,
        status: n.cause,
    }
}

// A Cease that no state of ours is behind: it answers a stray message.
pub fn stray_cease_message(settings: Settings) -> Message
    ensures { result ≡ stray_cease_message settings }
{
    Message::Cease {
        asn: settings.asn,
        sequence: 0,
        status: 7,
    }
}

pub fn cease_ack_message(settings: Settings, sequence: u16) -> Message
    ensures { result ≡ cease_ack_message settings sequence }
{
    Message::CeaseAck {
        asn: settings.asn,
        sequence,
        status: 0,
    }
}

pub fn hello_message(settings: Settings, n: Neighbour) -> Message
    ensures { result ≡ hello_message settings n }
{
    Message::Hello {
        asn: settings.asn,
        sequence: n.s,
        status: status_in(n.phase),
    }
}

pub fn i_heard_you_message(settings: Settings, n: Neighbour) -> Message
    ensures { result ≡ i_heard_you_message settings n }
{
    Message::IHeardYou {
        asn: settings.asn,
        sequence: n.r,
        status: status_in(n.phase),
    }
}

pub fn poll_message(settings: Settings, n: Neighbour) -> Message
    ensures { result ≡ poll_message settings n }
{
    Message::Poll {
        asn: settings.asn,
        sequence: n.s,
        status: status_in(n.phase),
        net: settings.net,
    }
}

// Its rows are added where the home list is.
pub fn update_message(settings: Settings, n: Neighbour) -> Message
    ensures { result ≡ update_message settings n }
{
    Message::Update {
        asn: settings.asn,
        sequence: n.r,
        status: status_in(n.phase),
        net: settings.net,
    }
}

pub fn error_message(settings: Settings, n: Neighbour, reason: u16, head: Head) -> Message
    ensures { result ≡ error_message settings n reason head }
{
    Message::Error {
        asn: settings.asn,
        sequence: n.r,
        status: status_in(n.phase),
        reason,
        first: head.first,
        second: head.second,
        third: head.third,
    }
}
