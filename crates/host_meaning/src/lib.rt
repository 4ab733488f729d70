// The meaning of a message in 24 octets, read and written.
#![tactic(auto)]

ghost use Rattle.std.specs.Prelude.{◌≡◌};
ghost use Rattle.host_meaning.specs.Meaning.{meaning_at, field_octets, meaning_octets};

use message::Message;

// The meaning of a message, read from its 24 octets.
#[tactic(auto, unfolding(crate::specs::Meaning::meaning_at, crate::specs::Meaning::intervals_at, crate::specs::Meaning::plain_at, crate::specs::Meaning::net_message_at, crate::specs::Meaning::error_at))]
pub fn read_meaning(octets: &[u8]) -> Message
    ensures { result ≡ meaning_at octets.now }
{
    let status = octets::octet(octets, 1);
    let asn = octets::word16_at(octets, 2);
    let sequence = octets::word16_at(octets, 4);
    match octets::octet(octets, 0) {
        0 => Message::Request {
            asn,
            sequence,
            status,
            hello: octets::word16_at(octets, 6),
            poll: octets::word16_at(octets, 8),
        },
        1 => Message::Confirm {
            asn,
            sequence,
            status,
            hello: octets::word16_at(octets, 6),
            poll: octets::word16_at(octets, 8),
        },
        2 => Message::Refuse {
            asn,
            sequence,
            status,
        },
        3 => Message::Cease {
            asn,
            sequence,
            status,
        },
        4 => Message::CeaseAck {
            asn,
            sequence,
            status,
        },
        5 => Message::Hello {
            asn,
            sequence,
            status,
        },
        6 => Message::IHeardYou {
            asn,
            sequence,
            status,
        },
        7 => Message::Poll {
            asn,
            sequence,
            status,
            net: octets::word32_at(octets, 12),
        },
        8 => Message::Update {
            asn,
            sequence,
            status,
            net: octets::word32_at(octets, 12),
        },
        _ => Message::Error {
            asn,
            sequence,
            status,
            reason: octets::word16_at(octets, 6),
            first: octets::word32_at(octets, 12),
            second: octets::word32_at(octets, 16),
            third: octets::word32_at(octets, 20),
        },
    }
}

fn field_octets(
    kind: u8,
    status: u8,
    asn: u16,
    sequence: u16,
    short: u16,
    poll: u16,
    first: u32,
    second: u32,
    third: u32,
) -> [u8; 24]
    ensures { result ≡ field_octets kind status asn sequence short poll first second third }
{
    let mut octets = [0; 24];
    octets[0] = kind;
    octets[1] = status;
    octets::put16(&mut octets, 2, asn);
    octets::put16(&mut octets, 4, sequence);
    octets::put16(&mut octets, 6, short);
    octets::put16(&mut octets, 8, poll);
    octets::put32(&mut octets, 12, first);
    octets::put32(&mut octets, 16, second);
    octets::put32(&mut octets, 20, third);
    octets
}

// The meaning of a message in 24 octets.
pub fn meaning_octets(message: Message) -> [u8; 24]
    ensures { result ≡ meaning_octets message }
{
    match message {
        Message::Request {
            asn,
            sequence,
            status,
            hello,
            poll,
        } => field_octets(0, status, asn, sequence, hello, poll, 0, 0, 0),
        Message::Confirm {
            asn,
            sequence,
            status,
            hello,
            poll,
        } => field_octets(1, status, asn, sequence, hello, poll, 0, 0, 0),
        Message::Refuse {
            asn,
            sequence,
            status,
        } => field_octets(2, status, asn, sequence, 0, 0, 0, 0, 0),
        Message::Cease {
            asn,
            sequence,
            status,
        } => field_octets(3, status, asn, sequence, 0, 0, 0, 0, 0),
        Message::CeaseAck {
            asn,
            sequence,
            status,
        } => field_octets(4, status, asn, sequence, 0, 0, 0, 0, 0),
        Message::Hello {
            asn,
            sequence,
            status,
        } => field_octets(5, status, asn, sequence, 0, 0, 0, 0, 0),
        Message::IHeardYou {
            asn,
            sequence,
            status,
        } => field_octets(6, status, asn, sequence, 0, 0, 0, 0, 0),
        Message::Poll {
            asn,
            sequence,
            status,
            net,
        } => field_octets(7, status, asn, sequence, 0, 0, net, 0, 0),
        Message::Update {
            asn,
            sequence,
            status,
            net,
        } => field_octets(8, status, asn, sequence, 0, 0, net, 0, 0),
        Message::Error {
            asn,
            sequence,
            status,
            reason,
            first,
            second,
            third,
        } => field_octets(9, status, asn, sequence, reason, 0, first, second, third),
    }
}
