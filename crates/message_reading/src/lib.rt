// The wire form of EGP messages, read in two stages: header and kind.
#![tactic(auto)]

ghost use Rattle.std.specs.Prelude.{◌≡◌};
ghost use Rattle.message_reading.specs.Reading.{header_of, meaning_of, decode_as, decode_of};

use checks::Refusal;
use message::{Kind, Message};

// The header stage: size, version and checksum, in this order.
#[tactic(auto, unfolding(crate::specs::Reading::header_of))]
pub fn read_header(message: &[u8]) -> Result<(), Refusal>
    ensures { result ≡ header_of message.now }
{
    if message.len() < 10 || 2048 < message.len() {
        return Err(Refusal::BadSize);
    }
    if octets::octet(message, 0) != 2 {
        return Err(Refusal::OtherVersion);
    }
    if octets::word16_at(message, 4) != octets_checksum::checksum(message) {
        return Err(Refusal::WrongChecksum);
    }
    Ok(())
}

// The kind stage: the kind, its status and its length; then what the message says.
#[tactic(auto, unfolding(crate::specs::Reading::decode_as, crate::specs::Reading::decode_of))]
pub fn decode(message: &[u8]) -> Result<Message, Refusal>
    ensures { result ≡ decode_of message.now }
{
    let Some(kind) = Kind::named(octets::octet(message, 1), octets::octet(message, 2)) else {
        return Err(Refusal::UnknownKind);
    };
    if !kind.allows_status(octets::octet(message, 3)) {
        return Err(Refusal::BadStatus);
    }
    if !kind.allows_length(message.len()) {
        return Err(Refusal::BadLength);
    }
    Ok(meaning(kind, message))
}

// What a message of this kind says.
#[tactic(auto, unfolding(crate::specs::Reading::meaning_of))]
fn meaning(kind: Kind, message: &[u8]) -> Message
    ensures { result ≡ meaning_of kind message.now }
{
    let status = octets::octet(message, 3);
    let asn = octets::word16_at(message, 6);
    let sequence = octets::word16_at(message, 8);
    match kind {
        Kind::Request => Message::Request {
            asn,
            sequence,
            status,
            hello: octets::word16_at(message, 10),
            poll: octets::word16_at(message, 12),
        },
        Kind::Confirm => Message::Confirm {
            asn,
            sequence,
            status,
            hello: octets::word16_at(message, 10),
            poll: octets::word16_at(message, 12),
        },
        Kind::Refuse => Message::Refuse {
            asn,
            sequence,
            status,
        },
        Kind::Cease => Message::Cease {
            asn,
            sequence,
            status,
        },
        Kind::CeaseAck => Message::CeaseAck {
            asn,
            sequence,
            status,
        },
        Kind::Hello => Message::Hello {
            asn,
            sequence,
            status,
        },
        Kind::IHeardYou => Message::IHeardYou {
            asn,
            sequence,
            status,
        },
        Kind::Poll => Message::Poll {
            asn,
            sequence,
            status,
            net: octets::word32_at(message, 12),
        },
        Kind::Update => Message::Update {
            asn,
            sequence,
            status,
            net: octets::word32_at(message, 12),
        },
        Kind::Error => Message::Error {
            asn,
            sequence,
            status,
            reason: octets::word16_at(message, 10),
            first: octets::word32_at(message, 12),
            second: octets::word32_at(message, 16),
            third: octets::word32_at(message, 20),
        },
    }
}
