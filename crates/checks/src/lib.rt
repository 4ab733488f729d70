// The order of checks, tests of lists, and why a call is refused: what every definition above is made of. The definitions are in specs/, laws about them in proofs/.
#![tactic(auto)]

ghost use Rattle.std.specs.Prelude.{◌≡◌};
ghost use Rattle.checks.specs.Refusals.{number_of, answer_of};

use std::error::Error;
use std::fmt;

// Why a call is refused, in the order of the answer numbers.
#[derive(Clone, Copy, Debug, PartialEq, Eq)]
pub enum Refusal {
    IllFormedState,
    WrongTable,
    ShortBuffer,
    BadHomeList,
    UnknownNeighbour,
    BadSize,
    OtherVersion,
    WrongChecksum,
    OtherAs,
    UnknownKind,
    BadStatus,
    BadLength,
    OutOfSequence,
    BrokenBlocks,
    TooManyRows,
    BadArgument,
    NoFreeSlot,
    NotIdle,
    BadLine,
    WrongBlock,
    TooQuick,
    ClockFull,
}

impl From<Refusal> for u8 {
    ghost from_gives = { λ refusal number. number ≡ number_of refusal };

    // The number that a call answers.
    fn from(refusal: Refusal) -> u8 {
        match refusal {
            Refusal::IllFormedState => 1,
            Refusal::WrongTable => 2,
            Refusal::ShortBuffer => 3,
            Refusal::BadHomeList => 4,
            Refusal::UnknownNeighbour => 5,
            Refusal::BadSize => 6,
            Refusal::OtherVersion => 7,
            Refusal::WrongChecksum => 8,
            Refusal::OtherAs => 9,
            Refusal::UnknownKind => 10,
            Refusal::BadStatus => 11,
            Refusal::BadLength => 12,
            Refusal::OutOfSequence => 13,
            Refusal::BrokenBlocks => 14,
            Refusal::TooManyRows => 15,
            Refusal::BadArgument => 16,
            Refusal::NoFreeSlot => 17,
            Refusal::NotIdle => 18,
            Refusal::BadLine => 19,
            Refusal::WrongBlock => 20,
            Refusal::TooQuick => 21,
            Refusal::ClockFull => 22,
        }
    }
}

impl fmt::Display for Refusal {
    fn fmt<W: fmt::Write>(&self, f: &mut fmt::Formatter<W>) -> fmt::Result {
        f.write_str(match self {
            Refusal::IllFormedState => "the state is not well formed",
            Refusal::WrongTable => "the table cannot be the gateway's",
            Refusal::ShortBuffer => "a buffer is too short",
            Refusal::BadHomeList => "the home list is bad",
            Refusal::UnknownNeighbour => "no neighbour has this address",
            Refusal::BadSize => "no message has so many octets",
            Refusal::OtherVersion => "the message is of another version",
            Refusal::WrongChecksum => "the checksum is wrong",
            Refusal::OtherAs => "the message is of another AS",
            Refusal::UnknownKind => "no kind of message has this type and code",
            Refusal::BadStatus => "the kind of message does not have this status",
            Refusal::BadLength => "the kind of message does not have this length",
            Refusal::OutOfSequence => "the response carries another sequence number",
            Refusal::BrokenBlocks => "the Update's blocks are broken",
            Refusal::TooManyRows => "the Update has too many rows",
            Refusal::BadArgument => "settings, a neighbour or a meaning that may not be",
            Refusal::NoFreeSlot => "there is no free slot",
            Refusal::NotIdle => "the neighbour is not in Idle",
            Refusal::BadLine => "the line of the recording is bad",
            Refusal::WrongBlock => "the state block has another length",
            Refusal::TooQuick => "the Hello or Poll came too soon",
            Refusal::ClockFull => "the neighbour's seconds are at their limit",
        })
    }
}

impl Error for Refusal {}

// The number that a call answers: 0 where it is carried out. What it is carried out with is lent, as it may be large.
pub fn answer_of<T>(told: &Result<T, Refusal>) -> u8
    ensures { result ≡ answer_of told.now }
{
    match told {
        Ok(_) => 0,
        Err(refusal) => u8::from(*refusal),
    }
}
