// Records of calls as octets: what the driver is told, and what it answers. docs/COMPARISON.md has the format.
#![tactic(auto)]

ghost use Rattle.std.specs.Prelude.{◌≡◌, length, replicate};
ghost use Rattle.driver_records.specs.Records.{record_head, settings_in, answer_octets};

use neighbour::Settings;

// A record's head: which call, its plain arguments, and how much follows.
#[derive(Clone, Copy)]
pub struct RecordHead {
    pub kind: u8,
    // The capability, or the octet that fills the buffer.
    pub octet: u8,
    pub asn: u16,
    pub address: u32,
    pub net: u32,
    // How many octets are lent as the buffer.
    pub room: u32,
    // How often the call is made.
    pub times: u32,
    // How many octets follow, and then how many numbers.
    pub octets: u32,
    pub numbers: u32,
    // The setting `quiet`.
    pub quiet: u8,
}

// A record's head as it stands in its 32 octets.
pub fn read_head(octets: &[u8]) -> RecordHead
    ensures { result ≡ record_head octets.now }
{
    RecordHead {
        kind: octets::octet(octets, 0),
        octet: octets::octet(octets, 1),
        asn: octets::word16_at(octets, 2),
        address: octets::word32_at(octets, 4),
        net: octets::word32_at(octets, 8),
        room: octets::word32_at(octets, 12),
        times: octets::word32_at(octets, 16),
        octets: octets::word32_at(octets, 20),
        numbers: octets::word32_at(octets, 24),
        quiet: octets::octet(octets, 31),
    }
}

// The settings that a record's head names for fresh: the host's numbers become settings here alone.
pub fn settings_in(head: RecordHead) -> Settings
    ensures { result ≡ settings_in head }
{
    Settings {
        asn: head.asn,
        own: head.address,
        capability: head.octet,
        net: head.net,
        quiet: head.quiet,
    }
}

// The head of an answer: 01's number, the two lengths, and how many octets of the buffer and numbers of the table follow.
pub fn answer_octets(answer: u8, first: u16, second: u16, room: u32, count: u32) -> [u8; 16]
    ensures { result ≡ answer_octets answer first second room count }
{
    let mut octets = [0; 16];
    octets[1] = answer;
    octets::put16(&mut octets, 2, first);
    octets::put16(&mut octets, 4, second);
    octets::put32(&mut octets, 8, room);
    octets::put32(&mut octets, 12, count);
    octets
}

// Sets every octet of a buffer.
pub fn fill(buffer: &mut [u8], octet: u8)
    ensures { buffer.new ≡ replicate (length buffer.old) octet }
{
    buffer.fill(octet);
}
