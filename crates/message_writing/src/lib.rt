// The messages of a fixed length, and an Update's head, written at the front of a lent buffer.
#![tactic(auto)]

ghost use Rattle.std.specs.Prelude.{◌≡◌, [], ◌∷◌, ◌++◌, ◌≤◌, ◌<◌, length, take, drop};
ghost use Rattle.octets.specs.Buffer.{over};
ghost use Rattle.octets_checksum.specs.Checksum.{sealed, checksum_of, folded};
ghost use Rattle.octets.specs.Numbers.{octets16, octets32};
ghost use Rattle.message_writing.specs.Writing.{headed, head_of};
ghost use Rattle.message.specs.declared.Kind.TheVariants.{Poll, Error};

use message::Kind;

// The header of every message, its checksum not yet filled in.
fn header(kind: Kind, asn: u16, sequence: u16, status: u8) -> [u8; 10]
    ensures { result ≡ headed kind asn sequence status [] }
{
    let [asn_high, asn_low] = asn.to_be_bytes();
    let [sequence_high, sequence_low] = sequence.to_be_bytes();
    [
        2,
        kind.type_number(),
        kind.code(),
        status,
        0,
        0,
        asn_high,
        asn_low,
        sequence_high,
        sequence_low,
    ]
}

// A sum of a few words, folded to 16 bits.
fn fold(sum: u32) -> u16
    requires { sum < 262144 }
    ensures { result ≡ folded sum }
{
    let once = sum / 65536 + sum % 65536;
    (once / 65536 + once % 65536) as u16
}

// The checksum of a message of this type and code that has ten octets.
fn short_checksum(number: u8, code: u8, asn: u16, sequence: u16, status: u8) -> u16
    ensures { result ≡ checksum_of (2 ∷ number ∷ code ∷ status ∷ 0 ∷ 0 ∷ octets16 asn (octets16 sequence [])) }
{
    let front = 512 + number as u32 + code as u32 * 256 + status as u32;
    65535 - fold(front + asn as u32 + sequence as u32)
}

// A message of ten octets: nothing but the header, its checksum taken from the words themselves.
fn short(kind: Kind, asn: u16, sequence: u16, status: u8) -> [u8; 10]
    ensures { result ≡ sealed (headed kind asn sequence status []) }
{
    let number = kind.type_number();
    let code = kind.code();
    let mut octets = header(kind, asn, sequence, status);
    let sum = short_checksum(number, code, asn, sequence, status);
    octets::put16(&mut octets, 4, sum);
    octets
}

// Fills in the checksum of the message in the first octets of the buffer, and says how many they are.
pub fn seal_front(buffer: &mut [u8], end: usize) -> usize
    requires { end ≤ length buffer.old }
    ensures value { result ≡ end }
    ensures buffer_after { buffer.new ≡ sealed (take end buffer.old) ++ drop end buffer.old }
{
    octets_checksum::seal(&mut buffer[..end]);
    end
}

// Such a message written.
pub fn write_short(buffer: &mut [u8], kind: Kind, asn: u16, sequence: u16, status: u8) -> usize
    requires { 10 ≤ length buffer.old }
    ensures value { result ≡ 10 }
    ensures buffer_after { buffer.new ≡ over (sealed (headed kind asn sequence status [])) buffer.old }
{
    octets::store(buffer, &short(kind, asn, sequence, status))
}

// A message of fourteen octets: the header and the two intervals.
pub fn write_intervals(
    buffer: &mut [u8],
    kind: Kind,
    asn: u16,
    sequence: u16,
    status: u8,
    hello: u16,
    poll: u16,
) -> usize
    requires { 14 ≤ length buffer.old }
    ensures value { result ≡ 14 }
    ensures buffer_after { buffer.new ≡ over (sealed (headed kind asn sequence status (octets16 hello (octets16 poll [])))) buffer.old }
{
    octets::store(buffer, &header(kind, asn, sequence, status));
    octets::put16(buffer, 10, hello);
    octets::put16(buffer, 12, poll);
    seal_front(buffer, 14)
}

// A Poll, of sixteen octets: the header, two octets of 0 and a net.
pub fn write_poll(buffer: &mut [u8], asn: u16, sequence: u16, status: u8, net: u32) -> usize
    requires { 16 ≤ length buffer.old }
    ensures value { result ≡ 16 }
    ensures buffer_after { buffer.new ≡ over (sealed (headed Poll asn sequence status (0 ∷ 0 ∷ octets32 net []))) buffer.old }
{
    octets::store(buffer, &header(Kind::Poll, asn, sequence, status));
    octets::put16(buffer, 10, 0);
    octets::put32(buffer, 12, net);
    seal_front(buffer, 16)
}

// An Error, of twenty-four octets: the header, a reason and three words.
pub fn write_error(
    buffer: &mut [u8],
    asn: u16,
    sequence: u16,
    status: u8,
    reason: u16,
    first: u32,
    second: u32,
    third: u32,
) -> usize
    requires { 24 ≤ length buffer.old }
    ensures value { result ≡ 24 }
    ensures buffer_after { buffer.new ≡ over (sealed (headed Error asn sequence status (octets16 reason (octets32 first (octets32 second (octets32 third [])))))) buffer.old }
{
    octets::store(buffer, &header(Kind::Error, asn, sequence, status));
    octets::put16(buffer, 10, reason);
    octets::put32(buffer, 12, first);
    octets::put32(buffer, 16, second);
    octets::put32(buffer, 20, third);
    seal_front(buffer, 24)
}

// Stores an Update's head, with the numbers of its internal and external blocks; its checksum waits for the blocks.
pub fn store_head(
    buffer: &mut [u8],
    internal: u8,
    external: u8,
    asn: u16,
    sequence: u16,
    status: u8,
    net: u32,
)
    requires { 16 ≤ length buffer.old }
    ensures { buffer.new ≡ over (head_of internal external asn sequence status net) buffer.old }
{
    octets::store(buffer, &header(Kind::Update, asn, sequence, status));
    buffer[10] = internal;
    buffer[11] = external;
    octets::put32(buffer, 12, net);
}
