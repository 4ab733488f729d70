// The one's complement checksum of a message: taken by 32-bit words, folded once, and put into its field.
#![tactic(auto)]

ghost use Rattle.std.specs.Prelude.{◌≡◌, ◌+◌, ◌/◌, ◌%◌, ◌<◌, ◌≤◌, length, drop};
ghost use Rattle.octets.specs.Numbers.{word16, word32};
ghost use Rattle.octets_checksum.specs.Checksum.{checksum_of, sealed, folded};
ghost use Rattle.octets_checksum.specs.Wide.{wide_total, kept_sum};

// What lies above the lower 16 bits of a sum, added to them: the carries brought round.
fn carries_round(sum: u64) -> u64
    ensures { result ≡ sum / 65536 + sum % 65536 }
{
    sum / 65536 + sum % 65536
}

// A plain sum folded to 16 bits: 33 bits are left after the first line, then 18, then 17, then 16.
fn fold(sum: u64) -> u16
    ensures { result ≡ folded sum }
{
    let halves = sum / 4294967296 + sum % 4294967296;
    let once = carries_round(halves);
    let twice = carries_round(once);
    carries_round(twice) as u16
}

// The sum itself while 64 bits have room for many more words, as in every message; else folded.
fn with_room(sum: u64) -> u64
    ensures { result ≡ kept_sum sum }
{
    if sum < 9223372036854775808 {
        return sum;
    }
    fold(sum) as u64
}

// The plain sum of the 32-bit words of a block: the eight of a turn, or the fewer behind the last turn.
fn block_sum(octets: &[u8]) -> u64
    requires { length octets.now ≤ 32 }
    ensures total { result ≡ wide_total octets.now }
    ensures upper_bound { result < 38654705664 }
{
    let (words, rest) = octets.as_chunks::<4>();
    let mut sum = 0;
    for word in words {
        sum += u32::from_be_bytes(*word) as u64;
    }
    sum + octets::word32_at(rest, 0) as u64
}

// A number that folds as start and the plain sum of the 32-bit words of octets do: eight words a turn, and before each
// turn the sum is looked at.
fn wide_sum(octets: &[u8], start: u64) -> u64
    requires { start < 8589934592 }
    ensures { folded result ≡ folded (start + wide_total octets.now) }
{
    let (turns, rest) = octets.as_chunks::<32>();
    let mut sum = start;
    for turn in turns {
        sum = with_room(sum) + block_sum(turn);
    }
    sum + block_sum(rest)
}

// The sum of a message's first two words, the field in the second taken as 0.
fn first_words(message: &[u8]) -> u64
    ensures { result ≡ word32 message.now 0 + word16 message.now 6 }
{
    octets::word32_at(message, 0) as u64 + octets::word16_at(message, 6) as u64
}

// The checksum of a message, whatever stands in its field.
pub fn checksum(message: &[u8]) -> u16
    ensures { result ≡ checksum_of message.now }
{
    if message.len() < 8 {
        return 65535 - fold(first_words(message));
    }
    65535 - fold(wide_sum(&message[8..], first_words(message)))
}

// Puts a message's checksum into its field.
pub fn seal(message: &mut [u8])
    ensures { message.new ≡ sealed message.old }
{
    let [high, low] = checksum(message).to_be_bytes();
    if message.len() < 5 {
        return;
    }
    message[4] = high;
    if message.len() < 6 {
        return;
    }
    message[5] = low;
}
