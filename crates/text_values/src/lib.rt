// Values read from text: decimal numbers, dotted quads and octets in hex; and octets written in hex.
#![tactic(auto)]

ghost use Rattle.std.specs.Prelude.{◌≡◌, true, ◌+◌, ◌≤◌, ◌<◌, length, MatchOption};
ghost use Rattle.octets.specs.Buffer.{over};
ghost use Rattle.text.specs.Writer.{Puts, HasRoom};
ghost use Rattle.text_values.specs.Numbers.{digits_of, decimal_of, dotted_of};
ghost use Rattle.text_values.specs.Hex.{digit_number, is_hex, hex_octets, hex_digit, hex_text};
ghost use Rattle.text_values.specs.Places.{place_of, no_place, IsCut};

use text::Writer;

// The index of the first such octet.
pub fn index_of(octets: &[u8], octet: u8) -> Option<usize>
    ensures { result ≡ place_of octet octets.now }
{
    octets.iter().position(|o| *o == octet)
}

// What stands before the first such octet, and what behind it.
pub fn split_once(text: &[u8], octet: u8) -> Option<(&[u8], &[u8])>
    ensures { MatchOption result (no_place octet text.now ≡ true) (λ parts. IsCut octet text.now parts.0.now parts.1.now) }
{
    let at = index_of(text, octet)?;
    Some((&text[..at], &text[at + 1..]))
}

// Digits to the end, none of the numbers on the way above the limit.
fn read_digits(text: &[u8], limit: u32) -> Option<u32>
    ensures { result ≡ digits_of limit 0 text.now }
{
    let mut n = 0u64;
    for digit in text {
        if !digit.is_ascii_digit() {
            return None;
        }
        n = n * 10 + u64::from(*digit - b'0');
        if u64::from(limit) < n {
            return None;
        }
    }
    Some(n as u32)
}

// A number up to this limit, in decimal without leading zeros.
#[tactic(auto, unfolding(crate::specs::Numbers::decimal_of, crate::specs::Numbers::leads_with_zero))]
pub fn read_decimal(text: &[u8], limit: u32) -> Option<u32>
    ensures { result ≡ decimal_of limit text.now }
{
    if text.is_empty() {
        return None;
    }
    if text[0] == b'0' && 1 < text.len() {
        return None;
    }
    read_digits(text, limit)
}

// An address: four numbers up to 255 with dots between them.
pub fn read_dotted(text: &[u8]) -> Option<u32>
    ensures { result ≡ dotted_of text.now }
{
    let mut n = 0;
    let mut rest = text;
    for _ in 0..3u8 {
        let (octet, behind) = split_once(rest, b'.')?;
        n = n * 256 + read_decimal(octet, 255)?;
        rest = behind;
    }
    Some(n * 256 + read_decimal(rest, 255)?)
}

// The number that a capital hex digit is.
#[tactic(auto, unfolding(crate::specs::Hex::nibble))]
fn digit_value(digit: u8) -> Option<u8>
    ensures { result ≡ digit_number digit }
{
    match digit {
        b'0'..=b'9' => Some(digit - b'0'),
        b'A'..=b'F' => Some(digit - b'A' + 10),
        _ => None,
    }
}

// Whether the text is whole octets in capital hex.
pub fn is_hex(text: &[u8]) -> bool
    ensures { result ≡ is_hex text.now }
{
    text.len() % 2 == 0 && text.iter().all(|digit| digit_value(*digit).is_some())
}

// Lays the octets that the text says over the front of out, and says how many.
pub fn read_hex(out: &mut [u8], text: &[u8]) -> usize
    requires { (is_hex text.now ≡ true) × (length (hex_octets text.now) ≤ length out.old) }
    ensures value { result ≡ length (hex_octets text.now) }
    ensures out_after { out.new ≡ over (hex_octets text.now) out.old }
{
    // A loop over chunks of two would index as much: both digits, and the place of their octet.
    let size = text.len() / 2;
    for i in 0..size {
        let high = digit_value(text[2 * i]).unwrap();
        let low = digit_value(text[2 * i + 1]).unwrap();
        out[i] = high * 16 + low;
    }
    size
}

// A capital hex digit.
#[tactic(auto, unfolding(crate::specs::Hex::hex_digit))]
fn digit_of(n: u8) -> u8
    requires { n < 16 }
    ensures { result ≡ hex_digit n }
{
    if n < 10 { b'0' + n } else { b'A' + (n - 10) }
}

// Writes octets in hex.
pub fn put_hex(out: &mut Writer<'_>, octets: &[u8])
    requires { HasRoom out.old (hex_text octets.now) }
    ensures { Puts (hex_text octets.now) out.old out.new }
{
    for octet in octets {
        out.put(&[digit_of(*octet / 16), digit_of(*octet % 16)]);
    }
}
