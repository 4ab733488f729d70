// What the trace says of a message: numbers behind their keys, and what reading alone makes of its octets.
#![tactic(auto)]

ghost use Rattle.std.specs.Prelude.{◌≡◌, ◌+◌, ◌*◌, ◌≤◌, length};
ghost use Rattle.text.specs.Writer.{Puts, Room};
ghost use Rattle.nets.specs.Rows.{rows_of};
ghost use Rattle.checks.specs.Refusals.{answer_of};
ghost use Rattle.recording_message.specs.Message.{key_size, fields, address_field, kind_word, meaning_word, head_numbers, interval_fields, error_fields, own_fields, body_fields, row_fields, rows_fields, reading_text, message_text};

use checks::Refusal;
use message::{Kind, Message};
use text::{Address, Writer};

// How long the first of these keys is, its sign with it.
fn key_size(keys: &[u8]) -> usize
    ensures { result ≡ key_size keys.now }
{
    match text_values::index_of(keys, b'=') {
        Some(sign) => sign + 1,
        None => keys.len(),
    }
}

// Writes numbers, each behind its key.
pub fn put_fields(out: &mut Writer<'_>, keys: &[u8], values: &[u64])
    requires { Room out.old (length keys.now + 20 * length values.now) }
    ensures written { Puts (fields keys.now values.now) out.old out.new }
    ensures upper_bound { out.new.end ≤ out.old.end + (length keys.now + 20 * length values.now) }
{
    let mut rest = keys;
    for value in values {
        let size = key_size(rest);
        out.put(&rest[..size]);
        out.put(*value);
        rest = &rest[size..];
    }
}

// Writes an address behind its key.
#[tactic(auto, unfolding(crate::specs::Message::address_field))]
pub fn put_address(out: &mut Writer<'_>, key: &[u8], address: u32)
    requires { Room out.old (length key.now + 15) }
    ensures written { Puts (address_field key.now address) out.old out.new }
    ensures upper_bound { out.new.end ≤ out.old.end + (length key.now + 15) }
{
    out.put(key);
    out.put(Address(address));
}

#[tactic(auto, unfolding(crate::specs::Message::kind_word, text::specs::Text::text))]
fn kind_word(kind: Kind) -> &'static [u8]
    ensures word { result.now ≡ kind_word kind }
    ensures upper_bound { length result.now ≤ 9 }
{
    match kind {
        Kind::Request => b"request",
        Kind::Confirm => b"confirm",
        Kind::Refuse => b"refuse",
        Kind::Cease => b"cease",
        Kind::CeaseAck => b"cease-ack",
        Kind::Hello => b"hello",
        Kind::IHeardYou => b"i-h-u",
        Kind::Poll => b"poll",
        Kind::Update => b"update",
        Kind::Error => b"error",
    }
}

// What reading alone makes of a message.
#[tactic(auto, unfolding(crate::specs::Message::meaning_word, text::specs::Text::text))]
fn meaning_word(meaning: Result<Message, Refusal>) -> &'static [u8]
    ensures word { result.now ≡ meaning_word meaning }
    ensures upper_bound { length result.now ≤ 9 }
{
    match meaning {
        Ok(m) => kind_word(m.kind()),
        Err(_) => b"refused",
    }
}

fn reading_number(meaning: Result<Message, Refusal>) -> u8
    ensures { result ≡ answer_of meaning }
{
    match meaning {
        Ok(_) => 0,
        Err(refusal) => u8::from(refusal),
    }
}

// The numbers of a message that any has, whatever reading makes of it.
fn head_numbers(number: u8, count: u16, message: &[u8]) -> [u64; 8]
    ensures { result ≡ head_numbers number count message.now }
{
    [
        number as u64,
        message.len() as u64,
        octets::octet(message, 3) as u64,
        octets::word16_at(message, 4) as u64,
        octets_checksum::checksum(message) as u64,
        octets::word16_at(message, 6) as u64,
        octets::word16_at(message, 8) as u64,
        count as u64,
    ]
}

#[tactic(auto, unfolding(crate::specs::Message::interval_fields, text::specs::Text::text))]
fn put_intervals(out: &mut Writer<'_>, hello: u16, poll: u16)
    requires { Room out.old 53 }
    ensures written { Puts (interval_fields hello poll) out.old out.new }
    ensures upper_bound { out.new.end ≤ out.old.end + 53 }
{
    put_fields(out, b" hello= poll=", &[hello as u64, poll as u64]);
}

#[tactic(auto, unfolding(crate::specs::Message::error_fields, text::specs::Text::text))]
fn put_error(out: &mut Writer<'_>, reason: u16, first: u32, second: u32, third: u32)
    requires { Room out.old 109 }
    ensures written { Puts (error_fields reason first second third) out.old out.new }
    ensures upper_bound { out.new.end ≤ out.old.end + 109 }
{
    put_fields(
        out,
        b" reason= word1= word2= word3=",
        &[reason as u64, first as u64, second as u64, third as u64],
    );
}

// The fields that are a kind's own.
fn put_own(out: &mut Writer<'_>, m: Message)
    requires { Room out.old 109 }
    ensures written { Puts (own_fields m) out.old out.new }
    ensures upper_bound { out.new.end ≤ out.old.end + 109 }
{
    match m {
        Message::Request { hello, poll, .. } => put_intervals(out, hello, poll),
        Message::Confirm { hello, poll, .. } => put_intervals(out, hello, poll),
        Message::Poll { net, .. } => put_address(out, b" net=", net),
        Message::Update { net, .. } => put_address(out, b" net=", net),
        Message::Error {
            reason,
            first,
            second,
            third,
            ..
        } => put_error(out, reason, first, second, third),
        _ => {}
    }
}

fn put_body(out: &mut Writer<'_>, meaning: Result<Message, Refusal>)
    requires { Room out.old 109 }
    ensures written { Puts (body_fields meaning) out.old out.new }
    ensures upper_bound { out.new.end ≤ out.old.end + 109 }
{
    match meaning {
        Ok(m) => put_own(out, m),
        Err(_) => {}
    }
}

fn put_row(out: &mut Writer<'_>, net: u32, gateway: u32, third: u32)
    requires { Room out.old 75 }
    ensures written { Puts (row_fields (record { net = net; gateway = gateway; third = third })) out.old out.new }
    ensures upper_bound { out.new.end ≤ out.old.end + 75 }
{
    put_address(out, b" row=", net);
    put_address(out, b" gw=", gateway);
    put_fields(out, b" dist=", &[(third % 256) as u64]);
    out.put(b" side=");
    out.put(listing_lines::side_word(third));
}

fn put_rows(out: &mut Writer<'_>, rows: &[u32])
    requires { Room out.old (25 * length rows.now) }
    ensures written { Puts (rows_fields (rows_of rows.now)) out.old out.new }
    ensures upper_bound { out.new.end ≤ out.old.end + 25 * length rows.now }
{
    for row in rows.chunks_exact(3) {
        put_row(out, row[0], row[1], row[2]);
    }
}

// Writes a reading of a message, and its octets beside it.
fn put_reading(
    out: &mut Writer<'_>,
    key: &[u8],
    meaning: Result<Message, Refusal>,
    count: u16,
    rows: &[u32],
    message: &[u8],
)
    requires rows_len { (length rows.now ≡ 384) × (count ≤ 128) × (length message.now ≤ 2049) }
    requires room { Room out.old (length key.now + 14100) }
    ensures written { Puts (reading_text key.now (record { meaning = meaning; count = count; rows = rows.now }) message.now) out.old out.new }
    ensures upper_bound { out.new.end ≤ out.old.end + (length key.now + 14100) }
{
    out.put(key);
    out.put(meaning_word(meaning));
    put_fields(
        out,
        b" reading= octets= status= checksum= right= as= sequence= rows=",
        &head_numbers(reading_number(meaning), count, message),
    );
    put_body(out, meaning);
    let numbers = count as usize * 3;
    put_rows(out, &rows[..numbers]);
    out.put(b" hex=");
    text_values::put_hex(out, message);
}

// Writes what there is to say of a message: reading alone, given the common net, and its octets beside it.
pub fn put_message(out: &mut Writer<'_>, key: &[u8], net: u32, message: &[u8])
    requires message_len_bound { length message.now ≤ 2049 }
    requires room { Room out.old (length key.now + 14100) }
    ensures written { Puts (message_text key.now net message.now) out.old out.new }
    ensures upper_bound { out.new.end ≤ out.old.end + (length key.now + 14100) }
{
    let reading = codec::read(net, message);
    put_reading(
        out,
        key,
        reading.meaning,
        reading.count,
        &reading.rows,
        message,
    );
}
