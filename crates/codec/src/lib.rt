// The codec of all ten kinds: reading alone, and writing.
#![tactic(auto)]

ghost use Rattle.std.specs.Prelude.{◌≡◌};
ghost use Rattle.checks.specs.Refusals.{answer_of};
ghost use Rattle.octets.specs.Buffer.{over};
ghost use Rattle.update_walk.specs.Body.{update_of, update_number};
ghost use Rattle.codec.specs.Reading.{most_read, refusal, update_reading, meaning_reading, meaning_read, read_of};
ghost use Rattle.codec.specs.Writing.{rows_allowed, writable, write_of, write_octets};

use checks::Refusal;
use message::Message;

// What reading alone finds: the message, or why it is refused; and an Update's rows: how many, and their numbers, three a
// row, zeros after them.
#[derive(Clone, Copy)]
pub struct Reading {
    pub meaning: Result<Message, Refusal>,
    pub count: u16,
    pub rows: [u32; 384],
}

// Whether these rows may stand beside a message.
fn rows_allowed(message: Message, rows: &[u32]) -> bool
    ensures { result ≡ rows_allowed message rows.now }
{
    match message {
        Message::Update { net, .. } => nets::good_net(net) && update_writing::writable(net, rows),
        _ => rows.is_empty(),
    }
}

// Whether the reader can give this message with these rows.
#[tactic(auto, unfolding(crate::specs::Writing::writable))]
fn is_writable(message: Message, rows: &[u32]) -> bool
    ensures { result ≡ writable message rows.now }
{
    message.kind().allows_status(message.status()) && rows_allowed(message, rows)
}

// Writes a message of any kind, and says how many octets it takes; refuses a short buffer, then what the reader never
// gives.
pub fn write(buffer: &mut [u8], message: Message, rows: &[u32]) -> Result<u16, Refusal>
    ensures value { result ≡ write_of message rows.now buffer.old }
    ensures buffer_after { buffer.new ≡ over (write_octets message rows.now buffer.old) buffer.old }
{
    if buffer.len() < 2048 {
        return Err(Refusal::ShortBuffer);
    }
    if !is_writable(message, rows) {
        return Err(Refusal::BadArgument);
    }
    Ok(codec_writing::write_message(buffer, message, rows) as u16)
}

// A refused reading.
fn refuse(refused: Refusal) -> Reading
    ensures { result ≡ refusal refused }
{
    Reading {
        meaning: Err(refused),
        count: 0,
        rows: [0; 384],
    }
}

// Reads an Update's rows: the message m is that Update's own meaning.
fn read_update(net: u32, m: Message, message: &[u8]) -> Reading
    ensures value { result ≡ update_reading m (update_of most_read net message.now) }
    ensures number { answer_of result.meaning ≡ update_number (update_of most_read net message.now) }
{
    let count = match update_walk::walk(net, message, 128) {
        Ok(count) => count,
        Err(error) => return refuse(Refusal::from(error)),
    };
    let mut rows = [0u32; 384];
    update_rows::store_rows(&mut rows, net, message);
    Reading {
        meaning: Ok(m),
        count: count as u16,
        rows,
    }
}

// A message's meaning with its rows, if it has any.
fn read_rows(net: u32, m: Message, message: &[u8]) -> Reading
    ensures { result ≡ meaning_reading net message.now m }
{
    match m {
        Message::Update { .. } => read_update(net, m, message),
        _ => Reading {
            meaning: Ok(m),
            count: 0,
            rows: [0; 384],
        },
    }
}

// What a message says, its rows left out.
#[tactic(auto, unfolding(crate::specs::Reading::meaning_read))]
fn read_meaning(message: &[u8]) -> Result<Message, Refusal>
    ensures { result ≡ meaning_read message.now }
{
    message_reading::read_header(message)?;
    message_reading::decode(message)
}

// Reads a message alone, given the common net: a refusal, or the meaning and exactly the rows.
#[tactic(auto, unfolding(crate::specs::Reading::reading_after, crate::specs::Reading::read_of))]
pub fn read(net: u32, message: &[u8]) -> Reading
    ensures { result ≡ read_of net message.now }
{
    match read_meaning(message) {
        Ok(m) => read_rows(net, m, message),
        Err(refused) => refuse(refused),
    }
}
