// The codec for a C host, over octets alone: reading a message, and writing one from its meaning.
#![tactic(auto)]

ghost use Rattle.std.specs.Prelude.{◌≡◌, ◌*◌, ◌≤◌, length};
ghost use Rattle.octets.specs.Buffer.{over};
ghost use Rattle.octets_words.specs.Words.{words_of, row_numbers};
ghost use Rattle.codec.specs.Writing.{write_of, write_octets};
ghost use Rattle.host_codec.specs.Codec.{reading_result, reading_buffer, same_octets, writing_result, writing_buffer};

use checks::Refusal;
use codec::Reading;
use message::Message;

// Reads a message alone, given the common net: its meaning goes into the buffer, and an Update's rows behind it.
pub fn read(buffer: &mut [u8], net: u32, message: &[u8]) -> u64
    ensures value { result ≡ reading_result net message.now buffer.old }
    ensures buffer_after { buffer.new ≡ reading_buffer net message.now buffer.old }
{
    if buffer.len() < 1560 {
        return host_result::alone(3);
    }
    let Reading {
        meaning,
        count,
        rows,
    } = codec::read(net, message);
    match meaning {
        Err(refusal) => host_result::alone(u8::from(refusal)),
        Ok(m) => {
            octets::store(buffer, &host_meaning::meaning_octets(m));
            let numbers = count as usize * 3;
            octets_words::write_words(&mut buffer[24..], &rows[..numbers]);
            host_result::pack(0, 24, count * 12)
        }
    }
}

// Whether two lists of octets are the same.
fn same_octets(octets: &[u8], others: &[u8]) -> bool
    ensures { result ≡ same_octets octets.now others.now }
{
    if octets.len() != others.len() {
        return false;
    }
    let mut i = 0;
    while i < octets.len() {
        if octets[i] != others[i] {
            return false;
        }
        i += 1;
    }
    true
}

// Writes a message whose rows come as octets; their numbers are laid out in a lent room.
fn write_words(buffer: &mut [u8], m: Message, rows: &[u8], room: &mut [u32]) -> Result<u16, Refusal>
    requires { length rows.now ≤ length room.old * 4 }
    ensures value { result ≡ write_of m (words_of rows.now) buffer.old }
    ensures buffer_after { buffer.new ≡ over (write_octets m (words_of rows.now) buffer.old) buffer.old }
{
    let count = rows.len() / 4;
    octets_words::read_words(&mut room[..count], rows);
    codec::write(buffer, m, &room[..count])
}

// The same for rows of any length: where they are not whole, or more than may be written, the writer is given one
// number, which it refuses.
fn write_rows(buffer: &mut [u8], m: Message, rows: &[u8]) -> Result<u16, Refusal>
    ensures value { result ≡ write_of m (row_numbers rows.now) buffer.old }
    ensures buffer_after { buffer.new ≡ over (write_octets m (row_numbers rows.now) buffer.old) buffer.old }
{
    if rows.len() % 12 != 0 {
        return codec::write(buffer, m, &[0u32]);
    }
    if 1536 < rows.len() {
        return codec::write(buffer, m, &[0u32]);
    }
    let mut room = [0u32; 384];
    write_words(buffer, m, rows, &mut room)
}

// Writes a message from its meaning and its rows: 3 for a short buffer, 16 for what reading never gives.
pub fn write(buffer: &mut [u8], meaning: &[u8], rows: &[u8]) -> u64
    ensures value { result ≡ writing_result meaning.now rows.now buffer.old }
    ensures buffer_after { buffer.new ≡ writing_buffer meaning.now rows.now buffer.old }
{
    if buffer.len() < 2048 {
        return host_result::alone(3);
    }
    let m = host_meaning::read_meaning(meaning);
    if !same_octets(meaning, &host_meaning::meaning_octets(m)) {
        return host_result::alone(16);
    }
    match write_rows(buffer, m, rows) {
        Ok(length) => host_result::pack(0, length, 0),
        Err(refusal) => host_result::alone(u8::from(refusal)),
    }
}
