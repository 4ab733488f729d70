// A message of any kind written at the front of a lent buffer. What may be written is judged above.
#![tactic(auto)]

ghost use Rattle.std.specs.Prelude.{◌≡◌, true, ◌≤◌, length, map};
ghost use Rattle.octets.specs.Buffer.{over};
ghost use Rattle.nets.specs.Classes.{good_net};
ghost use Rattle.nets.specs.Rows.{rows_of};
ghost use Rattle.message.specs.declared.Message.TheVariants.{Update};
ghost use Rattle.update_writing.specs.Writable.{writable_rows};
ghost use Rattle.codec_writing.specs.Octets.{message_octets};
ghost use Rattle.codec_writing.specs.Room.{rows_fit, room_for};

use message::{Kind, Message};
use update_writing::LentRow;

// Writes an Update with these rows, and says how long it is.
pub fn write_update<R: LentRow>(
    buffer: &mut [u8],
    asn: u16,
    sequence: u16,
    status: u8,
    net: u32,
    rows: &[R],
) -> usize
    requires net_value { (good_net net ≡ true) × (writable_rows net (map R.as_row rows.now) ≡ true) }
    requires in_bounds { 1168 ≤ length buffer.old }
    ensures value { result ≡ length (message_octets (Update asn sequence status net) (map R.as_row rows.now)) }
    ensures buffer_after { buffer.new ≡ over (message_octets (Update asn sequence status net) (map R.as_row rows.now)) buffer.old }
{
    let blocks = update_writing::write_blocks(buffer, 16, net, rows);
    message_writing::store_head(
        buffer,
        blocks.internal,
        blocks.external,
        asn,
        sequence,
        status,
        net,
    );
    message_writing::seal_front(buffer, blocks.end)
}

// Writes a message, an Update with these rows, and says how long it is. Rows beside another kind are not looked at.
pub fn write_message(buffer: &mut [u8], message: Message, rows: &[u32]) -> usize
    requires rows_value { rows_fit message rows.now ≡ true }
    requires message_in_bounds { room_for message ≤ length buffer.old }
    ensures value { result ≡ length (message_octets message (rows_of rows.now)) }
    ensures buffer_after { buffer.new ≡ over (message_octets message (rows_of rows.now)) buffer.old }
{
    match message {
        Message::Request {
            asn,
            sequence,
            status,
            hello,
            poll,
        } => message_writing::write_intervals(
            buffer,
            Kind::Request,
            asn,
            sequence,
            status,
            hello,
            poll,
        ),
        Message::Confirm {
            asn,
            sequence,
            status,
            hello,
            poll,
        } => message_writing::write_intervals(
            buffer,
            Kind::Confirm,
            asn,
            sequence,
            status,
            hello,
            poll,
        ),
        Message::Refuse {
            asn,
            sequence,
            status,
        } => message_writing::write_short(buffer, Kind::Refuse, asn, sequence, status),
        Message::Cease {
            asn,
            sequence,
            status,
        } => message_writing::write_short(buffer, Kind::Cease, asn, sequence, status),
        Message::CeaseAck {
            asn,
            sequence,
            status,
        } => message_writing::write_short(buffer, Kind::CeaseAck, asn, sequence, status),
        Message::Hello {
            asn,
            sequence,
            status,
        } => message_writing::write_short(buffer, Kind::Hello, asn, sequence, status),
        Message::IHeardYou {
            asn,
            sequence,
            status,
        } => message_writing::write_short(buffer, Kind::IHeardYou, asn, sequence, status),
        Message::Poll {
            asn,
            sequence,
            status,
            net,
        } => message_writing::write_poll(buffer, asn, sequence, status, net),
        Message::Update {
            asn,
            sequence,
            status,
            net,
        } => write_update(buffer, asn, sequence, status, net, rows.as_chunks::<3>().0),
        Message::Error {
            asn,
            sequence,
            status,
            reason,
            first,
            second,
            third,
        } => message_writing::write_error(
            buffer, asn, sequence, status, reason, first, second, third,
        ),
    }
}
