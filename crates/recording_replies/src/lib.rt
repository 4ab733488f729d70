// The messages of a reply, written as lines.
#![tactic(auto)]

ghost use Rattle.std.specs.Prelude.{◌≡◌, ◌+◌, ◌≤◌, length};
ghost use Rattle.octets.specs.Buffer.{over};
ghost use Rattle.text.specs.Writer.{Puts, HasRoom};
ghost use Rattle.recording_replies.specs.Replies.{tx_text, replies_text};
ghost use Rattle.recording_replies.specs.Seen.{seen_in};

use gateway_state::Outcome;
use text::{Address, Writer};

// Writes a message that was sent as a line; nothing where none was.
fn put_tx(out: &mut Writer<'_>, address: u32, message: &[u8])
    requires { HasRoom out.old (tx_text address message.now) }
    ensures { Puts (tx_text address message.now) out.old out.new }
{
    if message.is_empty() {
        return;
    }
    out.put(b"tx=");
    out.put(Address(address));
    out.put(b"/");
    text_values::put_hex(out, message);
    out.put(b"\n");
}

// Writes the two messages of a reply at the front of out, and says how long the lines are.
pub fn put_replies(out: &mut [u8], o: Outcome, reply: &[u8], address: u32) -> usize
    requires { (o.first + o.second ≤ 2048) × (length reply.now ≡ 2048) × (5000 ≤ length out.old) }
    ensures value { result ≡ length (replies_text address (seen_in o reply.now)) }
    ensures out_after { out.new ≡ over (replies_text address (seen_in o reply.now)) out.old }
{
    let first = o.first as usize;
    let end = first + o.second as usize;
    let mut writer = Writer::new(out);
    put_tx(&mut writer, address, &reply[..first]);
    put_tx(&mut writer, address, &reply[first..end]);
    writer.end()
}
