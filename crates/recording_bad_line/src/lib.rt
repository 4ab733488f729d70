// Lines are counted, and a bad one is reported by its number.
#![tactic(auto)]

ghost use Rattle.std.specs.Prelude.{◌≡◌, ◌≤◌, length};
ghost use Rattle.octets.specs.Buffer.{over};
ghost use Rattle.recording_bad_line.specs.BadLine.{bad_text, one_more};

use text::Writer;

// One line more.
pub fn one_more(lines: u64) -> u64
    ensures { result ≡ one_more lines }
{
    lines.saturating_add(1)
}

// Writes the report of a bad line at the front of out, and says how long it is.
pub fn put_bad(out: &mut [u8], number: u64) -> usize
    requires { 25 ≤ length out.old }
    ensures value { result ≡ length (bad_text number) }
    ensures out_after { out.new ≡ over (bad_text number) out.old }
{
    let mut writer = Writer::new(out);
    writer.put_line(b"bad=", number);
    writer.end()
}
