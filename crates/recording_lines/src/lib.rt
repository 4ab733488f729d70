// The lines of a recording: the settings of the first four, the fifth that may follow, and the events after them.
#![tactic(auto)]

ghost use Rattle.std.specs.Prelude.{◌≡◌, true, List, ℕ};
ghost use Rattle.recording_lines.specs.Lines.{Event, own_as_of, own_of, capability_of, net_of, quiet_of, slashed, add_event, tick_event, rx_event, event_of};
ghost use Rattle.recording_lines.specs.Meant.{meant, cut_into};
ghost use Rattle.recording_lines.specs.Steps.{is_lent};

use text_values::{is_hex, read_decimal, read_dotted, split_once};

// An event. The octets of a message stay on the line, as hex.
#[derive(Clone, Copy)]
pub enum LineEvent<'a> {
    Add(u32, u16),
    Remove(u32),
    Start(u32),
    Stop(u32),
    Tick(u32, u32),
    Receive(u32, &'a [u8]),
}

// The first line: our own AS.
pub fn own_as(line: &[u8]) -> Option<u32>
    ensures { result ≡ own_as_of line.now }
{
    read_decimal(line.strip_prefix(b"ownas=")?, 65535)
}

// The second: our own address.
pub fn own(line: &[u8]) -> Option<u32>
    ensures { result ≡ own_of line.now }
{
    read_dotted(line.strip_prefix(b"own=")?)
}

// The third: the capability.
pub fn capability(line: &[u8]) -> Option<u32>
    ensures { result ≡ capability_of line.now }
{
    read_decimal(line.strip_prefix(b"cap=")?, 255)
}

// The fourth: the common net.
pub fn net(line: &[u8]) -> Option<u32>
    ensures { result ≡ net_of line.now }
{
    read_dotted(line.strip_prefix(b"net=")?)
}

// Right after it may stand whether stray messages are left unanswered.
pub fn quiet(line: &[u8]) -> Option<u32>
    ensures { result ≡ quiet_of line.now }
{
    read_decimal(line.strip_prefix(b"quiet=")?, 1)
}

// The address before the first slash of a value, and what stands behind the slash.
fn split_address(value: &[u8]) -> Option<(u32, &[u8])>
    ensures { (event : ℕ → List ℕ → Event) → cut_into result event ≡ slashed event value.now }
{
    let (front, rest) = split_once(value, b'/')?;
    Some((read_dotted(front)?, rest))
}

fn add_event(value: &[u8]) -> Option<LineEvent<'_>>
    ensures meaning { meant result ≡ slashed add_event value.now }
    ensures lent { is_lent result ≡ true }
{
    let (address, asn) = split_address(value)?;
    Some(LineEvent::Add(address, read_decimal(asn, 65535)? as u16))
}

fn tick_event(value: &[u8]) -> Option<LineEvent<'_>>
    ensures meaning { meant result ≡ slashed tick_event value.now }
    ensures lent { is_lent result ≡ true }
{
    let (address, count) = split_address(value)?;
    let count = read_decimal(count, 86400)?;
    if count == 0 {
        return None;
    }
    Some(LineEvent::Tick(address, count))
}

fn rx_event(value: &[u8]) -> Option<LineEvent<'_>>
    ensures meaning { meant result ≡ slashed rx_event value.now }
    ensures lent { is_lent result ≡ true }
{
    let (address, digits) = split_address(value)?;
    if 4098 < digits.len() || !is_hex(digits) {
        return None;
    }
    Some(LineEvent::Receive(address, digits))
}

// A line behind the first four, without the octet 10 that ends it.
pub fn event(line: &[u8]) -> Option<LineEvent<'_>>
    ensures meaning { meant result ≡ event_of line.now }
    ensures lent { is_lent result ≡ true }
{
    if let Some(value) = line.strip_prefix(b"add=") {
        return add_event(value);
    }
    if let Some(value) = line.strip_prefix(b"remove=") {
        return Some(LineEvent::Remove(read_dotted(value)?));
    }
    if let Some(value) = line.strip_prefix(b"start=") {
        return Some(LineEvent::Start(read_dotted(value)?));
    }
    if let Some(value) = line.strip_prefix(b"stop=") {
        return Some(LineEvent::Stop(read_dotted(value)?));
    }
    if let Some(value) = line.strip_prefix(b"tick=") {
        return tick_event(value);
    }
    if let Some(value) = line.strip_prefix(b"rx=") {
        return rx_event(value);
    }
    None
}
