// The home list as a C host lends it: octets, 12 a row. Check 4 on them, and the Update that is written from them.
#![tactic(auto)]

ghost use Rattle.std.specs.Prelude.{◌≡◌, true, ◌≤◌, length};
ghost use Rattle.octets.specs.Buffer.{over};
ghost use Rattle.nets.specs.Classes.{good_net};
ghost use Rattle.nets.specs.Rows.{rows_of};
ghost use Rattle.message.specs.declared.Message.TheVariants.{Update};
ghost use Rattle.update_writing.specs.Writable.{writable_numbers};
ghost use Rattle.codec_writing.specs.Octets.{message_octets};
ghost use Rattle.gateway_rules.specs.Home.{good_home};
ghost use Rattle.host_home.specs.Home.{home_in};

use neighbour::Settings;

// Check 4.
pub fn good_home(settings: Settings, home: &[u8]) -> bool
    ensures { result ≡ good_home settings (home_in home.now) }
{
    let (rows, rest) = home.as_chunks::<12>();
    rest.is_empty() && gateway_home::are_good_rows(settings, rows)
}

// Writes an Update with these rows at the front of the buffer, and says how long it is.
pub fn write_update(
    buffer: &mut [u8],
    asn: u16,
    sequence: u16,
    status: u8,
    net: u32,
    home: &[u8],
) -> usize
    requires net_value { (good_net net ≡ true) × (writable_numbers net (home_in home.now) ≡ true) }
    requires in_bounds { 1168 ≤ length buffer.old }
    ensures value { result ≡ length (message_octets (Update asn sequence status net) (rows_of (home_in home.now))) }
    ensures buffer_after { buffer.new ≡ over (message_octets (Update asn sequence status net) (rows_of (home_in home.now))) buffer.old }
{
    let (rows, _) = home.as_chunks::<12>();
    codec_writing::write_update(buffer, asn, sequence, status, net, rows)
}
