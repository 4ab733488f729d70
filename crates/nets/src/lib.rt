// Net classes: the width of a net, its host part, and whether an address lies on it.
#![tactic(auto)]

ghost use Rattle.std.specs.Prelude.{◌≡◌, ◌/◌, eqb};
ghost use Rattle.nets.specs.Classes.{net_width, host_span, width_of, good_net, on_net};

// How many octets a net takes by its first octet: 1, 2 or 3, and 0 for one of no class.
#[tactic(auto, unfolding(crate::specs::Classes::net_width))]
pub fn net_width(first: u8) -> usize
    ensures { result ≡ net_width first }
{
    match first {
        0..128 => 1,
        128..192 => 2,
        192..224 => 3,
        _ => 0,
    }
}

// How many addresses a net of this width has.
#[tactic(auto, unfolding(crate::specs::Classes::host_span))]
pub fn host_span(width: usize) -> u64
    ensures { result ≡ host_span width }
{
    match width {
        0 => 0x1_0000_0000,
        1 => 0x100_0000,
        2 => 0x1_0000,
        3 => 0x100,
        _ => 1,
    }
}

// The width of an address's net part.
pub fn width_of(address: u32) -> usize
    ensures { result ≡ width_of address }
{
    let [first, ..] = address.to_be_bytes();
    net_width(first)
}

// Whether a net is a left-justified class A, B or C net. Tests by the number itself: every row of a list comes here.
#[tactic(auto, unfolding(crate::specs::Classes::good_net, crate::specs::Classes::net_width, crate::specs::Classes::host_span))]
pub fn good_net(net: u32) -> bool
    ensures { result ≡ good_net net }
{
    match net {
        0..0x8000_0000 => net % 0x100_0000 == 0,
        0x8000_0000..0xC000_0000 => net % 0x1_0000 == 0,
        0xC000_0000..0xE000_0000 => net % 0x100 == 0,
        _ => false,
    }
}

// Whether two addresses have the same net part, where it is of this width.
fn is_same_part(net: u32, address: u32, width: usize) -> bool
    ensures { result ≡ eqb (address / host_span width) (net / host_span width) }
{
    let span = host_span(width);
    u64::from(address) / span == u64::from(net) / span
}

// Whether an address lies on a net. An arm for each width: a division by a span that is not known before is slow.
pub fn on_net(net: u32, address: u32) -> bool
    ensures { result ≡ on_net net address }
{
    match width_of(net) {
        1 => is_same_part(net, address, 1),
        2 => is_same_part(net, address, 2),
        3 => is_same_part(net, address, 3),
        _ => false,
    }
}
