// A slot's part of a table of octets: the rows of an Update that the walk found good, four octets a number, or zeros.
#![tactic(auto)]

ghost use Rattle.std.specs.Prelude.{◌≡◌, length};
ghost use Rattle.octets_words.specs.Words.{word_octets};
ghost use Rattle.nets.specs.Rows.{flat};
ghost use Rattle.update_walk.specs.Body.{walked_blocks};
ghost use Rattle.update_rows.specs.Storing.{zeros, padded, walked_rows};
ghost use Rattle.host_rows.specs.Storing.{OctetsStorable};

// Zero in the whole part.
pub fn clear(part: &mut [u8])
    ensures { part.new ≡ zeros (length part.old) }
{
    part.fill(0);
}

// The rows of an Update that the walk found good, then zeros.
pub fn store_rows(part: &mut [u8], net: u32, message: &[u8])
    requires { OctetsStorable net message.now part.old }
    ensures { part.new ≡ word_octets (padded 384 (flat (walked_rows (walked_blocks net message.now)))) }
{
    update_rows::store_rows(part, net, message);
}
