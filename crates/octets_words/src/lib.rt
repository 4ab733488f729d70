// Numbers of 32 bits in octets, four octets each: read into a lent array, and written.
#![tactic(auto)]

ghost use Rattle.std.specs.Prelude.{◌≡◌, ◌*◌, ◌≤◌, length, take};
ghost use Rattle.octets.specs.Buffer.{over};
ghost use Rattle.octets_words.specs.Words.{words_of, word_octets};

// Reads as many numbers as there is room for.
pub fn read_words(numbers: &mut [u32], octets: &[u8])
    requires { length numbers.old * 4 ≤ length octets.now }
    ensures { numbers.new ≡ take (length numbers.old) (words_of octets.now) }
{
    for i in 0..numbers.len() {
        numbers[i] = octets::word32_at(octets, i * 4);
    }
}

// Writes numbers at the front of out.
pub fn write_words(out: &mut [u8], numbers: &[u32])
    requires { length numbers.now * 4 ≤ length out.old }
    ensures { out.new ≡ over (word_octets numbers.now) out.old }
{
    for (i, number) in numbers.iter().enumerate() {
        octets::put32(out, i * 4, *number);
    }
}
