// Numbers of a script.
ghost use Rattle.std.specs.Prelude.{◌≡◌};
ghost use Rattle.script.specs.Numbers.{number_of};

use std::str::from_utf8;

// The number that a word writes in decimal; none where it is no numeral, or passes 32 bits.
pub fn read_number(word: &[u8]) -> Option<u32>
    ensures { result ≡ number_of word.now }
{
    let [b'0'..=b'9', ..] = word else {
        return None;
    };
    from_utf8(word).ok()?.parse::<u32>().ok()
}
