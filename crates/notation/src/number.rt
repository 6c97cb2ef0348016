// A number in a word.
ghost use Rattle.std.specs.Prelude.{◌≡◌};
ghost use Rattle.notation.specs.Numbers.{number_of};

/// Reads a number in decimal that is worth at most `most`. Zeros in front are allowed, and a sign is not.
pub fn read_number(word: &[u8], most: u32) -> Option<u32>
    ensures { result ≡ number_of most word.now }
{
    if word.is_empty() {
        return None;
    }
    let mut worth: u32 = 0;
    for digit in word {
        if !digit.is_ascii_digit() {
            return None;
        }
        worth = worth
            .checked_mul(10)?
            .checked_add(u32::from(*digit - b'0'))?;
    }
    if worth <= most { Some(worth) } else { None }
}
