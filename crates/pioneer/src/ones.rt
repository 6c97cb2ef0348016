// The ones of a row, one after the other: the ones of a word are taken from it one by one.
ghost use Rattle.std.specs.Prelude.{◌≡◌, suc, ◌+◌, ◌-◌, ◌*◌, ◌≤◌, ◌&&◌, length, nat_lt};
ghost use Rattle.std.specs.Option.{unwrap_or};
ghost use Rattle.bits.specs.Bits.{bit_at};
ghost use Rattle.bits.specs.Words.{Holds};
ghost use Rattle.sets.specs.Search.{first_from};
ghost use Rattle.pioneer.specs.Ones.{WordIs};

// The ones of a row behind a place, which is that of the last one that was taken.
#[derive(Clone, Copy)]
pub(crate) struct Ones<'a> {
    bytes: &'a [u8],
    pub(crate) place: u32,
    // The word in which the place lies, from 0, and the ones of it that are left.
    word: u32,
    left: u64,
    ghost few: { length bytes.now ≤ 8192 },
    ghost passed: { (64 * word ≤ place) × (place ≤ 64 * word + 64) },
    ghost within: { place ≤ 8 * length bytes.now },
    ghost held: { Holds (λ i. nat_lt place i && bit_at bytes.now i) (64 * word) 64 left },
}

// The first word from the `from`-th on that has a one, and its bits.
fn next_word(bytes: &[u8], from: u32) -> Option<(u32, u64)>
    requires few { length bytes.now ≤ 8192 }
    ensures { WordIs (bit_at bytes.now) from (8 * length bytes.now) result }
{
    for word in from..(bytes.len() as u32).div_ceil(8) {
        let ones = bits::row(bytes, 64 * word);
        if ones != 0 {
            return Some((word, ones));
        }
    }
    None
}

impl<'a> Ones<'a> {
    // The ones behind a place.
    pub(crate) fn after(bytes: &'a [u8], place: u32) -> Ones<'a>
        requires few { length bytes.now ≤ 8192 }
        requires within { place ≤ 8 * length bytes.now }
        ensures bytes { result.bytes.now ≡ bytes.now }
        ensures place { result.place ≡ place }
    {
        let word = place / 64;
        let left = bits::row(bytes, 64 * word) >> (place % 64) << (place % 64);
        Ones {
            bytes,
            place,
            word,
            left,
        }
    }

    // Takes the next one.
    pub(crate) fn next(&mut self) -> Option<u32>
        ensures found { result ≡ first_from (bit_at self.old.bytes.now) (self.old.place + 1) (suc (8 * length self.old.bytes.now) - (self.old.place + 1)) }
        ensures place { self.new.place ≡ unwrap_or result self.old.place }
        ensures bytes { self.new.bytes.now ≡ self.old.bytes.now }
    {
        let (word, ones) = if self.left != 0 {
            (self.word, self.left)
        } else {
            next_word(self.bytes, self.word + 1)?
        };
        let place = 64 * word + 1 + ones.trailing_zeros();
        *self = Ones {
            bytes: self.bytes,
            place,
            word,
            left: ones & (ones - 1),
        };
        Some(place)
    }
}
