// The posts of the sixteen signs.
ghost use Rattle.std.specs.Prelude.{◌≡◌};
ghost use Rattle.round.specs.Answers.{PostIs};
ghost use Rattle.round.specs.Calls.{post_of};
ghost use Rattle.sets.specs.Lists.{Rising};

use faults::Refusal;

const POSTS: [u32; 16] = [
    1, 24, 49, 61, 97, 122, 148, 160, 203, 231, 256, 277, 310, 344, 371, 402,
];

/// The posts rise from at least 1. There is nothing to run: the contract is the theorem.
pub fn posts_rise()
    ensures { Rising 1 POSTS }
{}

// The post of a sign.
pub(crate) fn post_of(sign: u32) -> Result<u32, Refusal>
    ensures answer { result ≡ post_of sign }
    ensures law { PostIs sign result }
{
    sign.checked_sub(1)
        .and_then(|before| POSTS.get(before as usize))
        .copied()
        .ok_or(Refusal::NoSign)
}
