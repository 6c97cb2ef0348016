// One call of a round.
ghost use Rattle.std.specs.Prelude.{◌≡◌};
ghost use Rattle.round.specs.Rounds.{SameSets};
ghost use Rattle.replay.specs.Views.{step_of};

use super::calls::{Answer, Call};
use round::Round;
use sets::{Counting, Walking};

/// Asks a round one call. A sheet has the whole window as its memory, and no other call touches it.
pub fn ask<F: Counting, C: Walking>(
    round: &mut Round<F, C>,
    call: Call,
    window: &mut [u32],
) -> Answer
    ensures answer { result ≡ (step_of round.old call window.old).answer }
    ensures writes { window.new ≡ (step_of round.old call window.old).window }
    ensures state { round.new.state ≡ (step_of round.old call window.old).state }
    ensures sets { SameSets round.old round.new }
{
    match call {
        Call::Count { a, b } => Answer::Count(round.count(a, b)),
        Call::Nearest(p) => Answer::Nearest(round.nearest(p)),
        Call::Sign(sign) => Answer::Sign(round.sign(sign)),
        Call::Pick(k) => Answer::Pick(round.pick(k)),
        Call::Go(q) => Answer::Go(round.go(q)),
        Call::Next => Answer::Next(round.next()),
        Call::Sheet(_) => Answer::Sheet(round.sheet(window)),
    }
}
