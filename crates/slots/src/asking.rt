// A question about a set, and its answer.
ghost use Rattle.std.specs.Prelude.{◌≡◌};
ghost use Rattle.slots.specs.Asked.{asked};

use commands::Question;
use replies::Reply;
use sets::{Counting, Walking};

/// What the question is answered of the set.
pub fn ask<S: Counting>(set: &S, question: Question) -> Reply
    ensures { result ≡ asked (S.Walking.meant set.now) question }
{
    match question {
        Question::Last => Reply::Number(set.last()),
        Question::Holds(i) => Reply::Holds(set.holds(i)),
        Question::Next(sort, i) => Reply::Bay(set.next(sort, i)),
        Question::Previous(sort, i) => Reply::Bay(set.previous(sort, i)),
        Question::Rank(sort, i) => Reply::Number(set.rank(sort, i)),
        Question::Select(sort, k) => Reply::Bay(set.select(sort, k)),
    }
}
