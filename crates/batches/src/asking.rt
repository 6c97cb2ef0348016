// One question, asked of a set at many places. The form and the question are chosen once, and then each loop asks the form's own index.
ghost use Rattle.std.specs.Prelude.{◌≡◌};
ghost use Rattle.batches.specs.Batches.{answered, unless_refused};
ghost use Rattle.batches.specs.Questions.{answer_of};
ghost use Rattle.batches.specs.Records.{opening_of, set_of};
ghost use Rattle.forms.specs.Opening.{OpeningIs};

use super::question::Question;
use super::records::Record;
use faults::Fault;
use forms::Index;
use sets::{Counting, Sort, Walking};

// Whether each place is a member.
fn ask_holds<S: Walking>(set: &S, places: &[u32], answers: &mut [u32])
    ensures { answers.new ≡ answered (answer_of (S.Walking.meant set.now) Question.Holds Sort.Members) places.now answers.old }
{
    for k in 0..places.len().min(answers.len()) {
        answers[k] = u32::from(set.holds(places[k]));
    }
}

// The next bay from each place on.
fn ask_next<S: Walking>(set: &S, sort: Sort, places: &[u32], answers: &mut [u32])
    ensures { answers.new ≡ answered (answer_of (S.Walking.meant set.now) Question.Next sort) places.now answers.old }
{
    for k in 0..places.len().min(answers.len()) {
        answers[k] = set.next(sort, places[k]).unwrap_or(0);
    }
}

// The previous bay from each place on.
fn ask_previous<S: Walking>(set: &S, sort: Sort, places: &[u32], answers: &mut [u32])
    ensures { answers.new ≡ answered (answer_of (S.Walking.meant set.now) Question.Previous sort) places.now answers.old }
{
    for k in 0..places.len().min(answers.len()) {
        answers[k] = set.previous(sort, places[k]).unwrap_or(0);
    }
}

// The rank of each place.
fn ask_rank<S: Counting>(set: &S, sort: Sort, places: &[u32], answers: &mut [u32])
    ensures { answers.new ≡ answered (answer_of (S.Walking.meant set.now) Question.Rank sort) places.now answers.old }
{
    for k in 0..places.len().min(answers.len()) {
        answers[k] = set.rank(sort, places[k]);
    }
}

// The bay of each number.
fn ask_select<S: Counting>(set: &S, sort: Sort, places: &[u32], answers: &mut [u32])
    ensures { answers.new ≡ answered (answer_of (S.Walking.meant set.now) Question.Select sort) places.now answers.old }
{
    for k in 0..places.len().min(answers.len()) {
        answers[k] = set.select(sort, places[k]).unwrap_or(0);
    }
}

// Any question.
fn ask_set<S: Counting>(
    set: &S,
    question: Question,
    sort: Sort,
    places: &[u32],
    answers: &mut [u32],
)
    ensures { answers.new ≡ answered (answer_of (S.Walking.meant set.now) question sort) places.now answers.old }
{
    match question {
        Question::Holds => ask_holds(set, places, answers),
        Question::Next => ask_next(set, sort, places, answers),
        Question::Previous => ask_previous(set, sort, places, answers),
        Question::Rank => ask_rank(set, sort, places, answers),
        Question::Select => ask_select(set, sort, places, answers),
    }
}

/// Asks the set of a record one question at each place, and writes the answers from the front of the memory on, as many as it has room
/// for; what lies behind them is kept. Where opening the record is refused, the whole memory is as it was.
pub fn ask(
    from: Record,
    question: Question,
    sort: Sort,
    places: &[u32],
    answers: &mut [u32],
) -> Result<(), Fault>
    ensures answer { result ≡ opening_of from.entry }
    ensures law { OpeningIs from.entry.told from.entry.bytes.now from.entry.numbers.now result }
    ensures writes { answers.new
        ≡ unless_refused result (answered (answer_of (set_of from.entry) question sort) places.now answers.old) answers.old }
{
    match from.open()? {
        Index::Plain(set) => ask_set(&set, question, sort, places, answers),
        Index::List(set) => ask_set(&set, question, sort, places, answers),
        Index::Zombit(set) => ask_set(&set, question, sort, places, answers),
        Index::Pioneer(set) => ask_set(&set, question, sort, places, answers),
    }
    Ok(())
}
