// The calls on one set.
ghost use Rattle.std.specs.Prelude.{◌≡◌};
ghost use Rattle.batches.specs.Batches.{answered, unless_refused};
ghost use Rattle.batches.specs.Questions.{answer_of};
ghost use Rattle.bays.specs.Answers.{asking_answer, filling_answer, measuring_answer, opening_answer};
ghost use Rattle.bays.specs.Named.{choice_named, question_named, set_named, sort_named};
ghost use Rattle.bays.specs.Refusing.{verdict_numbers};
ghost use Rattle.bays.specs.Telling.{told_numbers};
ghost use Rattle.forms.specs.Laying.{bytes_of, numbers_of};
ghost use Rattle.forms.specs.Telling.{told_of};
ghost use Rattle.sets.specs.Lists.{over};

use super::named::{choice_named, question_named, record_named, sort_named};
use super::refusing::{
    check_form, check_question, check_sort, fault_at, fill_fault, verdict_numbers,
};
use super::structs::{BaysFault, BaysTold};
use super::telling::told_numbers;

// Whether the index is opened, once its form has a name.
fn open(told: &BaysTold, bytes: &[u8], numbers: &[u16]) -> Result<(), BaysFault>
    ensures { result ≡ opening_answer told.now bytes.now numbers.now }
{
    check_form(told.form, 1)?;
    batches::check(record_named(told, bytes, numbers)).map_err(|fault| fault_at(1, fault))
}

// The answers, once the form, the question and the sort have names.
fn ask(
    told: &BaysTold,
    bytes: &[u8],
    numbers: &[u16],
    question: u32,
    sort: u32,
    places: &[u32],
    answers: &mut [u32],
) -> Result<(), BaysFault>
    ensures answer { result ≡ asking_answer told.now bytes.now numbers.now question sort }
    ensures writes { let s = set_named told.now bytes.now numbers.now in
        answers.new ≡ unless_refused result (answered (answer_of s (question_named question) (sort_named sort)) places.now answers.old) answers.old }
{
    check_form(told.form, 1)?;
    check_question(question)?;
    check_sort(sort)?;
    let from = record_named(told, bytes, numbers);
    batches::ask(
        from,
        question_named(question),
        sort_named(sort),
        places,
        answers,
    )
    .map_err(|fault| fault_at(1, fault))
}

// What is told, once both forms have names.
fn measure(
    told: &BaysTold,
    bytes: &[u8],
    numbers: &[u16],
    form: u32,
    size: u32,
    to: &mut BaysTold,
) -> Result<(), BaysFault>
    ensures answer { result ≡ measuring_answer told.now bytes.now numbers.now form size }
    ensures told { to.new ≡ unless_refused result
        (told_numbers (told_of (choice_named form size) (set_named told.now bytes.now numbers.now))) to.old }
{
    check_form(told.form, 1)?;
    check_form(form, 2)?;
    let from = record_named(told, bytes, numbers);
    let measured = batches::measure(from, choice_named(form, size)).map_err(fill_fault)?;
    *to = told_numbers(measured);
    Ok(())
}

// What is filled and told, once both forms have names.
fn fill(
    told: &BaysTold,
    bytes: &[u8],
    numbers: &[u16],
    form: u32,
    size: u32,
    to: &mut BaysTold,
    to_bytes: &mut [u8],
    to_numbers: &mut [u16],
) -> Result<(), BaysFault>
    ensures answer { result ≡ filling_answer told.now bytes.now numbers.now form size to_bytes.old to_numbers.old }
    ensures told { to.new ≡ unless_refused result
        (told_numbers (told_of (choice_named form size) (set_named told.now bytes.now numbers.now))) to.old }
    ensures bytes { let s = set_named told.now bytes.now numbers.now in
        to_bytes.new ≡ unless_refused result (over (bytes_of (choice_named form size) s) to_bytes.old) to_bytes.old }
    ensures numbers { let s = set_named told.now bytes.now numbers.now in
        to_numbers.new ≡ unless_refused result (over (numbers_of (choice_named form size) s) to_numbers.old) to_numbers.old }
{
    check_form(told.form, 1)?;
    check_form(form, 2)?;
    let from = record_named(told, bytes, numbers);
    let filled = batches::fill(from, choice_named(form, size), to_bytes, to_numbers).map_err(
        fill_fault,
    )?;
    *to = told_numbers(filled);
    Ok(())
}

/// Whether the index is opened, or why not.
#[unsafe(no_mangle)]
pub extern "C" fn bays_open(told: &BaysTold, bytes: &[u8], numbers: &[u16]) -> BaysFault
    ensures { result ≡ verdict_numbers (opening_answer told.now bytes.now numbers.now) }
{
    verdict_numbers(open(told, bytes, numbers))
}

/// Asks one question at each place.
#[unsafe(no_mangle)]
pub extern "C" fn bays_ask(
    told: &BaysTold,
    bytes: &[u8],
    numbers: &[u16],
    question: u32,
    sort: u32,
    places: &[u32],
    answers: &mut [u32],
) -> BaysFault
    ensures answer { result ≡ verdict_numbers (asking_answer told.now bytes.now numbers.now question sort) }
    ensures writes { let s = set_named told.now bytes.now numbers.now in
        let answer = asking_answer told.now bytes.now numbers.now question sort in
        answers.new ≡ unless_refused answer (answered (answer_of s (question_named question) (sort_named sort)) places.now answers.old) answers.old }
{
    verdict_numbers(ask(told, bytes, numbers, question, sort, places, answers))
}

/// Tells what the set takes in a form.
#[unsafe(no_mangle)]
pub extern "C" fn bays_measure(
    told: &BaysTold,
    bytes: &[u8],
    numbers: &[u16],
    form: u32,
    size: u32,
    to: &mut BaysTold,
) -> BaysFault
    ensures answer { result ≡ verdict_numbers (measuring_answer told.now bytes.now numbers.now form size) }
    ensures told { let s = set_named told.now bytes.now numbers.now in
        let answer = measuring_answer told.now bytes.now numbers.now form size in
        to.new ≡ unless_refused answer (told_numbers (told_of (choice_named form size) s)) to.old }
{
    verdict_numbers(measure(told, bytes, numbers, form, size, to))
}

/// Fills the set in a form.
#[unsafe(no_mangle)]
pub extern "C" fn bays_fill(
    told: &BaysTold,
    bytes: &[u8],
    numbers: &[u16],
    form: u32,
    size: u32,
    to: &mut BaysTold,
    to_bytes: &mut [u8],
    to_numbers: &mut [u16],
) -> BaysFault
    ensures answer { result
        ≡ verdict_numbers (filling_answer told.now bytes.now numbers.now form size to_bytes.old to_numbers.old) }
    ensures told { let s = set_named told.now bytes.now numbers.now in
        let answer = filling_answer told.now bytes.now numbers.now form size to_bytes.old to_numbers.old in
        to.new ≡ unless_refused answer (told_numbers (told_of (choice_named form size) s)) to.old }
    ensures bytes { let s = set_named told.now bytes.now numbers.now in
        let answer = filling_answer told.now bytes.now numbers.now form size to_bytes.old to_numbers.old in
        to_bytes.new ≡ unless_refused answer (over (bytes_of (choice_named form size) s) to_bytes.old) to_bytes.old }
    ensures numbers { let s = set_named told.now bytes.now numbers.now in
        let answer = filling_answer told.now bytes.now numbers.now form size to_bytes.old to_numbers.old in
        to_numbers.new ≡ unless_refused answer (over (numbers_of (choice_named form size) s) to_numbers.old) to_numbers.old }
{
    verdict_numbers(fill(told, bytes, numbers, form, size, to, to_bytes, to_numbers))
}
