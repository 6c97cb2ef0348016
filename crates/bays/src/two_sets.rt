// The calls on the free bays and a class of bays.
ghost use Rattle.std.specs.Prelude.{◌≡◌, length};
ghost use Rattle.std.specs.List.{zip};
ghost use Rattle.batches.specs.Batches.{answered, unless_refused};
ghost use Rattle.batches.specs.Pairs.{count_number, nearest_number, report_at, sheet_at};
ghost use Rattle.bays.specs.Answers.{pair_answer, sheet_answer};
ghost use Rattle.bays.specs.Named.{set_named};
ghost use Rattle.bays.specs.Refusing.{verdict_numbers};
ghost use Rattle.bays.specs.Telling.{report_numbers};
ghost use Rattle.sets.specs.Lists.{over};

use super::named::record_named;
use super::refusing::{check_form, pair_fault, sheet_fault, verdict_numbers};
use super::structs::{BaysFault, BaysReport, BaysTold};
use super::telling::report_numbers;

// The sheet and the report, once both forms have names. So below.
fn sheet(
    free: &BaysTold,
    free_bytes: &[u8],
    free_numbers: &[u16],
    class: &BaysTold,
    class_bytes: &[u8],
    class_numbers: &[u16],
    place: u32,
    out: &mut [u32],
    report: &mut BaysReport,
) -> Result<(), BaysFault>
    ensures answer { result ≡ sheet_answer free.now free_bytes.now free_numbers.now class.now class_bytes.now class_numbers.now place }
    ensures writes { let f = set_named free.now free_bytes.now free_numbers.now in
        let c = set_named class.now class_bytes.now class_numbers.now in
        out.new ≡ unless_refused result (over (sheet_at f c place (length out.old)).bays out.old) out.old }
    ensures report { let f = set_named free.now free_bytes.now free_numbers.now in
        let c = set_named class.now class_bytes.now class_numbers.now in
        report.new ≡ unless_refused result (report_numbers (report_at f c place (length out.old))) report.old }
{
    check_form(free.form, 1)?;
    check_form(class.form, 2)?;
    let free = record_named(free, free_bytes, free_numbers);
    let class = record_named(class, class_bytes, class_numbers);
    let closed = batches::sheet(free, class, place, out).map_err(sheet_fault)?;
    *report = report_numbers(closed);
    Ok(())
}

// The nearest free bays.
fn nearest(
    free: &BaysTold,
    free_bytes: &[u8],
    free_numbers: &[u16],
    class: &BaysTold,
    class_bytes: &[u8],
    class_numbers: &[u16],
    places: &[u32],
    answers: &mut [u32],
) -> Result<(), BaysFault>
    ensures answer { result ≡ pair_answer free.now free_bytes.now free_numbers.now class.now class_bytes.now class_numbers.now }
    ensures writes { let f = set_named free.now free_bytes.now free_numbers.now in
        let c = set_named class.now class_bytes.now class_numbers.now in
        answers.new ≡ unless_refused result (answered (nearest_number f c) places.now answers.old) answers.old }
{
    check_form(free.form, 1)?;
    check_form(class.form, 2)?;
    let free = record_named(free, free_bytes, free_numbers);
    let class = record_named(class, class_bytes, class_numbers);
    batches::nearest(free, class, places, answers).map_err(pair_fault)
}

// The counts.
fn count(
    free: &BaysTold,
    free_bytes: &[u8],
    free_numbers: &[u16],
    class: &BaysTold,
    class_bytes: &[u8],
    class_numbers: &[u16],
    firsts: &[u32],
    lasts: &[u32],
    counts: &mut [u32],
) -> Result<(), BaysFault>
    ensures answer { result ≡ pair_answer free.now free_bytes.now free_numbers.now class.now class_bytes.now class_numbers.now }
    ensures writes { let f = set_named free.now free_bytes.now free_numbers.now in
        let c = set_named class.now class_bytes.now class_numbers.now in
        counts.new ≡ unless_refused result (answered (count_number f c) (zip firsts.now lasts.now) counts.old) counts.old }
{
    check_form(free.form, 1)?;
    check_form(class.form, 2)?;
    let free = record_named(free, free_bytes, free_numbers);
    let class = record_named(class, class_bytes, class_numbers);
    batches::count(free, class, firsts, lasts, counts).map_err(pair_fault)
}

/// Writes the sheet of a fresh round that goes to a place, and reports what the round gives when it is closed after it.
#[unsafe(no_mangle)]
pub extern "C" fn bays_sheet(
    free: &BaysTold,
    free_bytes: &[u8],
    free_numbers: &[u16],
    class: &BaysTold,
    class_bytes: &[u8],
    class_numbers: &[u16],
    place: u32,
    out: &mut [u32],
    report: &mut BaysReport,
) -> BaysFault
    ensures answer { result
        ≡ verdict_numbers (sheet_answer free.now free_bytes.now free_numbers.now class.now class_bytes.now class_numbers.now place) }
    ensures writes { let f = set_named free.now free_bytes.now free_numbers.now in
        let c = set_named class.now class_bytes.now class_numbers.now in
        let answer = sheet_answer free.now free_bytes.now free_numbers.now class.now class_bytes.now class_numbers.now place in
        out.new ≡ unless_refused answer (over (sheet_at f c place (length out.old)).bays out.old) out.old }
    ensures report { let f = set_named free.now free_bytes.now free_numbers.now in
        let c = set_named class.now class_bytes.now class_numbers.now in
        let answer = sheet_answer free.now free_bytes.now free_numbers.now class.now class_bytes.now class_numbers.now place in
        report.new ≡ unless_refused answer (report_numbers (report_at f c place (length out.old))) report.old }
{
    verdict_numbers(sheet(
        free,
        free_bytes,
        free_numbers,
        class,
        class_bytes,
        class_numbers,
        place,
        out,
        report,
    ))
}

/// Writes the free bay nearest to each place.
#[unsafe(no_mangle)]
pub extern "C" fn bays_nearest(
    free: &BaysTold,
    free_bytes: &[u8],
    free_numbers: &[u16],
    class: &BaysTold,
    class_bytes: &[u8],
    class_numbers: &[u16],
    places: &[u32],
    answers: &mut [u32],
) -> BaysFault
    ensures answer { result ≡ verdict_numbers (pair_answer free.now free_bytes.now free_numbers.now class.now class_bytes.now class_numbers.now) }
    ensures writes { let f = set_named free.now free_bytes.now free_numbers.now in
        let c = set_named class.now class_bytes.now class_numbers.now in
        let answer = pair_answer free.now free_bytes.now free_numbers.now class.now class_bytes.now class_numbers.now in
        answers.new ≡ unless_refused answer (answered (nearest_number f c) places.now answers.old) answers.old }
{
    verdict_numbers(nearest(
        free,
        free_bytes,
        free_numbers,
        class,
        class_bytes,
        class_numbers,
        places,
        answers,
    ))
}

/// Writes how many free bays lie in each range.
#[unsafe(no_mangle)]
pub extern "C" fn bays_count(
    free: &BaysTold,
    free_bytes: &[u8],
    free_numbers: &[u16],
    class: &BaysTold,
    class_bytes: &[u8],
    class_numbers: &[u16],
    firsts: &[u32],
    lasts: &[u32],
    counts: &mut [u32],
) -> BaysFault
    ensures answer { result ≡ verdict_numbers (pair_answer free.now free_bytes.now free_numbers.now class.now class_bytes.now class_numbers.now) }
    ensures writes { let f = set_named free.now free_bytes.now free_numbers.now in
        let c = set_named class.now class_bytes.now class_numbers.now in
        let answer = pair_answer free.now free_bytes.now free_numbers.now class.now class_bytes.now class_numbers.now in
        counts.new ≡ unless_refused answer (answered (count_number f c) (zip firsts.now lasts.now) counts.old) counts.old }
{
    verdict_numbers(count(
        free,
        free_bytes,
        free_numbers,
        class,
        class_bytes,
        class_numbers,
        firsts,
        lasts,
        counts,
    ))
}
