// The sets at which each form is asked.
use super::rows::{MIXED, row_of};
use std::process::Abort;
use std::test::Fail;

// A form of an index.
pub(crate) trait Form {
    // Makes an index of a row, and asks it at every bay.
    fn ask<R: Abort + AllocGlobal>(&self, rt: &R, row: &[bool]) -> Result<(), Fail>;
}

// Asks the bays 1 to `length` of a row, for each of these lengths.
pub(crate) fn ask_fronts<R: Abort + AllocGlobal>(
    rt: &R,
    form: &impl Form,
    row: &[bool],
    lengths: &[usize],
) -> Result<(), Fail> {
    for length in lengths {
        assert!(rt; *length <= row.len());
        form.ask(rt, &row[..*length])?;
    }
    Ok(())
}

// Asks every set of eight bays, cut to each of these lengths.
pub(crate) fn ask_small_sets<R: Abort + AllocGlobal>(
    rt: &R,
    form: &impl Form,
    lengths: &[usize],
) -> Result<(), Fail> {
    for set in 0..=255 {
        ask_fronts(rt, form, &row_of(rt.alloc(), &[set])?, lengths)?;
    }
    Ok(())
}

// Asks single bays, short and long runs.
pub(crate) fn ask_mixed<R: Abort + AllocGlobal>(
    rt: &R,
    form: &impl Form,
    lengths: &[usize],
) -> Result<(), Fail> {
    ask_fronts(rt, form, &row_of(rt.alloc(), &MIXED)?, lengths)
}

// Asks sets of no member and sets of all bays.
pub(crate) fn ask_none_and_all<R: Abort + AllocGlobal>(
    rt: &R,
    form: &impl Form,
    lengths: &[usize],
) -> Result<(), Fail> {
    ask_fronts(rt, form, &[false; 320], lengths)?;
    ask_fronts(rt, form, &[true; 320], lengths)
}
