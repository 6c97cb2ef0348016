// The questions of a plain index that is lent: a reference to a set is a set.
use super::asked::{far_members, questions};
use super::forms::{Form, ask_mixed, ask_none_and_all};
use super::plain_form::{far_bits, opened};
use super::rows::bytes_of;
use std::process::Abort;
use std::test::Fail;

#[derive(Clone, Copy)]
struct Lent;

impl Form for Lent {
    fn ask<R: Abort + AllocGlobal>(&self, rt: &R, row: &[bool]) -> Result<(), Fail> {
        let bits = bytes_of(rt.alloc(), row)?;
        let index = opened(rt, u32::try_from(row.len())?, &bits);
        questions(rt, &&index, row)
    }
}

// Whole bytes: 1 to 40 of them.
#[test]
fn runs_and_single_bays(rt: HostRuntime) -> Result<(), Fail> {
    let lengths: Vec<usize> = (8..=320).step_by(8).collect(rt.alloc())?;
    ask_mixed(&rt, &Lent, &lengths)
}

#[test]
fn none_and_all(rt: HostRuntime) -> Result<(), Fail> {
    ask_none_and_all(&rt, &Lent, &[8, 56, 64, 72, 120, 128, 136, 320])
}

#[test]
fn far_apart(rt: HostRuntime) {
    far_members(&rt, &&opened(&rt, 65535, &far_bits()));
}
