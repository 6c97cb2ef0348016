// The questions of a plain index at every bay.
use super::asked::{far_members, questions};
use super::forms::{Form, ask_mixed, ask_none_and_all};
use super::rows::bytes_of;
use opening::Opens;
use plain::{Plain, PlainSource};
use std::process::Abort;
use std::test::Fail;

// The index of the bits, which are lawful.
pub(crate) fn opened<'a>(rt: &impl Abort, last: u32, bits: &'a [u8]) -> Plain<'a> {
    let mut index = Plain::empty();
    assert_eq!(rt; index.open(PlainSource { last, bits }), Ok(()));
    index
}

#[derive(Clone, Copy)]
struct InBits;

impl Form for InBits {
    fn ask<R: Abort + AllocGlobal>(&self, rt: &R, row: &[bool]) -> Result<(), Fail> {
        let bits = bytes_of(rt.alloc(), row)?;
        let index = opened(rt, u32::try_from(row.len())?, &bits);
        questions(rt, &index, row)
    }
}

// Whole bytes: 1 to 40 of them.
#[test]
fn runs_and_single_bays(rt: HostRuntime) -> Result<(), Fail> {
    let lengths: Vec<usize> = (8..=320).step_by(8).collect(rt.alloc())?;
    ask_mixed(&rt, &InBits, &lengths)
}

#[test]
fn none_and_all(rt: HostRuntime) -> Result<(), Fail> {
    ask_none_and_all(&rt, &InBits, &[8, 56, 64, 72, 120, 128, 136, 320])
}

// Members 1, 64, 65 and 65,535 of 65,535 bays.
pub(crate) fn far_bits() -> [u8; 8192] {
    let mut bits = [0; 8192];
    bits[0] = 1;
    bits[7] = 128;
    bits[8] = 1;
    bits[8191] = 64;
    bits
}

#[test]
fn far_apart(rt: HostRuntime) {
    far_members(&rt, &opened(&rt, 65535, &far_bits()));
}
