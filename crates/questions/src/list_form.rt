// The questions of a list index at every bay.
use super::asked::{far_members, questions};
use super::forms::{Form, ask_mixed, ask_none_and_all, ask_small_sets};
use list::{List, ListSource};
use opening::Opens;
use std::process::Abort;
use std::test::Fail;

#[derive(Clone, Copy)]
struct InNumbers;

impl Form for InNumbers {
    // The members are written as rising numbers.
    fn ask<R: Abort + AllocGlobal>(&self, rt: &R, row: &[bool]) -> Result<(), Fail> {
        let numbers: Vec<u16> = (1..)
            .zip(row)
            .filter(|(_, member)| **member)
            .map(|(bay, _)| bay)
            .collect(rt.alloc())?;
        let mut index = List::empty();
        index.open(ListSource {
            last: u32::try_from(row.len())?,
            numbers: &numbers,
        })?;
        questions(rt, &index, row)
    }
}

#[test]
fn every_set_of_eight_bays(rt: HostRuntime) -> Result<(), Fail> {
    ask_small_sets(&rt, &InNumbers, &[8])
}

#[test]
fn runs_and_single_bays(rt: HostRuntime) -> Result<(), Fail> {
    ask_mixed(&rt, &InNumbers, &[1, 2, 3, 63, 64, 65, 129, 319, 320])
}

#[test]
fn none_and_all(rt: HostRuntime) -> Result<(), Fail> {
    ask_none_and_all(&rt, &InNumbers, &[1, 2, 64, 320])
}

// Members 1, 64, 65 and 65,535 of 65,535 bays.
#[test]
fn far_apart(rt: HostRuntime) -> Result<(), Fail> {
    let mut index = List::empty();
    index.open(ListSource {
        last: 65535,
        numbers: &[1, 64, 65, 65535],
    })?;
    far_members(&rt, &index);
    Ok(())
}
