// The questions of a pioneer index at every bay.
use super::asked::{far_members, questions};
use super::forms::{Form, ask_mixed, ask_none_and_all, ask_small_sets};
use super::rows::bytes_of;
use opening::Opens;
use pioneer::{Pioneer, PioneerSource};
use std::process::Abort;
use std::test::Fail;

#[derive(Clone, Copy)]
struct InRuns;

impl Form for InRuns {
    // A run begins at each member behind a non-member. Each member has a bit among the sums, which is 1 where its run ends.
    fn ask<R: Abort + AllocGlobal>(&self, rt: &R, row: &[bool]) -> Result<(), Fail> {
        let begins: Vec<bool> = row
            .iter()
            .zip([false].iter().chain(row))
            .map(|(member, before)| *member && !*before)
            .collect(rt.alloc())?;
        let ends: Vec<bool> = row
            .iter()
            .zip(row.iter().skip(1).chain(&[false]))
            .filter(|(member, _)| **member)
            .map(|(_, after)| !*after)
            .collect(rt.alloc())?;
        let starts = bytes_of(rt.alloc(), &begins)?;
        let sums = bytes_of(rt.alloc(), &ends)?;
        let mut index = Pioneer::empty();
        index.open(PioneerSource {
            last: u32::try_from(row.len())?,
            count: u32::try_from(ends.len())?,
            starts: &starts,
            sums: &sums,
        })?;
        questions(rt, &index, row)
    }
}

#[test]
fn every_set_of_eight_bays(rt: HostRuntime) -> Result<(), Fail> {
    ask_small_sets(&rt, &InRuns, &[8])
}

#[test]
fn runs_and_single_bays(rt: HostRuntime) -> Result<(), Fail> {
    let lengths: Vec<usize> = (1..=320).collect(rt.alloc())?;
    ask_mixed(&rt, &InRuns, &lengths)
}

#[test]
fn none_and_all(rt: HostRuntime) -> Result<(), Fail> {
    let lengths = [1, 7, 8, 9, 63, 64, 65, 127, 128, 129, 320];
    ask_none_and_all(&rt, &InRuns, &lengths)
}

// Members 1, 64, 65 and 65,535 of 65,535 bays, in three runs.
#[test]
fn far_apart(rt: HostRuntime) -> Result<(), Fail> {
    let mut starts = [0; 8192];
    starts[0] = 1;
    starts[7] = 128;
    starts[8191] = 64;
    let mut index = Pioneer::empty();
    index.open(PioneerSource {
        last: 65535,
        count: 4,
        starts: &starts,
        sums: &[13],
    })?;
    far_members(&rt, &index);
    Ok(())
}
