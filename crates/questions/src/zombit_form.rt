// The questions of a zombit index in many block sizes.
use super::asked::{far_members, questions};
use super::forms::{Form, ask_fronts, ask_mixed, ask_small_sets};
use super::rows::bytes_of;
use opening::Opens;
use std::process::Abort;
use std::test::Fail;
use zombit::{Zombit, ZombitSource};

// Whether a block is all members or all non-members.
fn is_uniform(block: &[bool]) -> bool {
    !block.contains(&true) || !block.contains(&false)
}

// Blocks of so many bays.
#[derive(Clone, Copy)]
struct InBlocks(usize);

impl Form for InBlocks {
    // The last block is filled up with non-members.
    fn ask<R: Abort + AllocGlobal>(&self, rt: &R, row: &[bool]) -> Result<(), Fail> {
        let size = self.0;
        assert!(rt; 0 < size && size <= 400 && row.len() <= 320);
        let mut whole = row.to_vec(rt.alloc())?;
        whole.resize(row.len().div_ceil(size) * size, false)?;
        let uniform: Vec<bool> = whole.chunks(size).map(is_uniform).collect(rt.alloc())?;
        let marked: Vec<bool> = whole
            .chunks(size)
            .map(|block| block.contains(&true))
            .collect(rt.alloc())?;
        let mixed: Vec<bool> = whole
            .chunks(size)
            .filter(|block| !is_uniform(block))
            .flatten()
            .copied()
            .collect(rt.alloc())?;
        let uniform = bytes_of(rt.alloc(), &uniform)?;
        let marked = bytes_of(rt.alloc(), &marked)?;
        let mixed = bytes_of(rt.alloc(), &mixed)?;
        let mut index = Zombit::empty();
        index.open(ZombitSource {
            last: u32::try_from(row.len())?,
            size: u32::try_from(size)?,
            uniform: &uniform,
            marked: &marked,
            mixed: &mixed,
        })?;
        questions(rt, &index, row)
    }
}

#[test]
fn runs_and_single_bays_in_blocks(rt: HostRuntime) -> Result<(), Fail> {
    let lengths = [1, 2, 3, 7, 8, 9, 63, 64, 65, 129, 320];
    for size in 2..=20 {
        ask_mixed(&rt, &InBlocks(size), &lengths)?;
    }
    for size in [31, 32, 33, 63, 64, 65, 319, 320, 321, 400] {
        ask_mixed(&rt, &InBlocks(size), &[320])?;
    }
    Ok(())
}

// Uniform blocks of either sort before and behind mixed ones.
#[test]
fn uniform_blocks(rt: HostRuntime) -> Result<(), Fail> {
    let full = [true; 320];
    let bare = [false; 320];
    let mut ends = bare;
    ends[0] = true;
    ends[63] = true;
    let mut gaps = bare;
    gaps[1..63].fill(true);
    for size in [2, 3, 4, 5, 7, 8, 16, 63, 64, 65, 320, 400] {
        for row in [full, bare, ends, gaps] {
            let lengths = [1, 2, 3, 16, 63, 64, 65, 320];
            ask_fronts(&rt, &InBlocks(size), &row, &lengths)?;
        }
    }
    Ok(())
}

// Every set of eight bays, and of seven, so that the last block is short.
#[test]
fn small_sets_in_blocks(rt: HostRuntime) -> Result<(), Fail> {
    for size in [2, 3, 4, 8, 9] {
        ask_small_sets(&rt, &InBlocks(size), &[8, 7])?;
    }
    Ok(())
}

// Members 1, 64, 65 and 65,535 of 65,535 bays, in 16 blocks of which the first and the last are mixed.
#[test]
fn far_apart(rt: HostRuntime) -> Result<(), Fail> {
    let mut mixed = [0; 1024];
    mixed[0] = 1;
    mixed[7] = 128;
    mixed[8] = 1;
    mixed[1023] = 64;
    let mut index = Zombit::empty();
    index.open(ZombitSource {
        last: 65535,
        size: 4096,
        uniform: &[254, 127],
        marked: &[1, 128],
        mixed: &mixed,
    })?;
    far_members(&rt, &index);
    Ok(())
}
