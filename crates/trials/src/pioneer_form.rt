// Opening a pioneer index: each refusal at its edge, and what the index is then.
use super::openings::{old, open_over, refused};
use faults::{Fault, Flaw, Form};
use pioneer::{Pioneer, PioneerSource};
use sets::{Counting, Sort, Walking};
use std::process::Abort;

fn source<'a>(last: u32, count: u32, starts: &'a [u8], sums: &'a [u8]) -> PioneerSource<'a> {
    PioneerSource {
        last,
        count,
        starts,
        sums,
    }
}

// Opens two parts in the place of another index.
fn opens(
    rt: &impl Abort,
    last: u32,
    count: u32,
    starts: &[u8],
    sums: &[u8],
    due: Result<(), Fault>,
) {
    let old = old(rt, Pioneer::empty(), source(3, 2, &[5], &[3]));
    let index = open_over(rt, old, source(last, count, starts, sums), due);
    if due.is_ok() {
        assert_eq!(rt; index.last(), last);
        assert_eq!(rt; index.rank(Sort::Members, u32::MAX), count);
    }
}

#[test]
fn lawful_ones(rt: HostRuntime) {
    opens(&rt, 16, 7, &[129, 0], &[68], Ok(()));
    opens(&rt, 11, 7, &[129, 0], &[68], Ok(()));
    opens(&rt, 9, 7, &[17, 0], &[68], Ok(()));
    opens(&rt, 3, 0, &[0], &[], Ok(()));
    opens(&rt, 1, 0, &[0], &[], Ok(()));
    opens(&rt, 1, 1, &[1], &[1], Ok(()));
    opens(&rt, 3, 3, &[1], &[4], Ok(()));
}

#[test]
fn wrong_numbers(rt: HostRuntime) {
    let due = refused(Form::Pioneer, Flaw::Numbers, 0);
    opens(&rt, 0, 0, &[], &[], due);
    opens(&rt, 0, 1, &[0], &[1], due);
    opens(&rt, 65536, 0, &[0], &[], due);
    opens(&rt, u32::MAX, 0, &[], &[], due);
    opens(&rt, 1, 2, &[1], &[2], due);
    opens(&rt, 16, 17, &[129, 0], &[68], due);
    opens(&rt, 16, u32::MAX, &[129, 0], &[68], due);
}

#[test]
fn wrong_lengths(rt: HostRuntime) {
    let first = refused(Form::Pioneer, Flaw::Length, 1);
    let second = refused(Form::Pioneer, Flaw::Length, 2);
    opens(&rt, 16, 7, &[129], &[68], first);
    opens(&rt, 16, 7, &[129, 0, 0], &[68], first);
    opens(&rt, 8, 3, &[], &[4], first);
    opens(&rt, 9, 3, &[1], &[4], first);
    opens(&rt, 16, 7, &[], &[], first);
    opens(&rt, 16, 7, &[129, 0], &[], second);
    opens(&rt, 16, 7, &[129, 0], &[68, 0], second);
    opens(&rt, 3, 0, &[0], &[0], second);
    opens(&rt, 16, 9, &[1, 0], &[0], second);
    // Lengths are asked before contents.
    opens(&rt, 3, 2, &[255], &[], second);
}

#[test]
fn spare_bits(rt: HostRuntime) {
    let first = refused(Form::Pioneer, Flaw::Content, 1);
    let second = refused(Form::Pioneer, Flaw::Content, 2);
    opens(&rt, 3, 2, &[13], &[3], first);
    opens(&rt, 15, 7, &[129, 128], &[68], first);
    opens(&rt, 1, 0, &[2], &[], first);
    opens(&rt, 3, 2, &[5], &[7], second);
    opens(&rt, 16, 7, &[129, 0], &[196], second);
    opens(&rt, 3, 2, &[13], &[7], first);
    // Contents are asked before the runs.
    opens(&rt, 3, 1, &[0], &[2], second);
}

#[test]
fn unlawful_runs(rt: HostRuntime) {
    let due = refused(Form::Pioneer, Flaw::Unlawful, 2);
    // More sums than runs, and more runs than sums.
    opens(&rt, 16, 7, &[129, 0], &[76], due);
    opens(&rt, 16, 7, &[129, 0], &[64], due);
    opens(&rt, 16, 7, &[0, 0], &[64], due);
    opens(&rt, 3, 0, &[1], &[], due);
    // The last sum is not the number of members.
    opens(&rt, 16, 7, &[129, 0], &[36], due);
    opens(&rt, 16, 7, &[0, 0], &[0], due);
    // A run past the last bay.
    opens(&rt, 10, 7, &[129, 0], &[68], due);
    opens(&rt, 3, 2, &[4], &[2], due);
    // A run that touches the next, and one that reaches into it.
    opens(&rt, 16, 7, &[9, 0], &[68], due);
    opens(&rt, 16, 7, &[5, 0], &[68], due);
    opens(&rt, 16, 7, &[3, 0], &[68], due);
}

#[test]
fn the_largest(rt: HostRuntime) {
    let numbers = refused(Form::Pioneer, Flaw::Numbers, 0);
    let content = refused(Form::Pioneer, Flaw::Content, 2);
    let unlawful = refused(Form::Pioneer, Flaw::Unlawful, 2);
    // One run of all bays.
    let mut starts = [0; 8192];
    let mut sums = [0; 8192];
    starts[0] = 1;
    sums[8191] = 64;
    opens(&rt, 65535, 65535, &starts, &sums, Ok(()));
    opens(&rt, 65535, 65534, &starts, &sums, content);
    opens(&rt, 65534, 65535, &starts, &sums, numbers);
    // As many runs as there can be.
    let odd = [85; 8192];
    let all = [255; 4096];
    opens(&rt, 65535, 32768, &odd, &all, Ok(()));
    opens(&rt, 65535, 32760, &odd, &all[..4095], unlawful);
}
