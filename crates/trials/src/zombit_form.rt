// Opening a zombit index: each refusal at its edge, and that a refused one leaves the old index.
use super::openings::{old, open_over, refused};
use faults::{Fault, Flaw, Form};
use sets::Walking;
use std::process::Abort;
use zombit::{Zombit, ZombitSource};

// The numbers of an index, and its parts: U, O and M.
fn source<'a>(last: u32, size: u32, parts: [&'a [u8]; 3]) -> ZombitSource<'a> {
    let [uniform, marked, mixed] = parts;
    ZombitSource {
        last,
        size,
        uniform,
        marked,
        mixed,
    }
}

// Numbers and parts, and what is due.
type Case<'a> = (u32, u32, [&'a [u8]; 3], Result<(), Fault>);

// Opens parts in the place of another index.
fn opens(rt: &impl Abort, last: u32, size: u32, parts: [&[u8]; 3], due: Result<(), Fault>) {
    let old = old(rt, Zombit::empty(), source(3, 2, [&[0], &[3], &[5]]));
    let index = open_over(rt, old, source(last, size, parts), due);
    assert!(rt; due.is_err() || index.last() == last);
}

#[test]
fn lawful(rt: HostRuntime) {
    let cases: [(u32, u32, [&[u8]; 3]); 11] = [
        // the garage of 16 bays
        (16, 2, [&[213], &[59], &[25]]),
        // one bay, which is a member, and one that is not
        (1, 2, [&[0], &[1], &[1]]),
        (1, 2, [&[1], &[0], &[]]),
        // no member, the last one, all
        (3, 2, [&[3], &[0], &[]]),
        (3, 2, [&[1], &[2], &[1]]),
        (3, 2, [&[1], &[3], &[1]]),
        (4, 2, [&[3], &[3], &[]]),
        // one block: short, full, with a non-member
        (7, 8, [&[0], &[1], &[127]]),
        (8, 8, [&[1], &[1], &[]]),
        (8, 8, [&[0], &[1], &[127]]),
        // no member in one block of the largest size
        (4096, 4096, [&[1], &[0], &[]]),
    ];
    for (last, size, parts) in cases {
        opens(&rt, last, size, parts, Ok(()));
    }
}

#[test]
fn numbers(rt: HostRuntime) {
    let last = refused(Form::Zombit, Flaw::Numbers, 0);
    let block = refused(Form::Zombit, Flaw::BlockSize, 0);
    let cases = [
        (0, 0, last),
        (0, 2, last),
        (65536, 2, last),
        (65536, 4097, last),
        (u32::MAX, 2, last),
        (u32::MAX, u32::MAX, last),
        (1, 0, block),
        (1, 1, block),
        (1, 4097, block),
        (1, u32::MAX, block),
        (65535, 1, block),
        (65535, u32::MAX, block),
    ];
    for (last, size, due) in cases {
        opens(&rt, last, size, [&[1], &[0], &[]], due);
        opens(&rt, last, size, [&[255, 0], &[255, 0], &[255, 0]], due);
    }
}

#[test]
fn lengths(rt: HostRuntime) {
    let uniform = refused(Form::Zombit, Flaw::Length, 1);
    let marked = refused(Form::Zombit, Flaw::Length, 2);
    let mixed = refused(Form::Zombit, Flaw::Length, 3);
    let cases: [Case; 13] = [
        // bytes of the garage of 16 bays
        (16, 2, [&[], &[59], &[25]], uniform),
        (16, 2, [&[213, 0], &[59], &[25]], uniform),
        (16, 2, [&[213], &[], &[25]], marked),
        (16, 2, [&[213], &[59, 0], &[25]], marked),
        (16, 2, [&[213], &[59], &[]], mixed),
        (16, 2, [&[213], &[59], &[25, 0]], mixed),
        (16, 2, [&[], &[], &[]], uniform),
        (16, 2, [&[213], &[], &[]], marked),
        // nine blocks take two bytes
        (17, 2, [&[255], &[0, 0], &[1]], uniform),
        (17, 2, [&[255, 0], &[0], &[1]], marked),
        // no mixed block has no byte, and bits after the last do not count
        (3, 2, [&[3], &[0], &[0]], mixed),
        (3, 2, [&[255], &[0], &[0]], mixed),
        (3, 2, [&[253], &[2], &[]], mixed),
    ];
    for (last, size, parts, due) in cases {
        opens(&rt, last, size, parts, due);
    }
}

#[test]
fn spare_bits(rt: HostRuntime) {
    let uniform = refused(Form::Zombit, Flaw::Content, 1);
    let marked = refused(Form::Zombit, Flaw::Content, 2);
    let mixed = refused(Form::Zombit, Flaw::Content, 3);
    let cases: [Case; 10] = [
        (3, 2, [&[4], &[3], &[5]], uniform),
        (3, 2, [&[128], &[3], &[5]], uniform),
        (3, 2, [&[0], &[7], &[5]], marked),
        (3, 2, [&[0], &[131], &[5]], marked),
        (3, 2, [&[0], &[3], &[21]], mixed),
        (3, 2, [&[0], &[3], &[133]], mixed),
        (3, 2, [&[4], &[7], &[21]], uniform),
        (3, 2, [&[0], &[7], &[21]], marked),
        (3, 2, [&[255], &[255], &[]], uniform),
        (1, 2, [&[3], &[0], &[]], uniform),
    ];
    for (last, size, parts, due) in cases {
        opens(&rt, last, size, parts, due);
    }
}

#[test]
fn unlawful(rt: HostRuntime) {
    let marked = refused(Form::Zombit, Flaw::Unlawful, 2);
    let mixed = refused(Form::Zombit, Flaw::Unlawful, 3);
    let cases: [Case; 16] = [
        // a mixed block without its bit
        (3, 2, [&[0], &[0], &[5]], marked),
        (3, 2, [&[0], &[1], &[5]], marked),
        (3, 2, [&[0], &[2], &[5]], marked),
        (17, 2, [&[255, 0], &[0, 0], &[1]], marked),
        // all members, past the last bay
        (3, 2, [&[3], &[2], &[]], marked),
        (1, 2, [&[1], &[1], &[]], marked),
        (7, 8, [&[1], &[1], &[]], marked),
        // a mixed block of all 0 and of all 1
        (3, 2, [&[0], &[3], &[4]], mixed),
        (3, 2, [&[0], &[3], &[1]], mixed),
        (4, 2, [&[0], &[3], &[7]], mixed),
        (4, 2, [&[0], &[3], &[13]], mixed),
        (8, 8, [&[0], &[1], &[255]], mixed),
        // a member past the last bay
        (3, 2, [&[0], &[3], &[9]], mixed),
        (1, 2, [&[0], &[1], &[2]], mixed),
        (7, 8, [&[0], &[1], &[129]], mixed),
        // both wrong
        (3, 2, [&[0], &[0], &[0]], marked),
    ];
    for (last, size, parts, due) in cases {
        opens(&rt, last, size, parts, due);
    }
}

// The first bay of each of 17 blocks of 4,095 bays: all blocks of the largest garage are mixed.
fn first_bays() -> [u8; 8702] {
    let mut mixed = [0; 8702];
    for block in 0..17 {
        let place = 4095 * block;
        mixed[place / 8] = 1 << (place % 8);
    }
    mixed
}

fn opens_large(rt: &impl Abort, last: u32, mixed: &[u8], due: Result<(), Fault>) {
    opens(rt, last, 4095, [&[0, 0, 0], &[255, 255, 1], mixed], due);
}

#[test]
fn largest(rt: HostRuntime) {
    let mixed = first_bays();
    let shorter = &mixed[..8701];
    let length = refused(Form::Zombit, Flaw::Length, 3);
    opens_large(&rt, 65535, &mixed, Ok(()));
    opens_large(&rt, 65535, shorter, length);
    opens_large(&rt, 65535, &[0; 8703], length);
    opens_large(&rt, 65520, &mixed, refused(Form::Zombit, Flaw::Length, 1));
}

#[test]
fn end_of_the_largest(rt: HostRuntime) {
    let mut mixed = first_bays();
    mixed[8701] = 64;
    opens_large(&rt, 65535, &mixed, refused(Form::Zombit, Flaw::Unlawful, 3));
    mixed[8701] = 128;
    opens_large(&rt, 65535, &mixed, refused(Form::Zombit, Flaw::Content, 3));
}

// 65,535 bays in the most blocks: 32,768 of two.
fn opens_most(
    rt: &impl Abort,
    uniform: &[u8],
    marked: &[u8],
    mixed: &[u8],
    due: Result<(), Fault>,
) {
    opens(rt, 65535, 2, [uniform, marked, mixed], due);
}

#[test]
fn most_blocks(rt: HostRuntime) {
    let mut uniform = [255; 4097];
    let mut marked = [0; 4097];
    let first = refused(Form::Zombit, Flaw::Length, 1);
    let second = refused(Form::Zombit, Flaw::Length, 2);
    opens_most(&rt, &uniform[..4096], &marked[..4096], &[], Ok(()));
    opens_most(&rt, &uniform[..4095], &marked[..4096], &[], first);
    opens_most(&rt, &uniform, &marked[..4096], &[], first);
    opens_most(&rt, &uniform[..4096], &marked, &[], second);
    let unmarked = refused(Form::Zombit, Flaw::Unlawful, 2);
    let past = refused(Form::Zombit, Flaw::Unlawful, 3);
    marked[4095] = 128;
    opens_most(&rt, &uniform[..4096], &marked[..4096], &[], unmarked);
    uniform[4095] = 127;
    opens_most(&rt, &uniform[..4096], &marked[..4096], &[1], Ok(()));
    opens_most(&rt, &uniform[..4096], &marked[..4096], &[2], past);
}
