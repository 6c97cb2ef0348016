// Opening a plain index: each refusal at its edge, and what the index is then.
use super::openings::{old, open_over, refused};
use faults::{Fault, Flaw, Form};
use plain::{Plain, PlainSource};
use sets::Walking;
use std::process::Abort;

pub(crate) fn source<'a>(last: u32, bits: &'a [u8]) -> PlainSource<'a> {
    PlainSource { last, bits }
}

// Opens bits in the place of another index.
fn opens<'a>(rt: &impl Abort, last: u32, bits: &'a [u8], due: Result<(), Fault>) -> Plain<'a> {
    let old = old(rt, Plain::empty(), source(3, &[5]));
    let index = open_over(rt, old, source(last, bits), due);
    assert!(rt; due.is_err() || index.last() == last);
    index
}

#[test]
fn lengths(rt: HostRuntime) {
    let memory = [0; 8194];
    let numbers = refused(Form::Plain, Flaw::Numbers, 0);
    let length = refused(Form::Plain, Flaw::Length, 1);
    let cases = [
        (0, 0, numbers),
        (0, 1, numbers),
        (1, 0, length),
        (1, 1, Ok(())),
        (1, 2, length),
        (8, 0, length),
        (8, 1, Ok(())),
        (8, 2, length),
        (9, 1, length),
        (9, 2, Ok(())),
        (9, 3, length),
        (65535, 8191, length),
        (65535, 8192, Ok(())),
        (65535, 8193, length),
        (65536, 8192, numbers),
        (65536, 8193, numbers),
        (u32::MAX, 0, numbers),
    ];
    for (last, bytes, due) in cases {
        assert!(rt; bytes <= memory.len());
        let index = opens(&rt, last, &memory[..bytes], due);
        assert!(rt; due.is_err() || !index.holds(1));
    }
}

// Each bit of the bytes, alone: up to the last it is a bay, after it a flaw.
#[test]
fn spare_bits(rt: HostRuntime) {
    for last in 1..=16u32 {
        let bytes = last.div_ceil(8);
        for bit in 0..8 * bytes {
            let bits = (1u16 << bit).to_le_bytes();
            let due = if bit < last {
                Ok(())
            } else {
                refused(Form::Plain, Flaw::Content, 1)
            };
            let index = opens(&rt, last, &bits[..bytes as usize], due);
            assert!(rt; due.is_err() || index.holds(bit + 1));
        }
    }
}

#[test]
fn spare_bit_of_the_largest(rt: HostRuntime) {
    let mut bits = [255; 8192];
    let content = refused(Form::Plain, Flaw::Content, 1);
    let index = open_over(&rt, Plain::empty(), source(65535, &bits), content);
    assert_eq!(rt; index.last(), 1);
    bits[8191] = 127;
    let full = open_over(&rt, Plain::empty(), source(65535, &bits), Ok(()));
    assert!(rt; full.holds(65535) && !full.holds(65536));
}

#[test]
fn first_refusal_counts(rt: HostRuntime) {
    let bits = [255; 3];
    let cases = [
        (0, refused(Form::Plain, Flaw::Numbers, 0)),
        (65536, refused(Form::Plain, Flaw::Numbers, 0)),
        (9, refused(Form::Plain, Flaw::Length, 1)),
        (17, refused(Form::Plain, Flaw::Content, 1)),
        (24, Ok(())),
    ];
    for (last, due) in cases {
        opens(&rt, last, &bits, due);
    }
}
