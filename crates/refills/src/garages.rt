// The sets that are measured and filled, as plain indexes.
use opening::Opens;
use plain::{Plain, PlainSource};
use std::process::Abort;

// A last bay, and the bits of the members.
pub(crate) type Garage = (u32, &'static [u8]);

// Bays 1, 2, 3, 8, 9, 10 and 11 of 16.
pub(crate) const WORKED: Garage = (16, &[135, 7]);
// Bays 2, 5, 9, 10 and 14 of the same 16.
pub(crate) const CHARGING: Garage = (16, &[18, 35]);
// The odd bays of 18: in each form a part takes more than a byte.
pub(crate) const ODD: Garage = (18, &[85, 85, 1]);
// One bay, which is a member.
pub(crate) const ONE: Garage = (1, &[1]);
// Three bays, of which none is.
pub(crate) const NONE: Garage = (3, &[0]);

// The index of bits, which are lawful.
pub(crate) fn opened<'a>(rt: &impl Abort, last: u32, bits: &'a [u8]) -> Plain<'a> {
    let mut index = Plain::empty();
    assert_eq!(rt; index.open(PlainSource { last, bits }), Ok(()));
    index
}
