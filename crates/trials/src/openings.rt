// Opening an index of any form, in the place of another.
use faults::{Fault, Flaw, Form};
use opening::Opens;
use std::process::Abort;

pub(crate) fn refused(form: Form, flaw: Flaw, part: u8) -> Result<(), Fault> {
    Err(Fault { flaw, form, part })
}

// The index of a lawful source.
pub(crate) fn opened<X: Opens>(rt: &impl Abort, empty: X, source: X::Source) -> X {
    let mut index = empty;
    assert_eq!(rt; index.open(source), Ok(()));
    index
}

// The index of a lawful source of the bays 1 to 3, of which 1 and 3 are members.
pub(crate) fn old<X: Opens>(rt: &impl Abort, empty: X, source: X::Source) -> X {
    let old = opened(rt, empty, source);
    assert_eq!(rt; old.last(), 3);
    assert!(rt; old.holds(1) && !old.holds(2) && old.holds(3));
    old
}

// Opens a source in the place of an old index, which is still there after a refusal.
pub(crate) fn open_over<X: Opens + PartialEq>(
    rt: &impl Abort,
    old: X,
    source: X::Source,
    due: Result<(), Fault>,
) -> X {
    let mut index = old;
    assert_eq!(rt; index.open(source), due);
    assert!(rt; due.is_ok() || index == old);
    index
}
