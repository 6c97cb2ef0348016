// The forms that two sets go through.
use forms::Choice;

/// The forms, with their block sizes, that the free bays and the bays of the class go through, in order.
#[derive(Clone, Copy, PartialEq, Eq, Debug)]
pub struct Plan<'a> {
    pub free: &'a [Choice],
    pub class: &'a [Choice],
}
