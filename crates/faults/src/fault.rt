// The refusals and the faults.

/// What is wrong with what was handed in to open or to fill an index, with the number by which it is refused.
#[derive(Clone, Copy, PartialEq, Eq, Debug)]
pub enum Flaw {
    /// The last bay is 0 or above 65,535, or there are more members than bays.
    Numbers = 1,
    /// A part has another length than its layout.
    Length = 2,
    /// A bit after the last is 1, or a list is not strictly rising within its bays.
    Content = 3,
    /// The block size is below 2 or above 4,096.
    BlockSize = 4,
    /// A memory is too short.
    Room = 5,
    /// The parts do not make an index.
    Unlawful = 6,
}

/// The forms of an index.
#[derive(Clone, Copy, PartialEq, Eq, Debug)]
pub enum Form {
    /// One bitvector with a bit for each bay.
    Plain,
    /// The members as rising numbers.
    List,
    /// Blocks of bays: the uniform ones, those with a member, the bays of the mixed ones.
    Zombit,
    /// Runs of members: where they begin, and the sums of their lengths.
    Pioneer,
}

/// A flaw, with the form and the part of it in which it was found: part 0 is the numbers passed in.
#[derive(Clone, Copy, PartialEq, Eq, Debug)]
pub struct Fault {
    pub flaw: Flaw,
    pub form: Form,
    // A number, since the number is what is told: a kind for each would only spell it out.
    pub part: u8,
}

/// Why a call on sets refuses its arguments, with the number of the refusal.
#[derive(Clone, Copy, PartialEq, Eq, Debug)]
pub enum Refusal {
    /// A bay, the k of a k-th bay or a place is 0, or the first bay is above the last.
    NoBay = 7,
    /// There is no such sign.
    NoSign = 8,
    /// A bay or a sign's post is beyond the last bay, or a place beyond the one behind it.
    Beyond = 9,
    /// The place lies behind the present one.
    Behind = 10,
    /// There are not so many members.
    TooFew = 11,
}
