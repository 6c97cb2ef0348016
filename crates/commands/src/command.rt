// What a line can ask of the console.

use drafts::Draft;
use forms::Choice;
use replay::Call;
use sets::Sort;

/// The two places that hold an open index.
#[derive(Clone, Copy, PartialEq, Eq, Debug)]
pub enum Slot {
    Free,
    Class,
}

/// A question about the set of a slot.
#[derive(Clone, Copy, PartialEq, Eq, Debug)]
pub enum Question {
    Last,
    Holds(u32),
    Next(Sort, u32),
    Previous(Sort, u32),
    Rank(Sort, u32),
    Select(Sort, u32),
}

/// A command.
#[derive(Debug, Drop)]
pub enum Command {
    /// An index in the place of the slot's.
    Open { slot: Slot, draft: Draft },
    /// An index in the place of each of the two.
    Pair { free: Draft, class: Draft },
    /// The slot's set, filled into a form, in the place of its index.
    Fill { slot: Slot, choice: Choice },
    /// The members and the non-members of the slot's set exchanged.
    Turn(Slot),
    /// The bays from `a` to `b` of the slot's set.
    Level { slot: Slot, a: u32, b: u32 },
    /// A question about the slot's set.
    Ask { slot: Slot, question: Question },
    /// A fresh round over the two sets.
    Round,
    /// A call of the round.
    Call(Call),
    /// The end of the round.
    Close,
}
