// The first words of commands and of questions.

/// The name of a command.
#[derive(Clone, Copy)]
pub(crate) enum Name {
    Open,
    Pair,
    Fill,
    Turn,
    Level,
    Free,
    Class,
    Round,
    Next,
    Sheet,
    Go,
    Count,
    Nearest,
    Sign,
    Pick,
    Close,
}

/// The name of a question.
#[derive(Clone, Copy)]
pub(crate) enum Asked {
    Last,
    Holds,
    Next,
    Previous,
    Rank,
    Select,
}
