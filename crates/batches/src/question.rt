// The questions that are asked at many places.

/// What is asked of a set.
#[derive(Clone, Copy, PartialEq, Eq, Debug)]
pub enum Question {
    Holds,
    Next,
    Previous,
    Rank,
    Select,
}
