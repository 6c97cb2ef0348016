// What a listing answers.
use round::Report;

/// How many rows were written, and the closing report.
#[derive(Clone, Copy, PartialEq, Eq, Debug)]
pub struct Listed {
    pub rows: usize,
    pub report: Report,
}
