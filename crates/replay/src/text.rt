// How a call, its answer and an exchange read.
ghost use Rattle.replay.specs.Texts.{answer_text, call_text, exchange_text};
ghost use Rattle.std.specs.Prelude.{Some};

use super::calls::{Answer, Call, Exchange};
use std::fmt;

impl fmt::Display for Call {
    ghost output = { λ x. Some (call_text x) };

    fn fmt<W: fmt::Write>(&self, f: &mut fmt::Formatter<W>) -> fmt::Result {
        match self {
            Call::Count { a, b } => write!(f, "count {a} {b}"),
            Call::Nearest(p) => write!(f, "nearest {p}"),
            Call::Sign(sign) => write!(f, "sign {sign}"),
            Call::Pick(k) => write!(f, "pick {k}"),
            Call::Go(q) => write!(f, "go {q}"),
            Call::Next => f.write_str("next"),
            Call::Sheet(k) => write!(f, "sheet {k}"),
        }
    }
}

impl fmt::Display for Answer {
    ghost output = { λ x. Some (answer_text x) };

    fn fmt<W: fmt::Write>(&self, f: &mut fmt::Formatter<W>) -> fmt::Result {
        match self {
            Answer::Count(Ok(n)) | Answer::Pick(Ok(n)) => write!(f, "{n}"),
            Answer::Nearest(Ok(bay)) | Answer::Sign(Ok(bay)) => write!(f, "{}", bay.unwrap_or(0)),
            Answer::Go(Ok(())) => f.write_str("gone"),
            Answer::Next(taken) => write!(f, "{taken}"),
            Answer::Sheet(written) => write!(f, "{} {}", written.bays, written.stretches),
            Answer::Count(Err(refusal))
            | Answer::Nearest(Err(refusal))
            | Answer::Sign(Err(refusal))
            | Answer::Pick(Err(refusal))
            | Answer::Go(Err(refusal)) => write!(f, "refused {}", refusal.number()),
        }
    }
}

impl fmt::Display for Exchange {
    ghost output = { λ x. Some (exchange_text x) };

    fn fmt<W: fmt::Write>(&self, f: &mut fmt::Formatter<W>) -> fmt::Result {
        write!(f, "{}: {} | {}", self.call, self.first, self.second)
    }
}
