// How a reply reads.
ghost use Rattle.replies.specs.Texts.{called_text, reply_text};
ghost use Rattle.std.specs.Prelude.{Some};

use super::reply::{Called, Reply};
use opening::Side;
use replay::Answer;
use std::fmt;

impl fmt::Display for Called {
    ghost output = { λ x. Some (called_text x.0) };

    fn fmt<W: fmt::Write>(&self, f: &mut fmt::Formatter<W>) -> fmt::Result {
        match self.0 {
            Answer::Count(Ok(n)) | Answer::Pick(Ok(n)) => write!(f, "{n}"),
            Answer::Nearest(Ok(Some(bay))) | Answer::Sign(Ok(Some(bay))) => write!(f, "{bay}"),
            Answer::Nearest(Ok(None)) | Answer::Sign(Ok(None)) => f.write_str("none"),
            Answer::Go(Ok(())) => f.write_str("ok"),
            Answer::Next(taken) => write!(f, "{taken}"),
            Answer::Sheet(written) => write!(f, "{} {}", written.bays, written.stretches),
            Answer::Count(Err(refusal))
            | Answer::Nearest(Err(refusal))
            | Answer::Sign(Err(refusal))
            | Answer::Pick(Err(refusal))
            | Answer::Go(Err(refusal)) => write!(f, "refused {}", refusal.number()),
        }
    }
}

impl fmt::Display for Reply {
    ghost output = { λ x. Some (reply_text x) };

    fn fmt<W: fmt::Write>(&self, f: &mut fmt::Formatter<W>) -> fmt::Result {
        match self {
            Reply::Done => f.write_str("ok"),
            Reply::Number(n) => write!(f, "{n}"),
            Reply::Bay(Some(bay)) => write!(f, "{bay}"),
            Reply::Bay(None) => f.write_str("none"),
            Reply::Holds(true) => f.write_str("yes"),
            Reply::Holds(false) => f.write_str("no"),
            Reply::Refused(refusal) => write!(f, "refused {}", refusal.number()),
            Reply::Faulty(fault) => write!(f, "{fault}"),
            Reply::FaultyPair(pair) => match pair.side {
                Side::F => write!(f, "{} free", pair.fault),
                Side::C => write!(f, "{} class", pair.fault),
            },
            Reply::Closed(report) => write!(f, "{report}"),
            Reply::NoRound => f.write_str("no round"),
        }
    }
}
