// The commands one after the other: a round goes on over its own copy of the sets while the slots change.

use super::talk::Talk;
use anyhow::Result;
use commands::{Command, Slot};
use drafts::write_draft;
use forms::{Choice, Index};
use replay::Call;
use replies::{Reply, call_round, write_called};
use round::Round;
use slots::{Slots, ask};
use std::alloc::Global;
use std::io::{Read, Write};

// Asks the round a call, and answers by what it answered; of a sheet also by all of its memory.
fn call<R: Read + Drop, W: Write + Drop>(
    alloc: Global,
    round: &mut Round<Index<'_>, Index<'_>>,
    call: Call,
    talk: &mut Talk<R, W>,
) -> Result<()> {
    let (called, memory) = call_round(alloc, round, call)?;
    write_called(talk.answers(), called, &memory)?;
    talk.end_line()
}

// Answers questions and calls of the round, up to a command that changes a slot or opens a round; none at the end of the input.
fn converse<R: Read + Drop, W: Write + Drop>(
    alloc: Global,
    free: Index<'_>,
    class: Index<'_>,
    round: &mut Option<Round<Index<'_>, Index<'_>>>,
    talk: &mut Talk<R, W>,
) -> Result<Option<Command>> {
    for _ in 0..u64::MAX {
        let Some(command) = talk.next_command()? else {
            break;
        };
        match command {
            Command::Ask {
                slot: Slot::Free,
                question,
            } => talk.answer(ask(&free, question))?,
            Command::Ask {
                slot: Slot::Class,
                question,
            } => talk.answer(ask(&class, question))?,
            Command::Call(asked) => match round {
                Some(round) => call(alloc, round, asked, talk)?,
                None => talk.answer(Reply::NoRound)?,
            },
            Command::Close => match round.take() {
                Some(round) => talk.answer(Reply::Closed(round.close()))?,
                None => talk.answer(Reply::NoRound)?,
            },
            command => return Ok(Some(command)),
        }
    }
    Ok(None)
}

// Fills the slot's set anew, and answers by what was written.
fn fill<R: Read + Drop, W: Write + Drop>(
    alloc: Global,
    slots: &mut Slots,
    slot: Slot,
    choice: Choice,
    talk: &mut Talk<R, W>,
) -> Result<()> {
    let reply = slots.fill(alloc, slot, choice)?;
    talk.write(reply)?;
    if reply == Reply::Done {
        talk.write(" ")?;
        write_draft(talk.answers(), slots.of(slot).draft())?;
    }
    talk.end_line()
}

// Obeys a command that changes a slot, and says whether it was one.
fn change<R: Read + Drop, W: Write + Drop>(
    alloc: Global,
    slots: &mut Slots,
    command: Command,
    talk: &mut Talk<R, W>,
) -> Result<bool> {
    match command {
        Command::Open { slot, draft } => talk.answer(slots.open(slot, draft))?,
        Command::Pair { free, class } => talk.answer(slots.open_pair(free, class))?,
        Command::Fill { slot, choice } => fill(alloc, slots, slot, choice, talk)?,
        Command::Turn(slot) => talk.answer(slots.turn(alloc, slot)?)?,
        Command::Level { slot, a, b } => talk.answer(slots.level(alloc, slot, a, b)?)?,
        _ => return Ok(false),
    }
    Ok(true)
}

// Answers one command after the other, up to one that opens a round, and says whether one came.
fn play_on<R: Read + Drop, W: Write + Drop>(
    alloc: Global,
    slots: &mut Slots,
    round: &mut Option<Round<Index<'_>, Index<'_>>>,
    talk: &mut Talk<R, W>,
) -> Result<bool> {
    for _ in 0..u64::MAX {
        let (free, class) = (slots.free.index(), slots.class.index());
        let Some(command) = converse(alloc, free, class, round, talk)? else {
            return Ok(false);
        };
        if !change(alloc, slots, command, talk)? {
            return Ok(true);
        }
    }
    Ok(false)
}

// The same with a round that is open at first, or none; one that is open at the end is closed.
fn play_with<R: Read + Drop, W: Write + Drop>(
    alloc: Global,
    slots: &mut Slots,
    round: Option<Round<Index<'_>, Index<'_>>>,
    talk: &mut Talk<R, W>,
) -> Result<bool> {
    let mut round = round;
    let goes_on = play_on(alloc, slots, &mut round, talk);
    if let Some(round) = round {
        round.close();
    }
    goes_on
}

/// Answers all commands of the input.
pub fn play<R: Read + Drop, W: Write + Drop>(alloc: Global, talk: &mut Talk<R, W>) -> Result<()> {
    let mut slots = Slots::new(alloc)?;
    let mut goes_on = play_with(alloc, &mut slots, None, talk)?;
    for _ in 0..u64::MAX {
        if !goes_on {
            break;
        }
        talk.answer(Reply::Done)?;
        let (free, class) = (slots.free.clone()?, slots.class.clone()?);
        let round = Round::new(free.index(), class.index());
        goes_on = play_with(alloc, &mut slots, Some(round), talk)?;
    }
    Ok(())
}
