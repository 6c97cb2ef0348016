// Answers commands about two slots of bay sets and a round over them, one line of input after the other.
#![tactic(auto)]

mod help;
mod session;
mod talk;

use help::HELP;
use session::play;
use std::io;
use talk::Talk;

fn main(rt: HostRuntime) -> anyhow::Result<()> {
    let mut talk = Talk::new(rt.alloc(), rt.reader(), io::writer(&rt))?;
    if talk.is_over()? {
        talk.write(HELP)?;
    } else {
        play(rt.alloc(), &mut talk)?;
    }
    talk.flush()?;
    Ok(())
}
