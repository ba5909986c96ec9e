// The program `prizes`. So far it explains a pattern's text atom by atom: `prizes pattern KIND TEXT`.
#![tactic(auto)]

mod command;
mod explain;
mod shown;

use crate::command::{Command, KindName, Unclear, read_command};
use crate::explain::told;
use anyhow::anyhow;
use byte_kind::Bytes;
use rounds::Rounds;
use std::alloc::Global;

const USAGE: &str = "usage: prizes pattern KIND TEXT

Explains a text that is one atom after another: where each stands, how many bytes spell it, and
which symbols it admits; or why the text is refused, and where.

KIND  bytes   symbols are bytes, as in the moves of a game file
      rounds  symbols are a player's rounds: Ww is a win with White, Lb a loss with Black,
              Du an unplayed round counted as a draw
";

fn main(rt: HostRuntime) -> anyhow::Result<()> {
    // matches: what is asked is a closed choice
    match read_command(&rt) {
        Ok(Command::Usage) => Ok(rt.print(USAGE)?),
        Ok(Command::Pattern(kind, text)) => tell(&rt, rt.alloc(), kind, text.as_str()),
        Err(unclear) => {
            eprintln!(rt; "{unclear}")?;
            // arguments that could not be read end the program with their own error
            Err(match unclear {
                Unclear::Unread(error) => error.into(),
                other => other.into(),
            })
        }
    }
}

// Prints what can be told of a text; a text that is refused is an error.
fn tell(rt: &impl Print, heap: Global, kind: KindName, text: &str) -> anyhow::Result<()> {
    let mut lines = String::new(heap);
    // a match: each kind is a type of its own, and there is one for each name
    let fault = match kind {
        KindName::Bytes => told::<Bytes>(text, &mut lines)?,
        KindName::Rounds => told::<Rounds>(text, &mut lines)?,
    };
    rt.print(lines.as_str())?;
    match fault {
        None => Ok(()),
        Some(_) => Err(anyhow!("the text is refused")),
    }
}
