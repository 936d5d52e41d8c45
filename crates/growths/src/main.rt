//! The program `growths`: makes each call of a registry on a disk in memory while one growth (a
//! request for memory) is refused. It prints the first unexpected answer, and the state of the
//! registry after it.
#![tactic(auto)]

mod asked;
mod counted;
mod every_line;
mod format;
mod listed;
mod replies;
mod rounds;
mod run;
mod seen;
mod steps;
mod texts;
mod words;

use std::io;

fn main(rt: HostRuntime) -> io::Result<()> {
    match run::run(rt.alloc()) {
        Ok(None) => println!(rt; "as where no growth is refused")?,
        Ok(Some(words)) => {
            for (at, word) in words.told().iter().enumerate() {
                let space = if at == 0 { "" } else { " " };
                print!(rt; "{space}{word}")?;
            }
            println!(rt; "")?;
        }
        Err(_) => println!(rt; "the program's own")?,
    }
    Ok(())
}
