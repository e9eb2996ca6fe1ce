//! Does pieces of work that no file can ask for, each of which a word asks for, and prints the
//! whole answer, or says that memory ran out. Without words it does all of them.
#![tactic(auto)]

use std::alloc::AllocGlobal;
use std::env::Env;
use std::process::ExitCode;
use std::{env, io};

mod by_hand;
mod commands;
mod copied;
mod extensions;
mod left;
mod names;
mod run;
mod scenario;
mod stop;
mod typed;

/// The words that the program was called with, without its own name.
fn words<R: Env + AllocGlobal>(rt: &R) -> io::Result<Vec<String>> {
    let mut words = Vec::new(rt.alloc());
    for word in env::args(rt)?.skip(1) {
        words.push(word)?;
    }
    Ok(words)
}

fn main(rt: HostRuntime) -> ExitCode {
    let mut err = rt.stderr();
    ExitCode::from(match words(&rt) {
        Ok(words) => run::run(rt.alloc(), &words, &mut io::writer(&rt), &mut err),
        Err(error) => run::unread(&error, &mut err),
    })
}
