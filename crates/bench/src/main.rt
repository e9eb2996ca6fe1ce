//! Measures what the calls of the schema layer cost.
#![tactic(auto)]

use std::alloc::AllocGlobal;
use std::env::Env;
use std::process::ExitCode;
use std::{env, io};

mod by_hand;
mod command;
mod declared;
mod drawn;
mod graphs;
mod measured;
mod memory;
mod names;
mod piece;
mod prepared;
mod run;
mod stop;
mod types;
mod work;

/// The words that the program was called with, without its own name.
fn words<R: Env + AllocGlobal>(rt: &R) -> io::Result<Vec<String>> {
    let mut words = Vec::new(rt.alloc());
    for word in env::args(rt)?.skip(1) {
        words.push(word)?;
    }
    Ok(words)
}

fn main(rt: HostRuntime) -> ExitCode {
    let mut err = rt.stderr();
    ExitCode::from(match words(&rt) {
        Ok(words) => run::run(&rt, rt.alloc(), &words, &mut io::writer(&rt), &mut err),
        Err(error) => run::unread(&error, &mut err),
    })
}
