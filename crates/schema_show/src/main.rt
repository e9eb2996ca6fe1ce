//! Shows the schemas of some built-in cases as sorted lines, and joins of some types.
#![tactic(auto)]

use schema_lines::{run, unread};
use std::alloc::AllocGlobal;
use std::env::Env;
use std::process::ExitCode;
use std::{env, io};

/// The words that the program was called with, without its own name.
fn words<R: Env + AllocGlobal>(rt: &R) -> io::Result<Vec<String>> {
    let mut words = Vec::new(rt.alloc());
    for word in env::args(rt)?.skip(1) {
        words.push(word)?;
    }
    Ok(words)
}

fn main(rt: HostRuntime) -> ExitCode {
    let mut err = rt.stderr();
    ExitCode::from(match words(&rt) {
        Ok(words) => run(rt.alloc(), &words, &mut io::writer(&rt), &mut err),
        Err(error) => unread(&error, &mut err),
    })
}
