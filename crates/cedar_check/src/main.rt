//! Checks, builds, shows, draws, links, lays out and compares schemas of the Cedar policy language
//! that stand in files.
#![tactic(auto)]

mod replacing;

use cedar_cli::{FileAccess, FileFault, run, unread};
use replacing::replace;
use std::alloc::{AllocGlobal, Global};
use std::env::Env;
use std::fs::File;
use std::io::Read;
use std::process::ExitCode;
use std::rt::Files;
use std::{env, fs, io};

/// The files of the system that the program runs in.
#[derive(Drop)]
struct SystemFiles<'r, R> {
    rt: &'r R,
}

/// The most bytes that are read of a file: 4 GiB but one, which no reader of schemas takes.
const MOST: u64 = 0xffff_ffff;

/// The bytes of what is read to its end, or the first of them where there are too many.
fn whole<T: Read + Drop>(alloc: Global, from: T) -> io::Result<Vec<u8>> {
    let mut bytes = Vec::new(alloc);
    from.take(MOST).read_to_end(&mut bytes)?;
    Ok(bytes)
}

/// The bytes of a file.
fn whole_file<R: Files + AllocGlobal>(rt: &R, name: &str) -> io::Result<Vec<u8>> {
    whole(rt.alloc(), File::open(rt, name)?)
}

/// Whether two names lead to one file.
fn lead_to_one<R: Files + AllocGlobal>(rt: &R, first: &str, second: &str) -> io::Result<bool> {
    let first = fs::canonicalize(rt, first)?;
    let second = fs::canonicalize(rt, second)?;
    Ok(first == second)
}

/// What the system says of a file, or that memory ran out.
fn file_fault(alloc: Global, error: &io::Error) -> FileFault {
    if error.kind() == io::ErrorKind::OutOfMemory {
        return FileFault::Memory;
    }
    match format!(in alloc; "{error}") {
        Ok(why) => FileFault::Refused(why),
        Err(_) => FileFault::Memory,
    }
}

impl<R: Files + Input + AllocGlobal> FileAccess for SystemFiles<'_, R> {
    fn read(&mut self, alloc: Global, name: &str) -> Result<Vec<u8>, FileFault> {
        let read = if name == "-" {
            whole(alloc, self.rt.reader())
        } else {
            whole_file(self.rt, name)
        };
        match read {
            Ok(bytes) => Ok(bytes),
            Err(error) => Err(file_fault(alloc, &error)),
        }
    }

    fn is_same(&mut self, first: &str, second: &str) -> bool {
        first == second || lead_to_one(self.rt, first, second).unwrap_or(false)
    }

    fn is_there(&mut self, name: &str) -> bool {
        match fs::symlink_metadata(self.rt, name) {
            Ok(_) => true,
            Err(error) => error.kind() != io::ErrorKind::NotFound,
        }
    }

    fn is_kept(&mut self, name: &str) -> bool {
        match fs::metadata(self.rt, name) {
            Ok(found) => found.is_file(),
            Err(_) => false,
        }
    }

    fn replace(&mut self, alloc: Global, name: &str, text: &str) -> Result<(), FileFault> {
        match replace(self.rt, name, text) {
            Ok(()) => Ok(()),
            Err(error) => Err(file_fault(alloc, &error)),
        }
    }
}

/// The words that the program was called with.
fn words<R: Env + AllocGlobal>(rt: &R) -> io::Result<Vec<String>> {
    let mut words = Vec::new(rt.alloc());
    for word in env::args(rt)? {
        words.push(word)?;
    }
    Ok(words)
}

fn main(rt: HostRuntime) -> ExitCode {
    let mut err = rt.stderr();
    let mut files = SystemFiles { rt: &rt };
    ExitCode::from(match words(&rt) {
        Ok(words) => run(
            rt.alloc(),
            &words,
            &mut files,
            &mut io::writer(&rt),
            &mut err,
        ),
        Err(error) => unread(&error, &mut err),
    })
}
