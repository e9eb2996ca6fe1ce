//! Texts put in the place of files, whole or not at all.

use std::alloc::AllocGlobal;
use std::fs::{File, Metadata};
use std::io::Write;
use std::os::unix::fs::{MetadataExt, OpenOptionsExt, chown};
use std::path::{Path, PathBuf};
use std::rt::Files;
use std::{fs, io};

/// How many names are tried beside a file, where others have them.
const NAMES: u32 = 10_000;

/// How many links are followed, one to the next, as the system has it.
const LINKS: u32 = 40;

/// The mode of a file while it is written: its owner's alone.
const OWN: u32 = 0o600;

/// The mode of a new file, of which the system takes away what the umask has.
const NEW: u32 = 0o666;

/// A file that is to take the place of another, with its name beside that.
#[derive(Drop)]
struct Beside<F> {
    file: F,
    path: PathBuf,
}

/// Makes a file beside the place of another, of a name that nobody has.
fn make_beside<R: Files + AllocGlobal>(
    rt: &R,
    place: &Path<'_>,
    mode: u32,
) -> io::Result<Beside<R::File>> {
    for number in 0..NAMES {
        let name = format!(in rt.alloc(); ".cedar_check-{number}")?;
        let path = place.with_file_name(rt.alloc(), name.as_str())?;
        match File::options()
            .write(true)
            .create_new(true)
            .mode(mode)
            .open(rt, &path)
        {
            Ok(file) => return Ok(Beside { file, path }),
            Err(error) if error.kind() == io::ErrorKind::AlreadyExists => {}
            Err(error) => return Err(error),
        }
    }
    Err(io::Error::from(io::ErrorKind::AlreadyExists))
}

/// Writes a text into a file, gives it what the file has whose place it takes, if there is one, and
/// puts it there.
fn fill<R: Files>(
    rt: &R,
    beside: &mut Beside<R::File>,
    place: &Path<'_>,
    old: Option<&Metadata>,
    text: &str,
) -> io::Result<()> {
    beside.file.write_all(text.as_bytes())?;
    if let Some(old) = old {
        // Who may not give a file away keeps it.
        let _ = chown(rt, &beside.path, Some(old.uid()), Some(old.gid()));
        fs::set_permissions(rt, &beside.path, old.permissions())?;
    }
    fs::rename(rt, &beside.path, place)
}

/// Puts a text in the place of a regular file, or where there is none. What was written beside it
/// is taken away again where that fails.
fn put_in_place<R: Files + AllocGlobal>(
    rt: &R,
    place: &Path<'_>,
    old: Option<&Metadata>,
    text: &str,
) -> io::Result<()> {
    let mode = if old.is_some() { OWN } else { NEW };
    let mut beside = make_beside(rt, place, mode)?;
    let filled = fill(rt, &mut beside, place, old, text);
    if filled.is_err() {
        let _ = fs::remove_file(rt, &beside.path);
    }
    filled
}

/// Replaces a regular file, at the end of the links that lead to it. One that may not be written
/// is left as it is.
fn replace_file<R: Files + AllocGlobal>(
    rt: &R,
    name: &str,
    old: &Metadata,
    text: &str,
) -> io::Result<()> {
    let _writable = File::options().append(true).open(rt, name)?;
    let place = fs::canonicalize(rt, name)?;
    put_in_place(rt, &place.as_path(), Some(old), text)
}

/// Writes a text into what is no regular file: a device, or a pipe that has a name.
fn write_through<R: Files>(rt: &R, name: &str, text: &str) -> io::Result<()> {
    let mut file = File::options().write(true).open(rt, name)?;
    file.write_all(text.as_bytes())
}

/// Where a link of a name leads, if it is one.
fn next_link<R: Files + AllocGlobal>(rt: &R, path: &PathBuf) -> io::Result<Option<PathBuf>> {
    match fs::symlink_metadata(rt, path) {
        Ok(found) if found.is_symlink() => {
            let target = fs::read_link(rt, path)?;
            let folder = path.parent().unwrap_or(Path::new(""));
            Ok(Some(folder.join(rt.alloc(), &target)?))
        }
        _ => Ok(None),
    }
}

/// Makes a file where there is none, at the end of the links that lead there.
fn make_file<R: Files + AllocGlobal>(rt: &R, name: &str, text: &str) -> io::Result<()> {
    let mut place = PathBuf::from_str(rt.alloc(), name)?;
    for _ in 0..LINKS {
        match next_link(rt, &place)? {
            Some(next) => place = next,
            None => break,
        }
    }
    put_in_place(rt, &place.as_path(), None, text)
}

/// Puts a text in the place of a file of a name. Links are followed; what is no regular file is
/// written through; a regular file keeps its mode and, where that is allowed, its owner, and stays
/// as it was where something fails.
pub(crate) fn replace<R: Files + AllocGlobal>(rt: &R, name: &str, text: &str) -> io::Result<()> {
    match fs::metadata(rt, name) {
        Ok(old) if old.is_file() => replace_file(rt, name, &old, text),
        Ok(_) => write_through(rt, name, text),
        Err(error) if error.kind() == io::ErrorKind::NotFound => make_file(rt, name, text),
        Err(error) => Err(error),
    }
}
