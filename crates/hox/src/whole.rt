//! Writing a whole file, or leaving it as it was.
use crate::same::folder_and_name;
use std::fs::{Metadata, OpenFile, OpenOptions};
use std::io::Write;
use std::os::unix::fs::{MetadataExt, chown};
use std::rt::Files;
use std::{fs, io};

/// How many links are followed, one to another.
const MOST_LINKS: usize = 40;

/// How many names are tried for a file beside another.
const MOST_NAMES: u32 = 1000;

/// Writes a file of this name. What is there but no file, as a pipe or a device, is written as it stands; a file is
/// written beside its place, and takes it when it is whole, and whose it is and who may read and write it stays as it
/// was. A link stays, and the file to which it leads is written.
pub(crate) fn write_whole<R: Files + AllocGlobal>(
    rt: &R,
    name: &str,
    bytes: &[u8],
) -> io::Result<()> {
    let target = target_of(rt, name)?;
    match fs::metadata(rt, name) {
        Ok(there) if is_in_place(name, &there) => fs::create(rt, name)?.write_all(bytes),
        Ok(there) => {
            check_writable(rt, target.as_str())?;
            replace(rt, target.as_str(), bytes, Some(&there))
        }
        Err(_) => replace(rt, target.as_str(), bytes, None),
    }
}

/// Whether what is there is written as it stands: what is no file, and all that the system makes, as `/dev/fd/3`.
fn is_in_place(name: &str, there: &Metadata) -> bool {
    !there.is_file() || name.starts_with("/dev/") || name.starts_with("/proc/")
}

/// Where a path leads, if it is a link, and maybe one to a file that isn't there: the path of what it stands for.
pub(crate) fn target_of<R: Files + AllocGlobal>(rt: &R, path: &str) -> io::Result<String> {
    let mut target = String::from_str(rt.alloc(), path)?;
    for _ in 0..MOST_LINKS {
        match followed(rt, target.as_str())? {
            Some(next) => target = next,
            None => return Ok(target),
        }
    }
    Err(io::ErrorKind::FilesystemLoop.into())
}

/// The path to which a link leads, if this is one.
fn followed<R: Files + AllocGlobal>(rt: &R, path: &str) -> io::Result<Option<String>> {
    match fs::symlink_metadata(rt, path) {
        Ok(metadata) if metadata.is_symlink() => Ok(Some(linked(rt, path)?)),
        _ => Ok(None),
    }
}

/// The path to which a link leads, from the folder of the link.
fn linked<R: Files + AllocGlobal>(rt: &R, path: &str) -> io::Result<String> {
    let text = fs::read_link(rt, path)?.into_string();
    let text = text.as_str();
    if text.starts_with('/') {
        return Ok(String::from_str(rt.alloc(), text)?);
    }
    let (folder, _) = folder_and_name(path);
    let mut target = String::from_str(rt.alloc(), folder)?;
    target.push_str("/")?;
    target.push_str(text)?;
    Ok(target)
}

/// Checks that a file may be written, without writing it.
fn check_writable<R: Files>(rt: &R, path: &str) -> io::Result<()> {
    let mut options = OpenOptions::new();
    options.write(true);
    options.open(rt, path)?;
    Ok(())
}

/// Writes a file beside this one, and has it take its place. What was there before is given if there was something.
fn replace<R: Files + AllocGlobal>(
    rt: &R,
    path: &str,
    bytes: &[u8],
    before: Option<&Metadata>,
) -> io::Result<()> {
    let (part, file) = create_beside(rt, path)?;
    let moved = match write_part(rt, part.as_str(), file, bytes, before) {
        Ok(()) => fs::rename(rt, part.as_str(), path),
        Err(error) => Err(error),
    };
    if moved.is_err() {
        let _ = fs::remove_file(rt, part.as_str());
    }
    moved
}

/// Writes a file that was just made, which belongs to whom the one before belonged, if the system allows it, and has
/// its permissions.
fn write_part<R: Files>(
    rt: &R,
    part: &str,
    mut file: R::File,
    bytes: &[u8],
    before: Option<&Metadata>,
) -> io::Result<()> {
    if let Some(before) = before {
        let _ = chown(rt, part, Some(before.uid()), Some(before.gid()));
        file.set_permissions(before.permissions())?;
    }
    file.write_all(bytes)
}

/// Makes a file beside this one, under a name that no file has: `.part` after it, and if need be a number.
fn create_beside<R: Files + AllocGlobal>(rt: &R, path: &str) -> io::Result<(String, R::File)> {
    let mut options = OpenOptions::new();
    options.write(true).create_new(true);
    for number in 0..MOST_NAMES {
        let part = beside(rt, path, number)?;
        match options.open(rt, part.as_str()) {
            Ok(file) => return Ok((part, file)),
            Err(error) if error.kind() == io::ErrorKind::AlreadyExists => {}
            Err(error) => return Err(error),
        }
    }
    Err(io::ErrorKind::AlreadyExists.into())
}

/// The name of a file beside this one.
fn beside<R: AllocGlobal>(rt: &R, path: &str, number: u32) -> io::Result<String> {
    let part = if number == 0 {
        format!(in rt.alloc(); "{path}.part")?
    } else {
        format!(in rt.alloc(); "{path}.part{number}")?
    };
    Ok(part)
}
