//! Which names are one file.
use crate::host::{is_input, is_output};
use crate::whole::target_of;
use std::fs;
use std::fs::Metadata;
use std::os::unix::fs::{FileTypeExt, MetadataExt};
use std::rt::Files;

/// Which file a name means, as the system tells it: its device and its number there, or those of the folder in which
/// it is to be made, with its name in it.
#[derive(Drop)]
struct Identity {
    device: u64,
    number: u64,
    made: Option<String>,
    /// What is written to it stays.
    is_kept: bool,
    /// What is read of it is gone.
    is_read_up: bool,
}

/// Whether two names, each written or else read, can't be used beside each other: see
/// [`FileSystem::clashes`](hox_execute::FileSystem::clashes). It is taken for no clash where the system does not tell
/// which files they are.
pub(crate) fn can_clash<R: Files + AllocGlobal>(
    rt: &R,
    one: &str,
    writes_one: bool,
    other: &str,
    writes_other: bool,
) -> bool {
    if is_standard(one, writes_one)
        && is_standard(other, writes_other)
        && writes_one == writes_other
    {
        return true;
    }
    let (Some(first), Some(second)) = (
        identity_of(rt, one, writes_one),
        identity_of(rt, other, writes_other),
    ) else {
        return false;
    };
    if !is_one(&first, &second) {
        return false;
    }
    if writes_one || writes_other {
        first.is_kept
    } else {
        first.is_read_up
    }
}

/// Whether this is a name of standard output, or else of standard input.
fn is_standard(name: &str, is_written: bool) -> bool {
    if is_written {
        is_output(name)
    } else {
        is_input(name)
    }
}

/// Whether these are one file.
fn is_one(first: &Identity, second: &Identity) -> bool {
    first.device == second.device && first.number == second.number && first.made == second.made
}

/// Which file a name means, if the system tells it.
fn identity_of<R: Files + AllocGlobal>(rt: &R, name: &str, is_written: bool) -> Option<Identity> {
    let path = path_of(name, is_written);
    match fs::metadata(rt, path) {
        Ok(metadata) => Some(identity_by(&metadata)),
        Err(_) if is_written => identity_to_come(rt, path),
        Err(_) => None,
    }
}

/// The path under which the system tells of a name.
fn path_of(name: &str, is_written: bool) -> &str {
    match name {
        "-" if is_written => "/dev/stdout",
        "-" => "/dev/stdin",
        path => path,
    }
}

/// A file that is there.
fn identity_by(metadata: &Metadata) -> Identity {
    let kind = metadata.file_type();
    Identity {
        device: metadata.dev(),
        number: metadata.ino(),
        made: None,
        is_kept: metadata.is_file(),
        is_read_up: kind.is_fifo() || kind.is_socket(),
    }
}

/// A file that is to be made where a path leads.
fn identity_to_come<R: Files + AllocGlobal>(rt: &R, path: &str) -> Option<Identity> {
    let target = target_of(rt, path).ok()?;
    let (folder, name) = folder_and_name(target.as_str());
    let metadata = fs::metadata(rt, folder).ok()?;
    Some(Identity {
        device: metadata.dev(),
        number: metadata.ino(),
        made: Some(String::from_str(rt.alloc(), name).ok()?),
        is_kept: true,
        is_read_up: false,
    })
}

/// The folder of a path, and its name in it.
pub(crate) fn folder_and_name(path: &str) -> (&str, &str) {
    match path.rsplit_once('/') {
        Some(("", name)) => ("/", name),
        Some((folder, name)) => (folder, name),
        None => (".", path),
    }
}
