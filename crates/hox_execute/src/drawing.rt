//! Draws a network.
ghost use Rattle.std.specs.Prelude.{◌≡◌, is_some};
ghost use Rattle.hox_execute.specs.OnFiles.{DrawsNamed, EndsDrawOn};

use crate::checking::network_in;
use crate::writing::write_text;
use hox_args::DrawChoice;
use hox_draw::{WantedPicture, draw as picture_of};
use hox_files::files::FileSystem;
use hox_files::reading::asked_of;
use hox_files::stops::{RefusedRequest, Stop, Unserved, unopened};
use hox_files::watching::Watched;
use kpn_compute::Computes;
use kpn_front::ExitStatus;
use kpn_picture::Titled;
use std::alloc::Global;
use std::rt::Clock;
use std::sync::Wait;
use std::thread::Threads;

/// Draws a network, with the tokens of files, as was chosen, and writes the picture to standard output. Returns the
/// exit status. Errors: see [`Stop`].
pub(crate) fn draw<'a, K: Computes + Titled, S: FileSystem, R: Wait + Clock + Threads + Sync>(
    rt: &R,
    alloc: Global,
    files: &mut S,
    choice: &DrawChoice<'a>,
) -> Result<ExitStatus, Stop<'a>>
    ensures { EndsDrawOn K.Kinds S.FileSystem files.old files.new K.title choice.now result }
{
    let workers = choice.workers.unwrap_or(1);
    let wanted = network_in(choice.file, choice.formats.as_slice(), workers);
    let asked = asked_of(alloc, files, wanted, choice.tokens.as_slice(), &[])?;
    let requested = WantedPicture {
        request: &asked.request,
        direction: choice.direction,
        is_run: is_run(choice),
    };
    match drawn::<K, S, R>(rt, alloc, files, &requested, wanted.file) {
        Ok(picture) => Ok(write_text(files, picture.as_str().as_bytes())),
        Err(Unserved { fault, error }) => Err(Stop::Refused(RefusedRequest {
            file: wanted.file,
            asked,
            fault,
            error,
        })),
    }
}

fn is_run(choice: &DrawChoice<'_>) -> bool
    ensures { result ≡ is_some choice.now.workers }
{
    choice.workers.is_some()
}

/// Draws the network of a description. A file that can't be opened counts as one that can't be read.
fn drawn<K: Computes + Titled, S: FileSystem, R: Wait + Clock + Threads + Sync>(
    rt: &R,
    alloc: Global,
    files: &S,
    wanted: &WantedPicture<'_>,
    name: &str,
) -> Result<String, Unserved>
    ensures { DrawsNamed K.Kinds S.FileSystem files.now K.title wanted.now name.now result }
{
    let mut source = match files.open(name) {
        Ok(source) => Watched::new(source),
        Err(error) => return Err(unopened(alloc, error)),
    };
    match picture_of::<K, _, _>(rt, alloc, wanted, &mut source) {
        Ok(picture) => Ok(picture),
        Err(fault) => Err(Unserved {
            fault,
            error: source.error(),
        }),
    }
}
