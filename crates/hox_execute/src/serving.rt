//! Serves the arguments.
ghost use Rattle.std.specs.Prelude.{◌≡◌, IfOk, IfErr, MatchResult, OnErr};
ghost use Rattle.hox_execute.specs.OnFiles.{EndsChoiceOn, ServesOn, StopsOn};
ghost use Rattle.hox_execute.specs.Program.{ExitsWith, IsRanAs};

use crate::checking::{check, network_in};
use crate::drawing::draw;
use crate::running::{Ran, run};
use hox_args::{Choice, KindsChoice, StreamChoice, read_words};
use hox_files::files::FileSystem;
use hox_files::stops::Stop;
use hox_run::ProgressReceiver;
use kpn_compute::Computes;
use kpn_front::ExitStatus;
use kpn_picture::Titled;
use std::alloc::Global;
use std::rt::Clock;
use std::sync::Wait;
use std::thread::Threads;

/// What `serve` did, or leaves to do.
#[derive(Drop)]
pub enum ServedCommand<'a> {
    /// All is done. The program exits with this status: 0, or 7 if a write failed.
    Exits(ExitStatus),
    /// A network was run. The program exits with its status: that of the verdict, or 2 if a token does not
    /// fit a file, or 7 if a write failed.
    Ran(Ran<'a>),
    /// This stream is still to be run. Nothing is done yet.
    Streams(StreamChoice<'a>),
    /// These kinds are still to be listed. Nothing is done yet.
    Lists(KindsChoice<'a>),
}

/// Does what the arguments ask for; the first is the program's name. With a family of kinds, checks, runs or draws the
/// network of a description on the tokens of files, and writes the report and the streams. `progress`
/// receives the progress of a run, if the arguments ask for it or it wants it.
///
/// Errors: see [`Stop`]. Then nothing is written.
pub fn serve<
    'a,
    K: Computes + Titled,
    S: FileSystem,
    R: Wait + Clock + Threads + Sync,
    P: ProgressReceiver,
>(
    rt: &R,
    alloc: Global,
    files: &mut S,
    arguments: &'a [&'a str],
    progress: &P,
) -> Result<ServedCommand<'a>, Stop<'a>>
    ensures done { IfOk result (ServesOn K.Kinds S.FileSystem files.old files.new K.title arguments.entry.now) }
    ensures stop { IfErr result (StopsOn K.Kinds S.FileSystem files.old arguments.entry.now) }
    ensures untouched { OnErr result (S.effects files.new ≡ S.effects files.old) }
{
    match read_words(alloc, arguments) {
        Ok(choice) => serve_choice::<K, S, R, P>(rt, alloc, files, choice, progress),
        Err(fault) => Err(Stop::Words(fault)),
    }
}

fn serve_choice<
    'a,
    K: Computes + Titled,
    S: FileSystem,
    R: Wait + Clock + Threads + Sync,
    P: ProgressReceiver,
>(
    rt: &R,
    alloc: Global,
    files: &mut S,
    choice: Choice<'a>,
    progress: &P,
) -> Result<ServedCommand<'a>, Stop<'a>>
    ensures { EndsChoiceOn K.Kinds S.FileSystem files.old files.new K.title choice.entry result }
{
    match choice {
        Choice::Check(chosen) => {
            let wanted = network_in(chosen.file, chosen.formats.as_slice(), 1);
            let tokens = chosen.tokens.as_slice();
            exits(check::<K, S>(alloc, files, wanted, tokens, chosen.expanded))
        }
        Choice::Run(chosen) => has_run(run::<K, S, R, P>(rt, alloc, files, &chosen, progress)),
        Choice::Draw(chosen) => exits(draw::<K, S, R>(rt, alloc, files, &chosen)),
        Choice::Stream(stream) => Ok(ServedCommand::Streams(stream)),
        Choice::Kinds(kinds) => Ok(ServedCommand::Lists(kinds)),
    }
}

fn exits<'a>(done: Result<ExitStatus, Stop<'a>>) -> Result<ServedCommand<'a>, Stop<'a>>
    ensures { MatchResult result (ExitsWith done.entry) (λ stop. done.entry ≡ Err stop) }
{
    match done {
        Ok(status) => Ok(ServedCommand::Exits(status)),
        Err(stop) => Err(stop),
    }
}

fn has_run<'a>(done: Result<Ran<'a>, Stop<'a>>) -> Result<ServedCommand<'a>, Stop<'a>>
    ensures { MatchResult result (IsRanAs done.entry) (λ stop. done.entry ≡ Err stop) }
{
    match done {
        Ok(ran) => Ok(ServedCommand::Ran(ran)),
        Err(stop) => Err(stop),
    }
}
