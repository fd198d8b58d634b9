//! Runs a network.
ghost use Rattle.std.specs.Prelude.{◌≡◌, IfOk, string_bytes};
ghost use Rattle.hox_execute.specs.OnFiles.{EndsRunOn, EndsWriting, RunsNamed};
ghost use Rattle.hox_execute.specs.Program.{want_of_run};
ghost use Rattle.hox_execute.specs.Reports.{rate_of, report_as};
ghost use Rattle.hox_files.specs.Requests.{want_of};

use crate::progress::Asking;
use crate::texts::{FileNote, file_notes, file_texts, rate_of};
use crate::writing::{WrittenStreams, write_told};
use hox_args::RunChoice;
use hox_files::files::FileSystem;
use hox_files::pairs::{Pair, firsts_of, name_of};
use hox_files::reading::{Asked, CommandOptions, asked_of};
use hox_files::stops::{RefusedRequest, Stop, Unserved, unopened};
use hox_files::watching::Watched;
use hox_json::json_of_report;
use hox_network::Request;
use hox_run::{Notes, ProgressReceiver, Told, serve};
use kpn_compute::Computes;
use kpn_front::ExitStatus;
use std::alloc::{AllocError, Global};
use std::rt::Clock;
use std::sync::Wait;
use std::thread::Threads;

/// The outcome of a run: its exit status, what it left unused, the pairs of its token files and output files,
/// and what was written to each output.
#[derive(Drop)]
pub struct Ran<'a> {
    pub status: ExitStatus,
    pub notes: Notes,
    pub tokens: Vec<Pair<'a>>,
    pub outputs: Vec<Pair<'a>>,
    pub files: Vec<FileNote>,
}

/// Runs a network on the tokens of files, as was chosen; writes the report, unless the command is quiet, and each
/// stream to its file. `progress` receives the progress of the run, if the choice asks for it or it wants it.
/// Errors: see [`Stop`].
pub(crate) fn run<
    'a,
    K: Computes,
    S: FileSystem,
    R: Wait + Clock + Threads + Sync,
    P: ProgressReceiver,
>(
    rt: &R,
    alloc: Global,
    files: &mut S,
    choice: &RunChoice<'a>,
    progress: &P,
) -> Result<Ran<'a>, Stop<'a>>
    ensures { EndsRunOn K.Kinds S.FileSystem files.old files.new choice.now result }
{
    let wanted = wanted_of(choice);
    let (tokens, outputs) = (choice.tokens.as_slice(), choice.outputs.as_slice());
    let asked = asked_of(alloc, files, wanted, tokens, outputs)?;
    let request = RequestOf {
        file: wanted.file,
        request: &asked.request,
    };
    let asking = Asking {
        progress,
        is_asked: choice.progress,
    };
    match run_described::<K, S, R, Asking<'_, P>>(rt, alloc, files, &request, &asking) {
        Ok(told) => ran_of(alloc, files, told, asked, wanted),
        Err(Unserved { fault, error }) => Err(Stop::Refused(RefusedRequest {
            file: wanted.file,
            asked,
            fault,
            error,
        })),
    }
}

/// Returns the options of the command.
fn wanted_of<'a, 'b>(choice: &'b RunChoice<'a>) -> CommandOptions<'a, 'b>
    ensures { want_of result ≡ want_of_run choice.now }
{
    CommandOptions {
        file: name_of(choice.file),
        workers: choice.workers,
        budget: choice.budget,
        show: choice.show.as_slice(),
        formats: choice.formats.as_slice(),
        unsigned: choice.unsigned.as_slice(),
        is_quiet: choice.quiet,
        is_json: choice.json,
    }
}

/// Writes the result of a run. Errors: out of memory. Then nothing is written.
fn ran_of<'a, S: FileSystem>(
    alloc: Global,
    files: &mut S,
    told: Told,
    asked: Asked<'a>,
    wanted: CommandOptions<'_, '_>,
) -> Result<Ran<'a>, Stop<'a>>
    ensures { EndsWriting S.FileSystem files.old files.new wanted.entry asked.entry told result }
{
    let Asked {
        tokens,
        outputs,
        request,
    } = asked;
    let rate = rate_of(request.tokens.as_slice());
    let Told {
        status,
        report,
        outputs: streams,
        notes,
    } = told;
    let Ok(noted) = file_notes(alloc, streams.as_slice()) else {
        return Err(Stop::Memory);
    };
    let (Ok(texts), Ok(firsts)) = (
        file_texts(alloc, rate, outputs.as_slice(), streams.as_slice()),
        firsts_of(alloc, outputs.as_slice()),
    ) else {
        return Err(Stop::Memory);
    };
    let Ok(report) = report_as(alloc, report, wanted.is_json) else {
        return Err(Stop::Memory);
    };
    let written = WrittenStreams {
        outputs: firsts.as_slice(),
        texts: texts.as_slice(),
    };
    let status = write_told(files, status, &report, &written, wanted.is_quiet);
    Ok(Ran {
        status,
        notes,
        tokens,
        outputs,
        files: noted,
    })
}

/// Returns a report as lines, or those as JSON. Errors: out of memory.
fn report_as(alloc: Global, report: String, is_json: bool) -> Result<String, AllocError>
    ensures { IfOk result (λ text. string_bytes text ≡ report_as is_json (string_bytes report)) }
{
    if is_json {
        json_of_report(alloc, report.as_str())
    } else {
        Ok(report)
    }
}

/// What is requested of the description in a file.
#[derive(Clone, Copy)]
struct RequestOf<'a> {
    file: &'a str,
    request: &'a Request,
}

/// Runs the network of a description. A file that can't be opened counts as one that can't be read.
fn run_described<K: Computes, S: FileSystem, R: Wait + Clock + Threads + Sync, P: ProgressReceiver>(
    rt: &R,
    alloc: Global,
    files: &S,
    wanted: &RequestOf<'_>,
    progress: &P,
) -> Result<Told, Unserved>
    ensures { RunsNamed K.Kinds S.FileSystem files.now wanted.now.request.now wanted.now.file.now result }
{
    let mut source = match files.open(wanted.file) {
        Ok(source) => Watched::new(source),
        Err(error) => return Err(unopened(alloc, error)),
    };
    match serve::<K, _, _, _>(rt, alloc, wanted.request, &mut source, progress) {
        Ok(told) => Ok(told),
        Err(fault) => Err(Unserved {
            fault,
            error: source.error(),
        }),
    }
}
