//! Writes a report and streams.
ghost use Rattle.std.specs.Prelude.{◌≡◌, true, [], ◌∷◌, if◌then◌else◌};
ghost use Rattle.hox_files.specs.Files.{standard, wrote};
ghost use Rattle.hox_execute.specs.OnFiles.{TriesMore, TriesOn, WritesOn, told_due};
ghost use Rattle.hox_execute.specs.Reports.{report_and_streams, reported, streams_written};

use hox_files::files::FileSystem;
use hox_files::pairs::{Pair, STANDARD, is_output_named};
use kpn_front::ExitStatus;
use kpn_model::Listed;

/// The outputs of a command, and the texts of their files, in order.
#[derive(Clone, Copy)]
pub(crate) struct WrittenStreams<'a, 'b> {
    pub(crate) outputs: &'b [Pair<'a>],
    pub(crate) texts: &'b [Listed<u8>],
}

/// Writes the report, unless the command is quiet, to standard output, or to standard error if a stream goes
/// to standard output; and each stream to its file, even if another write fails. Returns the exit status:
/// `status`, or `WriteFailed` if a write fails.
pub(crate) fn write_told<S: FileSystem>(
    files: &mut S,
    status: ExitStatus,
    report: &String,
    streams: &WrittenStreams<'_, '_>,
    is_quiet: bool,
) -> ExitStatus
    ensures { WritesOn S.FileSystem files.old files.new status (told_due is_quiet report.now streams.now) result }
{
    let WrittenStreams { outputs, texts } = *streams;
    if is_quiet {
        return status_if(write_streams(files, outputs, texts), status);
    }
    let are_written = write_all(files, report.as_str(), outputs, texts);
    status_if(are_written, status)
}

/// Writes a report, and each stream even if that fails. Returns whether all were written.
#[tactic(auto, using(crate::proofs::Tried::first_done, crate::proofs::Tried::first_failed))]
fn write_all<S: FileSystem>(
    files: &mut S,
    report: &str,
    outputs: &[Pair<'_>],
    texts: &[Listed<u8>],
) -> bool
    ensures { TriesOn S.FileSystem files.old files.new (report_and_streams outputs.now report.now texts.now) result }
{
    let is_reported = write_report(files, report, outputs);
    let are_written = write_streams(files, outputs, texts);
    is_reported && are_written
}

fn status_if(is_written: bool, status: ExitStatus) -> ExitStatus
    ensures { result ≡ (if is_written then status else ExitStatus.WriteFailed) }
{
    if is_written {
        status
    } else {
        ExitStatus::WriteFailed
    }
}

fn write_report<S: FileSystem>(files: &mut S, report: &str, outputs: &[Pair<'_>]) -> bool
    ensures { TriesOn S.FileSystem files.old files.new (reported outputs.now report.now ∷ []) result }
{
    if is_output_named(outputs) {
        files.say(report).is_ok()
    } else {
        files.write(STANDARD, report.as_bytes()).is_ok()
    }
}

/// Writes each stream to its file, even if another write fails. Returns whether all were written.
fn write_streams<S: FileSystem>(files: &mut S, outputs: &[Pair<'_>], texts: &[Listed<u8>]) -> bool
    ensures { TriesOn S.FileSystem files.old files.new (streams_written outputs.now texts.now) result }
{
    let mut are_written = true;
    for k in 0..outputs.len().min(texts.len()) {
        are_written = write_next(files, are_written, outputs[k], &texts[k]);
    }
    are_written
}

/// Writes a stream even if those before it failed. Returns whether all were written.
#[tactic(auto, using(crate::proofs::Tried::next_done, crate::proofs::Tried::next_failed))]
fn write_next<S: FileSystem>(
    files: &mut S,
    are_written: bool,
    pair: Pair<'_>,
    text: &Listed<u8>,
) -> bool
    ensures tries { TriesMore S.FileSystem files.old files.new (wrote pair.entry.file.now text.now) are_written result }
    ensures steady { S.is_steady files.old ≡ true → (result ≡ are_written) × (S.is_steady files.new ≡ true) }
{
    let is_written = write_stream(files, pair, text);
    are_written && is_written
}

fn write_stream<S: FileSystem>(files: &mut S, pair: Pair<'_>, text: &Listed<u8>) -> bool
    ensures { TriesOn S.FileSystem files.old files.new (wrote pair.entry.file.now text.now ∷ []) result }
{
    files.write(pair.file, text.as_slice()).is_ok()
}

/// Writes to standard output. Returns the exit status.
pub(crate) fn write_text<S: FileSystem>(files: &mut S, text: &[u8]) -> ExitStatus
    ensures { WritesOn S.FileSystem files.old files.new ExitStatus.Success (wrote standard text.now ∷ []) result }
{
    status_if(files.write(STANDARD, text).is_ok(), ExitStatus::Success)
}
