//! Checks a description.
ghost use Rattle.std.specs.Prelude.{◌≡◌, None, IfOk, IfErr, OnErr, false, option_map};
ghost use Rattle.kpn_front.specs.Lines.{checked_line};
ghost use Rattle.hox_network.specs.Preparing.{GivesNet};
ghost use Rattle.hox_execute.specs.Commands.{checked_text};
ghost use Rattle.hox_execute.specs.OnFiles.{EndsCheckOn, IsUnchecked, TellsChecked};
ghost use Rattle.hox_execute.specs.Program.{want_in};
ghost use Rattle.hox_files.specs.Files.{texts_in};
ghost use Rattle.hox_files.specs.Requests.{want_of};
ghost use Rattle.hox_files.specs.Served.{ServesNamed};

use crate::writing::write_text;
use hox_expanded::description_of;
use hox_files::files::FileSystem;
use hox_files::pairs::name_of;
use hox_files::reading::{CommandOptions, asked_of};
use hox_files::stops::{RefusedRequest, Stop, Unserved, unopened};
use hox_files::watching::Watched;
use hox_network::{Fault, Request, prepare};
use kpn_front::{ExitStatus, say_checked};
use kpn_model::Kinds;
use kpn_network::Net;
use kpn_picture::Titled;
use std::alloc::{AllocError, Global};

/// The room of a line in bytes: two numbers and the text around them.
const LINE_BYTES: usize = 64;

/// Writes that the description, with the tokens of these files, is a network, or if `is_expanded` the network as a
/// description. Returns the exit status. Errors: see [`Stop`].
pub(crate) fn check<'a, K: Titled, S: FileSystem>(
    alloc: Global,
    files: &mut S,
    wanted: CommandOptions<'a, '_>,
    tokens: &[&'a str],
    is_expanded: bool,
) -> Result<ExitStatus, Stop<'a>>
    ensures { EndsCheckOn K.Kinds S.FileSystem files.old files.new wanted.entry tokens.now K.title is_expanded result }
{
    let asked = asked_of(alloc, files, wanted, tokens, &[])?;
    match checked_text::<K, S>(alloc, files, &asked.request, wanted.file, is_expanded) {
        Ok(text) => Ok(write_text(files, text.as_slice())),
        Err(Unserved { fault, error }) => Err(Stop::Refused(RefusedRequest {
            file: wanted.file,
            asked,
            fault,
            error,
        })),
    }
}

fn checked_text<K: Titled, S: FileSystem>(
    alloc: Global,
    files: &S,
    request: &Request,
    name: &str,
    is_expanded: bool,
) -> Result<Vec<u8>, Unserved>
    ensures ok { IfOk result (TellsChecked K.Kinds S.FileSystem files.now request.now name.now K.title is_expanded) }
    ensures fault { IfErr result (IsUnchecked K.Kinds S.FileSystem files.now request.now name.now) }
{
    let net = prepared_net::<K, S>(alloc, files, request, name)?;
    match text_of(alloc, &net, is_expanded) {
        Ok(text) => Ok(text),
        Err(_) => Err(Unserved {
            fault: Fault::Memory,
            error: None,
        }),
    }
}

/// Prepares the network of a description. A file that can't be opened counts as one that can't be read.
fn prepared_net<K: Kinds, S: FileSystem>(
    alloc: Global,
    files: &S,
    request: &Request,
    name: &str,
) -> Result<Net<K>, Unserved>
    ensures { ServesNamed (S.contents files.now) K.named K.signature (GivesNet request.now) name.now result }
{
    let mut source = match files.open(name) {
        Ok(source) => Watched::new(source),
        Err(error) => return Err(unopened(alloc, error)),
    };
    match prepare(alloc, request, &mut source) {
        Ok(net) => Ok(net),
        Err(fault) => Err(Unserved {
            fault,
            error: source.error(),
        }),
    }
}

fn text_of<K: Titled>(alloc: Global, net: &Net<K>, is_expanded: bool) -> Result<Vec<u8>, AllocError>
    ensures { IfOk result (λ text. text.items ≡ checked_text K.title is_expanded net.now) }
{
    if is_expanded {
        Ok(description_of(alloc, net)?.into_bytes())
    } else {
        line_of(alloc, net)
    }
}

fn line_of<K: Kinds>(alloc: Global, net: &Net<K>) -> Result<Vec<u8>, AllocError>
    ensures { IfOk result (λ line. line.items ≡ checked_line net.now) }
{
    let mut line = Vec::with_capacity(alloc, LINE_BYTES)?;
    if say_checked(net, &mut line) == ExitStatus::Success.code() {
        Ok(line)
    } else {
        Err(AllocError)
    }
}

/// Returns the options of a command that writes no streams.
pub(crate) fn network_in<'a, 'b>(
    file: Option<&'a str>,
    formats: &'b [&'a str],
    workers: usize,
) -> CommandOptions<'a, 'b>
    ensures { want_of result ≡ want_in (option_map (λ s. s.now) file.entry) (texts_in formats.entry.now) workers }
{
    CommandOptions {
        file: name_of(file),
        workers,
        budget: None,
        show: &[],
        formats,
        unsigned: &[],
        is_quiet: false,
        is_json: false,
    }
}
