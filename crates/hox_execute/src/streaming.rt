//! Runs a network on tokens from files as they come.
ghost use Rattle.std.specs.Prelude.{◌≡◌, IfOk, IfErr, IfSome, map};
ghost use Rattle.std.specs.List.{AllZip};
ghost use Rattle.hox_execute.specs.Reports.{first_rate};
ghost use Rattle.kpn_model.specs.Families.{family};
ghost use Rattle.hox_files.specs.Pairs.{AreUsable, channels_of};
ghost use Rattle.hox_network.specs.Meant.{IsSketchOf};
ghost use Rattle.hox_execute.specs.OnFiles.{HasSketch, IsOpenedOn, IsStreamStopOn, IsUnopenedOn, RunsOn, StreamsOn};
ghost use Rattle.hox_execute.specs.Streaming.{AreEnds, ArePairsOf, AreUnpaired, IsFaultyBetween, IsNoEnds, IsRefusedIn, IsRefusedText, IsUnfit, IsUnread, IsUnreadText, Opens, StartsBetween, formats_of, inputs_of, laid_source, outputs_of};

use crate::sinks::{sinks_of, tables_of};
use crate::texts::USUAL_RATE;
use hox_args::StreamChoice;
use hox_files::files::FileSystem;
use hox_files::formats::{Formats, check_formats};
use hox_files::pairs::{
    Pair, firsts_of, in_order, is_named_twice, is_written_twice, name_of, pairs_of,
};
use hox_files::reading::{ReadError, names_of, read_file};
use hox_files::stops::Stop;
use hox_files::uses::{NamedFiles, Role, check_uses};
use hox_format::{BeginFault, Begun, HeadFault, Resumed, begin};
use hox_network::{channel_names, load_by_ports, sketch_by_ports};
use hox_stream::{
    EndedStream, Exits, LaidEnds, LaidOut, LaidTable, Onlooker, OpenStream, StreamFault,
    open_stream, serve,
};
use kpn_compute::{Both, Computes};
use kpn_front::{Refused, Sink, Source};
use kpn_model::{Kinds, Listed, Text};
use kpn_net::{Net, NetFault, Sketch};
use std::alloc::{AllocError, Global};
use std::io;

/// The ends of a stream: the channels and files of its inputs, and of its outputs, those with a file alone first.
#[derive(Drop)]
pub struct StreamEnds<'a> {
    pub inputs: Vec<Pair<'a>>,
    pub outputs: Vec<Pair<'a>>,
}

/// A stream that ended: its ends, and what is left of it.
#[derive(Drop)]
pub struct Streamed<'a, F: Computes, I: Source, O: Sink> {
    pub ends: StreamEnds<'a>,
    pub served: EndedStream<F, I, O>,
}

/// Why a stream is not run. Then at most what precedes the tokens, and a piece of these, was read of its
/// inputs, and at most what precedes the tokens was written.
#[derive(Drop)]
pub enum StreamStop<'a> {
    /// A text without file or format, standard input named more than once, two uses of files that clash, or
    /// out of memory.
    Asked(Stop<'a>),
    /// Standard output is named more than once.
    OutputTwice,
    /// The description in this file is faulty. `error` is the system's reason if it can't be read; the fault
    /// `Input` without one means that it is too long.
    Refused {
        file: &'a str,
        refused: Refused,
        error: Option<io::Error>,
    },
    /// The stream between these ends can't be opened. `channels` are the names of all channels.
    Unopened {
        ends: StreamEnds<'a>,
        channels: Listed<Text>,
        fault: StreamFault,
    },
    /// This file can't be read up to the first of its tokens.
    Unread {
        file: &'a str,
        error: io::Error,
    },
    /// What precedes the tokens in this file is faulty.
    Headless {
        file: &'a str,
        fault: HeadFault,
    },
    /// This file can't be created, or what precedes its tokens can't be written.
    Unwritten {
        file: &'a str,
        error: io::Error,
    },
}

/// Runs the network of a description on tokens from files as they are read, and writes its outputs to files as they
/// come, until the network, an input or an output ends the stream. A process that only reads an output stops at once.
/// The onlooker sees how the stream goes.
///
/// Errors: see [`StreamStop`].
pub fn stream<'a, K: Computes, S: FileSystem, L: Onlooker>(
    alloc: Global,
    files: &S,
    choice: &StreamChoice<'a>,
    onlooker: &L,
) -> Result<Streamed<'a, Both<K, Exits>, Resumed<S::Input>, S::Output>, StreamStop<'a>>
    ensures done { IfOk result (StreamsOn K.Kinds S.FileSystem files.now choice.now) }
    ensures stop { IfErr result (IsStreamStopOn K.Kinds S.FileSystem files.now choice.now) }
{
    let ends = ends_of(alloc, files, choice)?;
    let file = name_of(choice.file);
    match opened::<K, S>(alloc, files, file, &ends) {
        Ok(start) => run_between(alloc, files, ends, start, onlooker),
        Err(Unopened::Refused(refused, error)) => Err(StreamStop::Refused {
            file,
            refused,
            error,
        }),
        Err(Unopened::Faulty(channels, fault)) => Err(StreamStop::Unopened {
            ends,
            channels,
            fault,
        }),
        Err(Unopened::Memory) => Err(StreamStop::Asked(Stop::Memory)),
    }
}

fn ends_of<'a, S: FileSystem>(
    alloc: Global,
    files: &S,
    choice: &StreamChoice<'a>,
) -> Result<StreamEnds<'a>, StreamStop<'a>>
    ensures ok { IfOk result (AreEnds (S.clash files.now) choice.now) }
    ensures fault { IfErr result (IsNoEnds (S.clash files.now) choice.now) }
{
    let StreamEnds { inputs, outputs } = match named_ends(alloc, choice) {
        Ok(ends) => ends,
        Err(stop) => return Err(StreamStop::Asked(stop)),
    };
    let (Ok(firsts), Ok(in_order)) = (
        firsts_of(alloc, outputs.as_slice()),
        in_order(alloc, outputs.as_slice()),
    ) else {
        return Err(StreamStop::Asked(Stop::Memory));
    };
    let file = name_of(choice.file);
    if is_named_twice(file, inputs.as_slice()) {
        return Err(StreamStop::Asked(Stop::InputTwice));
    }
    if is_written_twice(firsts.as_slice()) {
        return Err(StreamStop::OutputTwice);
    }
    let named = NamedFiles {
        file,
        role: Role::In,
        inputs: inputs.as_slice(),
        outputs: firsts.as_slice(),
        is_told: false,
    };
    match check_uses(alloc, files, &named) {
        Ok(()) => Ok(StreamEnds {
            inputs,
            outputs: in_order,
        }),
        Err(stop) => Err(StreamStop::Asked(stop)),
    }
}

/// Parses the ends, without checking that their files can be used together.
fn named_ends<'a>(alloc: Global, choice: &StreamChoice<'a>) -> Result<StreamEnds<'a>, Stop<'a>>
    ensures inputs { IfOk result (λ ends. ArePairsOf choice.now (inputs_of choice.now) ends.inputs.items) }
    ensures outputs { IfOk result (λ ends. ArePairsOf choice.now (outputs_of choice.now) ends.outputs.items) }
    ensures formats { IfOk result (λ ends. AreUsable ends.inputs.items ends.outputs.items (formats_of choice.now)) }
    ensures fault { IfErr result (AreUnpaired choice.now) }
{
    let formats = Formats {
        texts: choice.formats.as_slice(),
        unsigned: choice.unsigned.as_slice(),
    };
    let inputs = pairs_of(alloc, "in", choice.inputs.as_slice(), formats)?;
    let outputs = pairs_of(alloc, "out", choice.outputs.as_slice(), formats)?;
    check_formats(formats.texts, inputs.as_slice(), outputs.as_slice())?;
    Ok(StreamEnds { inputs, outputs })
}

/// Why a stream is not opened: its description is faulty, or can't be read for this reason; or the sketch has
/// a fault, with the names of its channels; or out of memory.
#[derive(Drop)]
pub(crate) enum Unopened {
    Refused(Refused, Option<io::Error>),
    Faulty(Listed<Text>, StreamFault),
    Memory,
}

fn opened<K: Computes, S: FileSystem>(
    alloc: Global,
    files: &S,
    name: &str,
    ends: &StreamEnds<'_>,
) -> Result<OpenStream<Both<K, Exits>>, Unopened>
    ensures ok { IfOk result (Opens (family K.Kinds) K.named K.signature (S.contents files.now) name.now ends.now) }
    ensures fault { IfErr result (IsUnopenedOn K.Kinds S.FileSystem files.now name.now ends.now) }
{
    match described_in::<K, S>(alloc, files, name) {
        Ok(described) => open_described::<K>(alloc, described, ends),
        Err(unopened) => Err(unopened),
    }
}

/// The completed sketch of a description, and the names of its channels.
#[derive(Drop)]
pub(crate) struct Described {
    sketch: Sketch,
    channels: Listed<Text>,
}

fn open_described<K: Computes>(
    alloc: Global,
    described: Described,
    ends: &StreamEnds<'_>,
) -> Result<OpenStream<Both<K, Exits>>, Unopened>
    ensures ok { IfOk result (StartsBetween (family K.Kinds) K.named described.sketch ends.now) }
    ensures fault { IfErr result (IsFaultyBetween (family K.Kinds) K.named K.signature described.sketch ends.now) }
{
    let Described { sketch, channels } = described;
    let (Ok(fed), Ok(drained)) = (
        fed_names(alloc, ends),
        names_of(alloc, ends.outputs.as_slice()),
    ) else {
        return Err(Unopened::Memory);
    };
    match open_stream::<K>(alloc, sketch, fed.as_slice(), drained.as_slice()) {
        Ok(start) => Ok(start),
        Err(fault) => Err(Unopened::Faulty(channels, fault)),
    }
}

fn fed_names(alloc: Global, ends: &StreamEnds<'_>) -> Result<Vec<Text>, AllocError>
    ensures { IfOk result (λ names. names.items ≡ channels_of ends.now.inputs.items) }
{
    names_of(alloc, ends.inputs.as_slice())
}

fn described_in<K: Kinds, S: FileSystem>(
    alloc: Global,
    files: &S,
    name: &str,
) -> Result<Described, Unopened>
    ensures ok { IfOk result (λ described. HasSketch K.Kinds S.FileSystem files.now name.now described.sketch) }
    ensures fault { IfErr result (IsRefusedIn K.named K.signature (S.contents files.now) name.now) }
{
    match text_in(alloc, files, name) {
        Ok(text) => described_by::<K>(alloc, text.as_slice()),
        Err(unopened) => Err(unopened),
    }
}

/// Reads the text twice: as a network, for its faults and the names of its channels; and as a sketch, which
/// `open_stream` changes.
fn described_by<K: Kinds>(alloc: Global, text: &[u8]) -> Result<Described, Unopened>
    ensures ok { IfOk result (λ described. IsSketchOf K.named K.signature text.now described.sketch) }
    ensures fault { IfErr result (IsRefusedText K.named K.signature text.now) }
{
    let channels = match channels_in::<K>(alloc, text) {
        Ok(channels) => channels,
        Err(unopened) => return Err(unopened),
    };
    match sketch_by_ports::<K>(alloc, text) {
        Some(sketch) => Ok(Described { sketch, channels }),
        None => Err(Unopened::Memory),
    }
}

fn text_in<S: FileSystem>(alloc: Global, files: &S, name: &str) -> Result<Vec<u8>, Unopened>
    ensures ok { IfOk result (λ text. IfSome (S.contents files.now name.now) (λ bytes. text.items ≡ bytes)) }
    ensures fault { IfErr result IsUnreadText }
{
    match read_file(alloc, files, name) {
        Ok(text) => Ok(text),
        Err(ReadError::Failed(error)) => Err(unread_text(alloc, Some(error))),
        Err(ReadError::TooLong) => Err(unread_text(alloc, None)),
        Err(ReadError::Memory) => Err(Unopened::Memory),
    }
}

/// Returns the fault of a description that can't be read for this reason, or is too long.
fn unread_text(alloc: Global, error: Option<io::Error>) -> Unopened
    ensures { IsUnreadText result }
{
    Unopened::Refused(Refused::unread(alloc, NetFault::Input), error)
}

fn channels_in<K: Kinds>(alloc: Global, text: &[u8]) -> Result<Listed<Text>, Unopened>
    ensures { IfErr result (IsRefusedText K.named K.signature text.now) }
{
    let mut source = text;
    let loaded: Result<Net<K>, Refused> = load_by_ports(alloc, &mut source);
    match loaded {
        Ok(net) => channel_names(alloc, &net).map_err(|_| Unopened::Memory),
        Err(refused) => Err(Unopened::Refused(refused, None)),
    }
}

fn run_between<'a, F: Computes, S: FileSystem, L: Onlooker>(
    alloc: Global,
    files: &S,
    ends: StreamEnds<'a>,
    start: OpenStream<F>,
    onlooker: &L,
) -> Result<Streamed<'a, F, Resumed<S::Input>, S::Output>, StreamStop<'a>>
    ensures done { IfOk result (RunsOn F.Kinds S.FileSystem files.now ends.entry start) }
    ensures stop { IfErr result (IsUnfit ends.entry) }
{
    let sources = sources_of(alloc, files, ends.inputs.as_slice())?;
    let rate = rate_of(sources.as_slice());
    let sinks = sinks_of(alloc, files, ends.outputs.as_slice(), rate)?;
    let tables = tables_of(alloc, files, ends.outputs.as_slice(), rate)?;
    let Ok(sources) = laid_out(alloc, sources) else {
        return Err(StreamStop::Asked(Stop::Memory));
    };
    let laid = LaidEnds {
        sources,
        sinks,
        tables,
    };
    match serve(alloc, start, laid, onlooker) {
        Ok(served) => Ok(Streamed { ends, served }),
        Err(_) => Err(StreamStop::Asked(Stop::Memory)),
    }
}

fn laid_out<S: Source + Drop>(
    alloc: Global,
    begun: Vec<Begun<S>>,
) -> Result<Vec<LaidOut<S>>, AllocError>
    ensures { IfOk result (λ v. v.items ≡ map laid_source begun.items) }
{
    let mut sources = Vec::with_capacity(alloc, begun.len())?;
    for opened in begun {
        sources.push(laid_source(opened))?;
    }
    Ok(sources)
}

fn laid_source<S>(begun: Begun<S>) -> LaidOut<S>
    ensures { result ≡ laid_source begun }
{
    let Begun {
        source,
        layout,
        rate: _,
    } = begun;
    LaidOut {
        stream: source,
        layout,
    }
}

/// Returns the first stated number of samples per second, or else `USUAL_RATE`.
fn rate_of<S>(sources: &[Begun<S>]) -> u32
    ensures { result ≡ first_rate (map (λ b. b.rate) sources.now) }
{
    for source in sources {
        if let Some(rate) = source.rate {
            return rate;
        }
    }
    USUAL_RATE
}

/// Opens the files of these pairs, and reads what precedes their tokens.
fn sources_of<'a, S: FileSystem>(
    alloc: Global,
    files: &S,
    pairs: &[Pair<'a>],
) -> Result<Vec<Begun<Resumed<S::Input>>>, StreamStop<'a>>
    ensures ok { IfOk result (λ v. AllZip (IsOpenedOn S.FileSystem S.Input.Source files.now) pairs.now v.items) }
    ensures stop { IfErr result (IsUnread pairs.now) }
{
    let mut sources = Vec::new(alloc);
    for k in 0..pairs.len() {
        let file = pairs[k].file;
        let source = match source_of(alloc, files, &pairs[k]) {
            Ok(source) => source,
            Err(BeginFault::Unread(error)) => return Err(StreamStop::Unread { file, error }),
            Err(BeginFault::Head(fault)) => return Err(StreamStop::Headless { file, fault }),
            Err(BeginFault::Memory) => return Err(StreamStop::Asked(Stop::Memory)),
        };
        let Ok(()) = sources.push(source) else {
            return Err(StreamStop::Asked(Stop::Memory));
        };
    }
    Ok(sources)
}

fn source_of<S: FileSystem>(
    alloc: Global,
    files: &S,
    pair: &Pair<'_>,
) -> Result<Begun<Resumed<S::Input>>, BeginFault>
    ensures { IfOk result (IsOpenedOn S.FileSystem S.Input.Source files.now pair.now) }
{
    match files.open(pair.file) {
        Ok(source) => begin(alloc, source, &pair.format, pair.place, pair.count),
        Err(error) => Err(BeginFault::Unread(error)),
    }
}
