//! Makes a network of a sketch.
ghost use Rattle.std.specs.Prelude.{All, ◌≡◌, Some, None, IfOk, IfErr, map, position};
ghost use Rattle.std.specs.Str.{bytes_eq};
ghost use Rattle.kpn_model.specs.Lawful.{CardFits, Fits};
ghost use Rattle.kpn_model.specs.Valid.{IsValid};
ghost use Rattle.kpn_net.specs.Faults.{first_fault};
ghost use Rattle.kpn_net.specs.Sketched.{process_in, token_in, channel_in, index_of, IsNetOfSketch, IsSketchFault};

use crate::faults::first_fault;
use crate::ports::card_with;
use kpn_model::version::ceiling_in;
use kpn_model::{Channel, Kinds, Listed, Process, Text, Token};
use kpn_network::{Net, Parts};
use kpn_sketch::{ChannelSketch, NetFault, ProcessSketch, Sketch, TokenSketch};
use std::alloc::{AllocError, Global};

/// The check of a sketch, `Net::check`. It is a trait, implemented by `Net` alone and brought into scope by
/// callers, because `Net` is a type of `kpn_network`, and only a type's own crate can give it methods.
///
/// ```text
/// let sketch = read_sketch(alloc, text.as_bytes())?;
/// Net::check(alloc, &sketch)
/// ```
pub trait Check {
    /// The family of the network's kinds.
    type Kinds: Kinds;

    /// Makes the valid network of a sketch. Its ceiling is 65,535 in version 1, and 1,000,000 in version 2.
    ///
    /// Errors: the first of `Version`, `Counts`, `Name`, `Kind`, `Args`, `NoEnd`, `Twice`, `Unused`, `Sorts`,
    /// `Capacity`, `Budget`, `Tokens` and `Step` whose condition holds of the sketch; or `Memory` at any time,
    /// if out of memory. Without such a fault it fails only with `Memory`.
    final fn check(alloc: Global, sketch: &Sketch) -> Result<Net<Self::Kinds>, NetFault>
        ensures ok { IfOk result (IsNetOfSketch Self.Kinds.named Self.Kinds.signature sketch.now) }
        ensures valid { IfOk result (IsValid Self.Kinds.signature) }
        ensures fault { IfErr result (IsSketchFault Self.Kinds.named Self.Kinds.signature sketch.now) }
    {
        if let Some(fault) = first_fault::<Self::Kinds>(sketch) {
            return Err(fault);
        }
        let sketches = sketch.processes.as_slice();
        let Ok(processes) = processes_of::<Self::Kinds>(alloc, sketches) else {
            return Err(NetFault::Memory);
        };
        let Ok(channels) = channels_of(alloc, sketches, sketch.channels.as_slice()) else {
            return Err(NetFault::Memory);
        };
        let parts = Parts {
            processes,
            channels,
            budget: sketch.budget.unsigned_abs(),
            step: sketch.step.unsigned_abs() as usize,
            ceiling: ceiling_in(sketch.version) as usize,
        };
        match Net::<Self::Kinds>::of_parts(alloc, parts) {
            Ok(net) => Ok(net),
            Err(_) => Err(NetFault::Memory),
        }
    }
}

impl<K: Kinds> Check for Net<K> {
    type Kinds = K;
}

/// A kind that the family lacks counts as kind 0.
fn process_in<K: Kinds>(alloc: Global, sketch: &ProcessSketch) -> Result<Process, AllocError>
    ensures ok { IfOk result (λ p. p ≡ process_in K.named sketch.now) }
    ensures fits { IfOk result (λ p. CardFits p.card) }
{
    let kind = match K::named(sketch.kind.as_str()) {
        Some((kind, _)) => kind,
        None => 0,
    };
    Ok(Process {
        name: Text::new(String::from_str(alloc, sketch.name.as_str())?),
        card: card_with(kind, sketch.args.as_slice()),
    })
}

fn find_process(processes: &[ProcessSketch], name: &str) -> Option<usize>
    ensures { result ≡ position (λ p. bytes_eq p.name name.now) processes.now }
{
    processes.iter().position(|p| p.name.as_str() == name)
}

/// Returns the number of the process with this name; 0 if there is none.
fn index_of(processes: &[ProcessSketch], name: &str) -> usize
    ensures { result ≡ index_of processes.now name.now }
{
    match find_process(processes, name) {
        Some(p) => p,
        None => 0,
    }
}

/// Drops an integer's sign.
fn token_in(sketch: TokenSketch) -> Token
    ensures is { result ≡ token_in sketch }
    ensures fits { Fits result }
{
    match sketch {
        TokenSketch::Integer(integer) => Token::Word(integer.unsigned_abs()),
        TokenSketch::Boolean(boolean) => Token::Flag(boolean),
        TokenSketch::Word(word) => Token::Word(word),
    }
}

fn tokens_in(alloc: Global, sketches: &[TokenSketch]) -> Result<Vec<Token>, AllocError>
    ensures ok { IfOk result (λ v. v.items ≡ map token_in sketches.now) }
    ensures fit { IfOk result (λ v. All Fits v.items) }
{
    let mut tokens = Vec::new(alloc);
    for sketch in sketches {
        tokens.push(token_in(*sketch))?;
    }
    Ok(tokens)
}

fn tokens_of(alloc: Global, sketch: &ChannelSketch) -> Result<Listed<Token>, AllocError>
    ensures ok { IfOk result (λ l. l ≡ map token_in sketch.now.tokens) }
    ensures fit { IfOk result (λ l. All Fits l) }
{
    let tokens = tokens_in(alloc, sketch.tokens.as_slice())?;
    Ok(Listed::new(tokens))
}

fn channel_in(
    alloc: Global,
    processes: &[ProcessSketch],
    sketch: &ChannelSketch,
) -> Result<Channel, AllocError>
    ensures ok { IfOk result (λ c. c ≡ channel_in processes.now sketch.now) }
    ensures fits { IfOk result (λ c. All Fits c.tokens) }
{
    Ok(Channel {
        name: Text::new(String::from_str(alloc, sketch.name.as_str())?),
        writer: index_of(processes, sketch.from.as_str()),
        out: sketch.out.unsigned_abs() as usize,
        reader: index_of(processes, sketch.to.as_str()),
        input: sketch.input.unsigned_abs() as usize,
        sort: sketch.sort,
        capacity: sketch.capacity.unsigned_abs() as usize,
        tokens: tokens_of(alloc, sketch)?,
    })
}

fn processes_of<K: Kinds>(
    alloc: Global,
    sketches: &[ProcessSketch],
) -> Result<Vec<Process>, AllocError>
    ensures ok { IfOk result (λ v. v.items ≡ map (process_in K.named) sketches.now) }
    ensures fit { IfOk result (λ v. All (λ p. CardFits p.card) v.items) }
{
    let mut processes = Vec::new(alloc);
    for sketch in sketches {
        processes.push(process_in::<K>(alloc, sketch)?)?;
    }
    Ok(processes)
}

fn channels_of(
    alloc: Global,
    processes: &[ProcessSketch],
    sketches: &[ChannelSketch],
) -> Result<Vec<Channel>, AllocError>
    ensures ok { IfOk result (λ v. v.items ≡ map (channel_in processes.now) sketches.now) }
    ensures fit { IfOk result (λ v. All (λ c. All Fits c.tokens) v.items) }
{
    let mut channels = Vec::new(alloc);
    for sketch in sketches {
        channels.push(channel_in(alloc, processes, sketch)?)?;
    }
    Ok(channels)
}
