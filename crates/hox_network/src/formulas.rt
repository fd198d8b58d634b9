//! Kinds that are formulas.
ghost use Rattle.std.specs.Prelude.{◌≡◌, ◌++◌, codes, decimal, pos, IfOk, IfSome, map};
ghost use Rattle.std.specs.List.{AllZip};
ghost use Rattle.hox_network.specs.Formulas.{AreWritten, IsWritten};

use hox_formula::{Wrong, compile};
use kpn_model::{Listed, Text};
use kpn_net::{ProcessSketch, Sketch};
use std::alloc::{AllocError, Global};
use std::fmt::Write;

/// Gives each process whose kind is a formula the card that means it.
pub(crate) fn with_formulas(alloc: Global, sketch: Sketch) -> Result<Sketch, AllocError>
    ensures { IfOk result (AreWritten sketch) }
{
    let Sketch {
        version,
        budget,
        step,
        processes,
        channels,
    } = sketch;
    let processes = all_written(alloc, processes.into_vec())?;
    Ok(Sketch {
        version,
        budget,
        step,
        processes: Listed::new(processes),
        channels,
    })
}

fn all_written(
    alloc: Global,
    processes: Vec<ProcessSketch>,
) -> Result<Vec<ProcessSketch>, AllocError>
    ensures { IfOk result (λ v. AllZip IsWritten processes.items v.items) }
{
    let mut all = Vec::new(alloc);
    for process in processes {
        all.push(written(alloc, process)?)?;
    }
    Ok(all)
}

/// Gives a process the card of the formula that its kind is. Other kinds, and one with arguments, stay as they are.
fn written(alloc: Global, process: ProcessSketch) -> Result<ProcessSketch, AllocError>
    ensures { IfOk result (IsWritten process) }
{
    if !process.args.as_slice().is_empty() {
        return Ok(process);
    }
    let card = match compile(alloc, process.kind.as_str()) {
        Ok(card) => card,
        Err(fault) if fault.what == Wrong::Memory => return Err(AllocError),
        Err(_) => return Ok(process),
    };
    // No argument of a formula's card needs more than 60 bits.
    let Some(args) = signed_args(card.args) else {
        return Ok(process);
    };
    let ProcessSketch {
        name,
        kind: _,
        args: _,
    } = process;
    let kind = kind_of(alloc, card.kind)?;
    let args = Listed::new(Vec::from_slice(alloc, &args)?);
    Ok(ProcessSketch { name, kind, args })
}

fn kind_of(alloc: Global, number: u16) -> Result<Text, AllocError>
    ensures { IfOk result (λ name. name ≡ codes "formula " ++ decimal number) }
{
    let mut name = String::new(alloc);
    write!(name, "formula {number}")?;
    Ok(Text::new(name))
}

/// Returns the arguments of a card as a description has them.
fn signed_args(args: [u64; 3]) -> Option<[i64; 3]>
    ensures { IfSome result (λ signed. signed ≡ map (λ n. pos n) args) }
{
    let [first, second, third] = args;
    Some([
        i64::try_from(first).ok()?,
        i64::try_from(second).ok()?,
        i64::try_from(third).ok()?,
    ])
}
