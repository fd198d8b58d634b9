//! Titles of processes that are formulas.
ghost use Rattle.std.specs.Prelude.{IfOk, IsTrue};
ghost use Rattle.hox_draw.specs.Titles.{AreTitles, HasFormula, IsFormulaOf, IsTitleOf};

use hox_formula::{Wrong, compile};
use kpn_model::{Card, Kinds, Text};
use kpn_network::Net;
use kpn_sketch::{Delayed, NetFault, ProcessSketch, Sketch, read_delayed};
use std::alloc::{AllocError, Global};

/// Returns titles of the processes of a network, given the text of its description: for a process whose kind there is a
/// formula that means the process's card, that formula; for others an empty title, or none at the end. Errors: out of
/// memory.
pub(crate) fn titles_of<K: Kinds>(
    alloc: Global,
    net: &Net<K>,
    text: &[u8],
) -> Result<Vec<Text>, AllocError>
    ensures { IfOk result (λ titles. AreTitles K.named net.now titles.items) }
{
    let sketch = match read_delayed(alloc, text) {
        Ok(Delayed { sketch, .. }) => sketch,
        Err(NetFault::Memory) => return Err(AllocError),
        Err(_) => return Ok(Vec::new(alloc)),
    };
    let Sketch { processes, .. } = sketch;
    let mut titles = Vec::new(alloc);
    for process in processes.into_vec() {
        let ProcessSketch { kind, .. } = process;
        let title = title_of(alloc, net, titles.len(), kind)?;
        titles.push(title)?;
    }
    Ok(titles)
}

/// Returns the title of a process with this kind in the description.
fn title_of<K: Kinds>(alloc: Global, net: &Net<K>, p: usize, kind: Text) -> Result<Text, AllocError>
    ensures { IfOk result (IsTitleOf K.named net.now p) }
{
    if is_formula_of(alloc, net, p, kind.as_str())? {
        Ok(kind)
    } else {
        Ok(Text::new(String::new(alloc)))
    }
}

/// Whether a text is a formula whose card a process has.
fn is_formula_of<K: Kinds>(
    alloc: Global,
    net: &Net<K>,
    p: usize,
    text: &str,
) -> Result<bool, AllocError>
    ensures { IfOk result (λ is. IsTrue is → IsFormulaOf K.named net.now p text.now) }
{
    match compile(alloc, text) {
        Ok(card) => has_formula(alloc, net, p, card),
        Err(fault) if fault.what == Wrong::Memory => Err(AllocError),
        Err(_) => Ok(false),
    }
}

/// Whether a process has the card of a formula: the kind of that name, with the same arguments.
fn has_formula<K: Kinds>(
    alloc: Global,
    net: &Net<K>,
    p: usize,
    formula: Card,
) -> Result<bool, AllocError>
    ensures { IfOk result (λ has. IsTrue has → HasFormula K.named net.now p formula) }
{
    let number = formula.kind;
    let name = format!(in alloc; "formula {number}")?;
    if p >= net.processes() {
        return Ok(false);
    }
    let card = net.card(p);
    let is_kind = K::named(name.as_str()) == Some((card.kind, 3));
    Ok(is_kind && card.args == formula.args)
}
