//! The picture of a network.
ghost use Rattle.std.specs.Prelude.{All, ◌≡◌, IfOk, string_bytes};
ghost use Rattle.kpn_picture.specs.Left.{styled_picture};
ghost use Rattle.kpn_picture.specs.Picture.{IsPlain, head, title_text};

use crate::caption::push_caption;
use crate::edges::push_channels;
use crate::looks::{Direction, rankdir};
use crate::nodes::push_processes;
use crate::styles::Style;
use crate::titles::Titled;
use kpn_model::{End, Listed, Place, Text, Token};
use kpn_network::Net;
use std::alloc::{AllocError, Global};

/// How a run left a network: the place of each process, and the last capacity and remaining tokens of each
/// channel. If a list is too short, no place is drawn, and a channel is drawn as at first.
#[derive(Clone, Copy)]
pub struct Left<'a> {
    pub places: &'a [Place],
    pub capacities: &'a [usize],
    pub rests: &'a [Listed<Token>],
}

/// The rest of the lines above all processes, after the direction.
const LOOK: &str = "\
, nodesep=0.4, ranksep=0.6, labelloc=t, fontname=\"Helvetica\", fontsize=16];
  node [shape=box, style=\"rounded,filled\", fillcolor=\"#eef3fa\", color=\"#44546a\", fontname=\"Helvetica\"];
  edge [color=\"#44546a\", fontcolor=\"#44546a\", fontname=\"Helvetica\", fontsize=11, labelfontsize=9, labeldistance=1.5, labelangle=25];
";

/// Ghost lemma: titles, as they are drawn, need no escapes between quotes.
fn titles_are_plain(titles: &[Text])
    ensures { All (λ title. IsPlain (title_text title)) titles.now }
{
    let _ = titles;
}

fn head(alloc: Global, direction: Direction) -> Result<String, AllocError>
    ensures { IfOk result (λ text. string_bytes text ≡ head direction) }
{
    let mut out = String::from_str(alloc, "digraph kpn {\n  graph [rankdir=")?;
    out.push_str(rankdir(direction))?;
    out.push_str(LOOK)?;
    Ok(out)
}

/// Returns the picture of a network as a directed graph in the language of Graphviz: boxes for processes,
/// with name and kind or title, and edges for channels, from writer to reader, with name and whatever is unusual: a
/// sort of flags, a capacity other than 1, tokens. A port has its number if the process has several. For a
/// run that ended it shows the verdict and the end, each process's place, and each channel's growth and
/// tokens; channels on a cycle of waits are red. A copy that has the name of the channel that it reads is a
/// point, at which an arrow branches.
///
/// A chain of more than 12 processes, where none has several inputs or outputs, is in rows of eight, in order
/// (in columns, if the direction is down), if most channels stay within a row.
///
/// Names and titles are quoted without escapes, since as they are drawn they have no quote, backslash or line feed
/// (`processes`, `channels` and `titles`). Errors: out of memory.
pub fn picture_of<K: Titled>(
    alloc: Global,
    net: &Net<K>,
    style: &Style<'_>,
    end: Option<End>,
    left: &Left<'_>,
) -> Result<String, AllocError>
    ensures processes { All (λ p. IsPlain p.name) net.now.processes }
    ensures channels { All (λ c. IsPlain c.name) net.now.channels }
    ensures titles { All (λ title. IsPlain (title_text title)) style.now.titles.now }
    ensures text { IfOk result (λ text. string_bytes text ≡ styled_picture style.now K.title net.now end left.now) }
{
    net.assure_valid();
    titles_are_plain(style.titles);
    let mut out = head(alloc, style.direction)?;
    push_caption(&mut out, net, left.places, end)?;
    push_processes(&mut out, net, style.titles, left.places)?;
    push_channels(&mut out, net, left)?;
    out.push_str("}\n")?;
    Ok(out)
}
