//! Channels, as edges.
ghost use Rattle.std.specs.Prelude.{◌≡◌, ◌++◌, None, OnOk, length, string_bytes, if◌then◌else◌};
ghost use Rattle.kpn_model.specs.Network.{out_of};
ghost use Rattle.kpn_picture.specs.Left.{attributes_in, label_in, line_in, lines_left};
ghost use Rattle.kpn_picture.specs.Picture.{arrow, capacity_text, capacity_part, held_part, has_name_of_point, held_tokens, last_capacity, port_part, has_rows, form_of};

use crate::looks::{edge_look, link_part, row_part, sort_part};
use crate::picture::Left;
use crate::points::{has_name_of, is_point};
use crate::rows::{has_rows, stays};
use crate::titles::Titled;
use kpn_model::{Kinds, Token};
use kpn_network::Net;
use kpn_network::names::{channel_name, process_name};
use kpn_verdict::is_jammed;
use std::alloc::AllocError;
use std::fmt::Write;
use std::marker::Model;

fn push_capacities(out: &mut String, at_first: usize, last: usize) -> Result<(), AllocError>
    ensures { OnOk result (string_bytes out.new ≡ string_bytes out.old ++ capacity_text at_first last) }
{
    if at_first == last {
        write!(out, "{last}")
    } else {
        write!(out, "{at_first} -> {last}")
    }
}

/// Appends the capacity of a channel, if it is not 1 or has grown.
fn push_capacity(out: &mut String, at_first: usize, last: usize) -> Result<(), AllocError>
    ensures { OnOk result (string_bytes out.new ≡ string_bytes out.old ++ capacity_part at_first last) }
{
    if at_first == 1 && last == 1 {
        return Ok(());
    }
    out.push_str("\\ncapacity ")?;
    push_capacities(out, at_first, last)
}

/// Appends how many tokens a channel holds, if any.
fn push_held(out: &mut String, tokens: usize) -> Result<(), AllocError>
    ensures { OnOk result (string_bytes out.new ≡ string_bytes out.old ++ held_part tokens) }
{
    if tokens == 0 {
        Ok(())
    } else {
        write!(out, "\\nholds {tokens}")
    }
}

/// Returns how many tokens a channel holds at the end, if known, otherwise at first.
fn held_tokens(left: &Left<'_>, c: usize, at_first: &[Token]) -> usize
    ensures { result ≡ held_tokens left.now.rests.now c at_first.now }
{
    match left.rests.get(c) {
        Some(rest) => rest.as_slice().len(),
        None => at_first.len(),
    }
}

/// Returns the capacity of a channel at the end, if known, otherwise at first.
fn last_capacity(left: &Left<'_>, c: usize, at_first: usize) -> usize
    ensures { result ≡ last_capacity left.now.capacities.now c at_first }
{
    match left.capacities.get(c) {
        Some(capacity) => *capacity,
        None => at_first,
    }
}

fn push_arrow(out: &mut String, writer: &str, reader: &str) -> Result<(), AllocError>
    ensures { OnOk result (string_bytes out.new ≡ string_bytes out.old ++ arrow writer.now reader.now) }
{
    write!(out, "  \"{writer}\" -> \"{reader}\" [label=\"")
}

/// Does nothing unless the process has a second port.
fn push_port(
    out: &mut String,
    end: &str,
    port: usize,
    second: Option<usize>,
) -> Result<(), AllocError>
    ensures { OnOk result (string_bytes out.new ≡ string_bytes out.old ++ port_part end.now port second) }
{
    match second {
        Some(_) => write!(out, ", {end}label=\"{port}\""),
        None => Ok(()),
    }
}

/// Returns the second output of a channel's writer, unless that is a point.
fn second_output<K: Kinds>(net: &Net<K>, from_point: bool, writer: usize) -> Option<usize>
    ensures { result ≡ (if from_point then None else out_of net.now writer 1) }
{
    if from_point {
        None
    } else {
        net.out_of(writer, 1)
    }
}

/// The form of an edge: whether the picture has rows, whether the edge leads from a point, and to one, and whether it
/// has a label.
#[derive(Clone, Copy)]
pub(crate) struct EdgeForm {
    has_rows: bool,
    from_point: bool,
    to_point: bool,
    has_label: bool,
}

/// A channel of a network, and how a run left the network.
#[derive(Drop)]
struct Edge<'a, K: Kinds> {
    net: &'a Net<K>,
    left: Left<'a>,
    channel: usize,
}

impl<'a, K: Kinds> Model for Edge<'a, K> {
    ghost use Rattle.std.specs.Prelude.{◌<◌, length};
    ghost use Rattle.kpn_picture.specs.Edges.{EdgeView};

    ghost Value = { EdgeView };

    ghost view = { λ e. record { net = e.net.now; places = e.left.places.now; capacities = e.left.capacities.now; rests = e.left.rests.now; channel = e.channel } };

    ghost invariant = { λ e. e.channel < length e.net.now.channels };
}

impl<'a, K: Kinds> Edge<'a, K> {
    /// Appends the label of the channel, if it has one.
    fn push_label(&self, out: &mut String, has_label: bool) -> Result<(), AllocError>
        ensures { OnOk result (string_bytes out.new ≡ string_bytes out.old ++ label_in self.now has_label) }
    {
        if !has_label {
            return Ok(());
        }
        let c = self.channel;
        let capacity = self.net.capacity(c);
        out.push_str(channel_name(self.net, c))?;
        out.push_str(sort_part(self.net.sort(c)))?;
        push_capacity(out, capacity, last_capacity(&self.left, c, capacity))?;
        push_held(out, held_tokens(&self.left, c, self.net.tokens(c)))?;
        Ok(())
    }

    /// Appends what follows the label of the channel.
    fn push_attributes(&self, out: &mut String, form: EdgeForm) -> Result<(), AllocError>
        ensures { OnOk result (string_bytes out.new ≡ string_bytes out.old ++ attributes_in self.now form) }
    {
        let c = self.channel;
        let ends = self.net.ends(c);
        let at_first = self.net.capacity(c);
        let has_grown = at_first != last_capacity(&self.left, c, at_first);
        let second = second_output(self.net, form.from_point, ends.writer);
        out.push_str(edge_look(is_jammed(self.net, self.left.places, c), has_grown))?;
        push_port(out, "tail", ends.out, second)?;
        push_port(out, "head", ends.input, self.net.in_of(ends.reader, 1))?;
        out.push_str(link_part(form.from_point, form.to_point))?;
        out.push_str(row_part(form.has_rows, stays(ends)))?;
        Ok(())
    }
}

impl<'a, K: Titled> Edge<'a, K> {
    /// Whether the channel has the name of the point that it leads from or to.
    fn has_name_of_point(&self) -> bool
        ensures { result ≡ has_name_of_point self.now.net K.title self.now.channel }
    {
        let ends = self.net.ends(self.channel);
        is_point(self.net, ends.writer) && has_name_of(self.net, ends.writer, self.channel)
            || is_point(self.net, ends.reader) && has_name_of(self.net, ends.reader, self.channel)
    }

    fn form(&self, has_rows: bool) -> EdgeForm
        ensures { result ≡ form_of self.now.net K.title has_rows self.now.channel }
    {
        let ends = self.net.ends(self.channel);
        EdgeForm {
            has_rows,
            from_point: is_point(self.net, ends.writer),
            to_point: is_point(self.net, ends.reader),
            has_label: !self.has_name_of_point(),
        }
    }

    /// Appends the channel, as an edge from its writer to its reader.
    fn push(&self, out: &mut String, has_rows: bool) -> Result<(), AllocError>
        ensures { OnOk result (string_bytes out.new ≡ string_bytes out.old ++ line_in self.now K.title has_rows) }
    {
        let ends = self.net.ends(self.channel);
        let form = self.form(has_rows);
        let writer = process_name(self.net, ends.writer);
        let reader = process_name(self.net, ends.reader);
        push_arrow(out, writer, reader)?;
        self.push_label(out, form.has_label)?;
        out.push_str("\"")?;
        self.push_attributes(out, form)?;
        out.push_str("];\n")?;
        Ok(())
    }
}

pub(crate) fn push_channels<K: Titled>(
    out: &mut String,
    net: &Net<K>,
    left: &Left<'_>,
) -> Result<(), AllocError>
    ensures { OnOk result (string_bytes out.new ≡ string_bytes out.old ++ lines_left net.now K.title left.now) }
{
    let has_rows = has_rows(net);
    for c in 0..net.channels() {
        let edge = Edge {
            net,
            left: *left,
            channel: c,
        };
        edge.push(out, has_rows)?;
    }
    Ok(())
}
