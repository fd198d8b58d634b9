//! How processes and channels look.
ghost use Rattle.std.specs.Prelude.{◌≡◌, ◌++◌, OnOk, string_bytes};
ghost use Rattle.kpn_picture.specs.Picture.{rankdir, closing, edge_look, link_part, process_look, row_part, sort_part};

use kpn_model::{Place, Sort};
use std::alloc::AllocError;
use std::fmt::Write;

/// In which direction the channels of a picture lead.
#[derive(Clone, Copy, Debug, PartialEq, Eq)]
pub enum Direction {
    Right,
    Down,
}

/// Returns Graphviz's name of the direction.
pub(crate) fn rankdir(direction: Direction) -> &'static str
    ensures { result.now ≡ rankdir direction }
{
    match direction {
        Direction::Right => "LR",
        Direction::Down => "TB",
    }
}

/// Red and bold on a cycle of waits; blue, or with blue text, if it grew.
pub(crate) fn edge_look(is_jammed: bool, has_grown: bool) -> &'static str
    ensures { result.now ≡ edge_look is_jammed has_grown }
{
    match (is_jammed, has_grown) {
        (true, true) => ", color=\"#c0392b\", fontcolor=\"#1f6fb4\", penwidth=3",
        (true, false) => ", color=\"#c0392b\", fontcolor=\"#c0392b\", penwidth=3",
        (false, true) => ", color=\"#1f6fb4\", fontcolor=\"#1f6fb4\", penwidth=2",
        (false, false) => "",
    }
}

/// With a red frame on a cycle of waits, grey if it has stopped.
pub(crate) fn process_look(is_on_cycle: bool, place: Option<Place>) -> &'static str
    ensures { result.now ≡ process_look is_on_cycle place }
{
    match (is_on_cycle, place) {
        (true, _) => ", color=\"#c0392b\", penwidth=2",
        (false, Some(Place::Stopped)) => ", fillcolor=\"#e3e3e3\"",
        (false, _) => "",
    }
}

pub(crate) fn sort_part(sort: Sort) -> &'static str
    ensures { result.now ≡ sort_part sort }
{
    match sort {
        Sort::Words => "",
        Sort::Flags => "\\nflags",
    }
}

/// Returns the attribute that keeps an edge to another row from placing processes.
pub(crate) fn row_part(has_rows: bool, stays: bool) -> &'static str
    ensures { result.now ≡ row_part has_rows stays }
{
    if has_rows && !stays {
        ", constraint=false"
    } else {
        ""
    }
}

/// Returns the attributes of an edge to a point: no arrowhead, and from another point none of its own rank.
pub(crate) fn link_part(from_point: bool, to_point: bool) -> &'static str
    ensures { result.now ≡ link_part from_point to_point }
{
    match (from_point, to_point) {
        (_, false) => "",
        (false, true) => ", arrowhead=none",
        (true, true) => ", arrowhead=none, minlen=0",
    }
}

pub(crate) fn push_closing(out: &mut String, look: &str) -> Result<(), AllocError>
    ensures { OnOk result (string_bytes out.new ≡ string_bytes out.old ++ closing look.now) }
{
    write!(out, "\"{look}];\n")
}
