//! The rows of a large picture.
ghost use Rattle.std.specs.Prelude.{◌≡◌, ◌||◌, nat_lt, count_by};
ghost use Rattle.kpn_picture.specs.Picture.{are_in_a_row, has_rows, is_branch, stays};

use kpn_model::{Ends, Kinds};
use kpn_network::Net;

/// How many processes a row has.
const ROW: usize = 8;

/// A picture with up to this many processes has no rows.
const ONE_ROW: usize = 12;

/// Whether a channel stays in a row.
pub(crate) fn stays(ends: Ends) -> bool
    ensures { result ≡ are_in_a_row ends.writer ends.reader }
{
    ends.writer / ROW == ends.reader / ROW
}

fn staying<K: Kinds>(net: &Net<K>) -> usize
    ensures count { result ≡ count_by stays net.now.channels }
{
    let mut staying = 0;
    for c in 0..net.channels() {
        if stays(net.ends(c)) {
            staying += 1;
        }
    }
    staying
}

/// Whether a channel leads from or to another port than the first.
fn is_branch(ends: Ends) -> bool
    ensures { result ≡ (nat_lt 0 ends.out || nat_lt 0 ends.input) }
{
    ends.out > 0 || ends.input > 0
}

fn branches<K: Kinds>(net: &Net<K>) -> usize
    ensures count { result ≡ count_by is_branch net.now.channels }
{
    let mut branches = 0;
    for c in 0..net.channels() {
        if is_branch(net.ends(c)) {
            branches += 1;
        }
    }
    branches
}

pub(crate) fn has_rows<K: Kinds>(net: &Net<K>) -> bool
    ensures { result ≡ has_rows net.now }
{
    let is_chain = branches(net) == 0;
    net.processes() > ONE_ROW && is_chain && net.channels() / 2 < staying(net)
}
