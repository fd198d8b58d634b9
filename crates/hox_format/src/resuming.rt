//! Opens files at their records.
ghost use Rattle.std.specs.Prelude.{◌≡◌, ◌≤◌, false, vec_len, Option, IfErr, IfOk, OnOk};
ghost use Rattle.hox_format.specs.Forms.{form};
ghost use Rattle.hox_format.specs.Resuming.{IsNoHead, IsUnbegun, left_of, resumed_has_failed, source_of, HasNotFailed, IsBegunBy, StaysFront, left_after};

use crate::formats::Format;
use crate::records::{FirstBytes, HeadFault, Records, records_in};
use crate::resumed::Resumed;
use kpn_front::Source;
use kpn_tokens::Layout;
use std::alloc::Global;
use std::io;

/// How many bytes one read takes at most.
const PIECE: usize = 4096;

impl<S> Resumed<S> {
    /// Returns the underlying source.
    pub fn source(&self) -> &S
        ensures { result.now ≡ source_of self.now }
    {
        &self.source
    }
}

/// A file read up to its records: the rest of it, the layout, and the samples per second, if stated.
#[derive(Drop)]
pub struct Begun<S> {
    pub source: S,
    pub layout: Layout,
    pub rate: Option<u32>,
}

/// Why a file was not opened at its records: what precedes them is faulty, a read failed, or out of memory.
#[derive(Clone, Copy, Debug)]
pub enum BeginFault {
    Head(HeadFault),
    Unread(io::Error),
    Memory,
}

/// Reads a file up to the records of the channel at `place` of `count`.
///
/// Errors: see [`BeginFault`].
pub fn begin<S: Source + Drop>(
    alloc: Global,
    source: S,
    format: &Format<'_>,
    place: usize,
    count: usize,
) -> Result<Begun<Resumed<S>>, BeginFault>
    ensures begun { IfOk result (IsBegunBy S.remaining (form format.now) place count source) }
    ensures unfailed { S.has_failed source ≡ false → IfOk result (HasNotFailed S.has_failed) }
    ensures refused { IfErr result (IsUnbegun (form format.now) place count (S.remaining source)) }
{
    let mut front = Front {
        held: Vec::new(alloc),
        source,
        is_last: false,
    };
    'pieces: for _ in 0..u64::MAX {
        let first = FirstBytes {
            bytes: front.held.as_slice(),
            is_last: front.is_last,
        };
        match records_in(alloc, format, place, count, &first) {
            Ok(Ok(Some(records))) => return Ok(resumed_at(front, records)),
            Ok(Ok(None)) => read_on(&mut front)?,
            Ok(Err(fault)) => return Err(BeginFault::Head(fault)),
            Err(_) => return Err(BeginFault::Memory),
        }
    }
    Err(BeginFault::Memory)
}

/// A partly read file: what was read, the rest, and whether the rest is empty.
#[derive(Drop)]
struct Front<S> {
    held: Vec<u8>,
    source: S,
    is_last: bool,
}

fn resumed_at<S: Source>(front: Front<S>, records: Records) -> Begun<Resumed<S>>
    requires { records.start ≤ vec_len front.held }
    ensures left { left_of S.remaining result.source ≡ left_after records front.held.items (S.remaining front.source) }
    ensures failed { resumed_has_failed S.has_failed result.source ≡ S.has_failed front.source }
    ensures layout { result.layout ≡ records.layout }
    ensures rate { result.rate ≡ records.rate }
{
    let Front {
        held,
        source,
        is_last: _,
    } = front;
    Begun {
        source: Resumed {
            held,
            next: records.start,
            source,
            left: records.size,
        },
        layout: records.layout,
        rate: records.rate,
    }
}

/// Reads another piece.
fn read_on<S: Source>(front: &mut Front<S>) -> Result<(), BeginFault>
    ensures reads { OnOk result (StaysFront S.remaining front.old front.new) }
    ensures unfailed { S.has_failed front.old.source ≡ false → OnOk result (S.has_failed front.new.source ≡ false) }
    ensures fault { IfErr result IsNoHead }
{
    let mut piece = [0; PIECE];
    match front.source.read(&mut piece) {
        Ok(n) => {
            front.is_last = n == 0;
            match front.held.extend_from_slice(&piece[..n]) {
                Ok(()) => Ok(()),
                Err(_) => Err(BeginFault::Memory),
            }
        }
        Err(error) => Err(BeginFault::Unread(error)),
    }
}
