//! The detail of a report.
ghost use Rattle.std.specs.Prelude.{◌≡◌, [], drop, length, map, IfOk};
ghost use Rattle.kpn_report.specs.Reported.{IsDetailOf, TellsReport};
ghost use Rattle.kpn_model.specs.texts.Reports.{has_report};
ghost use Rattle.kpn_report.specs.Tally.{Tabulates, rest_at};

use crate::channel_counts::ChannelCounts;
use crate::entries::Slice;
use crate::streams::{Stream, Streams, streams_of};
use crate::tally::tally_of;
use kpn_model::{End, Entry, Kinds, Listed, Place, Token};
use kpn_network::Net;
use std::alloc::{AllocError, Global};

/// Each process's place, in order.
pub type Places = Listed<Place>;

/// Each process's number of deeds, in order.
pub type Steps = Listed<u64>;

/// A number of tokens for each channel, in order.
pub type Sizes = Listed<usize>;

/// A channel and its new capacity for each growth, in order.
pub type Growths = Listed<(usize, usize)>;

/// What a run that is over did: each process's place and number of deeds; each channel's last capacity, stream
/// and remaining tokens; the growths; and the number of entries.
#[derive(Drop)]
pub struct Detail {
    pub places: Places,
    pub steps: Steps,
    pub capacities: Sizes,
    pub streams: Streams,
    pub rests: Streams,
    pub growths: Growths,
    pub entries: u64,
}

/// Returns a stream without its first `taken` tokens.
fn rest(alloc: Global, stream: &[Token], taken: usize) -> Result<Stream, AllocError>
    ensures { IfOk result (λ r. r ≡ drop taken stream.now) }
{
    let from = taken.min(stream.len());
    Ok(Listed::new(Vec::from_slice(alloc, &stream[from..])?))
}

fn rests(
    alloc: Global,
    streams: &[Stream],
    channel_counts: &[ChannelCounts],
) -> Result<Vec<Stream>, AllocError>
    requires { length channel_counts.now ≡ length streams.now }
    ensures { IfOk result (λ v. Tabulates [] (length streams.now) (rest_at streams.now channel_counts.now) v.items) }
{
    let mut rests = Vec::with_capacity(alloc, streams.len())?;
    for c in 0..streams.len() {
        rests.push(rest(alloc, streams[c].as_slice(), channel_counts[c].taken)?)?;
    }
    Ok(rests)
}

fn capacities(alloc: Global, channel_counts: &[ChannelCounts]) -> Result<Vec<usize>, AllocError>
    ensures { IfOk result (λ v. v.items ≡ map (λ a. a.capacity) channel_counts.now) }
{
    channel_counts
        .iter()
        .map(|counts| counts.capacity)
        .collect(alloc)
}

/// Returns the detail of a history that left the processes at `places`. Reads it twice. Errors: out of memory.
pub fn detail_of<K: Kinds>(
    alloc: Global,
    net: &Net<K>,
    history: &[Entry],
    places: Vec<Place>,
) -> Result<Detail, AllocError>
    ensures { IfOk result (IsDetailOf net.now history.now places.items) }
{
    let slice = Slice { history };
    let tally = tally_of(alloc, net, &slice)?;
    let streams = streams_of(alloc, net, &slice)?;
    let capacities = capacities(alloc, tally.channel_counts.as_slice())?;
    let rests = rests(alloc, streams.as_slice(), tally.channel_counts.as_slice())?;
    Ok(Detail {
        places: Listed::new(places),
        steps: Listed::new(tally.steps),
        capacities: Listed::new(capacities),
        streams: Listed::new(streams),
        rests: Listed::new(rests),
        growths: Listed::new(tally.growths),
        entries: history.len() as u64,
    })
}

/// The report of a run: why it ended, and its detail if it is over.
#[derive(Drop)]
pub struct Report {
    pub end: End,
    pub detail: Option<Detail>,
}

/// Returns the report of a history with this end. There is a detail exactly for `Terminated`, `Deadlock` and
/// `Ceiling`; then `places` must be the places where the history left the processes. Errors: out of memory.
pub fn report_of<K: Kinds>(
    alloc: Global,
    net: &Net<K>,
    history: &[Entry],
    places: Vec<Place>,
    end: End,
) -> Result<Report, AllocError>
    ensures end { IfOk result (λ r. r.end ≡ end) }
    ensures detail { IfOk result (λ r. TellsReport net.now end history.now places.items r.detail) }
{
    if has_report(end) {
        let detail = Some(detail_of(alloc, net, history, places)?);
        Ok(Report { end, detail })
    } else {
        Ok(Report { end, detail: None })
    }
}

pub(crate) fn has_report(end: End) -> bool
    ensures { result ≡ has_report end }
{
    matches!(end, End::Terminated | End::Deadlock | End::Ceiling)
}
