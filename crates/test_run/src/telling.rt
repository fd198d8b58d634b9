//! What a run left, in one line.
use kpn_machine::{Chronicle, Standing};
use kpn_net::{Deed, Entry, Kinds, Net, Token};
use kpn_report::{Entries, Report, places_of, stream_of_entries, text_of, text_of_entries};
use kpn_run::{Finish, stream_of};
use kpn_standard::Standard;
use kpn_state::Keeper;
use std::alloc::{AllocError, Global};
use std::fmt::Write as _;

/// Appends the numbers of receipts, entries, growths, processes, standings and stopped processes; the report's end, and
/// whether it has a detail; the stream of the channel with this name; and the report's lines, with that stream.
pub(crate) fn tell(
    alloc: Global,
    finish: &Finish<Standard>,
    report: &Report,
    channel: &str,
    answer: &mut String,
) -> Result<(), AllocError> {
    let (net, standings, history) = (finish.net(), finish.standings(), finish.history());
    let growths = history
        .iter()
        .filter(|entry| matches!(entry, Entry::Grew { .. }))
        .count();
    let stopped = standings
        .iter()
        .filter(|standing| matches!(standing, Standing::Stopped))
        .count();
    let (processes, standing) = (net.processes(), standings.len());
    let counts = [history.len(), growths, processes, standing, stopped];
    let (receipts, end) = (finish.receipts(), report.end);
    let is_detailed = report.detail.is_some();
    write!(answer, "{receipts} {counts:?} {end:?} {is_detailed}")?;
    let show = net.find_channel(channel);
    if let Some(channel) = show {
        let stream = stream_again(alloc, net, history, channel, answer)?;
        write!(answer, " {:?}", stream.as_slice())?;
    }
    let text = text_of_run(alloc, finish, show)?;
    tell_lines(text.as_str(), answer)
}

/// Appends whether the run ended with its budget, or with at most two entries more, and with as many receipts; whether the
/// report has a detail; the tokens that were taken from the channel with this name; and whether its stream begins with them.
pub(crate) fn tell_spent(
    alloc: Global,
    finish: &Finish<Standard>,
    report: &Report,
    channel: &str,
    answer: &mut String,
) -> Result<(), AllocError> {
    let (net, history) = (finish.net(), finish.history());
    let (entries, budget) = (history.len() as u64, net.budget());
    let is_spent = budget <= entries && entries <= budget.saturating_add(2);
    let is_booked = finish.receipts() == entries;
    let (end, is_detailed) = (finish.end(), report.detail.is_some());
    write!(answer, "{end:?} {is_spent} {is_booked} {is_detailed}")?;
    let channel = net.find_channel(channel).unwrap_or(usize::MAX);
    let mut taken = Vec::new(alloc);
    for entry in history {
        if let Entry::Did { process: _, deed } = entry {
            if let Deed::Took {
                channel: from,
                token,
            } = deed
            {
                if *from == channel {
                    taken.push(*token)?;
                }
            }
        }
    }
    let stream = stream_of(alloc, net, history, channel)?;
    let begins = stream.as_slice().starts_with(taken.as_slice());
    write!(answer, " {:?} {begins}", taken.as_slice())
}

fn text_of_run<K: Kinds>(
    alloc: Global,
    finish: &Finish<K>,
    show: Option<usize>,
) -> Result<String, AllocError> {
    let net = finish.net();
    let places = places_of(alloc, net, finish.standings())?;
    let history = finish.history();
    text_of(alloc, net, history, places.as_slice(), finish.end(), show)
}

/// If memory is refused, the answer says so, and the stream is asked for once more.
fn stream_again(
    alloc: Global,
    net: &Net<Standard>,
    history: &[Entry],
    channel: usize,
    answer: &mut String,
) -> Result<Vec<Token>, AllocError> {
    if let Ok(stream) = stream_of(alloc, net, history, channel) {
        return Ok(stream);
    }
    answer.push_str(" stream refused")?;
    stream_of(alloc, net, history, channel)
}

fn tell_lines(text: &str, answer: &mut String) -> Result<(), AllocError> {
    for line in text.lines() {
        write!(answer, " | {line}")?;
    }
    Ok(())
}

/// Appends the stream of the channel with this name, and the report's lines with it, as any keeper has them.
pub(crate) fn say_told<H: Keeper + Entries>(
    alloc: Global,
    chronicle: &Chronicle<Standard, H>,
    channel: &str,
    sink: &mut String,
) -> Result<(), AllocError> {
    let (net, entries) = (chronicle.net(), chronicle.keeper());
    let show = net.find_channel(channel);
    let stream = stream_of_entries(alloc, net, entries, show.unwrap_or(net.channels()))?;
    write!(sink, "{:?}", stream.as_slice())?;
    let Some(end) = chronicle.end() else {
        return sink.push_str(" no end");
    };
    let places = places_of(alloc, net, chronicle.standings())?;
    let text = text_of_entries(alloc, net, entries, places.as_slice(), end, show)?;
    tell_lines(text.as_str(), sink)
}
