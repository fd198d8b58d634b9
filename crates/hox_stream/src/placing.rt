//! Places the sinks of a stream at their channels.
ghost use Rattle.std.specs.Prelude.{◌≡◌, IfOk, drop};
ghost use Rattle.hox_stream.specs.Serves.{new_lanes, new_outlets, new_outs, new_tables};

use crate::lane::Lane;
use crate::outlet::Outlet;
use crate::serving::{LaidOut, LaidTable};
use crate::table::TableOutlet;
use crate::telling::Outs;
use kpn_front::Sink;
use kpn_tokens::{Decimals, Table};
use std::alloc::{AllocError, Global};

/// Places the sinks and then the tables, each at the next channels.
pub(crate) fn outs_of<S: Sink + Drop>(
    alloc: Global,
    channels: &[usize],
    sinks: Vec<LaidOut<S>>,
    tables: Vec<LaidTable<S>>,
) -> Result<Outs<S>, AllocError>
    ensures { IfOk result (λ o. o ≡ new_outs S.seen channels.now sinks.items tables.items) }
{
    let rest = behind(channels, sinks.len());
    let sinks = outlets_of(alloc, channels, sinks)?;
    let tables = tables_of(alloc, rest, tables)?;
    Ok(Outs { sinks, tables })
}

fn behind(channels: &[usize], count: usize) -> &[usize]
    ensures { result.now ≡ drop count channels.now }
{
    if count < channels.len() {
        &channels[count..]
    } else {
        &[]
    }
}

fn outlets_of<S: Sink + Drop>(
    alloc: Global,
    channels: &[usize],
    sinks: Vec<LaidOut<S>>,
) -> Result<Vec<Outlet<S>>, AllocError>
    ensures { IfOk result (λ v. v.items ≡ new_outlets S.seen channels.now sinks.items) }
{
    let mut outlets = Vec::new(alloc);
    let mut rest = channels;
    for sink in sinks {
        let Some((channel, later)) = rest.split_first() else {
            continue;
        };
        rest = later;
        let outlet = Outlet::new(alloc, *channel, sink.layout, sink.stream)?;
        outlets.push(outlet)?;
    }
    Ok(outlets)
}

fn tables_of<S: Sink + Drop>(
    alloc: Global,
    channels: &[usize],
    tables: Vec<LaidTable<S>>,
) -> Result<Vec<TableOutlet<S>>, AllocError>
    ensures { IfOk result (λ v. v.items ≡ new_tables S.seen channels.now tables.items) }
{
    let mut outlets = Vec::new(alloc);
    let mut rest = channels;
    for laid in tables {
        let LaidTable {
            stream,
            table,
            columns,
        } = laid;
        let left = behind(rest, columns.len());
        let lanes = lanes_of(alloc, table, rest, columns)?;
        let outlet = TableOutlet::new(alloc, table, lanes, stream)?;
        outlets.push(outlet)?;
        rest = left;
    }
    Ok(outlets)
}

fn lanes_of(
    alloc: Global,
    table: Table,
    channels: &[usize],
    columns: Vec<Decimals>,
) -> Result<Vec<Lane>, AllocError>
    ensures { IfOk result (λ v. v.items ≡ new_lanes table channels.now columns.items) }
{
    let mut lanes = Vec::new(alloc);
    let mut rest = channels;
    for decimals in columns {
        let Some((channel, others)) = rest.split_first() else {
            continue;
        };
        rest = others;
        let lane = Lane::new(alloc, table, *channel, decimals);
        lanes.push(lane)?;
    }
    Ok(lanes)
}
