//! Draws the network of a description.
ghost use Rattle.std.specs.Prelude.{false, IfOk, IfErr, Some};
ghost use Rattle.kpn_model.specs.Network.{Network as NetworkV};
ghost use Rattle.hox_draw.specs.Drawing.{DrawsSource, GivesWanted, ShowsNet, ShowsWanted};
ghost use Rattle.hox_network.specs.Preparing.{IsFault, Serves};

use crate::running::draw_run;
use crate::titles::titles_of;
use hox_network::{Fault, NoResult, Request, prepare};
use kpn_compute::Computes;
use kpn_front::{Refused, Source, read_text};
use kpn_network::Net;
use kpn_picture::{Direction, Left, Style, Titled, picture_of};
use std::alloc::{AllocError, Global};
use std::rt::Clock;
use std::sync::Wait;
use std::thread::Threads;

/// A picture that is wanted: of the network that is requested, in this direction, as it is or as a run leaves it.
#[derive(Clone, Copy)]
pub struct WantedPicture<'a> {
    pub request: &'a Request,
    pub direction: Direction,
    pub is_run: bool,
}

/// Reads a description, sets the start tokens of the request's files and the request's budget, and returns the
/// picture of the network that is wanted; if of a run, of one with the request's workers, but at least 1 and at most
/// 16. A process whose kind in the description is a formula has that as its title.
///
/// Errors: see [`Fault`], except `NoShown` and `NoOutput`; `Lost` only with several workers.
pub fn draw<K: Computes + Titled, I: Source, R: Wait + Clock + Threads + Sync>(
    rt: &R,
    alloc: Global,
    wanted: &WantedPicture<'_>,
    source: &mut I,
) -> Result<String, Fault>
    ensures { DrawsSource K.Kinds K.title wanted.now I.Source source.old source.new result }
{
    match read_text(alloc, source) {
        Ok(text) => draw_text::<K, R>(rt, alloc, wanted, text.as_slice()),
        Err(fault) => Err(Fault::Description(Refused::unread(alloc, fault))),
    }
}

fn draw_text<K: Computes + Titled, R: Wait + Clock + Threads + Sync>(
    rt: &R,
    alloc: Global,
    wanted: &WantedPicture<'_>,
    text: &[u8],
) -> Result<String, Fault>
    ensures { Serves K.named K.signature (GivesWanted K.Kinds K.title wanted.now) (Some text.now) false false result }
{
    let mut source = text;
    let net: Net<K> = match prepare(alloc, wanted.request, &mut source) {
        Ok(net) => net,
        Err(fault) => return Err(fault),
    };
    let Ok(titles) = titles_of(alloc, &net, text) else {
        return Err(Fault::Memory);
    };
    let style = Style {
        direction: wanted.direction,
        titles: titles.as_slice(),
    };
    draw_prepared(rt, alloc, wanted, net, &style)
}

fn draw_prepared<K: Computes + Titled, R: Wait + Clock + Threads + Sync>(
    rt: &R,
    alloc: Global,
    wanted: &WantedPicture<'_>,
    net: Net<K>,
    style: &Style<'_>,
) -> Result<String, Fault>
    ensures drawn { IfOk result (ShowsWanted K.Kinds K.title style.now wanted.now.is_run net) }
    ensures fault { IfErr result (λ e. (m : NetworkV) → IsFault wanted.now.request.now m e) }
{
    if !wanted.is_run {
        return draw_net(alloc, &net, style).map_err(|_| Fault::Memory);
    }
    match draw_run(rt, alloc, net, style, wanted.request.workers) {
        Ok(picture) => Ok(picture),
        Err(NoResult::Memory) => Err(Fault::Memory),
        Err(NoResult::Lost) => Err(Fault::Lost),
    }
}

fn draw_net<K: Titled>(alloc: Global, net: &Net<K>, style: &Style<'_>) -> Result<String, AllocError>
    ensures { IfOk result (ShowsNet K.Kinds K.title style.now net.now) }
{
    let start = Left {
        places: &[],
        capacities: &[],
        rests: &[],
    };
    picture_of(alloc, net, style, None, &start)
}
