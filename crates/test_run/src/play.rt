//! Scenes on monitors, read from a file.
ghost use Rattle.std.specs.Prelude.{IfOk};
ghost use Rattle.kpn_machine.specs.MachineView.{IsFresh};
ghost use Rattle.kpn_monitor.specs.Views.{AreNamesOf};

use crate::drive::{agrees, report_file};
use crate::loose::Loose;
use crate::networks::{NetAndBodies, parts_of};
use crate::stages::Stage;
use kpn_body::Body;
use kpn_compute::CardBody;
use kpn_machine::{Machine, OpenRefused};
use kpn_monitor::{EntryLedger, Opening};
use kpn_net::Net;
use kpn_standard::Standard;
use std::alloc::{AllocError, Global};
use std::fmt::Write as _;
use std::fs;
use std::marker::Brand;
use std::rt::{Clock, Files};
use std::sync::Wait;
use std::sync::ledger::Ledger;
use std::thread::Threads;
use test_kit::{Cells, Report};

/// Plays the scenes of a file, with a blank line between two, and notes how many of their lines agree. A scene begins with
/// a line `NETWORK = HOW`: two monitors of the network are opened, `a` and `b`. Each other line is a command, to one of these
/// or, after `-`, to neither, and what it returned; or a remark, after `#`.
pub(crate) fn compare_scenes<R: Threads + Wait + Clock + Files + Sync + AllocGlobal>(
    rt: &R,
    report: &mut Report,
    name: &str,
) {
    let Ok(text) = fs::read_to_string(rt, name) else {
        report.fail(name);
        return;
    };
    let mut differs = String::new(rt.alloc());
    let mut agreed = 0usize;
    for scene in text.split("\n\n") {
        let Ok(played) = open_scene(rt, scene) else {
            report.fail(scene);
            continue;
        };
        agreed = agreed.saturating_add(played.agreed);
        let _ = differs.push_str(played.differs.as_str());
    }
    report_file(report, name, agreed, differs.as_str());
}

/// The commands of a scene, and bodies that no monitor has; how many lines agree, and those that differ.
#[derive(Drop)]
struct Scene<B: Body> {
    lines: String,
    spare: Vec<B>,
    agreed: usize,
    differs: String,
}

/// Errors: there is no such network, or memory is refused.
fn open_scene<R: Threads + Wait + Clock + Files + Sync + AllocGlobal>(
    rt: &R,
    scene: &str,
) -> Result<Scene<CardBody<Standard>>, AllocError> {
    let (line, lines) = scene.split_once("\n").unwrap_or((scene, ""));
    let mut scene = Scene {
        lines: String::from_str(rt.alloc(), lines)?,
        spare: Vec::new(rt.alloc()),
        agreed: 0,
        differs: String::new(rt.alloc()),
    };
    if line.starts_with("#") {
        return Ok(scene);
    }
    let mut answer = String::new(rt.alloc());
    let name = line.split_once(" = ").unwrap_or((line, "")).0;
    scene.spare = parts_of(rt, name, &mut answer)?.bodies;
    let first = opening(rt, name, &mut answer);
    let second = opening(rt, name, &mut answer);
    let (Ok(first), Ok(second)) = (first, second) else {
        return Err(AllocError);
    };
    let _ = answer.push_str("opened");
    if agrees(&mut scene.differs, line, &Cells::of(""), answer.as_str()) {
        scene.agreed = 1;
    }
    Ok(play(rt, rt.alloc(), first, second, scene))
}

fn opening<R: Files + AllocGlobal>(
    rt: &R,
    name: &str,
    answer: &mut String,
) -> Result<Opening<CardBody<Standard>>, AllocError> {
    let NetAndBodies { net, bodies } = parts_of(rt, name, answer)?;
    opening_of(rt.alloc(), net, bodies, answer)
}

/// If memory is refused, the answer says so, and what was handed back is opened once more.
fn opening_of<B: Body>(
    alloc: Global,
    net: Net<B::Kinds>,
    bodies: Vec<B>,
    answer: &mut String,
) -> Result<Opening<B>, AllocError> {
    let machine = machine_of(alloc, net, bodies, answer)?;
    let machine = match Opening::new(alloc, machine) {
        Ok(opening) => return Ok(opening),
        Err(machine) => machine,
    };
    write!(answer, "opening refused {}, ", machine.is_fresh())?;
    Opening::new(alloc, machine).map_err(|_| AllocError)
}

fn machine_of<B: Body>(
    alloc: Global,
    net: Net<B::Kinds>,
    bodies: Vec<B>,
    answer: &mut String,
) -> Result<Machine<B>, AllocError>
    ensures { IfOk result (λ machine. IsFresh machine) }
{
    let refused = match Machine::open(alloc, net, bodies) {
        Ok(machine) => return Ok(machine),
        Err(refused) => refused,
    };
    let OpenRefused { net, bodies, fault } = refused;
    write!(
        answer,
        "machine refused {fault:?} {} {}, ",
        net.processes(),
        bodies.len()
    )?;
    Machine::open(alloc, net, bodies).map_err(|_| AllocError)
}

fn play<B: Body, R: Threads + Wait + Clock + Sync>(
    rt: &R,
    alloc: Global,
    first: Opening<B>,
    second: Opening<B>,
    scene: Scene<B>,
) -> Scene<B> {
    play_opened::<B, Brand, Brand, Brand, Brand, R>(rt, alloc, first, second, scene)
}

/// Executes the scene's commands.
fn play_opened<
    B: Body,
    E: EntryLedger + Send + Sync,
    O: Ledger + Send + Sync,
    F: EntryLedger + Send + Sync,
    P: Ledger + Send + Sync,
    R: Threads + Wait + Clock + Sync,
>(rt: &R, alloc: Global, first: Opening<B>, second: Opening<B>, scene: Scene<B>) -> Scene<B>
    requires names { AreNamesOf E.EntryLedger O.Ledger first }
    requires second_names { AreNamesOf F.EntryLedger P.Ledger second }
{
    let Scene {
        lines,
        spare,
        mut agreed,
        mut differs,
    } = scene;
    let mut loose = Loose::new(alloc, spare);
    let mut one = Stage::<B, E, O>::open(alloc, first).ok();
    let mut other = Stage::<B, F, P>::open(alloc, second).ok();
    for line in lines.lines() {
        if line.starts_with("#") {
            continue;
        }
        let question = line.split_once(" = ").unwrap_or((line, "")).0;
        let mut command = Cells::of(question);
        let mut answer = String::new(alloc);
        match command.word() {
            "a" => one = turn(rt, one, &mut loose, &mut command, &mut answer),
            "b" => other = turn(rt, other, &mut loose, &mut command, &mut answer),
            _ => {
                let _ = loose.act(&mut command, &mut answer);
            }
        }
        if agrees(&mut differs, line, &command, answer.as_str()) {
            agreed = agreed.saturating_add(1);
        }
    }
    Scene {
        lines,
        spare: Vec::new(alloc),
        agreed,
        differs,
    }
}

/// Executes a command; returns the stage unless the monitor is closed.
fn turn<
    B: Body,
    E: EntryLedger + Send + Sync,
    O: Ledger + Send + Sync,
    R: Threads + Wait + Clock + Sync,
>(
    rt: &R,
    stage: Option<Stage<B, E, O>>,
    loose: &mut Loose<B>,
    command: &mut Cells<'_>,
    answer: &mut String,
) -> Option<Stage<B, E, O>> {
    let mut stage = stage?;
    let verb = command.word();
    if verb == "close" {
        return stage.close(command, answer);
    }
    let _ = stage.act(rt, verb, loose, command, answer);
    Some(stage)
}
