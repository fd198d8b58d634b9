//! The result of a run that ended.
ghost use Rattle.std.specs.Prelude.{◌≡◌, IfOk, IsSome};
ghost use Rattle.std.specs.List.{All, list_any};
ghost use Rattle.kpn_model.specs.Families.{family};
ghost use Rattle.hox_run.specs.Cuts.{IsWithin};
ghost use Rattle.hox_run.specs.Telling.{TellsRun, status_of_verdict, status_with};

use crate::ended::Ended;
use crate::files::{StreamFile, stream_files};
use crate::judging::judge;
use crate::notes::{Notes, notes_of};
use crate::shown::WantedStreams;
use kpn_dry::dryness_of;
use kpn_front::ExitStatus;
use kpn_laws::{determinacy_of, least_room_of, least_solution_of};
use kpn_machine::Chronicle;
use kpn_model::{Kinds, Verdict};
use kpn_report::{Entries, places_of};
use kpn_state::Keeper;
use std::alloc::{AllocError, Global};

/// The result of a run: its exit status, its report with the verdict, the files of the wanted streams, and what it
/// left unused. The report on a run that was cut also has where it left each process, and the streams to show so far.
#[derive(Drop)]
pub struct Told {
    pub status: ExitStatus,
    pub report: String,
    pub outputs: Vec<StreamFile>,
    pub notes: Notes,
}

/// Returns the result of a run that ended, with these entries and the wanted streams. Errors: out of memory.
pub(crate) fn tell_run<K: Kinds, H: Keeper, E: Entries>(
    alloc: Global,
    chronicle: &Chronicle<K, H>,
    history: &E,
    wanted: &WantedStreams<'_>,
) -> Result<Told, AllocError>
    requires ended { IsSome chronicle.now.end }
    requires entries { E.entries history.now ≡ chronicle.now.history }
    requires within { All (IsWithin chronicle.now.network) wanted.now.outputs.now }
    ensures { IfOk result (TellsRun (family K.Kinds) chronicle.now.network wanted.now.show.now wanted.now.outputs.now) }
{
    let Some(end) = chronicle.end() else {
        unreachable!()
    };
    determinacy_of::<K>();
    least_room_of::<K>();
    least_solution_of::<K>();
    dryness_of::<K>();
    let net = chronicle.net();
    let standings = chronicle.standings();
    let places = places_of(alloc, net, standings)?;
    let run = Ended {
        net,
        history,
        standings,
        places: places.as_slice(),
        end,
    };
    let judged = judge(alloc, &run, wanted)?;
    let outputs = stream_files(alloc, net, history, wanted.outputs)?;
    Ok(Told {
        status: status_with(judged.verdict, outputs.as_slice()),
        report: judged.report,
        outputs,
        notes: notes_of(alloc, &run, judged.verdict)?,
    })
}

/// Returns the exit status for a verdict, unless a token does not fit one of the files.
fn status_with(verdict: Verdict, files: &[StreamFile]) -> ExitStatus
    ensures { result ≡ status_with verdict files.now }
{
    if has_misfit(files) {
        ExitStatus::Refused
    } else {
        status_of(verdict)
    }
}

fn has_misfit(files: &[StreamFile]) -> bool
    ensures { result ≡ list_any (λ f. f.is_misfit) files.now }
{
    files.iter().any(|file| file.is_misfit)
}

fn status_of(verdict: Verdict) -> ExitStatus
    ensures { result ≡ status_of_verdict verdict }
{
    match verdict {
        Verdict::Finished | Verdict::RanDry => ExitStatus::Success,
        Verdict::Cycle(_) => ExitStatus::Deadlocked,
        Verdict::Cut => ExitStatus::BudgetSpent,
        Verdict::Full => ExitStatus::AtCeiling,
        Verdict::Memory => ExitStatus::MemoryRefused,
    }
}
