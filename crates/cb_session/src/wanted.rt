//! A record in a log that is correlated by codebooks for a wish.
ghost use Rattle.std.specs.Prelude.{◌≡◌, IfOk, OnOk, OnErr};
ghost use Rattle.cb_change.specs.Costs.{CountsAtMost};
ghost use Rattle.cb_log.specs.Entries.{said};
ghost use Rattle.cb_topo.specs.Numbered.{topology_of};
ghost use Rattle.cb_session.specs.Acts.{IsWellNamed};
ghost use Rattle.cb_session.specs.Counted.{IsEntryCost};
ghost use Rattle.cb_session.specs.Course.{wanted_state};
ghost use Rattle.cb_session.specs.Numbers.{KeepsNumbers};
ghost use Rattle.cb_session.specs.Settled.{IsSessionSettled};
ghost use Rattle.cb_session.specs.Steps.{EntryTells, EntryStands};

use crate::act::act;
use crate::basis::Ready;
use crate::reported::{closing_report, keep_ready};
use cb_cache::Cache;
use cb_log::{Event, Record};
use cb_model::{List, Wish};
use cb_steps::Steps;
use cb_window::Windows;
use std::alloc::{AllocError, Global};
use std::sync::ledger::Ledger;

/// What results from the next record. Its body acts after the windows that it closes. Where memory runs out, all is as before.
pub(crate) fn go_on_wanted<L: Ledger>(
    alloc: Global,
    cache: &mut Cache,
    windows: &mut Windows,
    wish: Wish,
    ready: &mut Option<Ready>,
    number: u64,
    next: &Record,
    steps: &mut Steps<L>,
) -> Result<List<Event>, AllocError>
    requires named { IsWellNamed next.now.body }
    requires settled { IsSessionSettled cache.old.graph wish windows.old ready.old }
    ensures gives { IfOk result (EntryTells (wanted_state cache.old wish windows.old ready.old) (said number next.now)) }
    ensures stands { OnOk result (EntryStands (wanted_state cache.old wish windows.old ready.old)
        (wanted_state cache.new wish windows.new ready.new) (said number next.now)) }
    ensures settled { IsSessionSettled cache.new.graph wish windows.new ready.new }
    ensures numbers { OnOk result (KeepsNumbers cache.old.graph cache.new.graph) }
    ensures length { windows.new.length ≡ windows.old.length }
    ensures same_cache { OnErr result (cache.new ≡ cache.old) }
    ensures same_windows { OnErr result (windows.new ≡ windows.old) }
    ensures same_ready { OnErr result (ready.new ≡ ready.old) }
    ensures steps { OnErr result (steps.new ≡ steps.old) }
    ensures cost { OnOk result (CountsAtMost (IsEntryCost (topology_of cache.old.graph) (said number next.now)) steps.old steps.new) }
{
    let closing = windows.due(alloc, next.at)?;
    let reported = closing_report(alloc, cache, ready, wish, &closing);
    drop(closing);
    let mut reported = reported?;
    let changed = act(
        alloc,
        cache,
        windows,
        number,
        next,
        &mut reported.events,
        steps,
    )?;
    keep_ready(ready, reported.made, changed);
    Ok(reported.events)
}
