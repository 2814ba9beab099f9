//! A record in a log that is correlated by one codebook.
ghost use Rattle.std.specs.Prelude.{◌≡◌, ◌++◌, List as Items, IfOk, OnOk, OnErr};
ghost use Rattle.cb_log.specs.Entries.{said};
ghost use Rattle.cb_log.specs.declared.event.Event.{Event as EventOf};
ghost use Rattle.cb_session.specs.Acts.{GoesOn, RefusesEdit};
ghost use Rattle.cb_session.specs.Course.{fixed_state, mode_by};
ghost use Rattle.cb_session.specs.Ready.{IsReady};
ghost use Rattle.cb_session.specs.Settled.{IsOverSome};
ghost use Rattle.cb_session.specs.Steps.{EntryTells, EntryStands};

use crate::basis::Ready;
use crate::reported::reported_in_use;
use cb_cache::Cache;
use cb_log::{Body, Event, Record, RefusedWhy};
use cb_model::List;
use cb_window::Windows;
use std::alloc::{AllocError, Global};

/// What results from the next record. An edit is refused, after the windows that its record closes. Where memory runs out, the windows are as
/// before.
pub(crate) fn go_on_fixed(
    alloc: Global,
    cache: &Cache,
    windows: &mut Windows,
    ready: &Ready,
    number: u64,
    next: &Record,
) -> Result<List<Event>, AllocError>
    requires ready { IsReady cache.now.graph (mode_by ready.now) ready.now }
    requires over { IsOverSome windows.old }
    ensures gives { IfOk result (EntryTells (fixed_state cache.now windows.old ready.now) (said number next.now)) }
    ensures stands { OnOk result (EntryStands (fixed_state cache.now windows.old ready.now)
        (fixed_state cache.now windows.new ready.now) (said number next.now)) }
    ensures over { IsOverSome windows.new }
    ensures length { windows.new.length ≡ windows.old.length }
    ensures same { OnErr result (windows.new ≡ windows.old) }
{
    let closing = windows.due(alloc, next.at)?;
    let events = reported_in_use(alloc, cache.graph().topology(), ready, &closing);
    drop(closing);
    let mut events = events?;
    refuse_edit(alloc, windows, number, next, &mut events)?;
    Ok(events)
}

// Raises or clears the node of a record, and lets its time go by; an edit is refused, which is put after the events so far.
fn refuse_edit(
    alloc: Global,
    windows: &mut Windows,
    number: u64,
    next: &Record,
    events: &mut List<Event>,
) -> Result<(), AllocError>
    ensures refuses { OnOk result ((reported : Items EventOf) × RefusesEdit number next.now.body reported × (events.new ≡ events.old ++ reported)) }
    ensures goes_on { OnOk result (GoesOn windows.old windows.new next.now) }
    ensures length { windows.new.length ≡ windows.old.length }
    ensures same { OnErr result (windows.new ≡ windows.old) }
{
    match &next.body {
        Body::Raise { from, node } => windows.raise(alloc, next.at, from, node)?,
        Body::Clear { from, node } => windows.clear(next.at, from, node),
        Body::Change { .. } => {
            events.push(Event::Refused {
                line: number,
                why: RefusedWhy::Fixed,
            })?;
            windows.pass(next.at);
        }
        Body::Tick => windows.pass(next.at),
    }
    Ok(())
}
