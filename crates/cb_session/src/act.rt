//! What the body of a record does.
ghost use Rattle.std.specs.Prelude.{◌≡◌, [], ◌∷◌, false, IfOk, OnOk, OnErr};
ghost use Rattle.cb_change.specs.Costs.{CountsAtMost};
ghost use Rattle.cb_change.specs.InTurn.{IsCostInTurn};
ghost use Rattle.cb_network.specs.Laws.{HasGoodName};
ghost use Rattle.cb_log.specs.Entries.{said};
ghost use Rattle.cb_log.specs.declared.record.Body.TheVariants.{Change};
ghost use Rattle.cb_topo.specs.Numbered.{topology_of};
ghost use Rattle.cb_session.specs.Acts.{ActsAfter, GoesOn, IsWellNamed};
ghost use Rattle.cb_session.specs.Counted.{IsEntryCost};
ghost use Rattle.cb_session.specs.Numbers.{KeepsNumbers};

use cb_cache::Cache;
use cb_log::{Body, Event, Record, RefusedWhy};
use cb_model::List;
use cb_steps::Steps;
use cb_topo::Edit;
use cb_window::Windows;
use std::alloc::{AllocError, Global};
use std::sync::ledger::Ledger;

/// Makes the edit of a record, or raises or clears its node, and lets its time go by. Answers whether the topology has changed. A refusal
/// is put after the events so far. Where memory runs out, topology and windows are as before, and no step is counted.
pub(crate) fn act<L: Ledger>(
    alloc: Global,
    cache: &mut Cache,
    windows: &mut Windows,
    number: u64,
    next: &Record,
    events: &mut List<Event>,
    steps: &mut Steps<L>,
) -> Result<bool, AllocError>
    requires { IsWellNamed next.now.body }
    ensures acts { IfOk result (λ changed. ActsAfter (topology_of cache.old.graph) number next.now.body (topology_of cache.new.graph) changed events.old events.new) }
    ensures unchanged { IfOk result (λ changed. changed ≡ false → cache.new.graph ≡ cache.old.graph) }
    ensures goes_on { OnOk result (GoesOn windows.old windows.new next.now) }
    ensures numbers { OnOk result (KeepsNumbers cache.old.graph cache.new.graph) }
    ensures length { windows.new.length ≡ windows.old.length }
    ensures same_cache { OnErr result (cache.new ≡ cache.old) }
    ensures same_windows { OnErr result (windows.new ≡ windows.old) }
    ensures steps { OnErr result (steps.new ≡ steps.old) }
    ensures cost { OnOk result (CountsAtMost (IsEntryCost (topology_of cache.old.graph) (said number next.now)) steps.old steps.new) }
{
    match &next.body {
        Body::Raise { from, node } => {
            windows.raise(alloc, next.at, from, node)?;
            Ok(false)
        }
        Body::Clear { from, node } => {
            windows.clear(next.at, from, node);
            Ok(false)
        }
        Body::Change { edit } => {
            let changed = change(alloc, cache, number, edit, events, steps)?;
            windows.pass(next.at);
            Ok(changed)
        }
        Body::Tick => {
            windows.pass(next.at);
            Ok(false)
        }
    }
}

// Makes the edit, or tells why it is refused; answers whether it is made.
fn change<L: Ledger>(
    alloc: Global,
    cache: &mut Cache,
    number: u64,
    edit: &Edit,
    events: &mut List<Event>,
    steps: &mut Steps<L>,
) -> Result<bool, AllocError>
    requires { HasGoodName edit.now }
    ensures acts { IfOk result (λ changed. ActsAfter (topology_of cache.old.graph) number (Change edit.now) (topology_of cache.new.graph) changed events.old events.new) }
    ensures unchanged { IfOk result (λ changed. changed ≡ false → cache.new.graph ≡ cache.old.graph) }
    ensures numbers { OnOk result (KeepsNumbers cache.old.graph cache.new.graph) }
    ensures same { OnErr result (cache.new ≡ cache.old) }
    ensures steps { OnErr result (steps.new ≡ steps.old) }
    ensures cost { OnOk result (CountsAtMost (IsCostInTurn (topology_of cache.old.graph) (edit.now ∷ [])) steps.old steps.new) }
{
    match cache.graph().topology().decide(edit) {
        Ok(accepted) => {
            cache.apply_accepted(alloc, &accepted, steps)?;
            Ok(true)
        }
        Err(why) => {
            events.push(Event::Refused {
                line: number,
                why: RefusedWhy::Edit(why),
            })?;
            Ok(false)
        }
    }
}
