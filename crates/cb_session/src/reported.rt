//! What is reported of windows that close.
ghost use Rattle.std.specs.Prelude.{◌≡◌, IfOk, IfSome};
ghost use Rattle.std.specs.List.{All};
ghost use Rattle.cb_log.specs.Basis.{Mode, wanted as for_wanted};
ghost use Rattle.cb_model.specs.NodeOrder.{node_cmp};
ghost use Rattle.cb_model.specs.Order.{Rises};
ghost use Rattle.cb_session.specs.Ready.{IsReady, IsReadyBySome};
ghost use Rattle.cb_session.specs.Reported.{TellsInUse, TellsMade, ReportsWindows, kept_ready};

use crate::basis::{Ready, diagnose};
use cb_cache::Cache;
use cb_log::{Closed, Event};
use cb_model::{List, Wish};
use cb_topo::Topology;
use std::alloc::{AllocError, Global};

/// The events that windows bring as they close, and what was made ready for them, if nothing was ready.
#[derive(Drop)]
pub(crate) struct Reported {
    pub events: List<Event>,
    pub made: Option<Ready>,
}

/// The events of the closing windows, by the codebook in use, or by one that is made now. Where no window closes, nothing is made ready.
pub(crate) fn closing_report(
    alloc: Global,
    cache: &Cache,
    ready: &Option<Ready>,
    wish: Wish,
    closing: &List<Closed>,
) -> Result<Reported, AllocError>
    requires ready { IfSome ready.now (IsReady cache.now.graph (for_wanted wish)) }
    requires rise { All (λ c. Rises node_cmp c.nodes) closing.now }
    ensures { IfOk result (ReportsWindows cache.now.graph wish ready.now closing.now) }
{
    if closing.len() == 0 {
        return Ok(Reported {
            events: List::new(alloc),
            made: None,
        });
    }
    let topology = cache.graph().topology();
    match ready {
        Some(ready) => Ok(Reported {
            events: reported_in_use(alloc, topology, ready, closing)?,
            made: None,
        }),
        None => {
            let made = Ready::of(alloc, cache, wish)?;
            let events = reported_made(alloc, topology, &made, wish, closing)?;
            Ok(Reported {
                events,
                made: Some(made),
            })
        }
    }
}

/// The diagnoses, by what is ready.
pub(crate) fn reported_in_use(
    alloc: Global,
    topology: &Topology,
    ready: &Ready,
    closing: &List<Closed>,
) -> Result<List<Event>, AllocError>
    requires ready { IsReadyBySome topology.now ready.now }
    requires rise { All (λ c. Rises node_cmp c.nodes) closing.now }
    ensures { IfOk result (λ events. (mode : Mode) → IsReady topology.now mode ready.now
        → TellsInUse topology.now mode ready.now closing.now events) }
{
    let mut events = List::new(alloc);
    diagnose(alloc, topology, ready, closing, &mut events)?;
    Ok(events)
}

// What is reported of a codebook that is made for them, and the diagnoses.
fn reported_made(
    alloc: Global,
    topology: &Topology,
    ready: &Ready,
    wish: Wish,
    closing: &List<Closed>,
) -> Result<List<Event>, AllocError>
    requires ready { IsReady topology.now (for_wanted wish) ready.now }
    requires rise { All (λ c. Rises node_cmp c.nodes) closing.now }
    ensures { IfOk result (TellsMade topology.now wish ready.now closing.now) }
{
    let mut events = ready.announce(alloc, wish)?;
    diagnose(alloc, topology, ready, closing, &mut events)?;
    Ok(events)
}

/// What stays ready once a record has acted.
pub(crate) fn keep_ready(ready: &mut Option<Ready>, made: Option<Ready>, changed: bool)
    ensures { ready.new ≡ kept_ready changed ready.old made }
{
    if changed {
        *ready = None;
    } else if made.is_some() {
        *ready = made;
    }
}
