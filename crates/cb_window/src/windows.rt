//! Open windows.
ghost use Rattle.std.specs.Prelude.{◌≡◌, ◌≤◌, ◌<◌, ◌++◌, max, length, List as Items, [], ◌∷◌, IfOk, OnOk, OnErr};
ghost use Rattle.cb_log.specs.declared.record.Body.TheVariants.{Clear, Raise};
ghost use Rattle.cb_log.specs.declared.record.Record.{Record};
ghost use Rattle.cb_log.specs.Kept.{StandsForRecords};
ghost use Rattle.cb_log.specs.Passing.{TimePasses, Clears, AreDue};
ghost use Rattle.cb_log.specs.Closing.{AreClosing};
ghost use Rattle.cb_window.specs.Kept.{PutsNode};
ghost use Rattle.cb_log.specs.Records.{IsByNone};

use crate::closing::{close_all, close_up_to};
use crate::nodes::{add_node, clear_node};
use crate::opening::{is_open_still, open_window};
use crate::queue::drop_due;
use crate::turn::Turn;
use cb_log::Closed;
use cb_model::{List, Name, NodeName};
use std::alloc::{AllocError, Global};
use std::collections::{BTreeMap, BTreeSet};
use std::marker::Model;

// When a window opened, and the nodes that are raised in it.
#[derive(Drop)]
pub(crate) struct Open {
    pub opened: u64,
    pub nodes: BTreeSet<NodeName, Global>,
}

/// The windows of sources over the records so far. Times and the length are counted in one unit, the log's.
#[derive(Drop)]
pub struct Windows {
    length: u64,
    time: u64,
    live: BTreeMap<Name, Open, Global>,
    queue: BTreeSet<Turn, Global>,
}

impl Model for Windows {
    ghost use Rattle.cb_log.specs.Kept.{Kept};
    ghost use Rattle.cb_window.specs.Encoding.{kept_encoding};

    ghost Value = { Kept };

    ghost coded = { kept_encoding };

    ghost use Rattle.cb_window.specs.Kept.{shown_map, IsQueued};

    ghost view = { λ w. record { length = w.length; now = w.time; windows = shown_map w.live } };

    ghost use Rattle.std.specs.Prelude.{◌≤◌};

    ghost invariant = { λ w. (1 ≤ w.length) × IsQueued w.live w.queue };
}

// The greater of two times.
fn later(time: u64, at: u64) -> u64
    ensures { result ≡ max time at }
{
    if time < at { at } else { time }
}

impl Windows {
    /// The windows before any record; each is to be so long.
    pub fn new(alloc: Global, length: u64) -> Windows
        requires { 1 ≤ length }
        ensures length { result.length ≡ length }
        ensures stands { StandsForRecords result [] }
    {
        Windows {
            length,
            time: 0,
            live: BTreeMap::new(alloc),
            queue: BTreeSet::new(alloc),
        }
    }

    /// The log time.
    pub fn now(&self) -> u64
        ensures { result ≡ self.now.now }
    {
        self.time
    }

    // Time goes by, and the windows that are due go.
    fn go_to(&mut self, at: u64)
        ensures { TimePasses self.old self.new at }
    {
        self.time = later(self.time, at);
        drop_due(&mut self.live, &mut self.queue, self.time, self.length);
    }

    /// Goes on by a record of that time that no source says: a tick, or an edit.
    pub fn pass(&mut self, at: u64)
        ensures length { self.new.length ≡ self.old.length }
        ensures stands { (records : Items Record) (r : Record) → r.at ≡ at → IsByNone r → StandsForRecords self.old records
            → StandsForRecords self.new (records ++ r ∷ []) }
    {
        self.go_to(at);
    }

    /// The windows that a record of that time closes, by their opening times and then by their sources. They stay until the
    /// log goes on.
    pub fn due(&self, alloc: Global, at: u64) -> Result<List<Closed>, AllocError>
        ensures { IfOk result (λ closing. (records : Items Record) (r : Record) → r.at ≡ at → StandsForRecords self.now records
            → AreClosing (records ++ r ∷ []) self.now.length (length records) closing) }
    {
        self.due_by(alloc, later(self.time, at))
    }

    // The windows that are due at that time.
    fn due_by(&self, alloc: Global, time: u64) -> Result<List<Closed>, AllocError>
        ensures { IfOk result (AreDue self.now time) }
    {
        if time < self.length {
            return Ok(List::new(alloc));
        }
        close_up_to(alloc, &self.live, &self.queue, time - self.length, time)
    }

    /// The windows that the end of the log closes, in the same order.
    pub fn rest(&self, alloc: Global) -> Result<List<Closed>, AllocError>
        ensures { IfOk result (λ closing. (records : Items Record) → StandsForRecords self.now records
            → AreClosing records self.now.length (length records) closing) }
    {
        close_all(alloc, &self.live, &self.queue, self.time)
    }

    /// Goes on by a raise of that time: the node goes into the source's window, or opens one.
    pub fn raise(
        &mut self,
        alloc: Global,
        at: u64,
        from: &Name,
        node: &NodeName,
    ) -> Result<(), AllocError>
        ensures length { self.new.length ≡ self.old.length }
        ensures stands { OnOk result ((records : Items Record) (r : Record) → r.at ≡ at → r.body ≡ Raise from.now node.now
            → StandsForRecords self.old records → StandsForRecords self.new (records ++ r ∷ [])) }
        ensures same { OnErr result (self.new ≡ self.old) }
    {
        self.put_node(alloc, later(self.time, at), from, node)?;
        self.go_to(at);
        Ok(())
    }

    // The node goes into the source's window, if that is open still at that time, and else into a new one that opens then.
    fn put_node(
        &mut self,
        alloc: Global,
        time: u64,
        from: &Name,
        node: &NodeName,
    ) -> Result<(), AllocError>
        ensures put { OnOk result (PutsNode self.old self.new time from.now node.now) }
        ensures same { OnErr result (self.new ≡ self.old) }
    {
        if is_open_still(&self.live, from, self.length, time) {
            add_node(alloc, &mut self.live, from, node)
        } else {
            open_window(alloc, &mut self.live, &mut self.queue, time, from, node)
        }
    }

    /// Goes on by a clear of that time, which does nothing where the source has no window.
    pub fn clear(&mut self, at: u64, from: &Name, node: &NodeName)
        ensures length { self.new.length ≡ self.old.length }
        ensures stands { (records : Items Record) (r : Record) → r.at ≡ at → r.body ≡ Clear from.now node.now → StandsForRecords self.old records
            → StandsForRecords self.new (records ++ r ∷ []) }
    {
        self.go_to(at);
        self.take_node(from, node);
    }

    // Takes the node out of the source's window, if it has one.
    fn take_node(&mut self, from: &Name, node: &NodeName)
        ensures { Clears self.old self.new from.now node.now }
    {
        clear_node(&mut self.live, from, node);
    }
}
