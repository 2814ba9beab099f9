//! Sets of instances.
ghost use Rattle.std.specs.Prelude.{◌≡◌, ◌<◌, ◌≤◌, ◌-◌, ◌++◌, ◌↔◌, ◌⊎◌, ℕ, length, replicate, false, true, vec_capacity, [], IfOk, OnOk, OnErr, IsOk};
ghost use Rattle.std.specs.List.{Contains};
ghost use Rattle.cb_instances.specs.declared.id.InstanceId.{InstanceId as Id};
ghost use Rattle.cb_successors.specs.Rows.{Has};
ghost use Rattle.cb_graph.specs.Instances.{IsListed as Lists, IsPrefix, RowGains, IsNumber};
ghost use Rattle.cb_graph.specs.Walks.{CoversInstances, HasLive, IsRunTo};

use cb_bits::Row;
use cb_instances::InstanceId;
use cb_model::RelId;
use cb_topo::Topology;
use std::alloc::{AllocError, Global};

/// A set of instances, which takes no memory once it is long enough. Its members are listed, so that going over them
/// and forgetting them takes no longer than there are members. Contracts see it as a row of truth values.
#[derive(Drop)]
pub struct InstanceSet {
    list: Vec<InstanceId>,
    row: Row,
}

impl std::marker::Model for InstanceSet {
    ghost use Rattle.std.specs.Prelude.{List, Bool, ◌≤◌, length, vec_capacity};

    ghost Value = { List Bool };

    ghost view = { λ s. s.row };

    ghost use Rattle.cb_graph.specs.Instances.{IsListed};

    ghost invariant = { λ s. IsListed s.list.items s.row × (length s.row ≤ vec_capacity s.list) };
}

// Makes false the positions of the listed instances, which are all that the row has.
fn clear_all(list: &[InstanceId], row: &mut Row)
    requires { (id : Id) → Contains list.now id ↔ Has row.old id.0 }
    ensures length { length row.new ≡ length row.old }
    ensures none { (k : ℕ) → ¬ Has row.new k }
{
    for id in list {
        row.clear(id.0);
    }
}

// Adds the instance to the row, and at the end of the list, unless the row has it.
fn add_one(id: InstanceId, list: &mut Vec<InstanceId>, row: &mut Row)
    requires listed { Lists list.old.items row.old }
    requires capacity { length row.old ≤ vec_capacity list.old }
    requires place { id.0 < length row.old }
    ensures listed { Lists list.new.items row.new }
    ensures capacity { length row.new ≤ vec_capacity list.new }
    ensures length { length row.new ≡ length row.old }
    ensures each { (k : ℕ) → Has row.new k ↔ (Has row.old k ⊎ (id.0 ≡ k)) }
    ensures prefix { IsPrefix list.old.items list.new.items }
{
    if !row.get(id.0) {
        row.set(id.0);
        list.push_reserved(id);
    }
}

// Adds these instances to the row, in their order, and at the end of the list those that the row doesn't have. The list
// keeps the positions of what it had, since a caller may be going over it.
fn add_each(ids: &[InstanceId], list: &mut Vec<InstanceId>, row: &mut Row)
    requires listed { Lists list.old.items row.old }
    requires capacity { length row.old ≤ vec_capacity list.old }
    requires places { (id : Id) → Contains ids.now id → id.0 < length row.old }
    ensures listed { Lists list.new.items row.new }
    ensures capacity { length row.new ≤ vec_capacity list.new }
    ensures length { length row.new ≡ length row.old }
    ensures each { RowGains row.old row.new ids.now IsNumber }
    ensures prefix { IsPrefix list.old.items list.new.items }
{
    for id in ids {
        add_one(*id, list, row);
    }
}

// Adds what links by the relation lead to, from the listed instances and from those that are added to the list on the
// way. The list is the queue of a search in breadth, so each instance is followed once.
fn run_along(topology: &Topology, rel: RelId, list: &mut Vec<InstanceId>, row: &mut Row)
    requires listed { Lists list.old.items row.old }
    requires capacity { length row.old ≤ vec_capacity list.old }
    requires places { CoversInstances topology.now.net row.old }
    requires live { HasLive topology.now.net row.old }
    ensures listed { Lists list.new.items row.new }
    ensures capacity { length row.new ≤ vec_capacity list.new }
    ensures length { length row.new ≡ length row.old }
    ensures exactly { (k : ℕ) → Has row.new k ↔ IsRunTo topology.now.net rel true row.old k }
{
    let mut place = 0;
    while place < list.len() {
        let id = list[place];
        place += 1;
        add_each(topology.links(id, rel), list, row);
    }
}

impl InstanceSet {
    /// A set of length 0.
    pub fn new(alloc: Global) -> Result<InstanceSet, AllocError>
        ensures { IfOk result (λ set. set ≡ []) }
    {
        Ok(InstanceSet {
            list: Vec::new(alloc),
            row: Row::zeroed(alloc, 0)?,
        })
    }

    /// Adds positions at the end, so that there are at least `n`.
    pub fn reserve(&mut self, n: usize) -> Result<(), AllocError>
        ensures ok { OnOk result (self.new ≡ self.old ++ replicate (n - length self.old) false) }
        ensures err { OnErr result (self.new ≡ self.old) }
        ensures succeeds { n ≤ length self.old → IsOk result }
    {
        if n <= self.row.len() {
            return Ok(());
        }
        self.list.reserve(n - self.list.len())?;
        self.row.grow(n)
    }

    /// Forgets all members.
    pub fn clear(&mut self)
        ensures length { length self.new ≡ length self.old }
        ensures none { (k : ℕ) → ¬ Has self.new k }
    {
        clear_all(&self.list, &mut self.row);
        self.list.clear();
    }

    /// Adds the instance, which may be a member already. It takes no memory.
    pub fn add(&mut self, id: InstanceId)
        requires { id.0 < length self.old }
        ensures length { length self.new ≡ length self.old }
        ensures each { (k : ℕ) → Has self.new k ↔ (Has self.old k ⊎ (id.0 ≡ k)) }
    {
        add_one(id, &mut self.list, &mut self.row);
    }

    /// With the plus, adds all that links by the relation lead to from the members, through any number of instances;
    /// without it, nothing. It takes no memory, and follows each instance once, whatever cycles there are.
    pub fn run_on(&mut self, topology: &Topology, rel: RelId, plus: bool)
        requires places { CoversInstances topology.now.net self.old }
        requires live { HasLive topology.now.net self.old }
        ensures length { length self.new ≡ length self.old }
        ensures exactly { (k : ℕ) → Has self.new k ↔ IsRunTo topology.now.net rel plus self.old k }
    {
        if plus {
            run_along(topology, rel, &mut self.list, &mut self.row);
        }
    }

    /// The members, in the order in which they came.
    pub fn members(&self) -> &[InstanceId]
        ensures { (id : Id) → Contains result.now id ↔ Has self.now id.0 }
    {
        &self.list
    }
}
