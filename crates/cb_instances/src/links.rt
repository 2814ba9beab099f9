//! The links of one instance.
ghost use Rattle.std.specs.Prelude.{◌≡◌, [], ◌∷◌, ◌++◌, OnOk};
ghost use Rattle.std.specs.List.{position};
ghost use Rattle.cb_instances.specs.Rows.{is_of, row_of, HasSpare, Puts, RemovesLink};

use crate::id::InstanceId;
use crate::items::take_out;
use cb_model::RelId;
use std::alloc::{AllocError, Global};

/// The instances that one relation leads to.
#[derive(Drop)]
pub struct LinkRow {
    pub rel: RelId,
    pub to: Vec<InstanceId>,
}

/// What each relation of an instance leads to. A class may have many relations, of which its instances use few: so
/// there is one row for each relation in use.
#[derive(Drop)]
pub struct Links {
    pub rows: Vec<LinkRow>,
}

impl Links {
    /// Of an instance without links.
    pub fn new(alloc: Global) -> Links
        ensures { result.rows.items ≡ [] }
    {
        Links {
            rows: Vec::new(alloc),
        }
    }

    // The position of the relation's row.
    fn place_of(&self, rel: RelId) -> Option<usize>
        ensures { result ≡ position (is_of rel) self.now.rows.items }
    {
        self.rows.iter().position(|row| row.rel == rel)
    }

    /// The instances that the relation leads to.
    pub fn to(&self, rel: RelId) -> &[InstanceId]
        ensures { result.now ≡ row_of self.now.rows.items rel }
    {
        match self.place_of(rel) {
            Some(place) => &self.rows[place].to,
            None => &[],
        }
    }

    /// Reserves capacity for one instance more under the relation.
    pub fn reserve(&mut self, alloc: Global, rel: RelId) -> Result<(), AllocError>
        ensures same { Puts self.old.rows.items self.new.rows.items rel (row_of self.old.rows.items rel) }
        ensures spare { OnOk result (HasSpare self.new.rows.items rel) }
    {
        match self.place_of(rel) {
            Some(place) => self.rows[place].to.reserve(1),
            None => {
                let to = Vec::with_capacity(alloc, 1)?;
                self.rows.push(LinkRow { rel, to })?;
                Ok(())
            }
        }
    }

    /// Adds an instance under the relation.
    pub fn add(&mut self, rel: RelId, to: InstanceId)
        requires { HasSpare self.old.rows.items rel }
        ensures { Puts self.old.rows.items self.new.rows.items rel (row_of self.old.rows.items rel ++ to ∷ []) }
    {
        if let Some(place) = self.place_of(rel) {
            self.rows[place].to.push_reserved(to);
        }
    }

    /// Takes the instance away from those under the relation.
    pub fn remove(&mut self, rel: RelId, to: InstanceId)
        ensures { RemovesLink self.old.rows.items self.new.rows.items rel to }
    {
        if let Some(place) = self.place_of(rel) {
            take_out(&mut self.rows[place].to, to);
        }
    }
}
