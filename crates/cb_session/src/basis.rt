//! What windows are diagnosed by, and their diagnoses.
ghost use Rattle.std.specs.Prelude.{◌≡◌, ◌≤◌, ◌<◌, ◌^◌, ◌++◌, List as Items, length, IfOk, OnOk, IfSome, IfNone};
ghost use Rattle.std.specs.List.{All, AllZip};
ghost use Rattle.cb_coding.specs.Distance.{all_columns};
ghost use Rattle.cb_coding.specs.Groups.{codes_of};
ghost use Rattle.cb_coding.specs.Pairs.{Good, IsFirstClose};
ghost use Rattle.cb_coding.specs.declared.group.Group.{Group};
ghost use Rattle.cb_decode.specs.Decoder.{IsDecoder};
ghost use Rattle.cb_decode.specs.Found.{IsWordOf};
ghost use Rattle.cb_decode.specs.Names.{HasName};
ghost use Rattle.cb_finding.specs.Finding.{IsFindingFor};
ghost use Rattle.cb_finding.specs.Matrix.{IsMatrix};
ghost use Rattle.cb_log.specs.Basis.{Mode, wanted as for_wanted, fixed as by_fixed, Basis, IsDiagnosis, IsAnnounced, IsMadeEvent, AreWarnings};
ghost use Rattle.cb_log.specs.declared.event.Event.{Event as EventOf};
ghost use Rattle.cb_model.specs.declared.wish.Wish.TheVariants.{Plain as plain};
ghost use Rattle.cb_model.specs.declared.node.NodeName.{NodeName as NodeOf};
ghost use Rattle.cb_model.specs.NodeOrder.{node_cmp};
ghost use Rattle.cb_model.specs.Order.{Rises};
ghost use Rattle.cb_session.specs.Course.{mode_by};
ghost use Rattle.cb_session.specs.InUse.{IsInUseFor, HasRadiiOf, in_use_of};
ghost use Rattle.cb_session.specs.Ready.{IsReady, IsReadyBySome, IsReadyFor, IsSomewhereReady, HasBasis, NamesGroupPair};
ghost use Rattle.cb_session.specs.Stated.{IsModeStated, StatesRadiiOf};
ghost use Rattle.cb_topo.specs.Numbered.{Numbered, topology_of, AreNamed};
ghost use Rattle.cb_validity.specs.Valid.{AreColumnNumbers};

use crate::book::{BookInUse, capped_event, plain_event};
use crate::stated::{StatedBook, matrix_and_places};
use cb_cache::Cache;
use cb_codes::{Codes, Groups};
use cb_coding::Pair;
use cb_decode::{Decoder, RaisedWord, find_by, find_cap_by, group_name};
use cb_distance::first_close;
use cb_finding::Finding;
use cb_log::{Closed, Event};
use cb_matrix::Matrix;
use cb_model::{List, Name, NodeName, Wish};
use cb_topo::Topology;
use std::alloc::{AllocError, Global};

/// What windows are diagnosed by: the matrix of a topology, the codebook in use for it, and its decoder.
#[derive(Drop)]
pub(crate) struct Ready {
    matrix: Matrix,
    book: BookInUse,
    decoder: Decoder,
}

impl Ready {
    /// Of the topology of a cache, for a wish. For a cap the codebook for it. For a distance the codebook at it, if any two groups are at
    /// least that far apart; else the one at the least distance of two groups.
    pub fn of(alloc: Global, cache: &Cache, wish: Wish) -> Result<Ready, AllocError>
        ensures { IfOk result (IsReady cache.now.graph (for_wanted wish)) }
    {
        let matrix = Matrix::of(alloc, cache)?;
        match book_and_decoder(alloc, matrix.codes(), wish) {
            Ok((book, decoder)) => Ok(Ready {
                matrix,
                book,
                decoder,
            }),
            Err(none) => {
                drop(matrix);
                Err(none)
            }
        }
    }

    /// Of the topology of a cache, by a codebook that is given.
    pub fn by(alloc: Global, cache: &Cache, book: BookInUse) -> Result<Ready, AllocError>
        requires few { length (in_use_of book).kept < 2 ^ 32 }
        requires radii { (columns : Items NodeOf) (groups : Items Group) → IsMatrix (topology_of cache.now.graph) columns groups
            → HasRadiiOf (length columns) (codes_of groups) book }
        ensures ready { IfOk result (IsReady cache.now.graph (by_fixed (in_use_of book).kept (in_use_of book).used)) }
        ensures book { IfOk result (λ ready. ready.book ≡ book) }
    {
        let matrix = Matrix::of(alloc, cache)?;
        let decoder = Decoder::of(alloc, matrix.codes(), book.columns())?;
        Ok(Ready {
            matrix,
            book,
            decoder,
        })
    }

    /// Of the topology of a cache, by the codebook that a certificate states.
    pub fn by_stated(alloc: Global, cache: &Cache, stated: StatedBook) -> Result<Ready, AllocError>
        requires columns { AreColumnNumbers (topology_of cache.now.graph) stated.nodes stated.columns }
        requires radii { (columns : Items NodeOf) (groups : Items Group) → IsMatrix (topology_of cache.now.graph) columns groups
            → StatesRadiiOf (length columns) (codes_of groups) stated.wish }
        ensures ready { IfOk result (λ ready. IsReady cache.now.graph (mode_by ready) ready) }
        ensures stated { IfOk result (λ ready. IsModeStated (topology_of cache.now.graph) stated (mode_by ready)) }
    {
        let (matrix, places) = matrix_and_places(alloc, cache, &stated)?;
        let book = stated.wish.book_of(places);
        let decoder = Decoder::of(alloc, matrix.codes(), book.columns())?;
        Ok(Ready {
            matrix,
            book,
            decoder,
        })
    }

    /// The events that report the codebook, before the first diagnosis by it.
    pub fn announce(&self, alloc: Global, wish: Wish) -> Result<List<Event>, AllocError>
        requires { IsReadyFor wish self.now }
        ensures { IfOk result (λ events. (n : Numbered) (mode : Mode) (basis : Basis (topology_of n) mode) → HasBasis n basis self.now
            → IsAnnounced basis wish events) }
    {
        let mut events = self.warnings(alloc, wish)?;
        events.push(self.book_event())?;
        Ok(events)
    }

    // What is reported before the codebook: where a distance is wanted, that two groups are closer.
    fn warnings(&self, alloc: Global, wish: Wish) -> Result<List<Event>, AllocError>
        requires { IsReadyFor wish self.now }
        ensures { IfOk result (λ events. (n : Numbered) (mode : Mode) (basis : Basis (topology_of n) mode) → HasBasis n basis self.now
            → AreWarnings basis wish events) }
    {
        match wish {
            Wish::Plain(wanted) => self.thin_warning(alloc, wanted),
            Wish::Cap(_) => Ok(List::new(alloc)),
        }
    }

    // That the first two groups are closer than wanted, if any are.
    fn thin_warning(&self, alloc: Global, wanted: u32) -> Result<List<Event>, AllocError>
        requires { IsReadyFor (plain wanted) self.now }
        ensures { IfOk result (λ events. (n : Numbered) (mode : Mode) (basis : Basis (topology_of n) mode) → HasBasis n basis self.now
            → AreWarnings basis (plain wanted) events) }
    {
        let mut events = List::new(alloc);
        if let Some(pair) = self.first_thin(wanted) {
            events.push(thin(alloc, self.matrix.coded_groups(), pair, wanted)?)?;
        }
        Ok(events)
    }

    // The first two groups that are closer than wanted. None are where the codebook keeps that distance.
    fn first_thin(&self, wanted: u32) -> Option<Pair>
        requires { IsReadyFor (plain wanted) self.now }
        ensures pair { IfSome result (IsFirstClose (all_columns (length self.now.matrix.columns)) (codes_of self.now.matrix.groups) wanted) }
        ensures none { IfNone result (Good (codes_of self.now.matrix.groups) (all_columns (length self.now.matrix.columns)) wanted) }
    {
        if self.book.keeps(wanted) {
            return None;
        }
        first_close(self.matrix.codes(), wanted)
    }

    // The numbers of the codebook.
    fn book_event(&self) -> Event
        requires { IsSomewhereReady self.now }
        ensures { (n : Numbered) (mode : Mode) (basis : Basis (topology_of n) mode) → HasBasis n basis self.now → IsMadeEvent basis result }
    {
        let of = self.matrix.columns().len() as u32;
        let groups = self.matrix.groups().len() as u32;
        match &self.book {
            BookInUse::Plain(book) => plain_event(book, of, groups),
            BookInUse::Capped(book) => capped_event(book, of, groups),
        }
    }

    // The diagnosis of a window that closes.
    fn diagnosis(
        &self,
        alloc: Global,
        topology: &Topology,
        closed: &Closed,
    ) -> Result<Event, AllocError>
        requires ready { IsReadyBySome topology.now self.now }
        requires rise { Rises node_cmp closed.now.nodes }
        ensures { IfOk result (λ event. (mode : Mode) (basis : Basis (topology_of topology.now) mode) → HasBasis topology.now basis self.now
            → IsDiagnosis basis closed.now event) }
    {
        let finding = self.finding(alloc, topology, &closed.nodes)?;
        Ok(Event::Diagnosis {
            from: Name::of(alloc, closed.from.bytes())?,
            opened: closed.opened,
            closed: closed.closed,
            finding,
        })
    }

    // The groups nearest to what is raised, over the columns of the codebook.
    fn finding(
        &self,
        alloc: Global,
        topology: &Topology,
        raised: &List<NodeName>,
    ) -> Result<Finding, AllocError>
        requires ready { IsReadyBySome topology.now self.now }
        requires rise { Rises node_cmp raised.now }
        ensures { IfOk result (λ finding. (columns : Items NodeOf) → AreNamed topology.now self.now.matrix.columns columns
            → IsFindingFor columns self.now.matrix.groups (in_use_of self.now.book).kept (in_use_of self.now.book).used raised.now finding) }
    {
        let word = RaisedWord::of(alloc, topology, self.matrix.columns(), raised)?;
        self.found_for(alloc, &word)
    }

    // The groups nearest to a word over all columns.
    fn found_for(&self, alloc: Global, word: &RaisedWord) -> Result<Finding, AllocError>
        requires { IsSomewhereReady self.now }
        ensures { IfOk result (λ finding. (columns nodes : Items NodeOf) → IsWordOf columns nodes word.now → length columns ≡ length self.now.matrix.columns
            → IsFindingFor columns self.now.matrix.groups (in_use_of self.now.book).kept (in_use_of self.now.book).used nodes finding) }
    {
        let groups = self.matrix.coded_groups();
        match &self.book {
            BookInUse::Plain(book) => find_by(alloc, groups, book, &self.decoder, word),
            BookInUse::Capped(book) => find_cap_by(alloc, groups, book, &self.decoder, word),
        }
    }
}

/// The diagnoses of windows that close, in their order, put after the events so far. Where memory runs out, some of them may
/// stand there already.
pub(crate) fn diagnose(
    alloc: Global,
    topology: &Topology,
    ready: &Ready,
    closing: &List<Closed>,
    events: &mut List<Event>,
) -> Result<(), AllocError>
    requires ready { IsReadyBySome topology.now ready.now }
    requires rise { All (λ c. Rises node_cmp c.nodes) closing.now }
    ensures { OnOk result ((mode : Mode) (basis : Basis (topology_of topology.now) mode) → HasBasis topology.now basis ready.now
        → (diagnoses : Items EventOf) × AllZip (IsDiagnosis basis) closing.now diagnoses × (events.new ≡ events.old ++ diagnoses)) }
{
    for k in 0..closing.len() {
        events.push(ready.diagnosis(alloc, topology, closing.at(k))?)?;
    }
    Ok(())
}

// The codebook in use for a wish, and its decoder.
fn book_and_decoder(
    alloc: Global,
    codes: &Codes,
    wish: Wish,
) -> Result<(BookInUse, Decoder), AllocError>
    requires some { 0 < length codes.now.rows }
    requires places_fit { length codes.now.rows ≤ 2 ^ 16 }
    requires columns_fit { codes.now.width ≤ 2 ^ 16 }
    ensures book { IfOk result (λ made. IsInUseFor codes.now.width codes.now.rows wish made.0) }
    ensures decoder { IfOk result (λ made. IsDecoder (in_use_of made.0).kept codes.now.rows made.1) }
{
    let book = BookInUse::of(alloc, codes, wish)?;
    match Decoder::of(alloc, codes, book.columns()) {
        Ok(decoder) => Ok((book, decoder)),
        Err(none) => {
            drop(book);
            Err(none)
        }
    }
}

// Tells that these two groups are closer than wanted.
fn thin(alloc: Global, groups: &Groups, pair: Pair, wanted: u32) -> Result<Event, AllocError>
    requires first { HasName groups.now.groups pair.first }
    requires second { HasName groups.now.groups pair.second }
    ensures { IfOk result (NamesGroupPair groups.now.groups wanted pair) }
{
    let first = group_name(alloc, groups, pair.first)?;
    let second = group_name(alloc, groups, pair.second)?;
    Ok(Event::Thin {
        wanted,
        first,
        second,
        distance: pair.distance,
    })
}
