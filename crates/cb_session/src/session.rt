//! A session.
ghost use Rattle.std.specs.Prelude.{◌≡◌, ◌<◌, ◌≤◌, ◌++◌, ◌^◌, ℕ, List as Items, [], ◌∷◌, length as length_of, IfOk, IsOk, OnOk, OnErr};
ghost use Rattle.cb_alarm.specs.Lines.{NumberedLine, ComesTo};
ghost use Rattle.cb_coding.specs.Groups.{codes_of};
ghost use Rattle.cb_coding.specs.Radii.{AreRadii};
ghost use Rattle.cb_coding.specs.declared.group.Group.{Group};
ghost use Rattle.cb_finding.specs.Matrix.{IsMatrix};
ghost use Rattle.cb_model.specs.declared.node.NodeName.{NodeName};
ghost use Rattle.cb_model.specs.declared.wish.Wish.{Wish as WishOf};
ghost use Rattle.cb_model.specs.declared.wish.Wish.TheVariants.{Plain, Cap};
ghost use Rattle.cb_log.specs.Basis.{wanted as for_wanted, fixed as by_fixed};
ghost use Rattle.cb_log.specs.Entries.{LogEntry, said, records_of};
ghost use Rattle.cb_log.specs.Events.{EntryGives, EndGives};
ghost use Rattle.cb_network.specs.Regular.{IsRegular};
ghost use Rattle.cb_network.specs.Topology.{Topology};
ghost use Rattle.cb_topo.specs.Numbered.{topology_of};
ghost use Rattle.cb_validity.specs.Valid.{AreColumnNumbers};
ghost use Rattle.cb_session.specs.Acts.{IsWellNamed};
ghost use Rattle.cb_session.specs.Counted.{CountsEntry};
ghost use Rattle.cb_session.specs.Course.{mode_by};
ghost use Rattle.cb_session.specs.Sources.{StandsAlone, EndsAlone};
ghost use Rattle.cb_session.specs.InUse.{HasRadiiOf, in_use_of};
ghost use Rattle.cb_session.specs.Numbers.{KeepsNumbers};
ghost use Rattle.cb_session.specs.Ready.{IsReady};
ghost use Rattle.cb_session.specs.State.{State, StandsForEntries, StandsForLines, log_line_of, network_of, IsFitting};
ghost use Rattle.cb_session.specs.Stated.{IsModeStated, StatesRadiiOf};
ghost use Rattle.cb_session.specs.Steps.{EntryTells, EntryStands, ClosesAtEnd, TellsAtEnd};
ghost use Rattle.cb_session.specs.Taken.{entry_of_taken};

use crate::basis::Ready;
use crate::book::BookInUse;
use crate::course::Course;
use crate::entry::{Taken, entry_of};
use crate::fixed::go_on_fixed;
use crate::line::LogLine;
use crate::reported::{closing_report, reported_in_use};
use crate::stated::StatedBook;
use crate::wanted::go_on_wanted;
use cb_alarm::Scratch;
use cb_cache::Cache;
use cb_coding::{Book, CapBook};
use cb_log::{Closed, Event, Record};
use cb_model::{List, Wish};
use cb_steps::Steps;
use cb_window::Windows;
use std::alloc::{AllocError, Global};
use std::marker::Model;
use std::sync::ledger::Ledger;

/// The topology as it is, the open windows, and the codebook in use.
#[derive(Drop)]
pub struct Session {
    cache: Cache,
    windows: Windows,
    course: Course,
    // Lines are read over it. Contracts don't see it.
    scratch: Scratch,
}

impl Model for Session {
    ghost use Rattle.cb_topo.specs.Numbered.{topology_of};
    ghost use Rattle.cb_session.specs.Encoding.{state_encoding};
    ghost use Rattle.cb_session.specs.Course.{state_of};
    ghost use Rattle.cb_session.specs.Settled.{FitsCourse};
    ghost use Rattle.cb_session.specs.State.{State};

    ghost Value = { State };

    ghost coded = { state_encoding };

    ghost view = { λ s. state_of s.cache s.windows s.course };

    ghost invariant = { λ s. FitsCourse s.cache.graph s.windows s.course };
}

impl Session {
    /// A session at the beginning of a log, over the topology of a cache: a distance at which codebooks are wanted, and the length of
    /// windows in the log's unit of time. It takes no memory, and never fails.
    pub fn open(
        alloc: Global,
        cache: Cache,
        wanted: u32,
        length: u64,
    ) -> Result<Session, AllocError>
        requires length { 1 ≤ length }
        ensures mode { IfOk result (λ s. s.mode ≡ for_wanted (Plain wanted)) }
        ensures length { IfOk result (λ s. s.windows.length ≡ length) }
        ensures cache { IfOk result (λ s. s.cache ≡ cache) }
        ensures stands { IfOk result (λ s. StandsForEntries s (topology_of cache.graph) []) }
        ensures never_fails { IsOk result }
    {
        Ok(Session::for_wish(alloc, cache, Wish::Plain(wanted), length))
    }

    /// As `open`, with a cap in place of a distance.
    pub fn open_cap(
        alloc: Global,
        cache: Cache,
        cap: u32,
        length: u64,
    ) -> Result<Session, AllocError>
        requires length { 1 ≤ length }
        ensures mode { IfOk result (λ s. s.mode ≡ for_wanted (Cap cap)) }
        ensures length { IfOk result (λ s. s.windows.length ≡ length) }
        ensures cache { IfOk result (λ s. s.cache ≡ cache) }
        ensures stands { IfOk result (λ s. StandsForEntries s (topology_of cache.graph) []) }
        ensures never_fails { IsOk result }
    {
        Ok(Session::for_wish(alloc, cache, Wish::Cap(cap), length))
    }

    // A session at the beginning of a log, by codebooks for a wish.
    fn for_wish(alloc: Global, cache: Cache, wish: Wish, length: u64) -> Session
        requires { 1 ≤ length }
        ensures mode { result.mode ≡ for_wanted wish }
        ensures length { result.windows.length ≡ length }
        ensures cache { result.cache ≡ cache }
        ensures stands { StandsForEntries result (topology_of cache.graph) [] }
    {
        Session {
            cache,
            windows: Windows::new(alloc, length),
            course: Course::Wanted { wish, ready: None },
            scratch: Scratch::new(alloc),
        }
    }

    /// A session by one codebook, whose columns are positions among those of the topology. It makes no codebook, and refuses each edit, since that
    /// might make the given one wrong.
    pub fn by_book(
        alloc: Global,
        cache: Cache,
        book: Book,
        length: u64,
    ) -> Result<Session, AllocError>
        requires columns { length_of book.columns < 2 ^ 32 }
        requires length { 1 ≤ length }
        ensures mode { IfOk result (λ s. s.mode ≡ by_fixed book.columns (Plain book.distance)) }
        ensures length { IfOk result (λ s. s.windows.length ≡ length) }
        ensures cache { IfOk result (λ s. s.cache ≡ cache) }
        ensures stands { IfOk result (λ s. StandsForEntries s (topology_of cache.graph) []) }
    {
        Session::by_given(alloc, cache, BookInUse::Plain(book), length)
    }

    /// As `by_book`, by a codebook for a cap, whose radii are those of the topology's groups.
    pub fn by_cap_book(
        alloc: Global,
        cache: Cache,
        book: CapBook,
        length: u64,
    ) -> Result<Session, AllocError>
        requires columns { length_of book.columns < 2 ^ 32 }
        requires radii { (columns : Items NodeName) (groups : Items Group) → IsMatrix (topology_of cache.graph) columns groups
            → AreRadii (length_of columns) (codes_of groups) book.cap book.radii }
        requires length { 1 ≤ length }
        ensures mode { IfOk result (λ s. s.mode ≡ by_fixed book.columns (Cap book.cap)) }
        ensures length { IfOk result (λ s. s.windows.length ≡ length) }
        ensures cache { IfOk result (λ s. s.cache ≡ cache) }
        ensures stands { IfOk result (λ s. StandsForEntries s (topology_of cache.graph) []) }
    {
        Session::by_given(alloc, cache, BookInUse::Capped(book), length)
    }

    /// As `by_book` and `by_cap_book`, by the codebook that a certificate states. One index of the topology's columns gives the positions of
    /// those that are stated, and the matrix.
    pub fn by_stated(
        alloc: Global,
        cache: Cache,
        stated: StatedBook,
        length: u64,
    ) -> Result<Session, AllocError>
        requires columns { AreColumnNumbers (topology_of cache.graph) stated.nodes stated.columns }
        requires radii { (columns : Items NodeName) (groups : Items Group) → IsMatrix (topology_of cache.graph) columns groups
            → StatesRadiiOf (length_of columns) (codes_of groups) stated.wish }
        requires length { 1 ≤ length }
        ensures mode { IfOk result (λ s. IsModeStated (topology_of cache.graph) stated s.mode) }
        ensures length { IfOk result (λ s. s.windows.length ≡ length) }
        ensures cache { IfOk result (λ s. s.cache ≡ cache) }
        ensures stands { IfOk result (λ s. StandsForEntries s (topology_of cache.graph) []) }
    {
        let ready = Ready::by_stated(alloc, &cache, stated)?;
        Ok(Session::by_ready(alloc, cache, ready, length))
    }

    // A session at the beginning of a log, by a codebook that is given.
    fn by_given(
        alloc: Global,
        cache: Cache,
        book: BookInUse,
        length: u64,
    ) -> Result<Session, AllocError>
        requires columns { length_of (in_use_of book).kept < 2 ^ 32 }
        requires radii { (columns : Items NodeName) (groups : Items Group) → IsMatrix (topology_of cache.graph) columns groups
            → HasRadiiOf (length_of columns) (codes_of groups) book }
        requires length { 1 ≤ length }
        ensures mode { IfOk result (λ s. s.mode ≡ by_fixed (in_use_of book).kept (in_use_of book).used) }
        ensures length { IfOk result (λ s. s.windows.length ≡ length) }
        ensures cache { IfOk result (λ s. s.cache ≡ cache) }
        ensures stands { IfOk result (λ s. StandsForEntries s (topology_of cache.graph) []) }
    {
        let ready = Ready::by(alloc, &cache, book)?;
        Ok(Session::by_ready(alloc, cache, ready, length))
    }

    // A session at the beginning of a log, by one codebook, for which all is ready.
    fn by_ready(alloc: Global, cache: Cache, ready: Ready, length: u64) -> Session
        requires ready { IsReady cache.graph (mode_by ready) ready }
        requires length { 1 ≤ length }
        ensures mode { result.mode ≡ mode_by ready }
        ensures length { result.windows.length ≡ length }
        ensures cache { result.cache ≡ cache }
        ensures stands { StandsForEntries result (topology_of cache.graph) [] }
    {
        Session {
            cache,
            windows: Windows::new(alloc, length),
            course: Course::Fixed { ready },
            scratch: Scratch::new(alloc),
        }
    }

    /// What results from the next line: the diagnoses of the windows that it closes, and then what results from its body. An edit is made after
    /// them, and that alone counts steps. Where memory runs out the session is as before the call, and no step is counted.
    pub fn step<L: Ledger>(
        &mut self,
        alloc: Global,
        line: LogLine<'_>,
        steps: &mut Steps<L>,
    ) -> Result<List<Event>, AllocError>
        requires { IsFitting line }
        ensures comes { IfOk result (λ events. (entry : LogEntry) × ComesTo (log_line_of line.entry) entry) }
        ensures gives { IfOk result (λ events. (opening : Topology) (before : Items LogEntry) (entry : LogEntry) → IsRegular opening.model
            → ComesTo (log_line_of line.entry) entry → StandsForEntries self.old opening before
            → EntryGives opening self.old.mode self.old.windows.length (records_of before) entry events) }
        ensures alone { IfOk result (λ events. (opening : Topology) (before : Items NumberedLine) → IsRegular opening.model
            → StandsForLines self.old opening before
            → StandsAlone opening self.old.mode self.old.windows.length before (log_line_of line.entry) events) }
        ensures stands { OnOk result ((opening : Topology) (before : Items LogEntry) (entry : LogEntry) → IsRegular opening.model
            → ComesTo (log_line_of line.entry) entry → StandsForEntries self.old opening before
            → StandsForEntries self.new opening (before ++ entry ∷ [])) }
        ensures lines { OnOk result ((opening : Topology) (before : Items NumberedLine) → IsRegular opening.model
            → StandsForLines self.old opening before → StandsForLines self.new opening (before ++ log_line_of line.entry ∷ [])) }
        ensures numbers { OnOk result (KeepsNumbers self.old.cache.graph self.new.cache.graph) }
        ensures mode { self.new.mode ≡ self.old.mode }
        ensures length { self.new.windows.length ≡ self.old.windows.length }
        ensures same { OnErr result (self.new ≡ self.old) }
        ensures steps { OnErr result (steps.new ≡ steps.old) }
        ensures cost { OnOk result ((entry : LogEntry) → ComesTo (log_line_of line.entry) entry
            → CountsEntry self.old.mode (network_of self.old) entry steps.old steps.new) }
        ensures fixed { (given : Items ℕ) (met : WishOf) → self.old.mode ≡ by_fixed given met → steps.new ≡ steps.old }
        ensures regular { IsRegular (network_of self.old).model }
    {
        self.regular();
        match self.entry(alloc, line)? {
            Taken::Blank => Ok(List::new(alloc)),
            Taken::Skipped { number, why } => {
                let mut events = List::new(alloc);
                events.push(Event::Skipped { line: number, why })?;
                Ok(events)
            }
            Taken::Said { number, record } => self.go_on(alloc, number, &record, steps),
        }
    }

    // What the line comes to.
    fn entry(&mut self, alloc: Global, line: LogLine<'_>) -> Result<Taken, AllocError>
        ensures comes { IfOk result (λ taken. ComesTo (log_line_of line.entry) (entry_of_taken taken)) }
        ensures same { self.new ≡ self.old }
    {
        entry_of(alloc, &mut self.scratch, line)
    }

    // Every session has a checked model.
    fn regular(&self)
        ensures { IsRegular (network_of self.now).model }
    {
        let _typed = self.cache().graph().topology().model();
    }

    // What results from the next record. Its body acts after the windows that it closes.
    fn go_on<L: Ledger>(
        &mut self,
        alloc: Global,
        number: u64,
        next: &Record,
        steps: &mut Steps<L>,
    ) -> Result<List<Event>, AllocError>
        requires { IsWellNamed next.now.body }
        ensures gives { IfOk result (EntryTells self.old (said number next.now)) }
        ensures stands { OnOk result (EntryStands self.old self.new (said number next.now)) }
        ensures numbers { OnOk result (KeepsNumbers self.old.cache.graph self.new.cache.graph) }
        ensures mode { self.new.mode ≡ self.old.mode }
        ensures length { self.new.windows.length ≡ self.old.windows.length }
        ensures same { OnErr result (self.new ≡ self.old) }
        ensures steps { OnErr result (steps.new ≡ steps.old) }
        ensures cost { OnOk result (CountsEntry self.old.mode (network_of self.old) (said number next.now) steps.old steps.new) }
        ensures fixed { (given : Items ℕ) (met : WishOf) → self.old.mode ≡ by_fixed given met → steps.new ≡ steps.old }
    {
        match &mut self.course {
            Course::Wanted { wish, ready } => go_on_wanted(
                alloc,
                &mut self.cache,
                &mut self.windows,
                *wish,
                ready,
                number,
                next,
                steps,
            ),
            Course::Fixed { ready } => {
                go_on_fixed(alloc, &self.cache, &mut self.windows, ready, number, next)
            }
        }
    }

    /// What results from the end of the log: the diagnoses of the windows that are open. A second call says the same.
    pub fn finish(&self, alloc: Global) -> Result<List<Event>, AllocError>
        ensures gives { IfOk result (λ events. (opening : Topology) (before : Items LogEntry) → IsRegular opening.model
            → StandsForEntries self.now opening before
            → EndGives opening self.now.mode self.now.windows.length (records_of before) events) }
        ensures alone { IfOk result (λ events. (opening : Topology) (lines : Items NumberedLine) → IsRegular opening.model
            → StandsForLines self.now opening lines
            → EndsAlone opening self.now.mode self.now.windows.length lines events) }
    {
        let closing = self.windows.rest(alloc)?;
        let events = self.reported_of(alloc, &closing);
        drop(closing);
        events
    }

    // What is reported of the windows that close at the end.
    fn reported_of(&self, alloc: Global, closing: &List<Closed>) -> Result<List<Event>, AllocError>
        requires { ClosesAtEnd self.now.windows closing.now }
        ensures { IfOk result (TellsAtEnd self.now) }
    {
        match &self.course {
            Course::Wanted { wish, ready } => {
                Ok(closing_report(alloc, &self.cache, ready, *wish, closing)?.events)
            }
            Course::Fixed { ready } => {
                reported_in_use(alloc, self.cache.graph().topology(), ready, closing)
            }
        }
    }

    /// The topology as it is, with its rows.
    pub fn cache(&self) -> &Cache
        ensures { result.now ≡ self.now.cache }
    {
        &self.cache
    }
}
