//! The log.
ghost use Rattle.std.specs.Prelude.{◌≡◌, ◌+◌, ◌<◌, ◌≤◌, ◌^◌, ◌++◌, [], IfOk, OnOk, replicate};
ghost use Rattle.cb_gen.specs.Draws.{state_after};
ghost use Rattle.cb_gen.specs.Log.{Edit, Alarm, drawn_alarm_line, drawn_edit_line, tick_text, round as entries_of_round, rounds, log_text as text_of_log};
ghost use Rattle.cb_gen.specs.Writing.{WritesEntries};

use crate::alarm::push_alarm;
use crate::draws::Draws;
use crate::edit::push_edit;
use crate::piece::push_tick;
use std::alloc::{AllocError, Global};

// A log as it is written: its text so far, the time of its last line, and the generator.
#[derive(Drop)]
struct Log {
    text: Vec<u8>,
    at: u64,
    draws: Draws,
}

/// The log of a network of `sites` sites, with what is drawn from `start` on.
pub fn log_text(alloc: Global, sites: u32, start: u64) -> Result<Vec<u8>, AllocError>
    requires some { 1 ≤ sites }
    requires few { sites ≤ 256 }
    ensures { IfOk result (λ text. text.items ≡ text_of_log sites start) }
{
    let mut log = Log::new(alloc, start);
    log.push_rounds(20, u64::from(sites))?;
    Ok(log.text)
}

impl Log {
    // A log of no lines, from a start of the generator on.
    fn new(alloc: Global, start: u64) -> Log
        ensures text { result.text.items ≡ [] }
        ensures time { result.at ≡ 0 }
        ensures state { result.draws.state ≡ start }
    {
        Log {
            text: Vec::new(alloc),
            at: 0,
            draws: Draws { state: start },
        }
    }

    // Adds `count` rounds.
    fn push_rounds(&mut self, count: u64, sites: u64) -> Result<(), AllocError>
        requires some { 0 < sites }
        requires early { self.now.at ≡ 0 }
        requires few { count < 2 ^ 16 }
        ensures { OnOk result (WritesEntries sites self.old self.new (rounds count)) }
    {
        for _ in 0..count {
            self.push_round(sites)?;
        }
        Ok(())
    }

    // Adds a round.
    fn push_round(&mut self, sites: u64) -> Result<(), AllocError>
        requires some { 0 < sites }
        requires early { self.now.at < 2 ^ 32 }
        ensures lines { OnOk result (WritesEntries sites self.old self.new entries_of_round) }
        ensures time { OnOk result (self.new.at ≡ self.old.at + 190) }
    {
        self.push_edits(50, sites)?;
        self.push_alarms(100, sites)?;
        self.push_next_tick()
    }

    // Adds `count` edits.
    fn push_edits(&mut self, count: u64, sites: u64) -> Result<(), AllocError>
        requires some { 0 < sites }
        requires early { self.now.at < 2 ^ 33 }
        requires few { count < 2 ^ 16 }
        ensures lines { OnOk result (WritesEntries sites self.old self.new (replicate count Edit)) }
        ensures time { OnOk result (self.new.at ≡ self.old.at + count) }
    {
        for _ in 0..count {
            self.push_drawn_edit(sites)?;
        }
        Ok(())
    }

    // Adds `count` alarms.
    fn push_alarms(&mut self, count: u64, sites: u64) -> Result<(), AllocError>
        requires some { 0 < sites }
        requires early { self.now.at < 2 ^ 33 }
        requires few { count < 2 ^ 16 }
        ensures lines { OnOk result (WritesEntries sites self.old self.new (replicate count Alarm)) }
        ensures time { OnOk result (self.new.at ≡ self.old.at + count) }
    {
        for _ in 0..count {
            self.push_drawn_alarm(sites)?;
        }
        Ok(())
    }

    // Adds a tick.
    fn push_next_tick(&mut self) -> Result<(), AllocError>
        requires early { self.now.at < 2 ^ 34 }
        ensures text { OnOk result (self.new.text.items ≡ self.old.text.items ++ tick_text (self.old.at + 40)) }
        ensures time { OnOk result (self.new.at ≡ self.old.at + 40) }
        ensures state { OnOk result (self.new.draws.state ≡ self.old.draws.state) }
    {
        self.at += 40;
        push_tick(&mut self.text, self.at)
    }

    // Adds an edit that is drawn.
    fn push_drawn_edit(&mut self, sites: u64) -> Result<(), AllocError>
        requires some { 0 < sites }
        requires early { self.now.at < 2 ^ 34 }
        ensures text { OnOk result (self.new.text.items ≡ self.old.text.items ++ drawn_edit_line sites self.old.at self.old.draws.state) }
        ensures time { OnOk result (self.new.at ≡ self.old.at + 1) }
        ensures state { OnOk result (self.new.draws.state ≡ state_after 2 self.old.draws.state) }
    {
        self.at += 1;
        let kind = self.draws.below(8);
        let site = self.draws.below(sites);
        push_edit(&mut self.text, self.at, kind, site)
    }

    // Adds an alarm that is drawn.
    fn push_drawn_alarm(&mut self, sites: u64) -> Result<(), AllocError>
        requires some { 0 < sites }
        requires early { self.now.at < 2 ^ 34 }
        ensures text { OnOk result (self.new.text.items ≡ self.old.text.items ++ drawn_alarm_line sites self.old.at self.old.draws.state) }
        ensures time { OnOk result (self.new.at ≡ self.old.at + 1) }
        ensures state { OnOk result (self.new.draws.state ≡ state_after 3 self.old.draws.state) }
    {
        self.at += 1;
        let source = self.draws.below(4);
        let kind = self.draws.below(6);
        let about = self.draws.below(sites);
        push_alarm(&mut self.text, self.at, source, kind, about)
    }
}
