//! The program: makes the files and sinks of the machine, and hands the words of the command line to the top call.
#![tactic(auto)]

ghost use Rattle.std.specs.Prelude.{◌≡◌, ◌<◌};

use cb_io::{HostFiles, HostSink};
use cb_steps::Steps;
use cb_top::{Status, run};
use std::marker::Brand;
use std::process::ExitCode;
use std::sync::ledger::{Blank, Ledger};
use std::{env, io};

// Runs the words, in a ledger of the caller's.
fn start<L: Ledger>(rt: &HostRuntime, words: &[String], blank: Blank) -> Status
    requires name { blank.name ≡ L.name }
    requires parts { blank.parts ≡ L.parts }
    requires some { 0 < L.parts }
{
    let mut files = HostFiles::new(rt.alloc(), rt);
    let mut out = HostSink::new(rt.stdout());
    let mut err = HostSink::new(rt.stderr());
    let mut steps = Steps::<L>::new(rt, blank);
    run(
        rt.alloc(),
        words,
        &mut files,
        &mut out,
        &mut err,
        &mut steps,
    )
}

fn main(rt: HostRuntime) -> ExitCode {
    let words = match env::args(&rt) {
        Ok(words) => words,
        Err(error) if error.kind() == io::ErrorKind::OutOfMemory => {
            return ExitCode::from(Status::Memory.code());
        }
        Err(_) => return ExitCode::FAILURE,
    };
    let words: Vec<String> = match words.skip(1).collect(rt.alloc()) {
        Ok(words) => words,
        Err(_) => return ExitCode::from(Status::Memory.code()),
    };
    let status = start::<Brand>(&rt, &words, Blank::new(1));
    ExitCode::from(status.code())
}
