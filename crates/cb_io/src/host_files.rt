//! The machine's files, and standard input.
ghost use Rattle.std.specs.Prelude.{◌≡◌, ◌<◌, ◌≤◌, List, ℕ, [], ◌∷◌, ◌++◌, length, position, unwrap_or, IfOk, IfSome, OnOk, OnErr, IsErrOf, None, Some};
ghost use Rattle.std.specs.Io.{ReadsAtMost};
ghost use Rattle.std.specs.Str.{bytes_eq};
ghost use Rattle.cb_io.specs.Pairs.{look_up};
ghost use Rattle.cb_io.specs.Outside.{next_count, ReadsBytes, KeepsOthers, NoCountFalls, ReadFailed, SameFaults, OneMoreFault};
ghost use Rattle.cb_io.specs.Host.{host_report};

use crate::{FileStop, Files};
use std::alloc::{AllocError, Global};
use std::io::Read;
use std::marker::Model;
use std::{fs, rt};

// Where the bytes of a name come from; closed is a file that wasn't opened yet, or couldn't be.
#[derive(Drop)]
enum Stream<R: rt::Files + Input> {
    Closed,
    File(R::File),
    Input(R::Reader),
}

impl<R: rt::Files + Input> Stream<R> {
    // Standard input at `-`, else the file of that name.
    fn open(rt: &R, name: &str) -> Self {
        if name == "-" {
            return Stream::Input(rt.reader());
        }
        match fs::open(rt, name) {
            Ok(file) => Stream::File(file),
            Err(_) => Stream::Closed,
        }
    }

    fn read(&mut self, buf: &mut [u8]) -> Option<usize>
        ensures { IfSome result (λ n. n ≤ length buf.new) }
    {
        match self {
            Stream::Closed => None,
            Stream::File(file) => file.read(buf).ok(),
            Stream::Input(reader) => reader.read(buf).ok(),
        }
    }
}

// A name that was read. Contracts see it with its faults.
#[derive(Drop)]
struct Opened<R: rt::Files + Input> {
    name: String,
    faults: u64,
    stream: Stream<R>,
}

impl<R: rt::Files + Input> Model for Opened<R> {
    ghost use Rattle.std.specs.Prelude.{List, ℕ, string_bytes};

    ghost Value = { List ℕ × ℕ };

    ghost view = { λ o. (string_bytes o.name, o.faults) };
}

impl<R: rt::Files + Input> Opened<R> {
    fn new(alloc: Global, name: &str) -> Result<Self, AllocError>
        ensures { IfOk result (λ o. o ≡ (name.now, 0)) }
    {
        Ok(Opened {
            name: String::from_str(alloc, name)?,
            faults: 0,
            stream: Stream::Closed,
        })
    }

    fn is_named(&self, name: &str) -> bool
        ensures { result ≡ bytes_eq self.now.0 name.now }
    {
        self.name.as_str() == name
    }

    // Reads on, and first opens what is closed.
    fn read(&mut self, rt: &R, buf: &mut [u8]) -> Result<usize, FileStop>
        ensures bound { ReadsAtMost result buf.new }
        ensures name { self.new.0 ≡ self.old.0 }
        ensures later { self.old.1 ≤ self.new.1 }
        ensures ok { OnOk result (self.new ≡ self.old) }
        ensures err { OnErr result ((result ≡ Err FileStop.Failed) × (self.new.1 ≡ next_count self.old.1)) }
    {
        if let Stream::Closed = &self.stream {
            self.stream = Stream::open(rt, self.name.as_str());
        }
        match self.stream.read(buf) {
            Some(count) => Ok(count),
            None => {
                self.faults = self.faults.saturating_add(1);
                Err(FileStop::Failed)
            }
        }
    }
}

/// The files of the machine, and standard input as `-`. A file is opened at its first read and stays open. What is left
/// isn't reported; each refusal of the system is a fault of its name.
#[derive(Drop)]
pub struct HostFiles<'a, R: rt::Files + Input> {
    alloc: Global,
    rt: &'a R,
    opened: Vec<Opened<R>>,
}

impl<'a, R: rt::Files + Input> Model for HostFiles<'a, R> {
    ghost use Rattle.std.specs.Prelude.{List, ℕ};

    ghost Value = { List (List ℕ × ℕ) };

    ghost view = { λ h. h.opened.items };
}

// The position of the first entry of a name.
fn place_of<R: rt::Files + Input>(opened: &[Opened<R>], name: &str) -> Option<usize>
    ensures { result ≡ position (λ o. bytes_eq o.0 name.now) opened.now }
{
    opened.iter().position(|o| o.is_named(name))
}

// The position of a name, which stood there or is added without faults.
fn admit<R: rt::Files + Input>(
    alloc: Global,
    opened: &mut Vec<Opened<R>>,
    name: &str,
) -> Result<usize, AllocError>
    ensures place { IfOk result (λ i. position (λ o. bytes_eq o.0 name.now) opened.new.items ≡ Some i) }
    ensures faults { (other : List ℕ) →
        (host_report opened.new.items).faults other ≡ (host_report opened.old.items).faults other }
{
    if let Some(place) = place_of(opened, name) {
        return Ok(place);
    }
    let place = opened.len();
    opened.push(Opened::new(alloc, name)?)?;
    Ok(place)
}

impl<'a, R: rt::Files + Input> HostFiles<'a, R> {
    /// No name was read yet.
    pub fn new(alloc: Global, rt: &'a R) -> Self
        ensures { result ≡ [] }
    {
        HostFiles {
            alloc,
            rt,
            opened: Vec::new(alloc),
        }
    }
}

impl<'a, R: rt::Files + Input> Files for HostFiles<'a, R> {
    ghost tells = { host_report };

    fn read(&mut self, name: &str, buf: &mut [u8]) -> Result<usize, FileStop>
        requires { 0 < length buf.old }
        ensures bound { ReadsAtMost result buf.new }
        ensures bytes { ReadsBytes (host_report self.old) (host_report self.new) name.now result buf.new }
        ensures others { KeepsOthers (host_report self.old) (host_report self.new) name.now }
        ensures counts { NoCountFalls (host_report self.old) (host_report self.new) }
        ensures failed { IsErrOf result FileStop.Failed → ReadFailed (host_report self.old) (host_report self.new) name.now }

        // Each Failed is one fault of its name, and nothing else is.
        ensures ok { OnOk result (SameFaults (host_report self.old) (host_report self.new)) }
        ensures err { IsErrOf result FileStop.Failed → OneMoreFault (host_report self.old) (host_report self.new) name.now }
        ensures no_memory { IsErrOf result FileStop.NoMemory → SameFaults (host_report self.old) (host_report self.new) }
    {
        match admit(self.alloc, &mut self.opened, name) {
            Ok(place) => {
                let opened = &mut self.opened[place];
                opened.read(self.rt, buf)
            }
            Err(_) => Err(FileStop::NoMemory),
        }
    }
}
