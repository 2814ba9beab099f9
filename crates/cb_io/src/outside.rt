//! Files and sinks, by what they tell of themselves before and after a call.
ghost use Rattle.std.specs.Prelude.{◌≡◌, ◌<◌, ◌≤◌, length, IfOk, OnErr, IsErrOf};
ghost use Rattle.std.specs.Io.{ReadsAtMost, WritesAtMost};
ghost use Rattle.cb_io.specs.Outside.{FilesReport, SinkReport, ReadsBytes, KeepsOthers, NoCountFalls, ReadFailed, Writes, WriteFailed};

/// Why a read gave nothing.
#[derive(Clone, Copy, Debug, PartialEq, Eq)]
pub enum FileStop {
    /// The name can't be read now; its count of faults rose.
    Failed,
    /// Memory for the files' own lists is missing.
    NoMemory,
}

/// A write took nothing, and the sink's count of faults rose.
#[derive(Clone, Copy, Debug, PartialEq, Eq)]
pub struct Failed;

/// Named files, each of which is read once from start to end: a name that is used again goes on where it was left.
pub trait Files {
    /// What contracts know of the files: the bytes left of each name, where that is reported, and the faults of each name.
    ghost tells: { Self → FilesReport };

    /// Moves the next bytes of a file to the start of `buf`, and says how many; 0 is the file's end. With an error
    /// `buf` may hold any bytes.
    fn read(&mut self, name: &str, buf: &mut [u8]) -> Result<usize, FileStop>
        requires { 0 < length buf.old }
        ensures bound { ReadsAtMost result buf.new }
        ensures bytes { ReadsBytes (tells self.old) (tells self.new) name.now result buf.new }
        ensures others { KeepsOthers (tells self.old) (tells self.new) name.now }
        ensures counts { NoCountFalls (tells self.old) (tells self.new) }
        ensures failed { IsErrOf result FileStop.Failed → ReadFailed (tells self.old) (tells self.new) name.now };
}

/// What bytes are written to.
pub trait Sink {
    /// What contracts know of the sink: the bytes taken so far, where that is reported, and its faults.
    ghost tells: { Self → SinkReport };

    /// Takes a prefix of `bytes`, at least one byte, and says how many. A sink that can take none fails.
    fn write(&mut self, bytes: &[u8]) -> Result<usize, Failed>
        requires { 0 < length bytes.now }
        ensures some { IfOk result (λ n. 0 < n) }
        ensures bound { WritesAtMost result bytes.now }
        ensures bytes { Writes (tells self.old) (tells self.new) result bytes.now }
        ensures counts { (tells self.old).faults ≤ (tells self.new).faults }
        ensures failed { OnErr result (WriteFailed (tells self.old) (tells self.new)) };
}
