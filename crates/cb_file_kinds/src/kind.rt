//! Kinds of files, and how one is read and judged.
ghost use Rattle.std.specs.Prelude.{◌≡◌, ◌≤◌, length, IfOk, IfErr};
ghost use Rattle.cb_outcome.specs.Roles.{Role, byte_limit};
ghost use Rattle.cb_outcome.specs.Judged.{Known};
ghost use Rattle.cb_file_kinds.specs.Faults.{fault_of_stop};
ghost use Rattle.cb_file_kinds.specs.Kinds.{file_in_role, SaysAfter, StopsJudging, ReadsOnly, ReadsSaying, StopsReading};

use cb_io::{Files, ReadStop, read_whole};
use cb_report::Fault;
use cb_request::FileName;
use std::alloc::Global;

/// The most bytes that a model file, a topology file, a symptom file or a script may have.
pub const MOST_BYTES: usize = 16 << 20;

/// A kind of files: what one is for, and what is made of its text after what is known from the files before it.
pub trait FileKind: Drop {
    type Value;

    /// What a file of this kind is for.
    ghost role: { Role };

    /// What is known before the file.
    ghost before: { Self → Known → Type 0 };

    /// What is known after it, by the value that is made of it.
    ghost after: { Self → Self.Value → Known → Type 0 };

    /// The most bytes that a file of this kind may have.
    fn most_bytes(&self) -> usize
        ensures { result ≡ byte_limit role };

    /// The value of a text that isn't too long.
    fn judge<'w>(
        self,
        alloc: Global,
        name: FileName<'w>,
        text: &[u8],
    ) -> Result<Self::Value, Fault<'w>>
        requires { length text.now ≤ byte_limit role }
        ensures says { IfOk result (λ value. SaysAfter (before self) (after self value) (file_in_role role name.entry text.now)) }
        ensures stops { IfErr result (StopsJudging (before self) (file_in_role role name.entry text.now)) };
}

/// Reads all bytes left of a name, unless there are too many, and judges them.
pub fn read_as<'w, F: Files, K: FileKind>(
    alloc: Global,
    files: &mut F,
    name: FileName<'w>,
    kind: K,
) -> Result<K::Value, Fault<'w>>
    ensures value { IfOk result (λ value. ReadsSaying K.role name.entry (K.before kind) (K.after kind value) (F.tells files.old) (F.tells files.new)) }
    ensures stops { IfErr result (StopsReading K.role name.entry (K.before kind) (F.tells files.old) (F.tells files.new)) }
    ensures only { ReadsOnly name.entry (F.tells files.old) (F.tells files.new) }
{
    match read_whole(alloc, files, name.as_str(), kind.most_bytes()) {
        Ok(text) => kind.judge(alloc, name, &text),
        Err(stop) => Err(unread(name, stop)),
    }
}

/// The fault of a file that isn't read whole.
pub(crate) fn unread(name: FileName<'_>, stop: ReadStop) -> Fault<'_>
    ensures { result ≡ fault_of_stop name.entry stop }
{
    match stop {
        ReadStop::TooMuch => Fault::LimitBytes { name },
        ReadStop::ReadFault => Fault::ReadFault { name },
        ReadStop::NoMemory => Fault::Memory,
    }
}
