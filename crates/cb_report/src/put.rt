//! Pieces of lines, each of which waits after the others.
ghost use Rattle.std.specs.Prelude.{◌++◌, decimal};
ghost use Rattle.std.specs.List.{flat_map};
ghost use Rattle.cb_report.specs.Gathered.{Gathers};
ghost use Rattle.cb_report.specs.Lines.{counted, spaced_text};

use crate::gathered::Gathering;
use cb_io::Sink;
use cb_model::{List, NodeName};
use itoa::Buffer;

/// Adds words, and then the digits of a number.
pub(crate) fn put_number<O: Sink>(out: &mut O, gathering: &mut Gathering, words: &[u8], number: u64)
    ensures { Gathers (O.tells out.old) (O.tells out.new) gathering.old gathering.new (words.now ++ decimal number) }
{
    let mut digits = Buffer::new();
    gathering.put_parts(out, &[words, digits.format(number).as_bytes()]);
}

/// Adds words, a number, and the end of the line.
pub(crate) fn put_count<O: Sink>(out: &mut O, gathering: &mut Gathering, words: &[u8], number: u64)
    ensures { Gathers (O.tells out.old) (O.tells out.new) gathering.old gathering.new (counted words.now number) }
{
    let mut digits = Buffer::new();
    gathering.put_parts(out, &[words, digits.format(number).as_bytes(), b"\n"]);
}

/// Adds a space and the name of a node.
pub(crate) fn put_node<O: Sink>(out: &mut O, gathering: &mut Gathering, node: &NodeName)
    ensures { Gathers (O.tells out.old) (O.tells out.new) gathering.old gathering.new (spaced_text node.now) }
{
    gathering.put_parts(
        out,
        &[b" ", node.event.bytes(), b"@", node.instance.bytes()],
    );
}

/// Adds the members of a group.
pub(crate) fn put_members<O: Sink>(out: &mut O, gathering: &mut Gathering, members: &List<NodeName>)
    ensures { Gathers (O.tells out.old) (O.tells out.new) gathering.old gathering.new (flat_map spaced_text members.now) }
{
    for member in members.as_slice() {
        put_node(out, gathering, member);
    }
}
