//! Nodes in the words of the command line.
ghost use Rattle.std.specs.Prelude.{◌≡◌, IfSome, IfNone};
ghost use Rattle.cb_text.specs.Names.{IsNodeText};
ghost use Rattle.cb_request.specs.NodeWords.{IsNodeWord, node_in};

use cb_text::node_parts;
use std::marker::Model;

/// A node, as a word of the command line gives it: `EVENT@INSTANCE`. Contracts see its bytes.
#[derive(Debug, Drop)]
pub struct NodeWord<'w>(&'w str);

impl<'w> Model for NodeWord<'w> {
    ghost use Rattle.std.specs.Prelude.{List, ℕ};

    ghost Value = { List ℕ };

    ghost view = { λ node. node.0.now };
}

impl<'w> NodeWord<'w> {
    /// The word, if it is the text of a node.
    pub(crate) fn of(word: &'w str) -> Option<NodeWord<'w>>
        ensures { result ≡ node_in word.now }
    {
        match node_parts(word.as_bytes()) {
            Some(_) => Some(NodeWord(word)),
            None => None,
        }
    }

    /// The word.
    pub fn as_str(&self) -> &str
        ensures { result.now ≡ self.now }
    {
        self.0
    }

    /// The event and the instance of the node. No request has a node without them.
    pub fn parts(&self) -> Option<(&[u8], &[u8])>
        ensures parts { IfSome result (λ parts. IsNodeText self.now parts.0.now parts.1.now) }
        ensures none { IfNone result (¬ IsNodeWord self.now) }
    {
        node_parts(self.0.as_bytes())
    }
}
