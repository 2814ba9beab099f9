//! Model files, as trees and as models.
ghost use Rattle.std.specs.Prelude.{◌≡◌, IfOk, IfSome, IfNone};
ghost use Rattle.cb_grammar.specs.declared.tree.Tree.{Tree as TreeValue};
ghost use Rattle.cb_rules.specs.Fault.{IsFirstBroken, KeepsAll};
ghost use Rattle.cb_check.specs.Stands.{Stands};
ghost use Rattle.cb_outcome.specs.Roles.{Role};
ghost use Rattle.cb_outcome.specs.Judged.{nothing, parsed};

use crate::kind::{FileKind, MOST_BYTES};
use cb_check::check;
use cb_grammar::Tree;
use cb_model::Model;
use cb_report::Fault;
use cb_request::FileName;
use cb_rules::{BrokenRule, Directory, first_fault};
use cb_syntax::parse;
use std::alloc::{AllocError, Global};

/// A model file, for its tree.
#[derive(Drop)]
pub struct TreeFile;

impl FileKind for TreeFile {
    type Value = Tree;

    ghost role = { Role.model };

    ghost before = { λ _ known. known ≡ nothing };

    ghost after = { λ _ tree known. known ≡ parsed tree };

    fn most_bytes(&self) -> usize {
        MOST_BYTES
    }

    fn judge<'w>(self, alloc: Global, _name: FileName<'w>, text: &[u8]) -> Result<Tree, Fault<'w>> {
        let tree = parse(alloc, text)?;
        match broken_rule(alloc, &tree)? {
            Some(broken) => Err(Fault::Kind(broken)),
            None => Ok(tree),
        }
    }
}

// The first type rule that the tree breaks.
fn broken_rule(alloc: Global, tree: &Tree) -> Result<Option<BrokenRule>, AllocError>
    ensures found { IfOk result (λ fault. IfSome fault (IsFirstBroken tree.now)) }
    ensures none { IfOk result (λ fault. IfNone fault (KeepsAll tree.now)) }
{
    let directory = Directory::of(alloc, tree)?;
    first_fault(alloc, &directory)
}

/// A model file, for its model.
#[derive(Drop)]
pub struct ModelFile;

impl FileKind for ModelFile {
    type Value = Model;

    ghost role = { Role.model };

    ghost before = { λ _ known. known ≡ nothing };

    ghost after = { λ _ model known. (tree : TreeValue) × (known ≡ parsed tree) × Stands tree model };

    fn most_bytes(&self) -> usize {
        MOST_BYTES
    }

    fn judge<'w>(
        self,
        alloc: Global,
        _name: FileName<'w>,
        text: &[u8],
    ) -> Result<Model, Fault<'w>> {
        let tree = parse(alloc, text)?;
        Ok(check(alloc, &tree)?)
    }
}
