//! The edit of a line.
ghost use Rattle.std.specs.Prelude.{IfOk, IsErrOf, [], ◌∷◌};
ghost use Rattle.cb_network.specs.declared.edit.Edit.{Edit as TheEdit};
ghost use Rattle.cb_edits.specs.Spelled.{SpellsEditWords, SpellsEdit};

use crate::stop::EditText;
use cb_model::Name;
use cb_network::Edit;
use cb_text::{is_instance, is_name, node_parts, words};
use std::alloc::Global;

/// The edit that the words of a line spell.
pub fn read_edit(alloc: Global, line: &[u8]) -> Result<Edit, EditText>
    ensures edit { IfOk result (SpellsEdit line.now) }
    ensures bad_words { IsErrOf result EditText.BadWords → (edit : TheEdit) → ¬ SpellsEdit line.now edit }
{
    let mut words = words(line);
    let Some(verb) = words.next() else {
        return Err(EditText::BadWords);
    };
    let Some(first) = words.next() else {
        return Err(EditText::BadWords);
    };
    let Some(second) = words.next() else {
        return of_two(alloc, verb, first);
    };
    let Some(third) = words.next() else {
        return of_three(alloc, verb, first, second);
    };
    match words.next() {
        None => of_four(alloc, verb, first, second, third),
        Some(_) => Err(EditText::BadWords),
    }
}

// The edit of a verb and one word more.
fn of_two(alloc: Global, verb: &[u8], word: &[u8]) -> Result<Edit, EditText>
    ensures edit { IfOk result (SpellsEditWords (verb.now ∷ word.now ∷ [])) }
    ensures bad_words { IsErrOf result EditText.BadWords → (edit : TheEdit) → ¬ SpellsEditWords (verb.now ∷ word.now ∷ []) edit }
{
    if verb == b"delete".as_slice() && is_instance(word) {
        return Ok(Edit::Delete {
            name: Name::of(alloc, word)?,
        });
    }
    let Some((event, name)) = node_parts(word) else {
        return Err(EditText::BadWords);
    };
    if verb == b"mute".as_slice() {
        Ok(Edit::Mute {
            event: Name::of(alloc, event)?,
            name: Name::of(alloc, name)?,
        })
    } else if verb == b"unmute".as_slice() {
        Ok(Edit::Unmute {
            event: Name::of(alloc, event)?,
            name: Name::of(alloc, name)?,
        })
    } else {
        Err(EditText::BadWords)
    }
}

// The edit of a verb and two words more.
fn of_three(alloc: Global, verb: &[u8], name: &[u8], class: &[u8]) -> Result<Edit, EditText>
    ensures edit { IfOk result (SpellsEditWords (verb.now ∷ name.now ∷ class.now ∷ [])) }
    ensures bad_words { IsErrOf result EditText.BadWords → (edit : TheEdit) → ¬ SpellsEditWords (verb.now ∷ name.now ∷ class.now ∷ []) edit }
{
    if verb == b"create".as_slice() && is_instance(name) && is_name(class) {
        Ok(Edit::Create {
            name: Name::of(alloc, name)?,
            class: Name::of(alloc, class)?,
        })
    } else {
        Err(EditText::BadWords)
    }
}

// The edit of a verb and three words more.
fn of_four(alloc: Global, verb: &[u8], a: &[u8], rel: &[u8], b: &[u8]) -> Result<Edit, EditText>
    ensures edit { IfOk result (SpellsEditWords (verb.now ∷ a.now ∷ rel.now ∷ b.now ∷ [])) }
    ensures bad_words { IsErrOf result EditText.BadWords → (edit : TheEdit) → ¬ SpellsEditWords (verb.now ∷ a.now ∷ rel.now ∷ b.now ∷ []) edit }
{
    if !is_instance(a) || !is_name(rel) || !is_instance(b) {
        return Err(EditText::BadWords);
    }
    if verb == b"link".as_slice() {
        Ok(Edit::Link {
            a: Name::of(alloc, a)?,
            rel: Name::of(alloc, rel)?,
            b: Name::of(alloc, b)?,
        })
    } else if verb == b"unlink".as_slice() {
        Ok(Edit::Unlink {
            a: Name::of(alloc, a)?,
            rel: Name::of(alloc, rel)?,
            b: Name::of(alloc, b)?,
        })
    } else {
        Err(EditText::BadWords)
    }
}
