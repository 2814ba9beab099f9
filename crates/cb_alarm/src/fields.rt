//! What an object with plain members says under the names that a record may have.
ghost use Rattle.std.specs.Prelude.{◌≡◌, ◌<◌, ◌==◌, length, slice_index, Some, IfSome, false};
ghost use Rattle.serde_json.specs.Data.{Members, unsigned, object, no_members, put};
ghost use Rattle.serde_json.specs.Read.{number_of, number_from};
ghost use Rattle.cb_alarm.specs.Plain.{data_of, IsMemberKept, HasFields, next_value, next_members, whole_value};

use fast_float::Numeral;
use json::{Reader, Token};

/// A plain value: a text, a whole number below 2^64, or a truth. A text is looked at where it lies.
#[derive(Clone, Copy, Drop)]
pub(crate) enum Said<'a> {
    Text(&'a str),
    Whole(u64),
    Truth(bool),
}

/// What an object says under each name; of two members of one name the last.
#[derive(Drop)]
pub(crate) struct Fields<'a> {
    pub at: Option<Said<'a>>,
    pub from: Option<Said<'a>>,
    pub raise: Option<Said<'a>>,
    pub clear: Option<Said<'a>>,
    pub edit: Option<Said<'a>>,
    pub tick: Option<Said<'a>>,
}

/// What the object says that all of the tokens are, if each of its members is plain.
pub(crate) fn fields_of<'a>(reader: &mut Reader<'a>) -> Option<Fields<'a>>
    ensures { IfSome result (λ fields. (ms : Members) × (whole_value reader.old ≡ Some (object ms)) × HasFields ms fields) }
{
    let Some(Token::BeginObject) = reader.next() else {
        return None;
    };
    let fields = members(reader)?;
    if reader.next().is_some() {
        return None;
    }
    Some(fields)
}

// What the members say that are still to come, if each is plain.
fn members<'a>(reader: &mut Reader<'a>) -> Option<Fields<'a>>
    ensures { IfSome result (λ fields. (ms : Members) × (next_members reader.old ≡ Some (ms, reader.new)) × HasFields ms fields) }
{
    let mut fields = nothing();
    'members: loop {
        let Ok(key) = reader.next_key() else {
            return None;
        };
        let Some(name) = key else {
            return Some(fields);
        };
        let said = plain_value(reader)?;
        add(&mut fields, name, said);
    }
}

// Nothing.
fn nothing<'a>() -> Fields<'a>
    ensures { HasFields no_members result }
{
    Fields {
        at: None,
        from: None,
        raise: None,
        clear: None,
        edit: None,
        tick: None,
    }
}

// Adds a member.
fn add<'a>(fields: &mut Fields<'a>, name: &str, said: Said<'a>)
    ensures { (ms : Members) → HasFields ms fields.old → HasFields (put name.now (data_of said.entry) ms) fields.new }
{
    store_named(&mut fields.at, "at", name, said);
    store_named(&mut fields.from, "from", name, said);
    store_named(&mut fields.raise, "raise", name, said);
    store_named(&mut fields.clear, "clear", name, said);
    store_named(&mut fields.edit, "edit", name, said);
    store_named(&mut fields.tick, "tick", name, said);
}

// Keeps a member, if it has this name.
fn store_named<'a>(kept: &mut Option<Said<'a>>, own: &str, name: &str, said: Said<'a>)
    ensures { (ms : Members) → IsMemberKept own.now ms kept.old → IsMemberKept own.now (put name.now (data_of said.entry) ms) kept.new }
{
    // Most names have another length.
    if name.len() != own.len() {
        return;
    }
    if name == own {
        *kept = Some(said);
    }
}

// The next value, if it is plain.
fn plain_value<'a>(reader: &mut Reader<'a>) -> Option<Said<'a>>
    ensures value { IfSome result (λ said. next_value reader.old ≡ Some (data_of said, reader.new)) }
    ensures shorter { IfSome result (λ said. length reader.new < length reader.old) }
{
    match reader.next()? {
        Token::String(text) => Some(Said::Text(text)),
        Token::Bool(truth) => Some(Said::Truth(truth)),
        Token::Number(text) => Some(Said::Whole(whole_number(text)?)),
        _ => None,
    }
}

// The whole number that this number is, if it has 64 bits.
fn whole_number(text: &str) -> Option<u64>
    ensures { IfSome result (λ n. number_of text.now ≡ Some (unsigned n)) }
{
    let bytes = text.as_bytes();
    if has_minus(bytes) {
        return None;
    }
    whole(&Numeral::scan(bytes))
}

fn whole(numeral: &Numeral<'_>) -> Option<u64>
    ensures { IfSome result (λ n. number_from false numeral.now ≡ Some (unsigned n)) }
{
    numeral.to_u64()
}

fn has_minus(bytes: &[u8]) -> bool
    ensures { result ≡ (slice_index bytes.now 0 == 45) }
{
    !bytes.is_empty() && bytes[0] == b'-'
}
