//! The record of a line that spells it plainly.
ghost use Rattle.std.specs.Prelude.{◌≡◌, ◌<◌, ◌^◌, Some, IfOk, IfSome, option_map};
ghost use Rattle.serde_json.specs.Data.{number, unsigned};
ghost use Rattle.cb_edits.specs.Spelled.{SpellsEdit};
ghost use Rattle.cb_text.specs.Names.{IsNodeText};
ghost use Rattle.cb_alarm.specs.Faults.{IsRecordOf};
ghost use Rattle.cb_alarm.specs.Plain.{data_of, InFields};
ghost use Rattle.cb_alarm.specs.Spelled.{kinds_in, time_of, IsSource, SaysBody, SpellsRecord};

use crate::body::Alarm;
use crate::fields::{Fields, Said, fields_of};
use cb_edits::{EditText, read_edit};
use cb_log::{Body, Record};
use cb_model::{Name, NodeName};
use cb_network::Edit;
use cb_text::{is_instance, node_parts};
use json::{Reader, Scratch};
use simdutf8::compat::from_utf8;
use std::alloc::{AllocError, Global};

/// The record of a line that is an object with plain members alone: texts, whole numbers and truths. Its tokens are looked at
/// where they lie, and only the names that the record keeps are copied. The scratch may be kept from line to line.
pub fn plain_record(
    alloc: Global,
    scratch: &mut Scratch,
    line: &[u8],
) -> Result<Option<Record>, AllocError>
    ensures { IfOk result (λ found. IfSome found (SpellsRecord line.now)) }
{
    let Ok(text) = from_utf8(line) else {
        return Ok(None);
    };
    let mut reader = Reader::new(text, scratch)?;
    let Some(fields) = fields_of(&mut reader) else {
        return Ok(None);
    };
    record_of(alloc, &fields)
}

// The record that the fields say.
fn record_of(alloc: Global, fields: &Fields<'_>) -> Result<Option<Record>, AllocError>
    ensures { IfOk result (λ found. IfSome found (λ r. InFields fields.now (λ ms. IsRecordOf ms r))) }
{
    let Some(at) = time_in(fields) else {
        return Ok(None);
    };
    let Some(body) = body_of(alloc, fields)? else {
        return Ok(None);
    };
    Ok(Some(Record { at, body }))
}

// The time that the fields say.
fn time_in(fields: &Fields<'_>) -> Option<u64>
    ensures time { IfSome result (λ at. InFields fields.now (λ ms. time_of ms ≡ Some at)) }
    ensures small { IfSome result (λ at. at < 2 ^ 64) }
{
    whole_in(fields.at)
}

// The whole number that is said.
fn whole_in(said: Option<Said<'_>>) -> Option<u64>
    ensures whole { IfSome result (λ n. option_map data_of said.entry ≡ Some (number (unsigned n))) }
    ensures small { IfSome result (λ n. n < 2 ^ 64) }
{
    match said {
        Some(Said::Whole(n)) => Some(n),
        _ => None,
    }
}

// The one thing that the fields say.
fn body_of(alloc: Global, fields: &Fields<'_>) -> Result<Option<Body>, AllocError>
    ensures one { IfOk result (λ found. IfSome found (λ body. InFields fields.now (λ ms. kinds_in ms ≡ 1))) }
    ensures body { IfOk result (λ found. IfSome found (λ body. InFields fields.now (λ ms. SaysBody ms body))) }
{
    match (fields.raise, fields.clear, fields.edit, fields.tick) {
        (Some(Said::Text(node)), None, None, None) => {
            let Some(alarm) = alarm_of(alloc, fields, node)? else {
                return Ok(None);
            };
            Ok(Some(Body::Raise {
                from: alarm.from,
                node: alarm.node,
            }))
        }
        (None, Some(Said::Text(node)), None, None) => {
            let Some(alarm) = alarm_of(alloc, fields, node)? else {
                return Ok(None);
            };
            Ok(Some(Body::Clear {
                from: alarm.from,
                node: alarm.node,
            }))
        }
        (None, None, Some(Said::Text(text)), None) => {
            let Some(edit) = edit_of(alloc, text)? else {
                return Ok(None);
            };
            Ok(Some(Body::Change { edit }))
        }
        (None, None, None, Some(Said::Truth(true))) => Ok(Some(Body::Tick)),
        _ => Ok(None),
    }
}

// The source that the fields say, and the node of this text.
fn alarm_of(alloc: Global, fields: &Fields<'_>, text: &str) -> Result<Option<Alarm>, AllocError>
    ensures node { IfOk result (λ found. IfSome found (λ alarm. IsNodeText text.now alarm.node.event alarm.node.instance)) }
    ensures source { IfOk result (λ found. IfSome found (λ alarm. InFields fields.now (λ ms. IsSource ms alarm.from))) }
{
    let Some(Said::Text(source)) = fields.from else {
        return Ok(None);
    };
    if !is_instance(source.as_bytes()) {
        return Ok(None);
    }
    let Some((event, instance)) = node_parts(text.as_bytes()) else {
        return Ok(None);
    };
    Ok(Some(Alarm {
        from: Name::of(alloc, source.as_bytes())?,
        node: NodeName::of(alloc, event, instance)?,
    }))
}

// The edit of this text.
fn edit_of(alloc: Global, text: &str) -> Result<Option<Edit>, AllocError>
    ensures { IfOk result (λ found. IfSome found (SpellsEdit text.now)) }
{
    match read_edit(alloc, text.as_bytes()) {
        Ok(edit) => Ok(Some(edit)),
        Err(EditText::BadWords) => Ok(None),
        Err(EditText::NoMemory) => Err(AllocError),
    }
}
