//! What an object says.
ghost use Rattle.std.specs.Prelude.{◌≡◌, ◌≢◌, List, None, IfOk, IfSome, IfNone, codes};
ghost use Rattle.serde_json.specs.View.{view};
ghost use Rattle.cb_edits.specs.Spelled.{SpellsEdit};
ghost use Rattle.cb_alarm.specs.Faults.{OnSkip, InObject, name_of, IsAlarmFault, IsEditFault, IsFirstFault};
ghost use Rattle.cb_alarm.specs.Skips.{HasKey, IsFaulty};
ghost use Rattle.cb_alarm.specs.Spelled.{kinds_in, time_of, SaysText, IsSource, IsNodeUnder, SaysBody};

use crate::parts::{has, is_tick, source_in, text_under};
use crate::skip::Skip;
use cb_edits::read_edit;
use cb_log::{Body, SkipKind};
use cb_model::{Name, NodeName};
use cb_network::Edit;
use cb_text::node_parts;
use serde_json::Value;
use std::alloc::Global;

// What an object may say.
#[derive(Clone, Copy)]
pub(crate) enum BodyKind {
    Raise,
    Clear,
    Edit,
    Tick,
}

// A node that a source raises or clears.
#[derive(Drop)]
pub(crate) struct Alarm {
    pub from: Name,
    pub node: NodeName,
}

// The one thing that is said.
fn kind_in(value: &Value) -> Option<BodyKind>
    ensures one { IfSome result (λ kind. InObject (view value.now) (λ ms. kinds_in ms ≡ 1)) }
    ensures some { IfSome result (λ kind. InObject (view value.now) (λ ms. HasKey ms (name_of kind))) }
    ensures none { IfNone result (InObject (view value.now) (λ ms. kinds_in ms ≢ 1)) }
{
    let raise = has(value, "raise");
    let clear = has(value, "clear");
    let edit = has(value, "edit");
    let tick = has(value, "tick");
    if raise {
        if clear || edit || tick {
            None
        } else {
            Some(BodyKind::Raise)
        }
    } else if clear {
        if edit || tick {
            None
        } else {
            Some(BodyKind::Clear)
        }
    } else if edit {
        if tick { None } else { Some(BodyKind::Edit) }
    } else if tick {
        Some(BodyKind::Tick)
    } else {
        None
    }
}

// The source, and the node under the name.
fn alarm_in(alloc: Global, value: &Value, name: &str) -> Result<Alarm, Skip>
    ensures node { IfOk result (λ alarm. InObject (view value.now) (λ ms. IsNodeUnder ms name.now alarm.node)) }
    ensures source { IfOk result (λ alarm. InObject (view value.now) (λ ms. IsSource ms alarm.from)) }
    ensures skip { OnSkip result (λ kind. InObject (view value.now) (λ ms. IsAlarmFault ms name.now kind)) }
{
    let Some(source) = source_in(value) else {
        return Err(Skip::Bad(SkipKind::BadSource));
    };
    let Some(text) = text_under(value, name) else {
        return Err(Skip::Bad(SkipKind::BadBody));
    };
    let Some((event, instance)) = node_parts(text) else {
        return Err(Skip::Bad(SkipKind::BadName));
    };
    Ok(Alarm {
        from: Name::of(alloc, source)?,
        node: NodeName::of(alloc, event, instance)?,
    })
}

// The edit.
fn edit_in(alloc: Global, value: &Value) -> Result<Edit, Skip>
    ensures edit { IfOk result (λ edit. InObject (view value.now)
        (λ ms. (text : List _) × SaysText ms (codes "edit") text × SpellsEdit text edit)) }
    ensures skip { OnSkip result (λ kind. InObject (view value.now) (λ ms. IsEditFault ms kind)) }
{
    let Some(text) = text_under(value, "edit") else {
        return Err(Skip::Bad(SkipKind::BadBody));
    };
    Ok(read_edit(alloc, text)?)
}

// Why an object that doesn't say exactly one thing has no record.
fn why_not_one(value: &Value) -> SkipKind
    ensures { InObject (view value.now) (λ ms. time_of ms ≢ None → kinds_in ms ≢ 1 → IsFirstFault ms result) }
{
    let is_alarm = has(value, "raise") || has(value, "clear");
    if is_alarm && source_in(value).is_none() {
        SkipKind::BadSource
    } else {
        SkipKind::BadBody
    }
}

// What an object says, or the first thing that is wrong with it but for its time.
pub(crate) fn body_in(alloc: Global, value: &Value) -> Result<Body, Skip>
    ensures one { IfOk result (λ body. InObject (view value.now) (λ ms. kinds_in ms ≡ 1)) }
    ensures body { IfOk result (λ body. InObject (view value.now) (λ ms. SaysBody ms body)) }
    ensures skip { OnSkip result (λ kind. InObject (view value.now) (λ ms. time_of ms ≢ None → IsFirstFault ms kind)) }
{
    match kind_in(value) {
        None => Err(Skip::Bad(why_not_one(value))),
        Some(BodyKind::Raise) => {
            let alarm = alarm_in(alloc, value, "raise")?;
            Ok(Body::Raise {
                from: alarm.from,
                node: alarm.node,
            })
        }
        Some(BodyKind::Clear) => {
            let alarm = alarm_in(alloc, value, "clear")?;
            Ok(Body::Clear {
                from: alarm.from,
                node: alarm.node,
            })
        }
        Some(BodyKind::Edit) => {
            let edit = edit_in(alloc, value)?;
            Ok(Body::Change { edit })
        }
        Some(BodyKind::Tick) => {
            if is_tick(value) {
                Ok(Body::Tick)
            } else {
                Err(Skip::Bad(SkipKind::BadBody))
            }
        }
    }
}
