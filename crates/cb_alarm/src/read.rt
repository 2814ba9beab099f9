//! The record of a line.
ghost use Rattle.std.specs.Prelude.{◌≡◌, IfOk};
ghost use Rattle.serde_json.specs.Data.{Members, object};
ghost use Rattle.serde_json.specs.View.{view};
ghost use Rattle.cb_alarm.specs.Faults.{OnSkip, IsRecordOf, IsValueFault};
ghost use Rattle.cb_alarm.specs.Skips.{IsSkipped};
ghost use Rattle.cb_alarm.specs.Spelled.{SpellsRecord};

use crate::body::body_in;
use crate::parts::time_in;
use crate::skip::Skip;
use cb_log::{Record, SkipKind};
use serde_json::Value;
use std::alloc::Global;

/// The record that a line of a log spells. The line is first read into a value, which copies its strings; the names that the
/// record keeps are copied out of it once more.
pub fn read_record(alloc: Global, line: &[u8]) -> Result<Record, Skip>
    ensures record { IfOk result (SpellsRecord line.now) }
    ensures skip { OnSkip result (IsSkipped line.now) }
{
    match Value::from_slice(alloc, line) {
        Ok(value) => record_in(alloc, &value),
        Err(error) => {
            if error.is_memory() {
                Err(Skip::NoMemory)
            } else {
                Err(Skip::Bad(SkipKind::NotJson))
            }
        }
    }
}

// The record that a value says.
fn record_in(alloc: Global, value: &Value) -> Result<Record, Skip>
    ensures record { IfOk result (λ r. (ms : Members) × (view value.now ≡ object ms) × IsRecordOf ms r) }
    ensures skip { OnSkip result (IsValueFault (view value.now)) }
{
    if !value.is_object() {
        return Err(Skip::Bad(SkipKind::NotObject));
    }
    let Some(at) = time_in(value) else {
        return Err(Skip::Bad(SkipKind::BadAt));
    };
    let body = body_in(alloc, value)?;
    Ok(Record { at, body })
}
