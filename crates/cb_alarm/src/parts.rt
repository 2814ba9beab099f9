//! What stands under a name of an object, looked at where it lies.
ghost use Rattle.std.specs.Prelude.{◌≡◌, ◌↔◌, ◌<◌, ◌^◌, IsTrue, IfSome, IfNone, Some, true, is_some, option_map, option_and_then, codes};
ghost use Rattle.serde_json.specs.Data.{boolean};
ghost use Rattle.serde_json.specs.Find.{get, as_str, as_number, as_u64};
ghost use Rattle.serde_json.specs.View.{view};
ghost use Rattle.cb_alarm.specs.Faults.{InObject, NoSource};
ghost use Rattle.cb_alarm.specs.Spelled.{IsSource};

use cb_text::is_instance;
use serde_json::Value;

// Whether something stands under the name.
pub(crate) fn has(value: &Value, name: &str) -> bool
    ensures { result ≡ is_some (get name.now (view value.now)) }
{
    value.get(name).is_some()
}

// The string under the name.
pub(crate) fn text_under<'v>(value: &'v Value, name: &str) -> Option<&'v [u8]>
    ensures { option_map (λ text. text.now) result ≡ option_and_then as_str (get name.now (view value.now)) }
{
    let member = value.get(name)?;
    let text = member.as_str()?;
    Some(text.as_bytes())
}

// The time.
pub(crate) fn time_in(value: &Value) -> Option<u64>
    ensures time { result ≡ option_and_then as_u64 (option_and_then as_number (get (codes "at") (view value.now))) }
    ensures small { IfSome result (λ at. at < 2 ^ 64) }
{
    value.get("at").and_then(Value::as_u64)
}

// The name of the source.
pub(crate) fn source_in(value: &Value) -> Option<&[u8]>
    ensures some { IfSome result (λ source. InObject (view value.now) (λ ms. IsSource ms source.now)) }
    ensures none { IfNone result (InObject (view value.now) NoSource) }
{
    let source = text_under(value, "from")?;
    if is_instance(source) {
        Some(source)
    } else {
        None
    }
}

// Whether a tick is said.
pub(crate) fn is_tick(value: &Value) -> bool
    ensures { IsTrue result ↔ (get (codes "tick") (view value.now) ≡ Some (boolean true)) }
{
    match value.get("tick") {
        None => false,
        Some(tick) => match tick.as_bool() {
            None => false,
            Some(said) => said,
        },
    }
}
