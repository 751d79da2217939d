// What stands in the members of a line.
ghost use Rattle.std.specs.Prelude.{◌≡◌, IfOk, map, option_map};
ghost use Rattle.serde_json.specs.View.{view};
ghost use Rattle.edit_script.specs.Values.{listed, whole_number, steps_of, path_of, path_at, text_at, number_at, list_at};
ghost use Rattle.serde_json.specs.Find.{as_array};

use base_kit::{Memory, Path, Text};
use serde_json::Value;
use std::alloc::Global;

/// The most steps of a path.
pub const MOST_STEPS: usize = 256;

/// A number from 0 to 4294967295, written in digits alone.
pub fn whole_number(value: &Value) -> Option<u32>
    ensures { result ≡ whole_number (view value.now) }
{
    match value.as_u64() {
        Some(number) => u32::try_from(number).ok(),
        None => None,
    }
}

#[tactic(auto, using(crate::proofs::Lists::each_of_step, crate::proofs::Lists::each_of_stop), unfolding(crate::specs::Values::steps_of))]
fn steps_of(alloc: Global, values: &[Value]) -> Result<Option<Path>, Memory>
    ensures { IfOk result (λ path. path ≡ steps_of (map view values.now)) }
{
    if values.len() > MOST_STEPS {
        return Ok(None);
    }
    let mut steps = Vec::new(alloc);
    for value in values {
        match whole_number(value) {
            Some(step) => steps.push(step)?,
            None => return Ok(None),
        }
    }
    Ok(Some(Path(steps)))
}

#[tactic(auto, using(crate::proofs::Lists::list_views))]
fn list_of(value: &Value) -> Option<&[Value]>
    ensures { option_map (λ values. map view values.now) result
        ≡ option_map listed (as_array (view value.now)) }
{
    match value.as_array() {
        Some(values) => Some(values.as_slice()),
        None => None,
    }
}

fn path_of(alloc: Global, value: &Value) -> Result<Option<Path>, Memory>
    ensures { IfOk result (λ path. path ≡ path_of (view value.now)) }
{
    match list_of(value) {
        Some(steps) => steps_of(alloc, steps),
        None => Ok(None),
    }
}

/// The path in the member of this name.
pub fn path_at(alloc: Global, value: &Value, name: &str) -> Result<Option<Path>, Memory>
    ensures { IfOk result (λ path. path ≡ path_at name.now (view value.now)) }
{
    match value.get(name) {
        Some(found) => path_of(alloc, found),
        None => Ok(None),
    }
}

/// The text in the member of this name.
pub fn text_at(alloc: Global, value: &Value, name: &str) -> Result<Option<Text>, Memory>
    ensures { IfOk result (λ text. text ≡ text_at name.now (view value.now)) }
{
    match value.get(name).and_then(Value::as_str) {
        Some(found) => Ok(Some(Text::from(Vec::from_slice(alloc, found.as_bytes())?))),
        None => Ok(None),
    }
}

/// The number in the member of this name.
pub fn number_at(value: &Value, name: &str) -> Option<u32>
    ensures { result ≡ number_at name.now (view value.now) }
{
    match value.get(name) {
        Some(found) => whole_number(found),
        None => None,
    }
}

/// The members of the list in the member of this name.
pub fn list_at<'a>(value: &'a Value, name: &str) -> Option<&'a [Value]>
    ensures { option_map (λ values. map view values.now) result ≡ list_at name.now (view value.now) }
{
    match value.get(name) {
        Some(found) => list_of(found),
        None => None,
    }
}
