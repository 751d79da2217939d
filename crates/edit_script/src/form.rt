// The words of lines, each once, and which members a line has.
ghost use Rattle.std.specs.Prelude.{◌≡◌, map, option_map};
ghost use Rattle.serde_json.specs.View.{view, members_view};
ghost use Rattle.edit_script.specs.Table.{has_names, is_word, is_line};

use serde_json::{Map, Value};

// The names of members.
pub const AT: &str = "at";

pub const EDITS: &str = "edits";

pub const FILE: &str = "file";

pub const KEY: &str = "key";

pub const NODE: &str = "node";

pub const OP: &str = "op";

pub const TEXT: &str = "text";

// What stands in "op".
pub const REPLACE: &str = "replace";

pub const INSERT: &str = "insert";

pub const DELETE: &str = "delete";

pub const BATCH: &str = "batch";

pub const REPORT: &str = "report";

pub const STATUS: &str = "status";

pub const SHOW: &str = "show";

pub const PRINT: &str = "print";

pub const SAVE: &str = "save";

// Whether a member is there and is this string.
fn is_word(found: Option<&Value>, word: &str) -> bool
    ensures { result ≡ is_word (option_map (λ v. view v.now) found.entry) word.now }
{
    match found.and_then(Value::as_str) {
        Some(text) => text == word,
        None => false,
    }
}

// Whether the members have these names, in this order, and there are no others.
fn has_names(members: &Map<String, Value>, names: &[&str]) -> bool
    ensures { result ≡ has_names (map (λ name. name.now) names.now) (members_view members.now.entries) }
{
    let mut count = 0;
    for name in members.keys() {
        if count == names.len() || name.as_str() != names[count] {
            return false;
        }
        count += 1;
    }
    count == names.len()
}

/// Whether the value is an object with the members of these names, given in their order, and no
/// others, and its "op" is this word.
#[tactic(auto, unfolding(crate::specs::Table::is_line))]
pub fn is_line(value: &Value, op: &str, names: &[&str]) -> bool
    ensures { result ≡ is_line op.now (map (λ name. name.now) names.now) (view value.now) }
{
    match value.as_object() {
        Some(members) => has_names(members, names) && is_word(value.get(OP), op),
        None => false,
    }
}
