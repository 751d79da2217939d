// Which command a line is.
ghost use Rattle.std.specs.Prelude.{◌≡◌, ◌≤◌, IfOk, IfSome, map};
ghost use Rattle.serde_json.specs.View.{view};
ghost use Rattle.edit_script.specs.Table.{simple_edit_of, members_of, batch_of, show_of, query_of, command_of};
ghost use Rattle.edit_script.specs.Values.{path_at, text_at};
ghost use Rattle.std.specs.Option.{option_zip};

use crate::command::{Command, Edit, Edits, Query};
use crate::form::{
    AT, BATCH, DELETE, EDITS, FILE, INSERT, KEY, NODE, OP, PRINT, REPLACE, REPORT, SAVE, SHOW,
    STATUS, TEXT, is_line,
};
use crate::values::{list_at, number_at, path_at, text_at};
use base_kit::{Memory, Path, Text};
use serde_json::Value;
use sqlite_items::Items;
use std::alloc::Global;

/// The most members of a batch.
pub const MOST_MEMBERS: usize = 1000;

fn place_and_text(alloc: Global, value: &Value) -> Result<Option<(Path, Text)>, Memory>
    ensures { IfOk result (λ found. found
        ≡ option_zip (path_at AT.now (view value.now)) (text_at TEXT.now (view value.now))) }
{
    match (path_at(alloc, value, AT)?, text_at(alloc, value, TEXT)?) {
        (Some(path), Some(text)) => Ok(Some((path, text))),
        _ => Ok(None),
    }
}

#[tactic(auto, unfolding(crate::specs::Table::simple_edit_of))]
fn simple_edit_of(alloc: Global, value: &Value) -> Result<Option<Edit>, Memory>
    ensures { IfOk result (λ edit. edit ≡ simple_edit_of (view value.now)) }
{
    if is_line(value, REPLACE, &[AT, OP, TEXT]) {
        Ok(match place_and_text(alloc, value)? {
            Some((path, text)) => Some(Edit::Replace(path, text)),
            None => None,
        })
    } else if is_line(value, INSERT, &[AT, OP, TEXT]) {
        Ok(match place_and_text(alloc, value)? {
            Some((path, text)) => Some(Edit::Insert(path, text)),
            None => None,
        })
    } else if is_line(value, DELETE, &[AT, OP]) {
        Ok(match path_at(alloc, value, AT)? {
            Some(path) => Some(Edit::Delete(path)),
            None => None,
        })
    } else {
        Ok(None)
    }
}

#[tactic(auto, using(crate::proofs::Lists::each_of_step, crate::proofs::Lists::each_of_stop), unfolding(crate::specs::Table::members_of))]
fn members_of(alloc: Global, values: &[Value]) -> Result<Option<Edits>, Memory>
    ensures { IfOk result (λ edits. edits ≡ members_of (map view values.now)) }
{
    if values.is_empty() || values.len() > MOST_MEMBERS {
        return Ok(None);
    }
    let mut edits = Items::new(alloc);
    for value in values {
        match simple_edit_of(alloc, value)? {
            Some(edit) => edits.push(edit)?,
            None => return Ok(None),
        }
    }
    Ok(Some(edits))
}

#[tactic(auto, unfolding(crate::specs::Table::batch_of))]
fn batch_of(alloc: Global, value: &Value) -> Result<Option<Edit>, Memory>
    ensures { IfOk result (λ edit. edit ≡ batch_of (view value.now)) }
{
    if !is_line(value, BATCH, &[EDITS, OP]) {
        return Ok(None);
    }
    match list_at(value, EDITS) {
        Some(values) => Ok(match members_of(alloc, values)? {
            Some(edits) => Some(Edit::Batch(edits)),
            None => None,
        }),
        None => Ok(None),
    }
}

fn show_of(alloc: Global, value: &Value) -> Result<Option<Query>, Memory>
    ensures { IfOk result (λ query. query ≡ show_of (view value.now)) }
{
    match (text_at(alloc, value, KEY)?, number_at(value, NODE)) {
        (Some(key), Some(node)) => Ok(Some(Query::Show(key, node))),
        _ => Ok(None),
    }
}

#[tactic(auto, unfolding(crate::specs::Table::query_of))]
fn query_of(alloc: Global, value: &Value) -> Result<Option<Query>, Memory>
    ensures { IfOk result (λ query. query ≡ query_of (view value.now)) }
{
    if is_line(value, REPORT, &[OP]) {
        Ok(Some(Query::Report))
    } else if is_line(value, STATUS, &[OP]) {
        Ok(Some(Query::Status))
    } else if is_line(value, SHOW, &[KEY, NODE, OP]) {
        show_of(alloc, value)
    } else if is_line(value, PRINT, &[FILE, OP]) {
        Ok(match number_at(value, FILE) {
            Some(file) => Some(Query::Print(file)),
            None => None,
        })
    } else if is_line(value, SAVE, &[OP]) {
        Ok(Some(Query::Save))
    } else {
        Ok(None)
    }
}

/// The command that a value is, if it is one.
#[tactic(auto, unfolding(crate::specs::Table::command_of))]
pub fn command_of(alloc: Global, value: &Value) -> Result<Option<Command>, Memory>
    ensures { IfOk result (λ command. command ≡ command_of (view value.now)) }
{
    if let Some(edit) = simple_edit_of(alloc, value)? {
        return Ok(Some(Command::Edit(edit)));
    }
    if let Some(edit) = batch_of(alloc, value)? {
        return Ok(Some(Command::Edit(edit)));
    }
    Ok(match query_of(alloc, value)? {
        Some(query) => Some(Command::Query(query)),
        None => None,
    })
}
