// Collecting the entries of a document.
ghost use Rattle.std.specs.Prelude.{◌≡◌, [], Some, IfOk};
ghost use Rattle.ada_tree.specs.Nodes.{kind_of, text_of};
ghost use Rattle.ada_names.specs.Collecting as spec;
ghost use Rattle.ada_names.specs.Mirrors.{around_of};
ghost use Rattle.ada_names.specs.Predefined.{predefined_entry, with_predefined, predefined};

use crate::around::{Around, inside, region_in};
use crate::entry::{Entry, Space};
use crate::places::kid;
use crate::predefined::PREDEFINED;
use crate::said::Said;
use crate::saying::saying_at;
use crate::table::Table;
use ada_tree::{Doc, Kind, Node};
use base_kit::{Copied, Memory, Path, Text};
use std::alloc::Global;

// The node from whose end on a name that a node binds is visible.
fn bound_from(alloc: Global, kind: Kind, at: &Path) -> Result<Path, Memory>
    ensures { IfOk result (λ path. path ≡ spec.bound_from kind at.now) }
{
    match kind {
        Kind::View => kid(alloc, at, 0),
        Kind::All | Kind::Exists => kid(alloc, at, 1),
        _ => at.copy(alloc),
    }
}

// The entry of what a node itself declares, binds or mentions.
fn own<'a>(
    alloc: Global,
    node: &Node,
    at: &'a Path,
    around: &Around<'a>,
    table: &Table,
) -> Result<Option<Entry>, Memory>
    ensures { IfOk result (λ e. e ≡ spec.own (kind_of node.now) (text_of node.now) at.now (around_of around.now) table.now) }
{
    let nowhere = Path(Vec::new(alloc));
    let bound = bound_from(alloc, node.kind, at)?;
    let Some(saying) = saying_at(node.kind, at, &bound, &nowhere, around) else {
        return Ok(None);
    };
    let said = Said {
        kind: saying.kind,
        name: &node.text,
        place: at,
        region: saying.region,
        from: saying.from,
        within: saying.within,
    };
    Ok(Some(said.entry(alloc, table)?))
}

// The region of a package and its body.
fn home(alloc: Global, at: &Path, own: &Option<Entry>) -> Result<Path, Memory>
    ensures { IfOk result (λ path. path ≡ spec.home_of at.now own.now) }
{
    match own {
        Some(entry) => entry.origin.copy(alloc),
        None => at.copy(alloc),
    }
}

fn with_own(alloc: Global, table: Table, own: Option<Entry>) -> Result<Table, Memory>
    ensures { IfOk result (λ after. after ≡ spec.with_own table own) }
{
    match own {
        Some(entry) => table.with(alloc, entry),
        None => Ok(table),
    }
}

// The table with the entries of a node and of those below it.
fn collect<'a>(
    alloc: Global,
    node: &Node,
    at: &'a Path,
    around: &Around<'a>,
    table: Table,
) -> Result<Table, Memory>
    ensures { IfOk result (λ after. after ≡ spec.entries_in node.now at.now (around_of around.now) table) }
{
    let own = own(alloc, node, at, around, &table)?;
    let home = home(alloc, at, &own)?;
    let mut table = with_own(alloc, table, own)?;
    for (number, member) in node.kids.as_slice().iter().enumerate() {
        let below = kid(alloc, at, number)?;
        let region = region_in(alloc, node.kind, &home, at, number)?;
        let inside = inside(node.kind, &region, at, number, &around.again());
        table = collect(alloc, member, &below, &inside, table)?;
    }
    Ok(table)
}

// The entry of a predefined name after those of the table: it stands nowhere.
fn predefined_entry(alloc: Global, name: &str, kind: Kind, table: &Table) -> Result<Entry, Memory>
    ensures { IfOk result (λ e. e ≡ predefined_entry table.now name.now kind) }
{
    let name = Text::from(Vec::from_slice(alloc, name.as_bytes())?);
    let number = table.next_number()?;
    Ok(Entry {
        space: Space::Predefined,
        kind,
        name,
        place: Path(Vec::new(alloc)),
        origin: Path(Vec::new(alloc)),
        region: Path(Vec::new(alloc)),
        from: Path(Vec::new(alloc)),
        within: Path(Vec::new(alloc)),
        number: Some(number),
    })
}

// The table with the predefined names.
fn with_predefined(alloc: Global, rows: &[(&str, Kind)], mut table: Table) -> Result<Table, Memory>
    ensures { IfOk result (λ after. after ≡ with_predefined (λ row. row.0.now) (λ row. row.1) rows.now table) }
{
    for (name, kind) in rows {
        let entry = predefined_entry(alloc, name, *kind, &table)?;
        table = table.with(alloc, entry)?;
    }
    Ok(table)
}

fn predefined(alloc: Global) -> Result<Table, Memory>
    ensures { IfOk result (λ table. table ≡ predefined) }
{
    with_predefined(alloc, &PREDEFINED, Table::new(alloc))
}

impl Table {
    /// What a document says about names: one pass over its nodes.
    pub fn of(alloc: Global, doc: &Doc) -> Result<Table, Memory>
        ensures { IfOk result (λ table. table ≡ spec.entries_of doc.now) }
    {
        Table::of_root(alloc, &doc.root)
    }

    /// The same of any tree, as if it were a document.
    pub fn of_root(alloc: Global, root: &Node) -> Result<Table, Memory>
        ensures { IfOk result (λ table. table ≡ spec.entries_of root.now) }
    {
        let at = Path(Vec::new(alloc));
        let predefined = predefined(alloc)?;
        collect(alloc, root, &at, &Around::outermost(&at), predefined)
    }
}
