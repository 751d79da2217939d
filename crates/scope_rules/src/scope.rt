// The scope of a document.
ghost use Rattle.std.specs.Prelude.{◌≡◌, IfOk};
ghost use Rattle.ada_names.specs.Collecting.{entries_of};

use ada_names::Table;
use ada_tree::{Doc, Node};
use base_kit::Memory;
use std::alloc::Global;
use std::marker::Model;

/// What a document says about names, with tables to look it up. Contracts see its entries.
#[derive(Drop)]
pub struct Scope {
    pub(crate) table: Table,
    pub(crate) alloc: Global,
}

impl Model for Scope {
    ghost use Rattle.std.specs.Prelude.{List};
    ghost use Rattle.std.specs.Coded.{codes};
    ghost use Rattle.ada_names.specs.declared.entry.Entry.{Entry as Said};
    ghost use Rattle.ada_names.specs.contracts.entry.Entry as entry;

    ghost Value = { List Said };

    ghost coded = { Prim.hlevel (codes, entry.the_row.coded) };

    ghost view = { λ scope. scope.table };
}

impl Scope {
    /// The scope of a document: one pass over its nodes.
    pub fn of(alloc: Global, doc: &Doc) -> Result<Scope, Memory>
        ensures { IfOk result (λ scope. scope ≡ entries_of doc.now) }
    {
        Scope::of_root(alloc, &doc.root)
    }

    /// The same of any tree, as if it were a document.
    pub fn of_root(alloc: Global, root: &Node) -> Result<Scope, Memory>
        ensures { IfOk result (λ scope. scope ≡ entries_of root.now) }
    {
        Ok(Scope {
            table: Table::of_root(alloc, root)?,
            alloc,
        })
    }
}
