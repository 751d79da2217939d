// Entries of the list of type names.
ghost use Rattle.std.specs.Prelude.{◌≡◌, ◌∷◌, [], ◌++◌, IfOk, true};
ghost use Rattle.ada_tree.specs.Nodes.{kind_of, text_of, kids_of, node_at};
ghost use Rattle.std.specs.Option.{option_copied};
ghost use Rattle.ada_types.specs.SortLists as spec;

use ada_tree::{Kind, Node};
use base_kit::{Copied, Memory, Names, Path, Text};
use static_values::{BASE_HIGH, BASE_LOW};
use std::alloc::Global;
use term_core::{Sort, SortEntry, SortNames};

fn predefined(alloc: Global, name: &str, sort: Sort, base: u32) -> Result<SortEntry, Memory>
    ensures { IfOk result (λ e. e ≡ spec.predefined_entry name.now sort base) }
{
    Ok(SortEntry {
        name: Text::from(Vec::from_slice(alloc, name.as_bytes())?),
        sort,
        seen: false,
        parts: Names::new(alloc),
        base,
    })
}

/// The predefined types and subtypes.
pub fn predefined_names(alloc: Global) -> Result<SortNames, Memory>
    ensures { IfOk result (λ names. names ≡ spec.predefined_entries) }
{
    let mut names = SortNames::new(alloc);
    names.push(predefined(alloc, "INTEGER", Sort::Range(BASE_LOW, BASE_HIGH), 0)?)?;
    names.push(predefined(alloc, "NATURAL", Sort::Range(0, BASE_HIGH), 0)?)?;
    names.push(predefined(alloc, "POSITIVE", Sort::Range(1, BASE_HIGH), 0)?)?;
    names.push(predefined(alloc, "BOOLEAN", Sort::Truth, 3)?)?;
    Ok(names)
}

// Adds a name and a dot.
fn with_dot(mut prefix: Vec<u8>, name: &Text) -> Result<Vec<u8>, Memory>
    ensures { IfOk result (λ made. made.items ≡ prefix.items ++ (name.now ++ 46 ∷ [])) }
{
    prefix.extend_from_slice(name.as_bytes())?;
    prefix.push(b'.')?;
    Ok(prefix)
}

// What a node puts before the names that are declared in it.
fn with_own(prefix: Vec<u8>, node: &Node) -> Result<Vec<u8>, Memory>
    ensures { IfOk result (λ made.
        made.items ≡ prefix.items ++ spec.own_prefix (kind_of node.now) (text_of node.now)
        (kids_of node.now)) }
{
    match node.kind {
        Kind::Pack | Kind::Body => with_dot(prefix, &node.text),
        Kind::SubBody => match node.kids.get(0) {
            Some(specification) => with_dot(prefix, &specification.text),
            None => Ok(prefix),
        },
        _ => Ok(prefix),
    }
}

// What stands before a name that is declared at this path.
fn prefix(alloc: Global, doc: &Node, path: &[u32]) -> Result<Vec<u8>, Memory>
    ensures { IfOk result (λ made. made.items ≡ spec.prefix_from path.now doc.now) }
{
    let mut node = doc;
    let mut made = Vec::new(alloc);
    for number in path {
        made = with_own(made, node)?;
        match node.kids.get(*number as usize) {
            Some(kid) => node = kid,
            None => return Ok(made),
        }
    }
    Ok(made)
}

/// The expanded name of what is declared at a path.
pub fn expanded(alloc: Global, doc: &Node, at: &Path, name: &Text) -> Result<Text, Memory>
    ensures { IfOk result (λ made. made ≡ spec.prefix_from at.now doc.now ++ name.now) }
{
    let mut made = prefix(alloc, doc, at.0.as_slice())?;
    made.extend_from_slice(name.as_bytes())?;
    Ok(Text::from(made))
}

/// The node that a path leads to.
pub fn reached<'a>(doc: &'a Node, path: &[u32]) -> Option<&'a Node>
    ensures { option_copied result ≡ node_at path.now doc.now }
{
    let mut node = doc;
    for number in path {
        node = node.kids.get(*number as usize)?;
    }
    Some(node)
}

fn holds_packaged(node: Option<&Node>) -> bool
    ensures { result ≡ spec.holds_packaged (option_copied node.entry) }
{
    match node {
        Some(node) => node.kind == Kind::Pack || node.kind == Kind::Body,
        None => false,
    }
}

/// Whether a declaration is one of a list of a package or its body.
pub fn is_packaged(doc: &Node, at: &Path) -> bool
    ensures { result ≡ spec.is_packaged doc.now at.now }
{
    let above = at.0.len().saturating_sub(2);
    holds_packaged(reached(doc, at.0.as_slice().split_at(above).0))
}

fn is_pack(node: Option<&Node>) -> bool
    ensures { result ≡ spec.is_pack (option_copied node.entry) }
{
    match node {
        Some(node) => node.kind == Kind::Pack,
        None => false,
    }
}

/// Whether a declaration stands in a package's visible part.
pub fn is_shown(doc: &Node, at: &Path) -> bool
    ensures { result ≡ spec.is_shown doc.now at.now }
{
    let above = at.0.len().saturating_sub(2);
    let Some(number) = at.0.get(above) else {
        return false;
    };
    *number == 0 && is_pack(reached(doc, at.0.as_slice().split_at(above).0))
}
