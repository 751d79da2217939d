// How large a type may be, and how deep.
use crate::documents::{add_first, document, path};
use ada_tree::Node;
use ada_types::{Types, type_of_node};
use base_kit::{Code, Memory, Stop};
use scope_rules::Scope;
use std::alloc::Global;
use std::test::Fail;

// package P is type R is record A, A, .. : INTEGER; end record; end P; with so many components
fn record_text(alloc: Global, components: usize) -> Result<Vec<u8>, Memory> {
    let mut text = Vec::from_slice(alloc, b"package P is type R is record A")?;
    for _ in 1..components {
        text.extend_from_slice(b", A")?;
    }
    text.extend_from_slice(b" : INTEGER; end record; end P;")?;
    Ok(text)
}

// The fault of the first declaration, or none.
fn fault(alloc: Global, root: &Node) -> Result<Option<Code>, Memory> {
    let scope = Scope::of_root(alloc, root)?;
    let mut types = Types::new(alloc);
    let at = path(alloc, &[0, 0, 1, 0, 0])?;
    match type_of_node(alloc, &mut types, root, &scope, &at) {
        Ok(()) => Ok(None),
        Err(Stop::Fault(fault)) => Ok(Some(fault.code)),
        Err(Stop::Memory) => Err(Memory),
    }
}

fn is_right(alloc: Global, row: &(usize, Option<Code>)) -> Result<bool, Memory> {
    match document(alloc, record_text(alloc, row.0)?.as_slice())? {
        Some(root) => Ok(fault(alloc, &root)? == row.1),
        None => Ok(false),
    }
}

// The number of components, and the fault. A record has one node more than its components.
const RECORDS: &[(usize, Option<Code>)] = &[
    (1, None),
    (998, None),
    (999, None),
    (1000, Some(Code::F11)),
    (1001, Some(Code::F11)),
];

fn first_wrong_record(alloc: Global) -> Option<usize> {
    RECORDS
        .iter()
        .position(|row| is_right(alloc, row) != Ok(true))
}

#[test]
fn records_have_a_thousand_nodes_at_most(rt: HostRuntime) -> Result<(), Fail> {
    assert_eq!(rt; first_wrong_record(rt.alloc()), None);
    Ok(())
}

// The name of the array type of this number: T, TA, TAA ..
fn add_name(text: &mut Vec<u8>, number: u32) -> Result<(), Memory> {
    text.push(b'T')?;
    for _ in 0..number {
        text.push(b'A')?;
    }
    Ok(())
}

fn add_array(text: &mut Vec<u8>, number: u32) -> Result<(), Memory> {
    text.extend_from_slice(b"type ")?;
    add_name(text, number.saturating_add(1))?;
    text.extend_from_slice(b" is array (1 .. 2) of ")?;
    add_name(text, number)?;
    text.extend_from_slice(b";\n")?;
    Ok(())
}

// A type of numbers, and so many types of arrays, each of the one before.
fn arrays_text(alloc: Global, arrays: u32) -> Result<Vec<u8>, Memory> {
    let mut text = Vec::from_slice(alloc, b"package P is type T is range 1 .. 2;\n")?;
    for number in 0..arrays {
        add_array(&mut text, number)?;
    }
    text.extend_from_slice(b"end P;")?;
    Ok(text)
}

fn can_be_added(alloc: Global, root: &Node, count: u32) -> Result<bool, Memory> {
    let scope = Scope::of_root(alloc, root)?;
    let mut types = Types::new(alloc);
    add_first(alloc, &mut types, root, &scope, &[0, 0, 1, 0], count)
}

// How deep arrays of numbers may be: the type of numbers with so many types of arrays can be added, or can't.
const DEPTHS: &[(u32, bool)] = &[(0, true), (62, true), (63, true), (64, false)];

fn is_depth(alloc: Global, row: &(u32, bool)) -> Result<bool, Memory> {
    match document(alloc, arrays_text(alloc, row.0)?.as_slice())? {
        Some(root) => Ok(can_be_added(alloc, &root, row.0.saturating_add(1))? == row.1),
        None => Ok(false),
    }
}

fn first_wrong_depth(alloc: Global) -> Option<usize> {
    DEPTHS
        .iter()
        .position(|row| is_depth(alloc, row) != Ok(true))
}

#[test]
fn types_are_sixty_four_deep_at_most(rt: HostRuntime) -> Result<(), Fail> {
    assert_eq!(rt; first_wrong_depth(rt.alloc()), None);
    Ok(())
}

// package P is A, A, .. : INTEGER := 1 + 1 + 1; end P; with so many names, each of which holds five nodes
fn names_text(alloc: Global, names: usize) -> Result<Vec<u8>, Memory> {
    let mut text = Vec::from_slice(alloc, b"package P is A")?;
    for _ in 1..names {
        text.extend_from_slice(b", A")?;
    }
    text.extend_from_slice(b" : INTEGER := 1 + 1 + 1; end P;")?;
    Ok(text)
}

const NAMES: &[(usize, Option<Code>)] = &[(1, None), (4000, None), (4001, Some(Code::F11))];

fn holds_so(alloc: Global, row: &(usize, Option<Code>)) -> Result<bool, Memory> {
    match document(alloc, names_text(alloc, row.0)?.as_slice())? {
        Some(root) => Ok(fault(alloc, &root)? == row.1),
        None => Ok(false),
    }
}

fn first_wrong_names(alloc: Global) -> Option<usize> {
    NAMES
        .iter()
        .position(|row| holds_so(alloc, row) != Ok(true))
}

#[test]
fn names_hold_twenty_thousand_nodes_at_most(rt: HostRuntime) -> Result<(), Fail> {
    assert_eq!(rt; first_wrong_names(rt.alloc()), None);
    Ok(())
}
