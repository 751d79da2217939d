// The units that a body calls. Values of types that lead back to themselves are made and looked at in small functions that
// answer plain ones.
use ada_tree::DeclId;
use base_kit::{Copied, Listed, Memory, Text};
use core_tree::{CoreExpr, CoreStmt, CoreUnit, Spec, mentions};
use sqlite_items::Items;
use std::alloc::Global;
use std::test::Fail;

fn call_of(alloc: Global, number: u32, unit: u32) -> CoreExpr {
    CoreExpr::Call(number, DeclId(unit), Items::new(alloc))
}

// The call of unit 9 with a call of unit 4 as its actual.
fn nested(alloc: Global) -> Result<CoreExpr, Memory> {
    let actuals = vec![in alloc; call_of(alloc, 2, 4)]?;
    Ok(CoreExpr::Call(1, DeclId(9), Items::from_vec(actuals)))
}

// It assigns to the object 0, and calls unit 9 once more.
fn statements(alloc: Global) -> Result<Items<CoreStmt>, Memory> {
    let value = nested(alloc)?;
    let first = CoreStmt::Assign(CoreExpr::Get(0), value);
    let second = CoreStmt::Call(3, DeclId(9), Items::new(alloc));
    Ok(Items::from_vec(vec![in alloc; first, second]?))
}

fn no_spec(alloc: Global) -> Spec {
    Spec {
        formals: Listed::new(alloc),
        globals: Listed::new(alloc),
        result: None,
        pre: Items::new(alloc),
        post: Items::new(alloc),
        raises: Listed::new(alloc),
    }
}

fn unit_of(alloc: Global, statements: Items<CoreStmt>) -> CoreUnit {
    CoreUnit {
        id: DeclId(12),
        name: Text::from(Vec::new(alloc)),
        spec: no_spec(alloc),
        objects: Listed::new(alloc),
        body: CoreStmt::Block(Listed::new(alloc), statements, Items::new(alloc)),
        places: Listed::new(alloc),
    }
}

fn unit(alloc: Global) -> Result<CoreUnit, Memory> {
    let statements = statements(alloc)?;
    Ok(unit_of(alloc, statements))
}

// Whether the units 4 and 9 are called, and no others.
fn calls_both(alloc: Global, unit: &CoreUnit) -> Result<bool, Memory> {
    let called = mentions(alloc, unit)?;
    Ok(match called.as_slice() {
        [DeclId(first), DeclId(second)] => *first == 4 && *second == 9,
        _ => false,
    })
}

// A body calls each once, and its copy the same.
fn a_copy_calls_both(alloc: Global) -> Result<bool, Memory> {
    let unit = unit(alloc)?;
    let copied = unit.copy(alloc)?;
    calls_both(alloc, &copied)
}

#[test]
fn the_units_that_a_body_calls(rt: HostRuntime) -> Result<(), Fail> {
    let alloc = rt.alloc();
    assert!(rt; a_copy_calls_both(alloc)?);
    Ok(())
}
