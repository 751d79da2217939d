// Copies of theories.
use base_kit::{Copied, Listed, Memory};
use lsl_traits::{Case, Cases, Equation, Theory};
use std::alloc::Global;
use std::test::Fail;
use term_core::Term;

fn equations(alloc: Global) -> Result<Cases, Memory> {
    let equation = Equation {
        params: Listed::new(alloc),
        right: Term::Truth(true),
    };
    let case = Case {
        op: 5,
        generator: Some(3),
        equation,
    };
    Ok(Listed::from(vec![in alloc; case]?))
}

// For which operator the first equation is, and for which generator.
fn first_case(theory: &Theory) -> Option<(u32, Option<u32>)> {
    match theory.equations.as_slice() {
        [case, ..] => Some((case.op, case.generator)),
        [] => None,
    }
}

fn copied_case(alloc: Global) -> Result<Option<(u32, Option<u32>)>, Memory> {
    let mut theory = Theory::new(alloc);
    theory.equations = equations(alloc)?;
    let copied = theory.copy(alloc)?;
    Ok(first_case(&copied))
}

#[test]
fn theories_are_copied(rt: HostRuntime) -> Result<(), Fail> {
    let alloc = rt.alloc();
    assert_eq!(rt; first_case(&Theory::new(alloc)), None);
    assert_eq!(rt; copied_case(alloc)?, Some((5, Some(3))));
    Ok(())
}
