// What no clause says: that each call can succeed, and each generic one at a concrete type.
ghost use Rattle.std.specs.Prelude.{◌≡◌, ◌<◌};

use base_kit::{
    Bounds, Code, Copied, Fault, Memory, Names, Numbers, Path, Place, Steps, Stop, Tally, Text,
};
use std::alloc::{AllocError, AllocFailed, Global};
use std::marker::Brand;
use std::sync::ledger::{Blank, Ledger as Page};
use std::test::Fail;

// Each list is seen, copied, and given back.

fn text_is_kept(alloc: Global, bytes: &[u8]) -> Result<bool, Memory> {
    let text = Text::from(bytes.to_vec(alloc)?);
    let copy = text.copy(alloc)?.into_vec();
    let is_seen = text.as_bytes() == bytes;
    Ok(is_seen && copy.as_slice() == bytes && text.into_vec().as_slice() == bytes)
}

fn numbers_are_kept(alloc: Global, members: &[u32]) -> Result<bool, Memory> {
    let numbers = Numbers::from(members.to_vec(alloc)?);
    let copy = numbers.copy(alloc)?.into_vec();
    let are_seen = numbers.as_slice() == members;
    Ok(are_seen && copy.as_slice() == members && numbers.into_vec().as_slice() == members)
}

fn bounds_are_kept(alloc: Global, members: &[i64]) -> Result<bool, Memory> {
    let bounds = Bounds::from(members.to_vec(alloc)?);
    let copy = bounds.copy(alloc)?.into_vec();
    let are_seen = bounds.as_slice() == members;
    Ok(are_seen && copy.as_slice() == members && bounds.into_vec().as_slice() == members)
}

fn path_is_copied(alloc: Global, steps: &[u32]) -> Result<bool, Memory> {
    let path = Path(steps.to_vec(alloc)?);
    Ok(path.copy(alloc)?.0.as_slice() == steps)
}

#[test]
fn lists_are_copied_and_given_back(rt: HostRuntime) -> Result<(), Fail> {
    let alloc = rt.alloc();
    assert!(rt; text_is_kept(alloc, b"ab")?);
    assert!(rt; numbers_are_kept(alloc, &[7, 0, 4_294_967_295])?);
    assert!(rt; bounds_are_kept(alloc, &[-1, 5])?);
    assert!(rt; path_is_copied(alloc, &[3, 1])?);
    Ok(())
}

fn two_names(alloc: Global) -> Result<Names, Memory> {
    let mut names = Names::new(alloc);
    names.push(Text::from(b"one".to_vec(alloc)?))?;
    names.push(Text::from(b"two".to_vec(alloc)?))?;
    Ok(names)
}

fn is_text(text: &Text, bytes: &[u8]) -> bool {
    text.as_bytes() == bytes
}

fn are_two(texts: &[Text]) -> bool {
    match texts {
        [first, second] => is_text(first, b"one") && is_text(second, b"two"),
        _ => false,
    }
}

fn names_are_kept(alloc: Global) -> Result<bool, Memory> {
    let names = two_names(alloc)?;
    let copy = names.copy(alloc)?.into_vec();
    let are_seen = are_two(names.as_slice());
    let again = Names::from(names.into_vec()).into_vec();
    Ok(are_seen && are_two(copy.as_slice()) && are_two(again.as_slice()))
}

#[test]
fn names_are_copied_and_given_back(rt: HostRuntime) -> Result<(), Fail> {
    assert!(rt; names_are_kept(rt.alloc())?);
    Ok(())
}

fn is_line(place: &Place, file: u32, line: u32) -> bool {
    matches!(place, Place::Line(f, l) if *f == file && *l == line)
}

fn is_at(place: &Place, path: &[u32]) -> bool {
    matches!(place, Place::At(p) if p.0.as_slice() == path)
}

fn line_is_copied(alloc: Global) -> Result<bool, Memory> {
    let line = Place::Line(2, 9);
    Ok(is_line(&line.copy(alloc)?, 2, 9))
}

fn fault(alloc: Global) -> Result<Fault, Memory> {
    Ok(Fault {
        code: Code::F23,
        place: Place::At(Path(vec![in alloc; 4, 0]?)),
        count: 3,
    })
}

fn is_the_fault(fault: &Fault) -> bool {
    fault.code == Code::F23 && fault.count == 3 && is_at(&fault.place, &[4, 0])
}

fn fault_is_copied(alloc: Global) -> Result<bool, Memory> {
    Ok(is_the_fault(&fault(alloc)?.copy(alloc)?))
}

fn stop_is_copied(alloc: Global) -> Result<bool, Memory> {
    let stop = Stop::Fault(fault(alloc)?);
    Ok(match stop.copy(alloc)? {
        Stop::Fault(again) => is_the_fault(&again),
        Stop::Memory => false,
    })
}

#[test]
fn faults_are_copied(rt: HostRuntime) -> Result<(), Fail> {
    let alloc = rt.alloc();
    assert!(rt; line_is_copied(alloc)?);
    assert!(rt; fault_is_copied(alloc)?);
    assert!(rt; stop_is_copied(alloc)?);
    assert!(rt; matches!(Stop::Memory.copy(alloc)?, Stop::Memory));
    Ok(())
}

#[test]
fn want_of_memory_is_told(rt: HostRuntime) {
    assert_eq!(rt; Memory::from(AllocError), Memory);
    assert_eq!(rt; Memory::from(AllocFailed { value: 1u8 }), Memory);
    assert!(rt; matches!(Stop::from(Memory), Stop::Memory));
    assert!(rt; matches!(Stop::from(AllocError), Stop::Memory));
    assert!(rt; matches!(Stop::from(AllocFailed { value: 1u8 }), Stop::Memory));
}

// Takes a step, and answers how many bytes long the counted steps are.
fn bytes_of_steps<P: Page>(blank: Blank) -> usize
    requires name { blank.name ≡ P.name }
    requires parts { blank.parts ≡ P.parts }
    requires some { 0 < blank.parts }
{
    let mut steps = Steps::new(Tally::<P>::new(blank));
    steps.tick();
    size_of_val(&steps)
}

#[test]
fn steps_cost_nothing(rt: HostRuntime) {
    assert_eq!(rt; bytes_of_steps::<Brand>(Blank::new(1)), 0);
}
