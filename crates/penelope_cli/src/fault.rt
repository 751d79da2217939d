// The line of a fault.
ghost use Rattle.std.specs.Prelude.{◌≡◌, ◌<◌, ◌^◌, ◌-◌, ◌++◌, OnOk, IfOk};
ghost use Rattle.std.specs.List.{flat_map};
ghost use Rattle.penelope_cli.specs.Faults.{step_text, path_text, place_text, is_counted, count_text, fault_line, place_in, in_file};

use crate::write::{write, write_number};
use base_kit::{Code, Fault, Memory, Path, Place, Text};
use std::alloc::Global;

fn write_steps(alloc: Global, out: &mut Vec<u8>, numbers: &[u32]) -> Result<(), Memory>
    ensures { OnOk result (out.new.items ≡ out.old.items ++ flat_map step_text numbers.now) }
{
    for number in numbers {
        write(out, b".")?;
        write_number(alloc, out, u64::from(*number))?;
    }
    Ok(())
}

// The numbers of a path, joined by dots; the empty path is a dash.
fn write_path(alloc: Global, out: &mut Vec<u8>, path: &Path) -> Result<(), Memory>
    ensures { OnOk result (out.new.items ≡ out.old.items ++ path_text path.now) }
{
    match path.0.as_slice() {
        [] => write(out, b"-"),
        [first, rest @ ..] => {
            write_number(alloc, out, u64::from(*first))?;
            write_steps(alloc, out, rest)
        }
    }
}

fn write_place(alloc: Global, out: &mut Vec<u8>, place: &Place) -> Result<(), Memory>
    ensures { OnOk result (out.new.items ≡ out.old.items ++ place_text place.now) }
{
    match place {
        Place::Line(file, line) => {
            write(out, b"file ")?;
            write_number(alloc, out, u64::from(*file))?;
            write(out, b" line ")?;
            write_number(alloc, out, u64::from(*line))
        }
        Place::At(path) => {
            write(out, b"at ")?;
            write_path(alloc, out, path)
        }
    }
}

// The faults that say how many or how much there is.
fn is_counted(code: Code) -> bool
    ensures { result ≡ is_counted code }
{
    matches!(
        code,
        Code::F24 | Code::F25 | Code::F26 | Code::F27 | Code::F29
    )
}

fn write_count(alloc: Global, out: &mut Vec<u8>, fault: &Fault) -> Result<(), Memory>
    ensures { OnOk result (out.new.items ≡ out.old.items ++ count_text fault.now) }
{
    if is_counted(fault.code) {
        write(out, b" count ")?;
        write_number(alloc, out, fault.count)?;
    }
    Ok(())
}

/// The line of a fault.
pub fn fault_line(alloc: Global, fault: &Fault) -> Result<Text, Memory>
    ensures { IfOk result (λ text. text ≡ fault_line fault.now) }
{
    let mut out = Vec::new(alloc);
    write(&mut out, b"fault ")?;
    write(&mut out, fault.code.text().as_bytes())?;
    write(&mut out, b" ")?;
    write_place(alloc, &mut out, &fault.place)?;
    write_count(alloc, &mut out, fault)?;
    write(&mut out, b"\n")?;
    Ok(Text::from(out))
}

// A place in the text or the tree of the file of this number, as one among all files.
fn place_in(number: u32, place: Place) -> Result<Place, Memory>
    requires { number < 2 ^ 32 - 1 }
    ensures { IfOk result (λ among. among ≡ place_in number place) }
{
    match place {
        Place::Line(0, line) => Ok(Place::Line(number + 1, line)),
        Place::Line(file, line) => Ok(Place::Line(file, line)),
        Place::At(mut path) => {
            path.0.insert(0, number)?;
            Ok(Place::At(path))
        }
    }
}

/// A fault of the file of this number, from 0, as one among all files.
pub fn in_file(number: u32, fault: Fault) -> Result<Fault, Memory>
    requires { number < 2 ^ 32 - 1 }
    ensures { IfOk result (λ among. among ≡ in_file number fault) }
{
    Ok(Fault {
        code: fault.code,
        place: place_in(number, fault.place)?,
        count: fault.count,
    })
}
