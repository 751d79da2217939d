// Checks a document.
ghost use Rattle.std.specs.Prelude.{◌≡◌, ◌<◌, ◌^◌, length, map, IfOk};
ghost use Rattle.one_path.specs.Conditions.{Meets};
ghost use Rattle.penelope_cli.specs.declared.fresh.Outcome.TheVariants.{Faulty as faulty_outcome};
ghost use Rattle.penelope_cli.specs.Faults.{fault_line};
ghost use Rattle.penelope_cli.specs.Fresh.{checked};
ghost use Rattle.penelope_cli.specs.Items.{items_in, unsupported_at};
ghost use Rattle.penelope_cli.specs.Judging.{placed, judged_before};

use crate::fault::fault_line;
use crate::fresh::Outcome;
use crate::items::{Item, items};
use crate::obligations::obligations;
use crate::report::report;
use ada_tree::Node;
use base_kit::{Code, Fault, Memory, Path, Place, Text};
use one_path::{Procedure, form_of};
use std::alloc::Global;

// The item isn't taken.
fn unsupported(alloc: Global, item: Item<'_>) -> Result<Outcome, Memory>
    ensures { IfOk result (λ outcome. outcome
        ≡ faulty_outcome (fault_line (unsupported_at (placed item.entry).path))) }
{
    let mut path = Vec::new(alloc);
    path.push(item.file)?;
    path.push(item.number)?;
    let fault = Fault {
        code: Code::F23,
        place: Place::At(Path(path)),
        count: 0,
    };
    Ok(Outcome::Faulty(fault_line(alloc, &fault)?))
}

// The first item is this procedure, which is taken where no items are behind it.
fn judge_before(alloc: Global, unit: &Procedure, behind: &[Item<'_>]) -> Result<Outcome, Memory>
    requires { Meets unit.now }
    ensures { IfOk result (λ outcome. outcome ≡ judged_before unit.now behind.now) }
{
    match behind {
        [] => {
            let obligations = obligations(alloc, unit)?;
            Ok(Outcome::Text(report(alloc, &unit.name, &obligations)?))
        }
        [second, ..] => unsupported(alloc, *second),
    }
}

// Checks items: at most one is taken, and it has to be of the form.
#[tactic(auto, using(crate::proofs::Judging::first_taken))]
fn judge(alloc: Global, items: &[Item<'_>]) -> Result<Outcome, Memory>
    ensures { IfOk result (λ outcome. outcome ≡ checked (map placed items.now)) }
{
    let Some((item, behind)) = items.split_first() else {
        return Ok(Outcome::Text(Text::from(Vec::new(alloc))));
    };
    match form_of(alloc, item.node)? {
        Some(unit) => judge_before(alloc, &unit, behind),
        None => unsupported(alloc, *item),
    }
}

/// Checks the files of a document: the report of their units, or the fault of the first item that isn't
/// taken.
pub fn check(alloc: Global, files: &[Node]) -> Result<Outcome, Memory>
    requires { length files.now < 2 ^ 32 }
    ensures { IfOk result (λ outcome. outcome ≡ checked (items_in 0 files.now)) }
{
    let items = items(alloc, files)?;
    judge(alloc, items.as_slice())
}
