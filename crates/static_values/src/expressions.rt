// Expressions: what each means, or its first fault.
ghost use Rattle.std.specs.Prelude.{◌≡◌, ◌++◌, ◌∷◌, [], not};
ghost use Rattle.ada_tree.specs.Sights.{parts_of};
ghost use Rattle.ada_names.specs.Places.{◌▸◌};
ghost use Rattle.static_values.specs.Judging.{asks, Gives, ◌⊕◌};
ghost use Rattle.static_values.specs.Rules as spec;
ghost use Rattle.static_values.specs.Components as parts;
ghost use Rattle.static_values.specs.Syntax.{expr_of};
ghost use Rattle.static_values.specs.Entities.{world};
ghost use Rattle.static_values.specs.Expressions as walk;

use crate::attribute::Attribute;
use crate::entity::{Named, Selected};
use crate::form::{ExprForm, expr_form};
use crate::judging::ask;
use crate::meaning::{Meaning, Use};
use crate::naming::{Entities, denoted};
use crate::rules::{has_bad_value, is_not_static};
use crate::{attributes, rules};
use ada_names::kid;
use ada_tree::{Lookup, Node, Operator};
use base_kit::{Code, Path, Stop, Text};
use std::alloc::Global;

// Asks what the use of an expression asks of it, after one condition of its own.
fn used(
    alloc: Global,
    at: &Path,
    usage: Use,
    code: Code,
    fails: bool,
    meaning: Meaning,
) -> Result<Meaning, Stop>
    ensures { Gives (asks at.now ((code, fails) ∷ spec.use_rows usage meaning)) meaning result }
{
    ask(
        alloc,
        at,
        &[
            (code, fails),
            (Code::F10, is_not_static(usage, &meaning)),
            (Code::F11, has_bad_value(usage, &meaning)),
        ],
    )?;
    Ok(meaning)
}

// Asks whether there is such a component, and what its use asks of it.
fn component(alloc: Global, at: &Path, usage: Use, selected: Selected) -> Result<Meaning, Stop>
    ensures { Gives
        (asks at.now
        (parts.selected_rows selected
        ++ spec.use_rows usage (parts.selected_meaning selected)))
        (parts.selected_meaning selected)
        result }
{
    let meaning = selected.meaning();
    ask(
        alloc,
        at,
        &[
            (Code::F08, selected.is_missing()),
            (Code::F09, selected.is_no_record()),
            (Code::F10, is_not_static(usage, &meaning)),
            (Code::F11, has_bad_value(usage, &meaning)),
        ],
    )?;
    Ok(meaning)
}

fn unary(
    alloc: Global,
    at: &Path,
    usage: Use,
    operator: Operator,
    operand: &Meaning,
) -> Result<Meaning, Stop>
    ensures { Gives
        (asks at.now
        (spec.unary_rows operator operand.now ++ spec.use_rows usage
        (spec.unary_meaning operator operand.now)))
        (spec.unary_meaning operator operand.now)
        result }
{
    let fails = !rules::takes1(operator, operand.base);
    used(
        alloc,
        at,
        usage,
        Code::F09,
        fails,
        rules::unary(operator, operand),
    )
}

fn binary(
    alloc: Global,
    at: &Path,
    usage: Use,
    operator: Operator,
    left: &Meaning,
    right: &Meaning,
) -> Result<Meaning, Stop>
    ensures { Gives
        (asks at.now
        (spec.binary_rows operator left.now right.now ++ spec.use_rows usage
        (spec.binary_meaning operator left.now right.now)))
        (spec.binary_meaning operator left.now right.now)
        result }
{
    let fails = !rules::takes2(operator, left.base, right.base);
    used(
        alloc,
        at,
        usage,
        Code::F09,
        fails,
        rules::binary(operator, left, right),
    )
}

fn literal(alloc: Global, at: &Path, usage: Use, digits: &Text) -> Result<Meaning, Stop>
    ensures { Gives
        (asks at.now (spec.use_rows usage (spec.literal digits.now)))
        (spec.literal digits.now)
        result }
{
    let meaning = rules::literal(digits.as_bytes());
    used(alloc, at, usage, Code::F09, false, meaning)
}

fn name(alloc: Global, at: &Path, usage: Use, named: Named) -> Result<Meaning, Stop>
    ensures { Gives
        (asks at.now (spec.name_rows named ++ spec.use_rows usage (spec.meant named)))
        (spec.meant named)
        result }
{
    used(
        alloc,
        at,
        usage,
        Code::F08,
        rules::has_no_value(named),
        rules::meant(named),
    )
}

fn attribute(
    alloc: Global,
    at: &Path,
    usage: Use,
    text: &Text,
    named: Named,
) -> Result<Meaning, Stop>
    ensures { Gives
        (asks at.now
        (spec.attribute_rows text.now named ++ spec.use_rows usage
        (spec.attribute_meaning text.now named)))
        (spec.attribute_meaning text.now named)
        result }
{
    let written = Attribute::of(text.as_bytes());
    let fails = attributes::lacks(written, named);
    used(
        alloc,
        at,
        usage,
        Code::F08,
        fails,
        attributes::attribute(written, named),
    )
}

// What stands before the argument of an attribute.
fn prefix(alloc: Global, at: &Path, text: &Text, named: Named) -> Result<(), Stop>
    ensures { Gives (asks at.now (spec.prefix_rows text.now named)) tt result }
{
    let fails = attributes::lacks_positions(Attribute::of(text.as_bytes()), named);
    ask(alloc, at, &[(Code::F08, fails)])
}

fn applied(
    alloc: Global,
    at: &Path,
    usage: Use,
    text: &Text,
    named: Named,
    argument: &Meaning,
) -> Result<Meaning, Stop>
    ensures { Gives
        (asks at.now
        (spec.applied_rows text.now named argument.now ++ spec.use_rows usage
        (spec.applied_meaning text.now named argument.now)))
        (spec.applied_meaning text.now named argument.now)
        result }
{
    let written = Attribute::of(text.as_bytes());
    let fails = !argument.base.fits(attributes::taken(written, named));
    let meaning = attributes::applied(written, named, argument);
    used(alloc, at, usage, Code::F09, fails, meaning)
}

// What stands before the tick and the parenthesis of an attribute with an argument.
#[tactic(auto, using(crate::proofs::Firsts::first_stays, crate::proofs::Firsts::first_after), unfolding(crate::specs::Expressions::prefix_faults))]
fn before_argument<N: Lookup>(
    alloc: Global,
    names: &N,
    entities: &Entities,
    at: &Path,
    text: &Text,
    node: &Node,
) -> Result<Named, Stop>
    ensures { Gives
        (walk.prefix_faults (world (N.sight names.now) entities.now) at.now (parts_of node.now)
        text.now)
        (walk.denoted (world (N.sight names.now) entities.now) (at.now ▸ 0 ▸ 0)
        (parts_of node.now))
        result }
{
    let tick = kid(alloc, at, 0)?;
    let named = denoted(alloc, names, entities, &kid(alloc, &tick, 0)?, node)?;
    prefix(alloc, &tick, text, named)?;
    Ok(named)
}

/// What an expression that is used so means.
#[tactic(auto, using(crate::proofs::Firsts::first_stays, crate::proofs::Firsts::first_after))]
pub fn expression<N: Lookup>(
    alloc: Global,
    names: &N,
    entities: &Entities,
    at: &Path,
    usage: Use,
    node: &Node,
) -> Result<Meaning, Stop>
    ensures { Gives
        (walk.faults (world (N.sight names.now) entities.now) usage at.now (expr_of node.now))
        (walk.meaning (world (N.sight names.now) entities.now) at.now (expr_of node.now))
        result }
{
    match expr_form(node) {
        ExprForm::Int(digits) => literal(alloc, at, usage, digits),
        ExprForm::Name(node) => {
            let named = denoted(alloc, names, entities, at, node)?;
            name(alloc, at, usage, named)
        }
        ExprForm::Unary(operator, operand) => {
            let below = kid(alloc, at, 0)?;
            let operand = expression(alloc, names, entities, &below, Use::Read, operand)?;
            unary(alloc, at, usage, operator, &operand)
        }
        ExprForm::Binary(operator, left, right) => {
            let below = kid(alloc, at, 0)?;
            let left = expression(alloc, names, entities, &below, Use::Read, left)?;
            let beside = kid(alloc, at, 1)?;
            let right = expression(alloc, names, entities, &beside, Use::Read, right)?;
            binary(alloc, at, usage, operator, &left, &right)
        }
        ExprForm::Attribute(node, text) => {
            let named = denoted(alloc, names, entities, &kid(alloc, at, 0)?, node)?;
            attribute(alloc, at, usage, text, named)
        }
        ExprForm::Applied(node, text, argument) => {
            let named = before_argument(alloc, names, entities, at, text, node)?;
            let below = kid(alloc, &kid(alloc, at, 1)?, 0)?;
            let argument = expression(alloc, names, entities, &below, Use::Read, argument)?;
            applied(alloc, at, usage, text, named, &argument)
        }
        ExprForm::Component(prefix, text) => {
            let below = kid(alloc, at, 0)?;
            let prefix = expression(alloc, names, entities, &below, Use::Read, prefix)?;
            let selected = entities.selected(prefix.base, text.as_bytes());
            component(alloc, at, usage, selected)
        }
        ExprForm::Other => used(alloc, at, usage, Code::F09, false, rules::unknown()),
    }
}
