// The reading table: the grammar's lines, factored for reading from the left one token at a time. It
// stands in the files beside, by families, in the order of `Rule`.
ghost use Rattle.std.specs.Prelude.{◌≡◌, slice_get, option_map};
ghost use Rattle.std.specs.List.{flat_map};
ghost use Rattle.std.specs.Option.{option_copied};
ghost use Rattle.reading_table.specs.Rows.{entry_of, entry_now};

pub mod annotations;
pub mod choices;
pub mod declarations;
pub mod levels;
pub mod names;
pub mod nodes;
pub mod primaries;
pub mod proofs;
pub mod statements;
pub mod traits;
pub mod units;

use crate::need::Need;
use crate::rule::Rule;
use crate::symbol::Symbol;
use ada_tree::Side;

/// A row of a rule: the side that it is for, and its symbols.
pub type Row = (Side, &'static [Symbol]);

/// An entry of the table: a rule; the side that it is for; what is done where it is read as nothing, if
/// it may be; its rows; and what it finds, leaves and makes at least.
pub type Entry = (
    Rule,
    Side,
    &'static [&'static [Symbol]],
    &'static [Row],
    Need,
);

/// The entry of a rule. There is always one.
pub fn entry(rule: Rule) -> Option<&'static Entry>
    ensures { option_map entry_now (option_copied result) ≡ entry_of rule }
{
    let families = [
        units::entries(),
        names::entries(),
        declarations::entries(),
        statements::entries(),
        choices::entries(),
        levels::entries(),
        primaries::entries(),
        nodes::entries(),
        annotations::entries(),
        traits::entries(),
        proofs::entries(),
    ];
    member_in(&families, rule as usize)
}

// The member of this number, over all families.
#[tactic(auto, using(crate::proofs::Families::in_front, crate::proofs::Families::behind_front))]
fn member_in<'a, T>(families: &[&'a [T]], number: usize) -> Option<&'a T>
    ensures { option_copied result ≡ slice_get (flat_map (λ family. family.now) families.now) number }
{
    let (family, rest) = families.split_first()?;
    match family.get(number) {
        None => member_in(rest, number - family.len()),
        found => found,
    }
}
