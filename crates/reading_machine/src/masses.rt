// What limits see of the values, and what symbols make of it.
ghost use Rattle.std.specs.Prelude.{◌≡◌, ◌<◌, ◌-◌, ◌^◌, take, drop, OnOk};
ghost use Rattle.ada_tree.specs.Nodes.{is_nested, is_step};
ghost use Rattle.reading_machine.specs.Needs.{need_now};
ghost use Rattle.reading_machine.specs.Values.{with_option};
ghost use Rattle.reading_table.specs.Heights.{flat, raised, higher, own_height, height_in, highest, built_mass, joined_mass, pasted_mass, noted_mass, needed_mass, rise};
ghost use Rattle.reading_table.specs.Limits.{open_behind, open_within};
ghost use Rattle.reading_table.specs.Rows.{need_of};

use crate::stack::Stack;
use ada_tree::{Kind, Mark};
use base_kit::Memory;
use reading_table::{Height, Mass, Need, Rule, Sort, Symbol, Tokens, entry};

/// No node is high.
pub const FLAT: Height = Height { nodes: 0, steps: 0 };

/// One on the other.
pub fn raised(low: Height, high: Height) -> Height
    ensures { result ≡ raised low high }
{
    Height {
        nodes: low.nodes.saturating_add(high.nodes),
        steps: low.steps.saturating_add(high.steps),
    }
}

/// The higher of two, in both.
pub fn higher(a: Height, b: Height) -> Height
    ensures { result ≡ higher a b }
{
    Height {
        nodes: a.nodes.max(b.nodes),
        steps: a.steps.max(b.steps),
    }
}

// Expressions, terms and statements.
fn is_nested(kind: Kind) -> bool
    ensures { result ≡ is_nested kind }
{
    matches!(
        kind,
        Kind::Binary
            | Kind::Unary
            | Kind::Member
            | Kind::Int
            | Kind::Name
            | Kind::Select
            | Kind::Apply
            | Kind::Attr
            | Kind::Aggr
            | Kind::Old
            | Kind::Result
            | Kind::All
            | Kind::Exists
            | Kind::Cond
            | Kind::Make
            | Kind::Null
            | Kind::Assign
            | Kind::Call
            | Kind::If
            | Kind::Case
            | Kind::Loop
            | Kind::Block
            | Kind::Exit
            | Kind::Return
            | Kind::Raise
            | Kind::Assert
    )
}

/// What a node of the kind adds by itself.
pub fn own_height(kind: Kind) -> Height
    ensures { result ≡ own_height kind }
{
    Height {
        nodes: if is_nested(kind) { 1 } else { 0 },
        steps: if kind == Kind::Step { 1 } else { 0 },
    }
}

/// How high the value is.
pub fn height_in(mass: Mass) -> Height
    ensures { result ≡ height_in mass }
{
    match mass {
        Mass::Tree(height) => height,
        Mass::Text | Mass::Comments => FLAT,
    }
}

// Takes the last values, so many or all, and tells how high the highest of them is.
fn take_highest(masses: &mut Stack<Mass>, count: usize) -> Height
    ensures highest { result ≡ highest (take count masses.old) }
    ensures rest { masses.new ≡ drop count masses.old }
{
    if count == 0 {
        return FLAT;
    }
    match masses.pop() {
        None => FLAT,
        Some(mass) => higher(height_in(mass), take_highest(masses, count - 1)),
    }
}

fn build(masses: &mut Stack<Mass>, kind: Kind, count: usize) -> Result<(), Memory>
    ensures { OnOk result (masses.new ≡ built_mass kind count masses.old) }
{
    let height = take_highest(masses, count);
    masses.push(Mass::Tree(raised(height, own_height(kind))))
}

// Puts back what was taken.
fn put_back(
    masses: &mut Stack<Mass>,
    before: Option<Mass>,
    last: Option<Mass>,
) -> Result<(), Memory>
    ensures { OnOk result (masses.new ≡ with_option last (with_option before masses.old)) }
{
    if let Some(mass) = before {
        masses.push(mass)?;
    }
    if let Some(mass) = last {
        masses.push(mass)?;
    }
    Ok(())
}

fn join(masses: &mut Stack<Mass>) -> Result<(), Memory>
    ensures { OnOk result (masses.new ≡ joined_mass masses.old) }
{
    match (masses.pop(), masses.pop()) {
        (Some(Mass::Tree(member)), Some(Mass::Tree(list))) => {
            masses.push(Mass::Tree(higher(member, list)))
        }
        (last, before) => put_back(masses, before, last),
    }
}

fn paste(masses: &mut Stack<Mass>) -> Result<(), Memory>
    ensures { OnOk result (masses.new ≡ pasted_mass masses.old) }
{
    match (masses.pop(), masses.pop()) {
        (Some(Mass::Text), Some(Mass::Text)) => masses.push(Mass::Text),
        (last, before) => put_back(masses, before, last),
    }
}

fn note(masses: &mut Stack<Mass>) -> Result<(), Memory>
    ensures { OnOk result (masses.new ≡ noted_mass masses.old) }
{
    match (masses.pop(), masses.pop()) {
        (Some(Mass::Tree(node)), Some(Mass::Comments)) => masses.push(Mass::Tree(node)),
        (last, before) => put_back(masses, before, last),
    }
}

/// How high the highest value is.
#[tactic(auto, using(crate::proofs::Higher::higher_all))]
pub fn highest(mut masses: Stack<Mass>) -> Height
    ensures { result ≡ highest masses }
{
    let mut height = FLAT;
    while let Some(mass) = masses.pop() {
        height = higher(height, height_in(mass));
    }
    height
}

/// What the rule needs.
pub fn need(rule: Rule) -> Need
    ensures { need_now result ≡ need_of rule }
{
    match entry(rule) {
        None => (&[], None, (0, 0), (0, 0), 0, 0),
        Some(entry) => entry.4,
    }
}

fn height_by(pair: (u8, u8)) -> Height
    ensures { result ≡ record { nodes = pair.0; steps = pair.1 } }
{
    Height {
        nodes: pair.0,
        steps: pair.1,
    }
}

// The part is read by its least row.
fn make(masses: &mut Stack<Mass>, need: Need) -> Result<(), Memory>
    ensures { OnOk result (masses.new ≡ needed_mass (need_now need.entry) masses.old) }
{
    let (found, leaves, own, owed, _, _) = need;
    let height = take_highest(masses, found.len());
    match leaves {
        None => Ok(()),
        Some(Sort::Text) => masses.push(Mass::Text),
        Some(Sort::Tree) => masses.push(Mass::Tree(higher(
            height_by(own),
            raised(height, height_by(owed)),
        ))),
    }
}

/// What the values are after the symbol: a part is read by its least row.
pub fn rise(masses: &mut Stack<Mass>, symbol: Symbol) -> Result<(), Memory>
    ensures { OnOk result (masses.new ≡ rise symbol masses.old) }
{
    match symbol {
        Symbol::Keep(_) | Symbol::Say(_) | Symbol::Recall(_) => masses.push(Mass::Text),
        Symbol::Part(rule) => make(masses, need(rule)),
        Symbol::Build(kind, count) => build(masses, kind, count as usize),
        Symbol::Join => join(masses),
        Symbol::Paste(_) => paste(masses),
        Symbol::Notes => masses.push(Mass::Comments),
        Symbol::Noted => note(masses),
        _ => Ok(()),
    }
}

/// How many parentheses are open after the symbol, where so many are before it.
pub fn open_behind(count: usize, symbol: Symbol) -> usize
    requires { count < 2 ^ 64 - 1 }
    ensures { result ≡ open_behind count symbol }
{
    match symbol {
        Symbol::Take(set) | Symbol::Keep(set) => match set {
            Tokens::Mark(Mark::Open) => count + 1,
            Tokens::Mark(Mark::Close) => count.saturating_sub(1),
            _ => count,
        },
        Symbol::Part(rule) => count.saturating_sub(usize::from(need(rule).5)),
        _ => count,
    }
}

/// How many are open at once while it is read, at least.
pub fn open_within(count: usize, symbol: Symbol) -> usize
    requires { count < 2 ^ 63 }
    ensures { result ≡ open_within count symbol }
{
    match symbol {
        Symbol::Part(rule) => count + usize::from(need(rule).4),
        _ => count,
    }
}
