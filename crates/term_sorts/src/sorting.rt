// The sort of a term.
ghost use Rattle.std.specs.Prelude.{◌≡◌, List, ℕ, ◌∷◌, [], ◌++◌, ◌&&◌, map, find, IfOk, OnOk, unwrap_or};
ghost use Rattle.std.specs.List.{list_all};
ghost use Rattle.std.specs.Option.{option_copied, option_map};
ghost use Rattle.term_core.specs.Names.{has};
ghost use Rattle.term_core.specs.Options.{all_some};
ghost use Rattle.term_core.specs.Opers.{same_operator};
ghost use Rattle.term_core.specs.Sorts.{plain, same_sort, each_same};
ghost use Rattle.term_core.specs.Validity.{sort_in};
ghost use Rattle.term_core.specs.declared.sort.Sort.TheViews.{out-Sort};
ghost use Rattle.term_sorts.specs.Sorting.{basic_sort, usual_of, usual_sort, equal_sort, if_sort, select_sort, store_sort, listed_sort, other_sort, element_of, is_element, result_sort, quantifier_sort, is_sort, scope_of, within, sorts_each, sort_with, sort_of_term};

use base_kit::{Copied, Listed, Memory, Text};
use sqlite_items::{Boxed, Items};
use std::alloc::Global;
use term_core::{
    Oper, Sort, Sorts, Term, Terms, Var, Vars, equal_sort_lists, equal_sorts, has_name, same_oper,
    same_text,
};

/// The sorts of operands and of the result of an operator of a trait, or of a type.
#[derive(Drop)]
pub struct OpSort {
    pub oper: Oper,
    pub args: Sorts,
    pub result: Sort,
}

impl Copied for OpSort {
    fn copy(&self, alloc: Global) -> Result<Self, Memory> {
        Ok(OpSort {
            oper: self.oper,
            args: self.args.copy(alloc)?,
            result: self.result.copy(alloc)?,
        })
    }
}

/// One entry for each operator `User`, `Field`, `Update`, `Fill` and `Make`; the first one of an
/// operator counts.
pub type OpSorts = Listed<OpSort>;

/// A sort that has no parts.
#[derive(Clone, Copy)]
enum Basic {
    Number,
    TruthValue,
}

/// So many operands of one basic sort, and a result of one.
#[derive(Clone, Copy)]
struct Usual {
    count: usize,
    operand: Basic,
    result: Basic,
}

// The operators of numbers and of truth values.
fn usual_sorts(oper: Oper) -> Option<Usual>
    ensures { result ≡ usual_of oper }
{
    match oper {
        Oper::Add | Oper::Sub | Oper::Mul | Oper::Div | Oper::Rem | Oper::Mod => Some(Usual {
            count: 2,
            operand: Basic::Number,
            result: Basic::Number,
        }),
        Oper::Neg | Oper::Abs => Some(Usual {
            count: 1,
            operand: Basic::Number,
            result: Basic::Number,
        }),
        Oper::Lt | Oper::Le | Oper::Gt | Oper::Ge => Some(Usual {
            count: 2,
            operand: Basic::Number,
            result: Basic::TruthValue,
        }),
        Oper::And | Oper::Or | Oper::Xor | Oper::Implies | Oper::Iff => Some(Usual {
            count: 2,
            operand: Basic::TruthValue,
            result: Basic::TruthValue,
        }),
        Oper::Not => Some(Usual {
            count: 1,
            operand: Basic::TruthValue,
            result: Basic::TruthValue,
        }),
        _ => None,
    }
}

fn basic_of(sort: Basic) -> Sort
    ensures { result ≡ basic_sort sort }
{
    match sort {
        Basic::Number => Sort::Whole,
        Basic::TruthValue => Sort::Truth,
    }
}

fn is_same_sort(a: &Sort, b: &Sort) -> bool
    ensures { result ≡ same_sort a.now b.now }
{
    equal_sorts(a, b)
}

#[cycle(plain)]
#[tactic(auto, unfolding(term_core::specs::Sorts::plain))]
fn plain_of(alloc: Global, sort: &Sort) -> Result<Sort, Memory>
    ensures { IfOk result (λ made. made ≡ plain sort.now) }
{
    Ok(match sort {
        Sort::Whole => Sort::Whole,
        Sort::Range(_, _) => Sort::Whole,
        Sort::Truth => Sort::Truth,
        Sort::Array(low, high, element) => {
            Sort::Array(
                *low,
                *high,
                Boxed::new(alloc, plain_of(alloc, element.get())?)?,
            )
        }
        Sort::Record(number, parts) => {
            Sort::Record(*number, plain_parts(alloc, parts.as_slice())?)
        }
        Sort::Free(number) => Sort::Free(*number),
    })
}

#[cycle(plain)]
fn plain_parts(alloc: Global, parts: &[Sort]) -> Result<Sorts, Memory>
    ensures { IfOk result (λ made. made ≡ map plain parts.now) }
{
    let mut sorts = Items::new(alloc);
    for sort in parts {
        sorts.push(plain_of(alloc, sort)?)?;
    }
    Ok(sorts)
}

fn are_same_sorts(xs: &[Sort], ys: &[Sort]) -> bool
    ensures { result ≡ each_same (map same_sort xs.now) ys.now }
{
    equal_sort_lists(xs, ys)
}

fn are_all(sort: &Sort, others: &[Sort]) -> bool
    ensures { result ≡ list_all (same_sort sort.now) others.now }
{
    for other in others {
        if !is_same_sort(sort, other) {
            return false;
        }
    }
    true
}

// What operators of numbers and truth values give.
fn usual_result(usual: Usual, sorts: &[Sort]) -> Option<Sort>
    ensures { result ≡ usual_sort usual sorts.now }
{
    let operand = basic_of(usual.operand);
    if sorts.len() == usual.count && are_all(&operand, sorts) {
        Some(basic_of(usual.result))
    } else {
        None
    }
}

fn equal_result(sorts: &[Sort]) -> Option<Sort>
    ensures { result ≡ equal_sort sorts.now }
{
    match sorts {
        [a, b] => {
            if is_same_sort(a, b) {
                Some(Sort::Truth)
            } else {
                None
            }
        }
        _ => None,
    }
}

fn if_result(alloc: Global, sorts: &[Sort]) -> Result<Option<Sort>, Memory>
    ensures { IfOk result (λ sort. sort ≡ if_sort sorts.now) }
{
    match sorts {
        [condition, a, b] => {
            if is_same_sort(&Sort::Truth, condition) && is_same_sort(a, b) {
                Ok(Some(a.copy(alloc)?))
            } else {
                Ok(None)
            }
        }
        _ => Ok(None),
    }
}

fn element_in(alloc: Global, list: &Sort) -> Result<Option<Sort>, Memory>
    ensures { IfOk result (λ sort. sort ≡ element_of (out-Sort list.now)) }
{
    match list {
        Sort::Array(_, _, element) => Ok(Some(element.get().copy(alloc)?)),
        _ => Ok(None),
    }
}

fn has_element(list: &Sort, sort: &Sort) -> bool
    ensures { result ≡ is_element (out-Sort list.now) sort.now }
{
    match list {
        Sort::Array(_, _, element) => is_same_sort(element.get(), sort),
        _ => false,
    }
}

fn select_result(alloc: Global, sorts: &[Sort]) -> Result<Option<Sort>, Memory>
    ensures { IfOk result (λ sort. sort ≡ select_sort sorts.now) }
{
    match sorts {
        [list, index] => {
            if is_same_sort(&Sort::Whole, index) {
                element_in(alloc, list)
            } else {
                Ok(None)
            }
        }
        _ => Ok(None),
    }
}

fn store_result(alloc: Global, sorts: &[Sort]) -> Result<Option<Sort>, Memory>
    ensures { IfOk result (λ sort. sort ≡ store_sort sorts.now) }
{
    match sorts {
        [list, index, element] => {
            if is_same_sort(&Sort::Whole, index) && has_element(list, element) {
                Ok(Some(list.copy(alloc)?))
            } else {
                Ok(None)
            }
        }
        _ => Ok(None),
    }
}

// The first entry of the operator.
fn entry_of(ops: &[OpSort], oper: Oper) -> Option<&OpSort>
    ensures { option_copied result ≡ find (λ entry. same_operator entry.oper oper) ops.now }
{
    for entry in ops {
        if same_oper(entry.oper, oper) {
            return Some(entry);
        }
    }
    None
}

fn listed_result(
    alloc: Global,
    entry: Option<&OpSort>,
    sorts: &[Sort],
) -> Result<Option<Sort>, Memory>
    ensures { IfOk result (λ sort. sort ≡ listed_sort (option_copied entry.entry) sorts.now) }
{
    let Some(entry) = entry else { return Ok(None) };
    let args = plain_parts(alloc, entry.args.as_slice())?;
    if are_same_sorts(args.as_slice(), sorts) {
        Ok(Some(plain_of(alloc, &entry.result)?))
    } else {
        Ok(None)
    }
}

fn other_result(
    alloc: Global,
    ops: &[OpSort],
    oper: Oper,
    sorts: &[Sort],
) -> Result<Option<Sort>, Memory>
    ensures { IfOk result (λ sort. sort ≡ other_sort ops.now oper sorts.now) }
{
    match oper {
        Oper::Eq => Ok(equal_result(sorts)),
        Oper::If => if_result(alloc, sorts),
        Oper::Select => select_result(alloc, sorts),
        Oper::Store => store_result(alloc, sorts),
        _ => listed_result(alloc, entry_of(ops, oper), sorts),
    }
}

// The sort that an operator gives, from those of its operands.
#[tactic(auto, unfolding(crate::specs::Sorting::result_sort))]
fn result_of(
    alloc: Global,
    ops: &[OpSort],
    oper: Oper,
    sorts: &[Sort],
) -> Result<Option<Sort>, Memory>
    ensures { IfOk result (λ sort. sort ≡ result_sort ops.now oper sorts.now) }
{
    match usual_sorts(oper) {
        Some(usual) => Ok(usual_result(usual, sorts)),
        None => other_result(alloc, ops, oper, sorts),
    }
}

// ---- terms

// The sort of a variable without ranges: of equal names the first counts.
fn variable_sort(alloc: Global, vars: &[Var], name: &Text) -> Result<Option<Sort>, Memory>
    ensures { IfOk result (λ sort. sort ≡ scope_of vars.now name.now) }
{
    for var in vars {
        if same_text(&var.name, name) {
            return Ok(Some(plain_of(alloc, &var.sort)?));
        }
    }
    Ok(None)
}

// Whether there is a sort, and it is this one.
fn is_the_sort(wanted: &Sort, sort: &Option<Sort>) -> bool
    ensures { result ≡ is_sort wanted.now sort.now }
{
    match sort {
        Some(sort) => is_same_sort(wanted, sort),
        None => false,
    }
}

// The sort of a quantifier, from those of its bounds and of its body.
fn quantifier_result(low: Option<Sort>, high: Option<Sort>, body: Option<Sort>) -> Option<Sort>
    ensures { result ≡ quantifier_sort low high body }
{
    if is_the_sort(&Sort::Whole, &low)
        && is_the_sort(&Sort::Whole, &high)
        && is_the_sort(&Sort::Truth, &body)
    {
        Some(Sort::Truth)
    } else {
        None
    }
}

// The sort of a name within quantifiers.
fn name_sort(
    alloc: Global,
    vars: &[Var],
    bound: &[Text],
    name: &Text,
) -> Result<Option<Sort>, Memory>
    ensures { IfOk result (λ sort. sort ≡ within (scope_of vars.now) bound.now name.now) }
{
    if has_name(bound, name) {
        Ok(Some(Sort::Whole))
    } else {
        variable_sort(alloc, vars, name)
    }
}

fn open_bound(alloc: Global, bound: &mut Vec<Text>, name: &Text) -> Result<(), Memory>
    ensures { OnOk result (bound.new.items ≡ bound.old.items ++ name.now ∷ []) }
{
    bound.push(name.copy(alloc)?)?;
    Ok(())
}

fn close_bound(bound: &mut Vec<Text>)
    ensures { (names : List (List ℕ)) → (name : List ℕ) → bound.old.items ≡ names ++ name ∷ [] → bound.new.items ≡ names }
{
    let _ = bound.pop();
}

#[cycle(sort)]
fn operand_sorts(
    alloc: Global,
    terms: &[Term],
    vars: &[Var],
    bound: &mut Vec<Text>,
    ops: &[OpSort],
) -> Result<Option<Sorts>, Memory>
    ensures sorts { IfOk result (λ sorts. sorts ≡ all_some (sorts_each ops.now (within (scope_of vars.now) bound.old.items) terms.now)) }
    ensures kept { OnOk result (bound.new.items ≡ bound.old.items) }
{
    let mut sorts = Items::new(alloc);
    for term in terms {
        match sort_within(alloc, term, vars, bound, ops)? {
            Some(sort) => sorts.push(sort)?,
            None => return Ok(None),
        }
    }
    Ok(Some(sorts))
}

// The sort of a term within quantifiers over these names, the innermost last.
#[cycle(sort)]
fn sort_within(
    alloc: Global,
    term: &Term,
    vars: &[Var],
    bound: &mut Vec<Text>,
    ops: &[OpSort],
) -> Result<Option<Sort>, Memory>
    ensures sort { IfOk result (λ sort. sort ≡ sort_with ops.now term.now (within (scope_of vars.now) bound.old.items)) }
    ensures kept { OnOk result (bound.new.items ≡ bound.old.items) }
{
    match term {
        Term::Int(_) => Ok(Some(Sort::Whole)),
        Term::Truth(_) => Ok(Some(Sort::Truth)),
        Term::Var(name) => name_sort(alloc, vars, bound.as_slice(), name),
        Term::Op(oper, terms) => {
            match operand_sorts(alloc, terms.as_slice(), vars, bound, ops)? {
                Some(sorts) => result_of(alloc, ops, *oper, sorts.as_slice()),
                None => Ok(None),
            }
        }
        Term::All(name, low, high, body) => {
            let low = sort_within(alloc, low.get(), vars, bound, ops)?;
            let high = sort_within(alloc, high.get(), vars, bound, ops)?;
            open_bound(alloc, bound, name)?;
            let body = sort_within(alloc, body.get(), vars, bound, ops)?;
            close_bound(bound);
            Ok(quantifier_result(low, high, body))
        }
        Term::Some(name, low, high, body) => {
            let low = sort_within(alloc, low.get(), vars, bound, ops)?;
            let high = sort_within(alloc, high.get(), vars, bound, ops)?;
            open_bound(alloc, bound, name)?;
            let body = sort_within(alloc, body.get(), vars, bound, ops)?;
            close_bound(bound);
            Ok(quantifier_result(low, high, body))
        }
    }
}

/// The sort of the term over these variables, with Whole for every range; None exactly where the
/// term is ill sorted.
pub fn sort_of(
    alloc: Global,
    term: &Term,
    vars: &Vars,
    ops: &OpSorts,
) -> Result<Option<Sort>, Memory>
    ensures { IfOk result (λ sort. sort ≡ sort_of_term ops.now vars.now term.now) }
{
    sort_within(
        alloc,
        term,
        vars.as_slice(),
        &mut Vec::new(alloc),
        ops.as_slice(),
    )
}
