// The facts that hypotheses and the negated goal give.
ghost use Rattle.std.specs.Prelude.{◌≡◌};
ghost use Rattle.linear_facts.specs.Facts.{denied, comparison, bound, is_number_sort, gives_no_number, may_be_number, equation, fact_of, against, hypothesis_at, fact_at, is_equation, left_of, right_of, extra_of};
ghost use Rattle.linear_facts.specs.Views.{fact_behind, found};
ghost use Rattle.term_core.specs.declared.sort.Sort.TheViews.{out-Sort};

use base_kit::Text;
use term_core::{Oper, Sequent, Sort, Term, Var, same_text};

/// A fact has a form d, and says that d <= 0 or that d = 0.
#[derive(Clone, Copy)]
pub enum Fact<'a> {
    /// a <= b: a - b <= 0.
    AtMost(&'a Term, &'a Term),
    /// a < b: a - b + 1 <= 0.
    Below(&'a Term, &'a Term),
    /// a = b: a - b = 0.
    Equal(&'a Term, &'a Term),
}

impl<'a> Fact<'a> {
    // not (a <= b) is b < a, and not (a < b) is b <= a.
    fn denied(self) -> Option<Fact<'a>>
        ensures { found result ≡ denied (fact_behind self.entry) }
    {
        match self {
            Fact::AtMost(a, b) => Some(Fact::Below(b, a)),
            Fact::Below(a, b) => Some(Fact::AtMost(b, a)),
            Fact::Equal(_, _) => None,
        }
    }

    pub fn left(self) -> &'a Term
        ensures { result.now ≡ left_of (fact_behind self.entry) }
    {
        match self {
            Fact::AtMost(a, _) => a,
            Fact::Below(a, _) => a,
            Fact::Equal(a, _) => a,
        }
    }

    pub fn right(self) -> &'a Term
        ensures { result.now ≡ right_of (fact_behind self.entry) }
    {
        match self {
            Fact::AtMost(_, b) => b,
            Fact::Below(_, b) => b,
            Fact::Equal(_, b) => b,
        }
    }

    /// What d has besides the difference.
    pub fn extra(self) -> i64
        ensures { result ≡ extra_of (fact_behind self.entry) }
    {
        match self {
            Fact::Below(_, _) => 1,
            _ => 0,
        }
    }

    pub fn is_equation(self) -> bool
        ensures { result ≡ is_equation (fact_behind self.entry) }
    {
        matches!(self, Fact::Equal(_, _))
    }
}

// Of a <= b, b >= a, a < b, b > a.
fn comparison<'a>(term: &'a Term) -> Option<Fact<'a>>
    ensures { found result ≡ comparison term.now }
{
    match term {
        Term::Op(oper, terms) => match (*oper, terms.as_slice()) {
            (Oper::Le, [a, b]) => Some(Fact::AtMost(a, b)),
            (Oper::Ge, [b, a]) => Some(Fact::AtMost(a, b)),
            (Oper::Lt, [a, b]) => Some(Fact::Below(a, b)),
            (Oper::Gt, [b, a]) => Some(Fact::Below(a, b)),
            _ => None,
        },
        _ => None,
    }
}

// Of a comparison, and of `not` over one.
fn bound<'a>(term: &'a Term) -> Option<Fact<'a>>
    ensures { found result ≡ bound term.now }
{
    match term {
        Term::Op(oper, terms) => match (*oper, terms.as_slice()) {
            (Oper::Not, [inner]) => comparison(inner)?.denied(),
            _ => comparison(term),
        },
        _ => None,
    }
}

fn is_number_sort(sort: &Sort) -> bool
    ensures { result ≡ is_number_sort (out-Sort sort.now) }
{
    match sort {
        Sort::Whole => true,
        Sort::Range(_, _) => true,
        _ => false,
    }
}

// Of equal names the first one counts.
fn is_number_variable(vars: &[Var], name: &Text) -> bool
    ensures { result ≡ Rattle.linear_facts.specs.Facts.is_number_variable vars.now name.now }
{
    for var in vars {
        if same_text(&var.name, name) {
            return is_number_sort(&var.sort);
        }
    }
    false
}

fn gives_no_number(oper: Oper) -> bool
    ensures { result ≡ gives_no_number oper }
{
    match oper {
        Oper::Eq | Oper::Lt | Oper::Le | Oper::Gt | Oper::Ge => true,
        Oper::And | Oper::Or | Oper::Xor | Oper::Not | Oper::Implies | Oper::Iff => true,
        Oper::Store | Oper::Update(_) | Oper::Fill(_) | Oper::Make(_) => true,
        _ => false,
    }
}

fn may_be_number(vars: &[Var], term: &Term) -> bool
    ensures { result ≡ may_be_number vars.now term.now }
{
    match term {
        Term::Int(_) => true,
        Term::Var(name) => is_number_variable(vars, name),
        Term::Op(oper, _) => !gives_no_number(*oper),
        _ => false,
    }
}

// Of a = b, both of which may be numbers.
fn equation<'a>(vars: &[Var], term: &'a Term) -> Option<Fact<'a>>
    ensures { found result ≡ equation vars.now term.now }
{
    match term {
        Term::Op(oper, terms) => match (*oper, terms.as_slice()) {
            (Oper::Eq, [a, b]) => {
                if may_be_number(vars, a) && may_be_number(vars, b) {
                    Some(Fact::Equal(a, b))
                } else {
                    None
                }
            }
            _ => None,
        },
        _ => None,
    }
}

fn hypothesis_fact<'a>(vars: &[Var], term: &'a Term) -> Option<Fact<'a>>
    ensures { found result ≡ fact_of vars.now term.now }
{
    match bound(term) {
        Some(fact) => Some(fact),
        None => equation(vars, term),
    }
}

fn against<'a>(goal: &'a Term) -> Option<Fact<'a>>
    ensures { found result ≡ against goal.now }
{
    bound(goal)?.denied()
}

// That of the hypothesis of this index.
fn hypothesis_at<'a>(sequent: &'a Sequent, index: usize) -> Option<Fact<'a>>
    ensures { found result ≡ hypothesis_at sequent.now index }
{
    match sequent.hyps.get(index) {
        Some(term) => hypothesis_fact(sequent.vars.as_slice(), term),
        None => None,
    }
}

/// The fact that the coefficient of this index weighs.
pub fn fact_at<'a>(sequent: &'a Sequent, index: usize) -> Option<Fact<'a>>
    ensures { found result ≡ fact_at sequent.now index }
{
    match index.checked_sub(1) {
        None => against(&sequent.goal),
        Some(before) => hypothesis_at(sequent, before),
    }
}
