// Whether two terms, or two sorts, are the same, as they are written.
ghost use Rattle.std.specs.Prelude.{◌≡◌, ◌↔◌, IsTrue, bytes_eq};
ghost use Rattle.term_core.specs.Opers.{number_of, same_operator};

use crate::{Oper, Sort, Term};
use base_kit::Text;

/// Whether two names are the same.
pub fn same_text(a: &Text, b: &Text) -> bool
    ensures same { IsTrue result ↔ (a.now ≡ b.now) }
    ensures test { result ≡ bytes_eq a.now b.now }
{
    a.as_bytes() == b.as_bytes()
}

/// The place of an operator among the kinds of operators, and the number that it holds, 0 where it
/// holds none. (The check of a derived `==` ends at a limit of steps.)
pub fn oper_number(oper: Oper) -> (u8, u32)
    ensures { result ≡ number_of oper }
{
    match oper {
        Oper::Add => (0, 0),
        Oper::Sub => (1, 0),
        Oper::Mul => (2, 0),
        Oper::Div => (3, 0),
        Oper::Rem => (4, 0),
        Oper::Mod => (5, 0),
        Oper::Neg => (6, 0),
        Oper::Abs => (7, 0),
        Oper::Eq => (8, 0),
        Oper::Lt => (9, 0),
        Oper::Le => (10, 0),
        Oper::Gt => (11, 0),
        Oper::Ge => (12, 0),
        Oper::And => (13, 0),
        Oper::Or => (14, 0),
        Oper::Xor => (15, 0),
        Oper::Not => (16, 0),
        Oper::Implies => (17, 0),
        Oper::Iff => (18, 0),
        Oper::If => (19, 0),
        Oper::Select => (20, 0),
        Oper::Store => (21, 0),
        Oper::Field(number) => (22, number),
        Oper::Update(number) => (23, number),
        Oper::Fill(number) => (24, number),
        Oper::Make(number) => (25, number),
        Oper::User(number) => (26, number),
    }
}

/// Whether two operators are the same, with what they hold.
pub fn same_oper(a: Oper, b: Oper) -> bool
    ensures same { IsTrue result ↔ (a ≡ b) }
    ensures test { result ≡ same_operator a b }
{
    let (kind, held) = oper_number(a);
    let (other_kind, other_held) = oper_number(b);
    kind == other_kind && held == other_held
}

/// Whether two lists of terms are the same, as `equal` says it. It takes no memory.
#[cycle(equal)]
pub fn equal_all(xs: &[Term], ys: &[Term]) -> bool
    ensures { IsTrue result ↔ (xs.now ≡ ys.now) }
{
    if xs.len() != ys.len() {
        return false;
    }
    for (i, x) in xs.iter().enumerate() {
        if !equal(x, &ys[i]) {
            return false;
        }
    }
    true
}

/// Whether the terms are the same as written, bound names included. It takes no memory.
#[cycle(equal)]
pub fn equal(a: &Term, b: &Term) -> bool
    ensures { IsTrue result ↔ (a.now ≡ b.now) }
{
    match a {
        Term::Int(x) => match b {
            Term::Int(y) => *x == *y,
            _ => false,
        },
        Term::Truth(x) => match b {
            Term::Truth(y) => *x == *y,
            _ => false,
        },
        Term::Var(x) => match b {
            Term::Var(y) => same_text(x, y),
            _ => false,
        },
        Term::Op(f, xs) => match b {
            Term::Op(g, ys) => { same_oper(*f, *g) && equal_all(xs.as_slice(), ys.as_slice()) }
            _ => false,
        },
        Term::All(x, low, high, body) => match b {
            Term::All(y, low2, high2, body2) => {
                same_text(x, y)
                    && equal(low.get(), low2.get())
                    && equal(high.get(), high2.get())
                    && equal(body.get(), body2.get())
            }
            _ => false,
        },
        Term::Some(x, low, high, body) => match b {
            Term::Some(y, low2, high2, body2) => {
                same_text(x, y)
                    && equal(low.get(), low2.get())
                    && equal(high.get(), high2.get())
                    && equal(body.get(), body2.get())
            }
            _ => false,
        },
    }
}

/// Whether two lists of sorts are the same. It takes no memory.
#[cycle(equal_sorts)]
pub fn equal_sort_lists(xs: &[Sort], ys: &[Sort]) -> bool
    ensures { IsTrue result ↔ (xs.now ≡ ys.now) }
{
    if xs.len() != ys.len() {
        return false;
    }
    for (i, x) in xs.iter().enumerate() {
        if !equal_sorts(x, &ys[i]) {
            return false;
        }
    }
    true
}

/// Whether two sorts are the same, ranges included. It takes no memory.
#[cycle(equal_sorts)]
pub fn equal_sorts(a: &Sort, b: &Sort) -> bool
    ensures { IsTrue result ↔ (a.now ≡ b.now) }
{
    match a {
        Sort::Whole => match b {
            Sort::Whole => true,
            _ => false,
        },
        Sort::Range(low, high) => match b {
            Sort::Range(low2, high2) => *low == *low2 && *high == *high2,
            _ => false,
        },
        Sort::Truth => match b {
            Sort::Truth => true,
            _ => false,
        },
        Sort::Array(low, high, element) => match b {
            Sort::Array(low2, high2, element2) => {
                *low == *low2 && *high == *high2 && equal_sorts(element.get(), element2.get())
            }
            _ => false,
        },
        Sort::Record(number, parts) => match b {
            Sort::Record(number2, parts2) => {
                *number == *number2 && equal_sort_lists(parts.as_slice(), parts2.as_slice())
            }
            _ => false,
        },
        Sort::Free(number) => match b {
            Sort::Free(number2) => *number == *number2,
            _ => false,
        },
    }
}
