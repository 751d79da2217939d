// How terms are taken apart into sums.
ghost use Rattle.std.specs.Prelude.{◌≡◌};
ghost use Rattle.linear_facts.specs.Forms.{literal_of, product_of, shape_of};
ghost use Rattle.linear_facts.specs.Views.{shape_behind};

use term_core::{Oper, Term};

/// What a term is taken apart into.
#[derive(Clone, Copy)]
pub enum Shape<'a> {
    Literal(i128),
    Sum(&'a Term, &'a Term),
    Difference(&'a Term, &'a Term),
    Opposite(&'a Term),
    /// A literal times a term.
    Multiple(i128, &'a Term),
    /// A term that isn't taken apart.
    Atom,
}

fn literal(term: &Term) -> Option<i128>
    ensures { result ≡ literal_of term.now }
{
    match term {
        Term::Int(value) => Some(*value),
        _ => None,
    }
}

fn product<'a>(left: &'a Term, right: &'a Term) -> Shape<'a>
    ensures { shape_behind result ≡ product_of left.now right.now }
{
    match literal(left) {
        Some(value) => Shape::Multiple(value, right),
        None => match literal(right) {
            Some(value) => Shape::Multiple(value, left),
            None => Shape::Atom,
        },
    }
}

pub fn shape_of<'a>(term: &'a Term) -> Shape<'a>
    ensures { shape_behind result ≡ shape_of term.now }
{
    match term {
        Term::Int(value) => Shape::Literal(*value),
        Term::Op(oper, terms) => match (*oper, terms.as_slice()) {
            (Oper::Add, [left, right]) => Shape::Sum(left, right),
            (Oper::Sub, [left, right]) => Shape::Difference(left, right),
            (Oper::Neg, [inner]) => Shape::Opposite(inner),
            (Oper::Mul, [left, right]) => product(left, right),
            _ => Shape::Atom,
        },
        _ => Shape::Atom,
    }
}
