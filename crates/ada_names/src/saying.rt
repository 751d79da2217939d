// What a node itself declares, binds or mentions.
ghost use Rattle.std.specs.Prelude.{◌≡◌, []};
ghost use Rattle.ada_names.specs.Collecting as spec;
ghost use Rattle.ada_names.specs.Mirrors.{around_of, saying_of};

use crate::around::Around;
use ada_tree::Kind;
use base_kit::Path;

/// A name, by the kind of its declaration or clause, its region, the node from whose end on it is
/// visible, and the subprogram round it.
#[derive(Clone, Copy)]
pub struct Saying<'a> {
    pub kind: Kind,
    pub region: &'a Path,
    pub from: &'a Path,
    pub within: &'a Path,
}

// A name in the innermost region, visible from the end of this node on.
fn until<'b>(kind: Kind, from: &'b Path, around: &Around<'b>) -> Option<Saying<'b>>
    ensures { saying_of result ≡ spec.says kind around.now.region.now from.now around.now.within.now }
{
    Some(Saying {
        kind,
        region: around.region,
        from,
        within: around.within,
    })
}

// A node of a mark, by the clause that is round it.
fn mark<'b>(kind: Kind, at: &'b Path, around: &Around<'b>) -> Option<Saying<'b>>
    ensures { saying_of result ≡ spec.mark_in around.now.kind kind at.now (around_of around.now) }
{
    match around.kind {
        Kind::Global => until(Kind::Global, at, around),
        Kind::RaiseC => until(Kind::Raise, at, around),
        Kind::Select => until(kind, at, around),
        _ => None,
    }
}

// A name in a clause.
#[tactic(auto, using(crate::proofs::Marks::other_clause))]
fn clause_name<'b>(at: &'b Path, around: &Around<'b>) -> Option<Saying<'b>>
    ensures { saying_of result ≡ spec.clause_name around.now.kind at.now (around_of around.now) }
{
    match around.kind {
        Kind::With | Kind::Use => until(around.kind, around.until, around),
        _ => mark(Kind::Name, at, around),
    }
}

// A subprogram's name, by its specification: it belongs to the region outside.
fn subprogram<'b>(at: &'b Path, around: &Around<'b>) -> Option<Saying<'b>>
    ensures { saying_of result ≡ spec.says around.now.kind around.now.outer_region.now at.now around.now.outer_within.now }
{
    Some(Saying {
        kind: around.kind,
        region: around.outer_region,
        from: at,
        within: around.outer_within,
    })
}

// A name with this region, and no subprogram round it.
fn apart<'b>(kind: Kind, region: &'b Path, from: &'b Path, nowhere: &'b Path) -> Option<Saying<'b>>
    ensures { saying_of result ≡ spec.says kind region.now from.now nowhere.now }
{
    Some(Saying {
        kind,
        region,
        from,
        within: nowhere,
    })
}

/// What the node at a path says. A name that is bound inside the node is visible from `bound` on.
pub fn saying_at<'b>(
    kind: Kind,
    at: &'b Path,
    bound: &'b Path,
    nowhere: &'b Path,
    around: &Around<'b>,
) -> Option<Saying<'b>>
    requires nowhere { nowhere.now ≡ [] }
    requires bound { bound.now ≡ spec.bound_from kind at.now }
    ensures { saying_of result ≡ spec.saying kind at.now (around_of around.now) }
{
    match kind {
        Kind::Id => until(around.kind, around.until, around),
        Kind::Name => clause_name(at, around),
        Kind::Select => mark(Kind::Select, at, around),
        Kind::Proc | Kind::Func => subprogram(at, around),
        Kind::Pack
        | Kind::Body
        | Kind::TypeDecl
        | Kind::Subtype
        | Kind::Private
        | Kind::For
        | Kind::Reverse
        | Kind::Lemma
        | Kind::Where => until(kind, at, around),
        Kind::Op
        | Kind::Trait
        | Kind::In
        | Kind::Out
        | Kind::RaiseC
        | Kind::Invariant
        | Kind::Assert
        | Kind::Eqn
        | Kind::Old => apart(kind, nowhere, at, nowhere),
        Kind::View | Kind::All | Kind::Exists => apart(kind, at, bound, nowhere),
        _ => None,
    }
}
