// What is round a node, and round its kids.
ghost use Rattle.std.specs.Prelude.{◌≡◌, [], IfOk};
ghost use Rattle.ada_names.specs.Collecting as spec;
ghost use Rattle.ada_names.specs.Mirrors.{around_of};

use crate::places::kid;
use ada_tree::Kind;
use base_kit::{Copied, Memory, Path};
use std::alloc::Global;

/// What is round a node: the regions, the subprogram and the declaration that it stands in.
#[derive(Clone, Copy)]
pub struct Around<'a> {
    /// The innermost region.
    pub region: &'a Path,
    /// The innermost subprogram, and the empty path where there is none.
    pub within: &'a Path,
    /// The kind of the innermost declaration or clause, and its node.
    pub kind: Kind,
    pub until: &'a Path,
    /// The region and the subprogram round the innermost subprogram.
    pub outer_region: &'a Path,
    pub outer_within: &'a Path,
}

impl<'a> Around<'a> {
    /// What is round a document.
    pub fn outermost(nowhere: &'a Path) -> Around<'a>
        requires { nowhere.now ≡ [] }
        ensures { around_of result ≡ spec.outermost }
    {
        Around {
            region: nowhere,
            within: nowhere,
            kind: Kind::Doc,
            until: nowhere,
            outer_region: nowhere,
            outer_within: nowhere,
        }
    }

    /// The same, for a shorter time.
    pub fn again<'b>(&self) -> Around<'b>
    where
        'a: 'b,
        ensures { around_of result ≡ around_of self.now }
    {
        Around {
            region: self.region,
            within: self.within,
            kind: self.kind,
            until: self.until,
            outer_region: self.outer_region,
            outer_within: self.outer_within,
        }
    }

    // A region begins.
    fn in_region(&self, region: &'a Path) -> Around<'a>
        ensures { around_of result ≡ record (around_of self.now) { region = region.now } }
    {
        Around {
            region,
            within: self.within,
            kind: self.kind,
            until: self.until,
            outer_region: self.outer_region,
            outer_within: self.outer_within,
        }
    }

    // A declaration, or a clause, begins.
    fn in_declaration(&self, kind: Kind, at: &'a Path) -> Around<'a>
        ensures { around_of result ≡ spec.declaration_at kind at.now (around_of self.now) }
    {
        Around {
            region: self.region,
            within: self.within,
            kind,
            until: at,
            outer_region: self.outer_region,
            outer_within: self.outer_within,
        }
    }

    // A subprogram begins.
    fn in_subprogram(&self, kind: Kind, at: &'a Path) -> Around<'a>
        ensures { around_of result ≡ spec.subprogram_at kind at.now (around_of self.now) }
    {
        Around {
            region: at,
            within: at,
            kind,
            until: self.until,
            outer_region: self.region,
            outer_within: self.within,
        }
    }

    // What stands before a dot.
    fn in_prefix(&self, at: &'a Path) -> Around<'a>
        ensures { around_of result ≡ spec.in_prefix self.now.kind at.now (around_of self.now) }
    {
        match self.kind {
            Kind::Global | Kind::RaiseC => self.in_declaration(Kind::Select, at),
            _ => *self,
        }
    }

    // The literals of an enumeration follow; they end with their type.
    fn in_enumeration(&self) -> Around<'a>
        ensures { around_of result ≡ record (around_of self.now) { kind = Kind.Enum } }
    {
        self.in_declaration(Kind::Enum, self.until)
    }
}

// The region of the names in a trait's part of this number.
fn region_in_trait(alloc: Global, at: &Path, number: usize) -> Result<Path, Memory>
    ensures { IfOk result (λ path. path ≡ spec.region_in_trait at.now number) }
{
    if number == 3 {
        return kid(alloc, at, 4);
    }
    if number == 5 {
        return kid(alloc, at, 6);
    }
    at.copy(alloc)
}

/// The region of what stands in the kid of this number, where one begins at the node.
pub fn region_in(
    alloc: Global,
    kind: Kind,
    home: &Path,
    at: &Path,
    number: usize,
) -> Result<Path, Memory>
    ensures { IfOk result (λ path. path ≡ spec.region_in kind home.now at.now number) }
{
    match kind {
        Kind::Pack | Kind::Body => home.copy(alloc),
        Kind::Trait => region_in_trait(alloc, at, number),
        _ => at.copy(alloc),
    }
}

/// What is round the kid of this number.
pub fn inside<'b>(
    kind: Kind,
    region: &'b Path,
    at: &'b Path,
    number: usize,
    around: &Around<'b>,
) -> Around<'b>
    ensures { around_of result ≡ spec.inside kind region.now at.now number (around_of around.now) }
{
    match kind {
        Kind::Unit if number == 0 => around.in_region(region),
        Kind::Pack
        | Kind::Body
        | Kind::Block
        | Kind::Loop
        | Kind::Rec
        | Kind::Trait
        | Kind::Where => around.in_region(region),
        Kind::SubDecl | Kind::SubBody => around.in_subprogram(kind, at),
        Kind::With
        | Kind::Use
        | Kind::Formal
        | Kind::Obj
        | Kind::Const
        | Kind::Num
        | Kind::Exc
        | Kind::Comp
        | Kind::Vars
        | Kind::TypeDecl
        | Kind::Global => around.in_declaration(kind, at),
        Kind::RaiseC if number == 0 => around.in_declaration(kind, at),
        Kind::Enum => around.in_enumeration(),
        Kind::Select => around.in_prefix(at),
        _ => *around,
    }
}
