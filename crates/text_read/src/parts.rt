// The parts of the grammar that are read from tokens on: annotations, traits, proofs and terms.
use ada_tree::{Kind, Part, Rule};

pub const WHERE: Part = Part {
    rule: Rule::Of(Kind::Where),
    note: false,
};

pub const BASED: Part = Part {
    rule: Rule::Of(Kind::Based),
    note: false,
};

pub const VIEW: Part = Part {
    rule: Rule::Of(Kind::View),
    note: false,
};

pub const INVARIANT: Part = Part {
    rule: Rule::Of(Kind::Invariant),
    note: false,
};

pub const ASSERT: Part = Part {
    rule: Rule::Of(Kind::Assert),
    note: false,
};

pub const TRAIT: Part = Part {
    rule: Rule::Of(Kind::Trait),
    note: false,
};

pub const PROOF: Part = Part {
    rule: Rule::Of(Kind::Proof),
    note: false,
};

pub const ORPHAN: Part = Part {
    rule: Rule::Of(Kind::Orphan),
    note: false,
};

pub const TERM: Part = Part {
    rule: Rule::AnyTerm,
    note: true,
};

/// The annotations of units, declarations and statements.
pub const NOTES: [Part; 5] = [WHERE, BASED, VIEW, INVARIANT, ASSERT];

/// Proofs, and those whose obligation is gone.
pub const PROOFS: [Part; 2] = [PROOF, ORPHAN];
