// The predefined names.
use ada_tree::Kind;

/// The names that are declared round everything, in the order of their numbers, each with the kind of
/// a declaration like its own.
pub const PREDEFINED: [(&str, Kind); 9] = [
    ("INTEGER", Kind::TypeDecl),
    ("NATURAL", Kind::Subtype),
    ("POSITIVE", Kind::Subtype),
    ("BOOLEAN", Kind::TypeDecl),
    ("FALSE", Kind::Enum),
    ("TRUE", Kind::Enum),
    ("CONSTRAINT_ERROR", Kind::Exc),
    ("NUMERIC_ERROR", Kind::Exc),
    ("PROGRAM_ERROR", Kind::Exc),
];
