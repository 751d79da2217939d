//! Tests of tokens, trees and their texts: of `lex_ada`, `ada_tree` and `tree_write`. What no clause says of them, as
//! that each call can succeed with ample memory.
#![tactic(auto)]

#[cfg(test)]
mod tokens;
#[cfg(test)]
mod trees;
#[cfg(test)]
mod writing;
