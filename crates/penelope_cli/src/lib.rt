//! What `penelope` does: its commands, over any shelf of files and any sink.
#![tactic(auto)]

mod check;
mod document;
mod fault;
mod fresh;
mod gets;
mod items;
mod obligations;
mod print;
mod report;
mod tell;
mod top;
mod words;
mod write;

pub use top::penelope;
