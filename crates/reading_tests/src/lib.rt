//! Tests of what is read, of the form and of what names mean: of `text_read`, `note_read`, `reading_table`, `one_path`,
//! `ada_names` and `scope_rules`, and of `tree_write` on what is read. What no clause says of them, as that each call can succeed with ample memory.
#![tactic(auto)]

#[cfg(test)]
mod cuts;
#[cfg(test)]
mod documents;
#[cfg(test)]
mod ends;
#[cfg(test)]
mod forms;
#[cfg(test)]
mod fronts;
#[cfg(test)]
mod limits;
#[cfg(test)]
mod names;
#[cfg(test)]
mod nests;
#[cfg(test)]
mod parts;
#[cfg(test)]
mod printed;
#[cfg(test)]
mod reading;
#[cfg(test)]
mod spellings;
#[cfg(test)]
mod texts;
