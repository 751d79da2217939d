// What holds of all texts. Each law is the contract of a function that does nothing.
ghost use Rattle.std.specs.Prelude.{◌≡◌, ℕ, List, true};
ghost use Rattle.ada_tree.specs.declared.part.Part.{Part as APart};
ghost use Rattle.reading_table.specs.Spelled.{has_texts};
ghost use Rattle.text_read.specs.Answers.{IsAnswer};
ghost use Rattle.text_read.specs.Files.{IsFileAnswer};

/// A text of a part spells one node within the limits, or has one fault; the function of `specs/Answers`
/// is that answer.
pub fn a_text_has_one_answer()
    ensures { (part : APart) (bytes : List ℕ) → has_texts part ≡ true → IsAnswer part bytes }
{}

/// Bytes are those of one file, or have one fault as a file; the function of `specs/Files` is that answer.
pub fn a_file_has_one_answer()
    ensures { (bytes : List ℕ) → IsFileAnswer bytes }
{}
