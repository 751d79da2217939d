// What is written so far, and where writing stands.
ghost use Rattle.std.specs.Prelude.{◌≡◌, ◌++◌, ◌∷◌, [], ◌*◌, ◌||◌, if◌then◌else◌, Some, None, OnOk, IfOk};
ghost use Rattle.base_kit.specs.Bytes as byte;
ghost use Rattle.ada_tree.specs.Tokens.{a_name, a_number, a_word, a_mark};
ghost use Rattle.ada_tree.specs.Items.{put, put_small, line_break, indent, outdent, note_on, note_off, glue, comment_line};
ghost use Rattle.ada_tree.specs.Canonical.{comment_lines};
ghost use Rattle.ada_tree.specs.Rendering.{Pen, start, blanks, margin, has_no_blank_before, has_no_blank_after, gap, line_end, fresh};
ghost use Rattle.tree_write.specs.Pens.{inside};
ghost use Rattle.tree_write.specs.Ink.{ink_of, with_bytes, with_token, with_line_end, after, drawn};

use ada_tree::{Mark, Word};
use base_kit::{Memory, Text};
use std::alloc::Global;

/// The bytes that are written, and where writing stands (`Pen` of `ada_tree/specs/Rendering`).
#[derive(Drop)]
pub struct Page {
    pub bytes: Vec<u8>,
    /// How many steps the lines are indented by.
    pub depth: usize,
    /// For an annotation, how many the text round it is indented by.
    pub outer: Option<usize>,
    /// A line begins here.
    pub is_fresh: bool,
    /// No blank stands before the next token.
    pub is_tight: bool,
}

// Whether no blank stands before this mark.
fn has_no_blank_before(mark: Mark) -> bool
    ensures { result ≡ has_no_blank_before (a_mark mark) }
{
    matches!(
        mark,
        Mark::Semicolon | Mark::Comma | Mark::Close | Mark::CloseBracket | Mark::Tick | Mark::Dot
    )
}

// Whether no blank stands after this mark.
fn has_no_blank_after(mark: Mark) -> bool
    ensures { result ≡ has_no_blank_after (a_mark mark) }
{
    matches!(
        mark,
        Mark::Open | Mark::OpenBracket | Mark::Tick | Mark::Dot
    )
}

impl Page {
    /// Nothing is written yet.
    pub fn new(alloc: Global) -> Self
        ensures { ink_of result ≡ record { bytes = []; pen = start } }
    {
        Page {
            bytes: Vec::new(alloc),
            depth: 0,
            outer: None,
            is_fresh: true,
            is_tight: false,
        }
    }

    /// Nothing is written yet, and what comes stands in a line.
    pub fn inside(alloc: Global) -> Self
        ensures { ink_of result ≡ record { bytes = []; pen = inside } }
    {
        Page {
            bytes: Vec::new(alloc),
            depth: 0,
            outer: None,
            is_fresh: false,
            is_tight: true,
        }
    }

    /// The last line ends, if anything stands in it.
    pub fn into_bytes(mut self) -> Result<Vec<u8>, Memory>
        ensures { IfOk result (λ bytes. bytes.items ≡ (ink_of self).bytes ++ line_end (ink_of self).pen) }
    {
        if !self.is_fresh {
            self.write(b"\n")?;
        }
        Ok(self.bytes)
    }

    pub fn write(&mut self, bytes: &[u8]) -> Result<(), Memory>
        ensures { OnOk result (ink_of self.new ≡ with_bytes bytes.now (ink_of self.old)) }
    {
        self.bytes.extend_from_slice(bytes)?;
        Ok(())
    }

    // So many blanks, three for each step.
    fn blanks(&mut self, steps: usize) -> Result<(), Memory>
        ensures { OnOk result (ink_of self.new ≡ with_bytes (blanks steps) (ink_of self.old)) }
    {
        for _ in 0..steps {
            self.write(b"   ")?;
        }
        Ok(())
    }

    // What a line begins with.
    fn margin(&mut self) -> Result<(), Memory>
        ensures { OnOk result (ink_of self.new ≡ with_bytes (margin (ink_of self.old).pen.depth (ink_of self.old).pen.outer) (ink_of self.old)) }
    {
        match self.outer {
            None => self.blanks(self.depth),
            Some(outer) => {
                self.blanks(outer)?;
                self.write(b"--| ")?;
                self.blanks(self.depth.saturating_sub(outer))
            }
        }
    }

    // What stands before a token.
    fn gap(&mut self, no_blank: bool) -> Result<(), Memory>
        ensures { OnOk result (ink_of self.new ≡ with_bytes (gap (ink_of self.old).pen no_blank) (ink_of self.old)) }
    {
        if self.is_fresh {
            return self.margin();
        }
        if self.is_tight || no_blank {
            return Ok(());
        }
        self.write(b" ")
    }

    // A token, and whether no blank stands before it and after it.
    fn token(&mut self, text: &[u8], no_blank: bool, tight: bool) -> Result<(), Memory>
        ensures { OnOk result (ink_of self.new ≡ with_token text.now no_blank tight (ink_of self.old)) }
    {
        self.gap(no_blank)?;
        self.write(text)?;
        self.is_fresh = false;
        self.is_tight = tight;
        Ok(())
    }

    pub fn word(&mut self, word: Word) -> Result<(), Memory>
        ensures { OnOk result (ink_of self.new ≡ drawn (put (a_word word)) (ink_of self.old)) }
    {
        self.token(word.text().as_bytes(), false, false)
    }

    pub fn mark(&mut self, mark: Mark) -> Result<(), Memory>
        ensures { OnOk result (ink_of self.new ≡ drawn (put (a_mark mark)) (ink_of self.old)) }
    {
        let no_blank = has_no_blank_before(mark);
        let tight = has_no_blank_after(mark);
        self.token(mark.text().as_bytes(), no_blank, tight)
    }

    /// A name in upper case, or a number.
    pub fn name(&mut self, text: &[u8]) -> Result<(), Memory>
        ensures name { OnOk result (ink_of self.new ≡ drawn (put (a_name text.now)) (ink_of self.old)) }
        ensures number { OnOk result (ink_of self.new ≡ drawn (put (a_number text.now)) (ink_of self.old)) }
    {
        self.token(text, false, false)
    }

    /// A name in lower case.
    pub fn small(&mut self, text: &[u8]) -> Result<(), Memory>
        ensures { OnOk result (ink_of self.new ≡ drawn (put_small text.now) (ink_of self.old)) }
    {
        self.token(text, false, false)
    }

    pub fn glue(&mut self)
        ensures { ink_of self.new ≡ drawn glue (ink_of self.old) }
    {
        self.is_tight = true;
    }

    // Ends the line, if anything stands in it, and goes on so deep, in an annotation or not.
    fn end_line(&mut self, depth: usize, outer: Option<usize>) -> Result<(), Memory>
        ensures { OnOk result (ink_of self.new ≡ with_line_end (fresh depth outer) (ink_of self.old)) }
    {
        if !self.is_fresh {
            self.write(b"\n")?;
        }
        self.depth = depth;
        self.outer = outer;
        self.is_fresh = true;
        self.is_tight = false;
        Ok(())
    }

    pub fn line_break(&mut self) -> Result<(), Memory>
        ensures { OnOk result (ink_of self.new ≡ drawn line_break (ink_of self.old)) }
    {
        self.end_line(self.depth, self.outer)
    }

    /// No line could be indented by 18446744073709551616 steps, so then memory is wanted.
    pub fn indent(&mut self) -> Result<(), Memory>
        ensures { OnOk result (ink_of self.new ≡ drawn indent (ink_of self.old)) }
    {
        match self.depth.checked_add(1) {
            None => Err(Memory),
            Some(depth) => self.end_line(depth, self.outer),
        }
    }

    pub fn outdent(&mut self) -> Result<(), Memory>
        ensures { OnOk result (ink_of self.new ≡ drawn outdent (ink_of self.old)) }
    {
        self.end_line(self.depth.saturating_sub(1), self.outer)
    }

    pub fn note_on(&mut self) -> Result<(), Memory>
        ensures { OnOk result (ink_of self.new ≡ drawn note_on (ink_of self.old)) }
    {
        self.end_line(self.depth, Some(self.depth))
    }

    pub fn note_off(&mut self) -> Result<(), Memory>
        ensures { OnOk result (ink_of self.new ≡ drawn note_off (ink_of self.old)) }
    {
        self.end_line(self.depth, None)
    }

    // A comment, on a line of its own.
    fn comment(&mut self, text: &[u8]) -> Result<(), Memory>
        ensures { OnOk result (ink_of self.new ≡ drawn (comment_line text.now) (ink_of self.old)) }
    {
        self.line_break()?;
        self.margin()?;
        self.write(text)?;
        self.write(b"\n")
    }

    /// Comments, each on a line of its own.
    pub fn comments(&mut self, texts: &[Text]) -> Result<(), Memory>
        ensures { OnOk result (ink_of self.new ≡ after (comment_lines texts.now) (ink_of self.old)) }
    {
        for text in texts {
            self.comment(text.as_bytes())?;
        }
        Ok(())
    }
}
