// The own texts of nodes, as the words, marks, names and numbers that they are written with.
ghost use Rattle.std.specs.Prelude.{◌≡◌, ◌==◌, ◌∷◌, [], bytes_eq, ◌<◌, length, is_some, position, IfSome, IfNone, OnOk};
ghost use Rattle.std.specs.List.{list_any, before_first, after_first, slice_split, flat_map};
ghost use Rattle.ada_tree.specs.declared.word.TheConstants.{WORDS};
ghost use Rattle.ada_tree.specs.Tables.{first_value};
ghost use Rattle.ada_tree.specs.Words.{word_of, mark_of};
ghost use Rattle.ada_tree.specs.Texts.{symbol_items, front_item, name_items, dotted, label_item, key_items, is_dot, rule_items, own_items};
ghost use Rattle.tree_write.specs.Ink.{ink_of, after};
ghost use Rattle.tree_write.specs.Symbols.{word_part, mark_part, symbol_part, point_items};

use crate::page::Page;
use ada_tree::{Mark, Own, WORDS, Word};
use base_kit::Memory;

// Where the first such byte stands, if there is one.
fn find(text: &[u8], at: u8) -> Option<usize>
    ensures { result ≡ position (λ b. b == at) text.now }
{
    text.iter().position(|byte| *byte == at)
}

// What stands before the first such byte, and what stands after it, if there is one.
fn cut(text: &[u8], at: u8) -> Option<(&[u8], &[u8])>
    ensures found { is_some result ≡ list_any (λ b. b == at) text.now }
    ensures front { IfSome result (λ parts. parts.0.now ≡ before_first (λ b. b == at) text.now) }
    ensures back { IfSome result (λ parts. parts.1.now ≡ after_first (λ b. b == at) text.now) }
    ensures parts { IfSome result (λ parts. slice_split (λ b. b == at) text.now ≡ parts.0.now ∷ slice_split (λ b. b == at) parts.1.now) }
    ensures shorter { IfSome result (λ parts. length parts.1.now < length text.now) }
    ensures whole { IfNone result (slice_split (λ b. b == at) text.now ≡ text.now ∷ []) }
{
    match find(text, at) {
        Some(end) => Some((&text[..end], &text[end + 1..])),
        None => None,
    }
}

// The word that is written so in this table.
fn word_in(rows: &[(Word, &str)], text: &[u8]) -> Option<Word>
    ensures { result ≡ first_value (λ row. row.0) (λ row. bytes_eq row.1.now text.now) rows.now }
{
    for (word, written) in rows {
        if written.as_bytes() == text {
            return Some(*word);
        }
    }
    None
}

fn write_word(page: &mut Page, word: Option<Word>) -> Result<(), Memory>
    ensures { OnOk result (ink_of page.new ≡ after (word_part word) (ink_of page.old)) }
{
    match word {
        None => Ok(()),
        Some(word) => page.word(word),
    }
}

fn write_mark(page: &mut Page, mark: Option<Mark>) -> Result<(), Memory>
    ensures { OnOk result (ink_of page.new ≡ after (mark_part mark) (ink_of page.old)) }
{
    match mark {
        None => Ok(()),
        Some(mark) => page.mark(mark),
    }
}

// A part of an operator's or a mode's text.
fn write_symbol(page: &mut Page, text: &[u8]) -> Result<(), Memory>
    ensures { OnOk result (ink_of page.new ≡ after (symbol_part text.now) (ink_of page.old)) }
{
    write_word(page, word_in(&WORDS, text))?;
    write_mark(page, Mark::of(text))
}

// An operator's or a mode's text: words and marks with blanks between them.
fn write_symbols(page: &mut Page, text: &[u8]) -> Result<(), Memory>
    ensures { OnOk result (ink_of page.new ≡ after (symbol_items text.now) (ink_of page.old)) }
{
    let mut rest = text;
    while let Some((part, more)) = cut(rest, b' ') {
        write_symbol(page, part)?;
        rest = more;
    }
    write_symbol(page, rest)
}

// What stands before the `@` of a name.
fn write_front(page: &mut Page, text: &[u8]) -> Result<(), Memory>
    ensures { OnOk result (ink_of page.new ≡ after (front_item text.now ∷ []) (ink_of page.old)) }
{
    if text == "return".as_bytes() {
        return page.word(Word::Return);
    }
    page.name(text)
}

fn write_name(page: &mut Page, text: &[u8]) -> Result<(), Memory>
    ensures { OnOk result (ink_of page.new ≡ after (name_items text.now) (ink_of page.old)) }
{
    let Some((front, back)) = cut(text, b'@') else {
        return page.name(text);
    };
    write_front(page, front)?;
    page.glue();
    page.mark(Mark::AtSign)?;
    page.glue();
    page.small(back)
}

// The label of a cut point.
fn write_label(page: &mut Page, text: &[u8]) -> Result<(), Memory>
    ensures { OnOk result (ink_of page.new ≡ after (label_item text.now ∷ []) (ink_of page.old)) }
{
    if text == "entry".as_bytes() {
        return page.word(Word::Entry);
    }
    page.small(text)
}

fn write_rule(page: &mut Page, text: &[u8]) -> Result<(), Memory>
    ensures { OnOk result (ink_of page.new ≡ after (rule_items text.now) (ink_of page.old)) }
{
    if text == "range".as_bytes() {
        return page.word(Word::Range);
    }
    page.small(text)
}

// Two names with a dot between them.
fn write_dotted(page: &mut Page, front: &[u8], back: &[u8]) -> Result<(), Memory>
    ensures { OnOk result (ink_of page.new ≡ after (dotted (name_items front.now) (name_items back.now)) (ink_of page.old)) }
{
    write_name(page, front)?;
    page.mark(Mark::Dot)?;
    write_name(page, back)
}

// The name of a unit, the label of a cut point and a number.
fn write_point(page: &mut Page, unit: &[u8], label: &[u8], number: &[u8]) -> Result<(), Memory>
    ensures { OnOk result (ink_of page.new ≡ after (point_items unit.now label.now number.now) (ink_of page.old)) }
{
    write_name(page, unit)?;
    page.mark(Mark::Dot)?;
    write_label(page, label)?;
    page.mark(Mark::Dot)?;
    page.name(number)
}

// What a proof is a proof of: two, three or four parts between dots.
fn write_key(page: &mut Page, text: &[u8]) -> Result<(), Memory>
    ensures { OnOk result (ink_of page.new ≡ after (key_items (slice_split is_dot text.now)) (ink_of page.old)) }
{
    let Some((first, rest)) = cut(text, b'.') else {
        return Ok(());
    };
    let Some((second, more)) = cut(rest, b'.') else {
        return write_dotted(page, first, rest);
    };
    let Some((third, last)) = cut(more, b'.') else {
        return write_point(page, first, second, more);
    };
    if cut(last, b'.').is_some() {
        return Ok(());
    }
    write_name(page, first)?;
    page.mark(Mark::Dot)?;
    write_point(page, second, third, last)
}

/// A node's own text.
pub fn write_own(page: &mut Page, own: Own, text: &[u8]) -> Result<(), Memory>
    ensures { OnOk result (ink_of page.new ≡ after (own_items own text.now) (ink_of page.old)) }
{
    match own {
        Own::Id | Own::Closing => write_name(page, text),
        Own::Num => page.name(text),
        Own::Mode | Own::GlobalMode | Own::Operator => write_symbols(page, text),
        Own::Rule => write_rule(page, text),
        Own::Key => write_key(page, text),
    }
}
