// Names.
ghost use Rattle.std.specs.Prelude.{◌≡◌, map};
ghost use Rattle.reading_table.specs.Rows.{entry_now};

use crate::need::{FLAT, ON, ONE, TEXT, TEXT_ON};
use crate::rows::Entry;
use crate::rule::Rule;
use crate::symbol::{Symbol, Tokens};
use ada_tree::{Kind, Mark, Side, Word};

pub static NAMES: [Entry; 12] = crate::rules! {
    Text Both TEXT {
        [Ada] keep(Name)
        | [Note] keep(Name) part(Joined)
        | [Note] take(Word Return) part(ReturnName)
    }
    Joined Note TEXT_ON or() { take(Mark AtSign) keep(Name) lower paste(b'@') }
    Id Both FLAT { part(Text) build(Id 1) }
    Name Both ONE { part(Text) build(Name 1) }
    Ids Both FLAT { build(List 0) part(Id) join part(MoreIds) }
    MoreIds Both ON or() { take(Mark Comma) part(Id) join part(MoreIds) }
    Names Both ONE { build(List 0) part(Name) join part(MoreNames) }
    MoreNames Both ON or() { take(Mark Comma) part(Name) join part(MoreNames) }
    Mark Both ONE { part(Name) part(MarkTail) }
    MarkTail Both ON or() { take(Mark Dot) part(Text) build(Select 2) part(MarkTail) }
    Marks Note ONE { build(List 0) part(Mark) join part(MoreMarks) }
    MoreMarks Note ON or() { take(Mark Comma) part(Mark) join part(MoreMarks) }
};

/// The entries of these rules, in order.
pub fn entries() -> &'static [Entry]
    ensures { map entry_now result.now ≡ NAMES }
{
    &NAMES
}
