// A file that is cut behind each of its bytes: it is a whole file there, or what is wrong is at its end.
use crate::ends::{End, file_end};
use ada_tree::Kind;
use base_kit::{Code, Memory};
use std::alloc::Global;
use std::test::Fail;

// Lists with a law, and its proof: the two items of a file.
const TRAIT: &str = "\
--| trait LISTS is
--|    introduces
--|       NIL : -> SEQ;
--|       CONS : INT, SEQ -> SEQ;
--|       LEN : SEQ -> INT;
--|       APPEND : SEQ, SEQ -> SEQ;
--|    generated SEQ by NIL, CONS;
--|    asserts for all E : INT; S, T : SEQ
--|       LEN(NIL) == 0;
--|       LEN(CONS(E, S)) == 1 + LEN(S);
--|       APPEND(NIL, T) == T;
--|       APPEND(CONS(E, S), T) == CONS(E, APPEND(S, T));
--|    implies for all S, T : SEQ
--|       LEN_APPEND : LEN(APPEND(S, T)) = LEN(S) + LEN(T);
--| end trait;";

const PROOF: &str = "\
--| proof of LISTS.LEN_APPEND is induct S (E1, S1) [unfold APPEND [unfold LEN [simplify]];
--| unfold APPEND [unfold LEN [unfold LEN [antisym [linear (1, 1); linear (1, -1)]]]]] end proof;";

fn lists(alloc: Global) -> Result<Vec<u8>, Memory> {
    let mut text = TRAIT.as_bytes().to_vec(alloc)?;
    text.push(b'\n')?;
    text.extend_from_slice(PROOF.as_bytes())?;
    text.push(b'\n')?;
    Ok(text)
}

// Whether so many bytes of a line that begins an annotation are no token: none, `--`, `--|`, and a blank.
fn is_margin(count: usize) -> bool {
    matches!(count, 0 | 2..=4)
}

// Whether the file is whole behind so many bytes: before an item or behind one, with the line end after it or without.
fn is_whole(cut: usize) -> bool {
    let first = TRAIT.len();
    is_margin(cut)
        || cut == first
        || cut > first && is_margin(cut - first - 1)
        || cut > first + PROOF.len()
}

// The last line, from 1, of a text in which each line ends by LF.
fn last_line(text: &[u8]) -> usize {
    let ended = text.iter().filter(|byte| **byte == b'\n').count();
    if text.ends_with(b"\n") {
        ended
    } else {
        ended + 1
    }
}

fn end_at(front: &[u8]) -> Option<End> {
    if is_whole(front.len()) {
        return Some(End::Node(Kind::File));
    }
    let line = u32::try_from(last_line(front)).ok()?;
    // No name ends in an underscore.
    let code = if front.ends_with(b"_") {
        Code::F02
    } else {
        Code::F03
    };
    Some(End::Fault(code, line))
}

fn is_right_at(alloc: Global, text: &[u8], cut: usize) -> Result<bool, Memory> {
    if cut > text.len() {
        return Ok(false);
    }
    let (front, _) = text.split_at(cut);
    let end = end_at(front);
    Ok(end.is_some() && file_end(alloc, front)? == end)
}

fn is_wrong_at(alloc: Global, text: &[u8], cut: usize) -> bool {
    is_right_at(alloc, text, cut) != Ok(true)
}

// The first cut behind which the file isn't read as it is to be.
fn first_wrong_cut(alloc: Global) -> Result<Option<usize>, Memory> {
    let text = lists(alloc)?;
    let text = text.as_slice();
    Ok((0..text.len() + 1).position(|cut| is_wrong_at(alloc, text, cut)))
}

#[test]
fn a_cut_file_is_whole_or_at_fault_at_its_end(rt: HostRuntime) -> Result<(), Fail> {
    assert_eq!(rt; first_wrong_cut(rt.alloc())?, None);
    Ok(())
}
