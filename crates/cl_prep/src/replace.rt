//! The replacement of a name.
ghost use Rattle.std.specs.Prelude.{◌≡◌, ◌++◌, ◌+◌, ◌<◌, ◌≤◌, ◌∷◌, [], Some, None};
ghost use Rattle.std.specs.Prelude.{Ok, Err, OnOk, IfOk, IfErr, IfSome, IfNone};
ghost use Rattle.std.specs.Prelude.{length, set, true, false, get_or};
ghost use Rattle.cl_token.specs.Lexeme.{lexeme_of, lexemes_of};
ghost use Rattle.cl_prep.specs.Names.{replacement};
ghost use Rattle.cl_prep.specs.Expands.{placed as placed_at, token_limit, replacement_limit};
ghost use Rattle.cl_prep.specs.Table.{names_of};
ghost use Rattle.cl_prep.specs.Frames.{IsNumber, IsNotFree, AreClear, Replaces, Exceeds, StopsBy, IsRead, IsTooMuch};

use crate::names::{Names, copy, placed};
use cl_token::{Kind, Token};
use std::alloc::Global;
use std::collections::VecDeque;
use wg_num::{Memory, push};

/// The most tokens that may be given.
pub(crate) const TOKEN_LIMIT: usize = 65_536;

/// The most names that may be replaced.
pub(crate) const REPLACEMENT_LIMIT: usize = 1_048_576;

/// A name whose replacement is being read: its number in the table, and what is left to read.
#[derive(Clone, Copy)]
pub(crate) struct Frame<'a> {
    pub(crate) number: usize,
    pub(crate) name: &'a [u8],
    pub(crate) left: &'a [Token],
}

/// Why a replacement stops before its end.
#[derive(Clone, Copy, PartialEq, Eq, Debug)]
pub(crate) enum Stop {
    TooMany,
    Memory,
}

/// The frame of a token that is a name in force.
pub(crate) fn frame_of<'a>(names: &'a Names, token: &'a Token) -> Option<Frame<'a>>
    ensures none { IfNone result (replacement (names_of names.now) (lexeme_of token.now) ≡ None) }
    ensures some { IfSome result (λ f. replacement (names_of names.now) (lexeme_of token.now) ≡
        Some (lexemes_of f.left.now)) }
    ensures name { IfSome result (λ f. f.name.now ≡ token.now.word) }
    ensures number { IfSome result (λ f. IsNumber names.now.entries f.number f.name.now) }
    ensures within { IfSome result (λ f. f.number < length names.now.entries) }
{
    if token.kind != Kind::Name {
        return None;
    }
    let (number, _, body) = names.get_full(token.word.bytes())?;
    Some(Frame {
        number,
        name: token.word.bytes(),
        left: body.as_slice(),
    })
}

/// The frame of a token that is a name in force and not marked.
fn free_frame_of<'a>(names: &'a Names, marks: &[bool], token: &'a Token) -> Option<Frame<'a>>
    requires { length names.now.entries ≤ length marks.now }
    ensures none { IfNone result (IsNotFree names.now.entries (names_of names.now) marks.now token.now) }
    ensures some { IfSome result (λ f. replacement (names_of names.now) (lexeme_of token.now) ≡
        Some (lexemes_of f.left.now)) }
    ensures name { IfSome result (λ f. f.name.now ≡ token.now.word) }
    ensures number { IfSome result (λ f. IsNumber names.now.entries f.number f.name.now) }
    ensures free { IfSome result (λ f. get_or marks.now f.number false ≡ false) }
    ensures within { IfSome result (λ f. f.number < length marks.now) }
{
    let frame = frame_of(names, token)?;
    if marks[frame.number] {
        return None;
    }
    Some(frame)
}

/// Opens a frame, and marks its name.
fn enter<'a>(
    frames: &mut VecDeque<Frame<'a>>,
    marks: &mut Vec<bool>,
    frame: Frame<'a>,
) -> Result<(), Stop>
    requires { frame.number < length marks.old.items }
    ensures frames { OnOk result (frames.new.items ≡ frame.entry ∷ frames.old.items) }
    ensures marks { OnOk result (marks.new.items ≡ set marks.old.items frame.entry.number true) }
    ensures err { IfErr result (λ e. e ≡ Stop.Memory) }
{
    match frames.push_front(frame) {
        Ok(()) => {
            marks[frame.number] = true;
            Ok(())
        }
        Err(_) => Err(Stop::Memory),
    }
}

fn put_back<'a>(frames: &mut VecDeque<Frame<'a>>, frame: Frame<'a>) -> Result<(), Stop>
    ensures frames { OnOk result (frames.new.items ≡ frame.entry ∷ frames.old.items) }
    ensures err { IfErr result (λ e. e ≡ Stop.Memory) }
{
    match frames.push_front(frame) {
        Ok(()) => Ok(()),
        Err(_) => Err(Stop::Memory),
    }
}

/// Gives a token in the place of the replaced one.
fn give(alloc: Global, at: &Token, from: &Token, out: &mut Vec<Token>) -> Result<(), Stop>
    ensures ok { OnOk result (out.new.items ≡ out.old.items ++ placed_at at.now (lexeme_of from.now) ∷ []) }
    ensures few { OnOk result (length out.old.items + 1 ≤ token_limit) }
    ensures err { IfErr result (λ e. StopsBy e (token_limit ≤ length out.old.items)) }
{
    if out.len() >= TOKEN_LIMIT {
        return Err(Stop::TooMany);
    }
    match placed(alloc, at, from) {
        Ok(token) => push(out, token).map_err(|_| Stop::Memory),
        Err(_) => Err(Stop::Memory),
    }
}

/// Replaces a name. Answers how many names have been replaced then.
pub(crate) fn replace<'a>(
    alloc: Global,
    names: &'a Names,
    marks: &mut Vec<bool>,
    token: &'a Token,
    frame: Frame<'a>,
    out: &mut Vec<Token>,
    count: usize,
) -> Result<usize, Stop>
    requires number { IsNumber names.now.entries frame.number frame.name.now }
    requires name { frame.name.now ≡ token.now.word }
    requires clear { AreClear marks.old.items }
    requires enough { length names.now.entries ≤ length marks.old.items }
    requires few { length out.old.items ≤ token_limit }
    requires seldom { count ≤ replacement_limit }
    ensures clear { OnOk result (AreClear marks.new.items) }
    ensures ok { IfOk result (λ n. Replaces (names_of names.now) token.now (lexemes_of frame.entry.left.now)
        out.old.items out.new.items count n) }
    ensures err { IfErr result (λ e.
        StopsBy e (Exceeds (names_of names.now) token.now (lexemes_of frame.entry.left.now) out.old.items count)) }
{
    if count >= REPLACEMENT_LIMIT {
        return Err(Stop::TooMany);
    }
    let mut frames = VecDeque::new(alloc);
    let mut replaced = count + 1;
    enter(&mut frames, marks, frame)?;
    while let Some(top) = frames.pop_front() {
        let Some((next, left)) = top.left.split_first() else {
            marks[top.number] = false;
            continue;
        };
        let behind = Frame {
            number: top.number,
            name: top.name,
            left,
        };
        put_back(&mut frames, behind)?;
        match free_frame_of(names, marks.as_slice(), next) {
            Some(inner) => {
                if replaced >= REPLACEMENT_LIMIT {
                    return Err(Stop::TooMany);
                }
                replaced += 1;
                enter(&mut frames, marks, inner)?;
            }
            None => {
                if let Err(stop) = give(alloc, token, next, out) {
                    return Err(stop);
                }
            }
        }
    }
    Ok(replaced)
}

/// Makes room for a mark of each name.
fn make_room(marks: &mut Vec<bool>, count: usize) -> Result<(), Stop>
    requires { AreClear marks.old.items }
    ensures clear { OnOk result (AreClear marks.new.items) }
    ensures enough { OnOk result (count ≤ length marks.new.items) }
    ensures err { IfErr result (λ e. e ≡ Stop.Memory) }
{
    while marks.len() < count {
        if marks.push(false).is_err() {
            return Err(Stop::Memory);
        }
    }
    Ok(())
}

/// Gives a token that is not replaced.
fn keep(alloc: Global, token: &Token, out: &mut Vec<Token>) -> Result<(), Stop>
    ensures ok { OnOk result (out.new.items ≡ out.old.items ++ token.now ∷ []) }
    ensures few { OnOk result (length out.old.items + 1 ≤ token_limit) }
    ensures err { IfErr result (λ e. StopsBy e (token_limit < length out.old.items + 1)) }
{
    if out.len() >= TOKEN_LIMIT {
        return Err(Stop::TooMany);
    }
    match copy(alloc, token) {
        Ok(token) => push(out, token).map_err(|_| Stop::Memory),
        Err(_) => Err(Stop::Memory),
    }
}

/// Reads a token of an active part. Answers how many names have been replaced then.
pub(crate) fn read(
    alloc: Global,
    names: &Names,
    marks: &mut Vec<bool>,
    token: &Token,
    out: &mut Vec<Token>,
    count: usize,
) -> Result<usize, Stop>
    requires clear { AreClear marks.old.items }
    requires few { length out.old.items ≤ token_limit }
    requires seldom { count ≤ replacement_limit }
    ensures clear { OnOk result (AreClear marks.new.items) }
    ensures ok { IfOk result (λ n. IsRead (names_of names.now) token.now out.old.items out.new.items count n) }
    ensures err { IfErr result (λ e. StopsBy e (IsTooMuch (names_of names.now) token.now out.old.items count)) }
{
    let Some(frame) = frame_of(names, token) else {
        keep(alloc, token, out)?;
        return Ok(count);
    };
    make_room(marks, names.len())?;
    replace(alloc, names, marks, token, frame, out, count)
}
