//! Which variables cross, and the columns that they share: in the inlined text the variables of a
//! block take the first columns behind those of the blocks around it.

ghost use Rattle.std.specs.Prelude.{◌≡◌, ◌+◌, ◌∷◌, [], ◌++◌, true, false, length, replicate};
ghost use Rattle.std.specs.Prelude.{slice_set, IfOk, OnOk, if◌then◌else◌};
ghost use Rattle.std.specs.Prelude.{List, Bool as Test};
ghost use Rattle.cl_model.specs.View.{program_of, function_of};
ghost use Rattle.ctx_plan.specs.Outline.{Outline, NoPiece, piece_then, pieces_then};
ghost use Rattle.ctx_plan.specs.Points.{entry};
ghost use Rattle.ctx_plan.specs.Sharing as spec;
ghost use Rattle.ctx_plan.specs.View.{varying_of, shares_of, plain_columns};

use crate::holding::{entry_of, no_entries};
use crate::outline::{Piece, outline_of};
use cl_model::{Function, Program};
use diverge::Varying;
use std::alloc::Global;
use wg_num::{Memory, push};

/// Of each function and each of its variables: whether it crosses, and the number of its column
/// among those that the function takes. Of each site of a call: how many columns the blocks of the
/// caller take that stand around it.
#[derive(Drop)]
pub struct Sharing {
    pub crossing: Vec<Vec<bool>>,
    pub numbers: Vec<Vec<u32>>,
    pub taken: Vec<u32>,
}

fn set_entry(list: &mut Vec<bool>, number: u32)
    ensures { list.new.items ≡ slice_set list.old.items number true }
{
    let number = number as usize;
    if number < list.len() {
        list[number] = true;
    }
}

fn set_number(list: &mut Vec<u32>, place: u32, number: u32)
    ensures { list.new.items ≡ slice_set list.old.items place number }
{
    let place = place as usize;
    if place < list.len() {
        list[place] = number;
    }
}

/// Marks the variables of a block that cross, and answers whether a cut stands in it; `inside`
/// says of each function whether it holds a barrier.
#[cycle(mark)]
fn mark_crossing(block: &[Piece], crossing: &mut Vec<bool>, inside: &[bool]) -> bool
    ensures cut { result ≡ spec.has_cut (entry inside.now) (pieces_then block.now NoPiece) }
    ensures marks { crossing.new.items ≡ spec.mark_crossing (entry inside.now) (pieces_then block.now NoPiece)
        crossing.old.items }
{
    let mut cut = false;
    let mut i = block.len();
    while i > 0 {
        i -= 1;
        cut = mark_piece(&block[i], crossing, inside, cut);
    }
    cut
}

/// The same from a piece on, where it is said of what stands behind it.
#[cycle(mark)]
fn mark_piece(piece: &Piece, crossing: &mut Vec<bool>, inside: &[bool], cut: bool) -> bool
    ensures cut { (rest : Outline) → cut ≡ spec.has_cut (entry inside.now) rest →
        result ≡ spec.has_cut (entry inside.now) (piece_then piece.now rest) }
    ensures marks { (rest : Outline) (list : List Test) → cut ≡ spec.has_cut (entry inside.now) rest →
        crossing.old.items ≡ spec.mark_crossing (entry inside.now) rest list
        → crossing.new.items ≡ spec.mark_crossing (entry inside.now) (piece_then piece.now rest) list }
{
    match piece {
        Piece::Declares(variable) => {
            mark_if(crossing, cut, *variable);
            cut
        }
        Piece::Cut => true,
        Piece::Calls(_, function) => entry_of(inside, *function) || cut,
        Piece::Block(inner) => {
            let within = mark_crossing(inner, crossing, inside);
            within || cut
        }
    }
}

fn mark_if(list: &mut Vec<bool>, mark: bool, number: u32)
    ensures { list.new.items ≡ (if mark then slice_set list.old.items number true else list.old.items) }
{
    if mark {
        set_entry(list, number);
    }
}

pub(crate) fn sum_of(a: u32, b: u32) -> Result<u32, Memory>
    ensures { IfOk result (λ s. s ≡ a + b) }
{
    match a.checked_add(b) {
        Some(sum) => Ok(sum),
        None => Err(Memory),
    }
}

/// How many columns the piece takes: one where it declares a marked variable.
fn column_of(marked: &[bool], piece: &Piece) -> u32
    ensures { (rest : Outline) → spec.own_columns (entry marked.now) (piece_then piece.now rest) ≡ result +
        spec.own_columns (entry marked.now) rest }
{
    match piece {
        Piece::Declares(variable) => { if entry_of(marked, *variable) { 1 } else { 0 } }
        Piece::Cut => 0,
        Piece::Calls(_, _) => 0,
        Piece::Block(_) => 0,
    }
}

/// How many of the variables that a block declares itself are marked.
fn own_columns(marked: &[bool], block: &[Piece]) -> Result<u32, Memory>
    ensures { IfOk result (λ n. n ≡ spec.own_columns (entry marked.now) (pieces_then block.now NoPiece)) }
{
    let mut count: u32 = 0;
    for piece in block {
        count = sum_of(count, column_of(marked, piece))?;
    }
    Ok(count)
}

/// The columns so far: the number of each variable of a function among those that the function
/// takes, and of each site of a call how many the blocks of the caller around it take.
#[derive(Drop)]
pub struct Columns {
    pub numbers: Vec<u32>,
    pub taken: Vec<u32>,
}

/// Numbers the marked variables of a block and the blocks in it, where the blocks around it take
/// `around` columns, and says of each call how many the blocks around it take.
#[cycle(share)]
fn share_block(
    block: &[Piece],
    columns: &mut Columns,
    marked: &[bool],
    around: u32,
) -> Result<(), Memory>
    ensures { OnOk result (plain_columns columns.new ≡ spec.share_block (entry marked.now) around
        (pieces_then block.now NoPiece) (plain_columns columns.old)) }
{
    let own = own_columns(marked, block)?;
    let within = sum_of(around, own)?;
    let mut next = around;
    for piece in block {
        next = share_piece(piece, columns, marked, within, next)?;
    }
    Ok(())
}

/// The same of a piece, behind which the variables of its block are numbered from the answer on.
#[cycle(share)]
fn share_piece(
    piece: &Piece,
    columns: &mut Columns,
    marked: &[bool],
    within: u32,
    next: u32,
) -> Result<u32, Memory>
    ensures { IfOk result (λ behind. (rest : Outline) →
        spec.share_columns (entry marked.now) within next (piece_then piece.now rest) (plain_columns columns.old)
        ≡ spec.share_columns (entry marked.now) within behind rest (plain_columns columns.new)) }
{
    match piece {
        Piece::Declares(variable) => {
            if !entry_of(marked, *variable) {
                return Ok(next);
            }
            set_number(&mut columns.numbers, *variable, next);
            sum_of(next, 1)
        }
        Piece::Cut => Ok(next),
        Piece::Calls(site, _) => {
            set_number(&mut columns.taken, *site, within);
            Ok(next)
        }
        Piece::Block(inner) => {
            share_block(inner, columns, marked, within)?;
            Ok(next)
        }
    }
}

/// So many zeros.
fn zeros(alloc: Global, count: usize) -> Result<Vec<u32>, Memory>
    ensures { IfOk result (λ v. v.items ≡ replicate count 0) }
{
    let mut list = Vec::new(alloc);
    for _zero in 0..count {
        push(&mut list, 0)?;
    }
    Ok(list)
}

/// The entries that both lists have, as many as the first.
fn both(alloc: Global, first: &[bool], second: &[bool]) -> Result<Vec<bool>, Memory>
    ensures { IfOk result (λ v. v.items ≡ spec.both 0 first.now second.now) }
{
    let mut list = Vec::new(alloc);
    let mut number: u32 = 0;
    for entry in first {
        let common = *entry && entry_of(second, number);
        push(&mut list, common)?;
        number = sum_of(number, 1)?;
    }
    Ok(list)
}

/// The variables of a function that vary.
pub(crate) fn varying_in(varying: &Varying, function: u32) -> &[bool]
    ensures { result.now ≡ spec.row (varying_of varying.now) function }
{
    match varying.list.get(function as usize) {
        Some(list) => list,
        None => &[],
    }
}

fn crossing_in(
    alloc: Global,
    inside: &[bool],
    function: &Function,
    pieces: &[Piece],
) -> Result<Vec<bool>, Memory>
    ensures { IfOk result (λ v. v.items ≡ spec.mark_crossing (entry inside.now) (pieces_then pieces.now NoPiece)
        (replicate (length (function_of function.now).variables) false)) }
{
    let mut crosses = no_entries(alloc, function.vars.len())?;
    let _ = mark_crossing(pieces, &mut crosses, inside);
    Ok(crosses)
}

/// The columns of a function, of whose variables those are marked that cross and vary.
fn columns_in(
    alloc: Global,
    marked: &[bool],
    function: &Function,
    pieces: &[Piece],
    taken: Vec<u32>,
) -> Result<Columns, Memory>
    ensures { IfOk result (λ c. plain_columns c ≡ spec.share_block (entry marked.now) 0
        (pieces_then pieces.now NoPiece)
        (record { numbers = replicate (length (function_of function.now).variables) 0; taken = taken.items })) }
{
    let numbers = zeros(alloc, function.vars.len())?;
    let mut columns = Columns { numbers, taken };
    share_block(pieces, &mut columns, marked, 0)?;
    Ok(columns)
}

/// What is said of one function more.
fn add_function(
    alloc: Global,
    sharing: Sharing,
    inside: &[bool],
    varying: &[bool],
    function: &Function,
) -> Result<Sharing, Memory>
    ensures { IfOk result (λ s. shares_of s ≡ spec.with_function inside.now varying.now (function_of function.now)
        (shares_of sharing)) }
{
    let Sharing {
        crossing,
        numbers,
        taken,
    } = sharing;
    let pieces = outline_of(alloc, inside, function)?;
    let crosses = crossing_in(alloc, inside, function, &pieces)?;
    let marked = both(alloc, &crosses, varying)?;
    let columns = columns_in(alloc, &marked, function, &pieces, taken)?;
    let crossing = add_crossing(crossing, crosses)?;
    let numbers = add_numbers(numbers, columns.numbers)?;
    Ok(Sharing {
        crossing,
        numbers,
        taken: columns.taken,
    })
}

fn add_crossing(mut lists: Vec<Vec<bool>>, list: Vec<bool>) -> Result<Vec<Vec<bool>>, Memory>
    ensures { IfOk result (λ v. v.items ≡ lists.items ++ list ∷ []) }
{
    match lists.push(list) {
        Ok(()) => Ok(lists),
        Err(_) => Err(Memory),
    }
}

fn add_numbers(mut lists: Vec<Vec<u32>>, list: Vec<u32>) -> Result<Vec<Vec<u32>>, Memory>
    ensures { IfOk result (λ v. v.items ≡ lists.items ++ list ∷ []) }
{
    match lists.push(list) {
        Ok(()) => Ok(lists),
        Err(_) => Err(Memory),
    }
}

/// What is said of the variables and calls of a program.
pub(crate) fn sharing_of(
    alloc: Global,
    program: &Program,
    varying: &Varying,
    inside: &[bool],
) -> Result<Sharing, Memory>
    ensures { IfOk result (λ s. inside.now ≡ spec.holding_of (program_of program.now).functions →
        shares_of s ≡ spec.shares_of (program_of program.now) (varying_of varying.now)) }
{
    let taken = zeros(alloc, program.sites.len())?;
    let mut sharing = Sharing {
        crossing: Vec::new(alloc),
        numbers: Vec::new(alloc),
        taken,
    };
    let mut number: u32 = 0;
    for function in &program.functions {
        let varies = varying_in(varying, number);
        sharing = add_function(alloc, sharing, inside, varies, function)?;
        number = sum_of(number, 1)?;
    }
    Ok(sharing)
}
