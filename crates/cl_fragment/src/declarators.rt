//! What declarators do.

ghost use Rattle.std.specs.Prelude.{◌≡◌, IfOk, map, option_map};
ghost use Rattle.cl_model.specs.View.{expression_of, optional_expression, statement_of};
ghost use Rattle.cl_meaning.specs.Typed as typed;
ghost use Rattle.cl_meaning.specs.Expressions as expressions;
ghost use Rattle.cl_meaning.specs.Statements as meaning;
ghost use Rattle.cl_fragment.specs.Declares.{initial_in, variable_line, kept_line, scalar_what, array_built};
ghost use Rattle.cl_fragment.specs.Declares.{value_built, declared_built};
ghost use Rattle.cl_fragment.specs.View.{piece_of, what_of, built_of};

use crate::fragment::{Piece, What};
use crate::lines::{last, put};
use crate::sites::take_site;
use crate::values::{operand, read};
use cl_meaning::Declared;
use cl_model::{Expr, Space, Stmt};
use std::alloc::Global;
use wg_num::{IntType, Memory, Place, beside};

/// What a declarator says, and what is known where it stands: whether it has a star, how many pairs of
/// brackets, and a value; where an array or a scalar is kept; how many variables and arrays the function
/// has so far.
#[derive(Clone, Copy)]
pub struct Declaring {
    pub star: bool,
    pub dimensions: usize,
    pub initialized: bool,
    pub kept: Space,
    pub variables: usize,
    pub arrays: usize,
}

/// A count as the number of what comes next; it fails for want of numbers.
pub(crate) fn number(count: usize) -> Result<u32, Memory>
    ensures { IfOk result (λ n. n ≡ count) }
{
    match u32::try_from(count) {
        Ok(n) => Ok(n),
        Err(_) => Err(Memory),
    }
}

/// One statement as what a declaration does.
fn line(alloc: Global, s: Stmt) -> Result<What, Memory>
    ensures { IfOk result (λ w. what_of w ≡ typed.lines (meaning.alone (statement_of s))) }
{
    let mut lines = Vec::new(alloc);
    put(&mut lines, s)?;
    Ok(What::Lines(lines))
}

/// The next variable, with its value.
fn variable(alloc: Global, count: usize, value: Option<Expr>) -> Result<What, Memory>
    ensures { IfOk result (λ w. what_of w ≡ variable_line count (optional_expression value)) }
{
    let (var, value) = beside(number(count), value)?;
    let what = line(alloc, Stmt::Declare { var, value })?;
    Ok(what)
}

/// The value of a scalar, converted to its type.
fn converted(alloc: Global, of: IntType, value: Option<Piece>) -> Result<Option<Expr>, Memory>
    ensures { IfOk result (λ o. optional_expression o ≡ meaning.set_value (expressions.operand of)
        (option_map piece_of value)) }
{
    match value {
        None => Ok(None),
        Some(piece) => {
            let e = operand(alloc, of, piece)?;
            Ok(Some(e))
        }
    }
}

/// A variable where it is the item's own; nothing else does anything.
fn kept_variable(
    alloc: Global,
    kept: Space,
    count: usize,
    value: Option<Expr>,
) -> Result<What, Memory>
    ensures { IfOk result (λ w. what_of w ≡ kept_line kept count (optional_expression value)) }
{
    match kept {
        Space::Private => {
            let what = variable(alloc, count, value)?;
            Ok(what)
        }
        _ => {
            drop(value);
            Ok(What::Lines(Vec::new(alloc)))
        }
    }
}

/// A scalar with its value.
fn scalar(
    alloc: Global,
    kept: Space,
    count: usize,
    of: IntType,
    value: Option<Piece>,
) -> Result<What, Memory>
    ensures { IfOk result (λ w. what_of w ≡ scalar_what kept count of (option_map piece_of value)) }
{
    let value = converted(alloc, of, value)?;
    let what = kept_variable(alloc, kept, count, value)?;
    Ok(what)
}

/// The values of a list.
fn list_values(alloc: Global, value: Option<Piece>) -> Vec<Expr>
    ensures { map expression_of result.items ≡ meaning.list_values (option_map piece_of value) }
{
    match value {
        None => Vec::new(alloc),
        Some(piece) => match piece.what {
            What::Values(values) => values,
            other => {
                drop(other);
                Vec::new(alloc)
            }
        },
    }
}

/// An array: the item's own is filled where it is declared.
#[tactic(auto, using(crate::proofs::Lists::expressions_listed))]
fn array(
    alloc: Global,
    place: Place,
    sites: &mut Vec<Place>,
    kept: Space,
    count: usize,
    value: Option<Piece>,
) -> Result<What, Memory>
    ensures { IfOk result (λ w. array_built place sites.old.items kept count (option_map piece_of value) ≡
        built_of w sites.new.items) }
{
    let values = list_values(alloc, value);
    match kept {
        Space::Private => {
            let array = number(count)?;
            let site = take_site(sites, place)?;
            let what = line(
                alloc,
                Stmt::Fill {
                    site,
                    array,
                    values,
                },
            )?;
            Ok(what)
        }
        _ => Ok(What::Lines(Vec::new(alloc))),
    }
}

/// The piece of an initial value, which is the last part.
fn initial(initialized: bool, pieces: Vec<Piece>) -> Option<Piece>
    ensures { option_map piece_of result ≡ initial_in initialized (map piece_of pieces.items) }
{
    if initialized { last(pieces) } else { None }
}

/// The offset of a pointer variable at first.
fn offset(value: Option<Piece>) -> Option<Expr>
    ensures { optional_expression result ≡ meaning.set_value (λ p. expressions.read p.what)
        (option_map piece_of value) }
{
    match value {
        None => None,
        Some(piece) => Some(read(piece.what)),
    }
}

/// What a declarator without a star stands for.
fn declared_value(
    alloc: Global,
    place: Place,
    sites: &mut Vec<Place>,
    declaring: Declaring,
    of: IntType,
    value: Option<Piece>,
) -> Result<What, Memory>
    ensures { IfOk result (λ w. value_built place sites.old.items declaring of (option_map piece_of value) ≡
        built_of w sites.new.items) }
{
    if declaring.dimensions == 0 {
        let what = scalar(alloc, declaring.kept, declaring.variables, of, value)?;
        Ok(what)
    } else {
        let what = array(alloc, place, sites, declaring.kept, declaring.arrays, value)?;
        Ok(what)
    }
}

/// What a declarator of that type stands for (C99, sections 6.7.5 and 6.7.8).
pub(crate) fn declarator(
    alloc: Global,
    place: Place,
    sites: &mut Vec<Place>,
    declaring: Declaring,
    declared: Option<Declared>,
    pieces: Vec<Piece>,
) -> Result<What, Memory>
    ensures { IfOk result (λ w. declared_built place sites.old.items declaring declared
        (map piece_of pieces.items) ≡ built_of w sites.new.items) }
{
    let Some(declared) = declared else {
        return Ok(What::Nothing);
    };
    let value = initial(declaring.initialized, pieces);
    if declaring.star {
        let what = variable(alloc, declaring.variables, offset(value))?;
        Ok(what)
    } else {
        let what = declared_value(alloc, place, sites, declaring, declared.of, value)?;
        Ok(what)
    }
}
