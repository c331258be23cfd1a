//! Declarators, and the lengths of arrays.
ghost use Rattle.std.specs.Prelude.{◌≡◌, ◌≤◌, ◌&&◌, ◌∷◌, [], map, option_map, nat_le};
ghost use Rattle.std.specs.Prelude.{length, IfOk, IfSome};
ghost use Rattle.std.specs.List.{All};
ghost use Rattle.cl_tree.specs.Syntax.{view, views};
ghost use Rattle.cl_model.specs.Sizes.{product};
ghost use Rattle.cl_meaning.specs.Declarations as spec;
ghost use Rattle.cl_scope.specs.Declarators.{declarator_view};

use cl_meaning::types::Declared;
use cl_meaning::{Each, constant_of, declared_of, dimensions_of, is_const, is_set, name_of};
use cl_tree::{Form, Tree};
use std::alloc::Global;
use wg_num::{Memory, push};

/// The most elements that an array has, and its greatest length, in elements: a limit of this compiler.
pub const MOST_ELEMENTS: u64 = 1_048_576;

/// A declarator: what is declared, apart from the type in front of it (C99, sections 6.7.5 and 6.7.8).
#[derive(Clone, Copy)]
pub struct Declarator<'a> {
    pub name: &'a [u8],
    /// The number of the token of its name.
    pub token: u32,
    /// Whether it is a pointer, and then whether it is `const` itself.
    pub star: Option<bool>,
    /// How many pairs of brackets it has.
    pub dimensions: usize,
    /// The lengths in the brackets: fewer where a pair is empty.
    pub lengths: &'a [Tree],
    pub init: Option<&'a Tree>,
}

/// Whether the pointer whose star is in front of some parts is `const` itself; `None` where there is no star (C99,
/// section 6.7.5.1).
#[tactic(auto, using(cl_meaning::proofs::Views::view_out))]
pub fn star_in(parts: &[Tree]) -> Option<bool>
    ensures { result ≡ spec.star_in (views parts.now) }
{
    match parts {
        [] => None,
        [part, ..] => match part.form {
            Form::StarNode => Some(is_const(part.word.bytes())),
            _ => None,
        },
    }
}

/// The parts behind the star.
#[tactic(auto, using(cl_meaning::proofs::Views::view_out))]
fn behind_star(parts: &[Tree]) -> &[Tree]
    ensures { map view result.now ≡ spec.listed (spec.behind_star (views parts.now)) }
{
    match parts {
        [] => parts,
        [part, others @ ..] => match part.form {
            Form::StarNode => others,
            _ => parts,
        },
    }
}

/// The number of the token behind a star, or else the first one.
#[tactic(auto, using(cl_meaning::proofs::Views::view_out))]
fn name_token(first: u32, parts: &[Tree]) -> Result<u32, Memory>
    ensures { IfOk result (λ t. t ≡ spec.name_token first (views parts.now)) }
{
    match parts {
        [] => Ok(first),
        [part, ..] => match part.form {
            Form::StarNode => {
                if part.last == u32::MAX {
                    return Err(Memory);
                }
                Ok(part.last + 1)
            }
            _ => Ok(first),
        },
    }
}

fn but_last(trees: &[Tree]) -> &[Tree]
    ensures { map view result.now ≡ spec.but_last (map view trees.now) }
{
    match trees {
        [] => trees,
        [front @ .., _] => front,
    }
}

fn last_one(trees: &[Tree]) -> Option<&Tree>
    ensures { option_map (λ t. view t.now) result ≡ spec.last_one (map view trees.now) }
{
    match trees {
        [] => None,
        [.., tree] => Some(tree),
    }
}

/// The declarator of a node with these own words, this first token and these parts (C99, section 6.7.5). `Memory`
/// where the number of the token behind its star would pass 32 bits.
pub fn declarator_in<'a>(
    word: &'a [u8],
    first: u32,
    parts: &'a [Tree],
) -> Result<Declarator<'a>, Memory>
    ensures { IfOk result (λ d. declarator_view d ≡ spec.declarator_in word.now first (views parts.now)) }
{
    let token = name_token(first, parts)?;
    let star = star_in(parts);
    let others = behind_star(parts);
    let name = name_of(word);
    let dimensions = dimensions_of(word);
    if is_set(word) {
        return Ok(Declarator {
            name,
            token,
            star,
            dimensions,
            lengths: but_last(others),
            init: last_one(others),
        });
    }
    Ok(Declarator {
        name,
        token,
        star,
        dimensions,
        lengths: others,
        init: None,
    })
}

/// A length of an array, in elements: the value of a constant expression from 1 to 1,048,576; `None` where it is none
/// (C99, section 6.7.5.2).
pub fn length_in(tree: &Tree) -> Option<u64>
    ensures same { result ≡ spec.length_in (view tree.now) }
    ensures most { IfSome result (λ n. n ≤ 1048576) }
{
    let constant = constant_of(tree)?;
    if constant.value < 1 || constant.value > MOST_ELEMENTS as i128 {
        return None;
    }
    Some(constant.value as u64)
}

fn lengths_in(alloc: Global, trees: &[Tree]) -> Result<Option<Vec<u64>>, Memory>
    ensures same { IfOk result (λ o. option_map (λ v. v.items) o ≡ spec.lengths_in (map view trees.now)) }
    ensures most { IfOk result (λ o. IfSome o (λ v. All (λ n. n ≤ 1048576) v.items)) }
{
    let mut lengths = Vec::new(alloc);
    for tree in trees {
        match length_in(tree) {
            Some(length) => push(&mut lengths, length)?,
            None => return Ok(None),
        }
    }
    Ok(Some(lengths))
}

/// Whether an array can have these lengths: three at most, and so many elements at most.
fn is_allowed(lengths: &[u64]) -> bool
    requires { All (λ n. n ≤ 1048576) lengths.now }
    ensures { result ≡ (nat_le (length lengths.now) 3 && nat_le (product lengths.now) 1048576) }
{
    match lengths {
        [] => true,
        [a] => *a <= MOST_ELEMENTS,
        [a, b] => *a * *b <= MOST_ELEMENTS,
        [a, b, c] => *a * (*b * *c) <= MOST_ELEMENTS,
        _ => false,
    }
}

fn allowed_lengths(alloc: Global, trees: &[Tree]) -> Result<Option<Vec<u64>>, Memory>
    ensures { IfOk result (λ o. option_map (λ v. v.items) o ≡ spec.allowed (spec.lengths_in (map view trees.now))) }
{
    match lengths_in(alloc, trees)? {
        Some(lengths) => {
            if is_allowed(&lengths) {
                return Ok(Some(lengths));
            }
            Ok(None)
        }
        None => Ok(None),
    }
}

/// Whether there is an initialiser, and it is a list in braces (C99, section 6.7.8).
#[tactic(auto, using(cl_meaning::proofs::Views::view_out))]
pub fn has_list(declarator: &Declarator) -> bool
    ensures { result ≡ spec.is_list (declarator_view declarator.now).init }
{
    match declarator.init {
        Some(tree) => match tree.form {
            Form::ListNode => true,
            _ => false,
        },
        None => false,
    }
}

/// How many parts the initialiser has: those of a list in braces are its values; 0 where there is none (C99, section
/// 6.7.8).
#[tactic(auto, using(cl_meaning::proofs::Views::view_out))]
pub fn initialiser_count(declarator: &Declarator) -> usize
    ensures { result ≡ length (spec.initialisers (declarator_view declarator.now).init) }
{
    match declarator.init {
        Some(tree) => tree.parts.len(),
        None => 0,
    }
}

/// The length of an array whose brackets are empty: the number of its initialisers (C99, section 6.7.8).
fn counted_length(alloc: Global, declarator: &Declarator) -> Result<Option<Vec<u64>>, Memory>
    ensures { IfOk result (λ o. option_map (λ v. v.items) o ≡
        spec.counted_length (declarator_view declarator.now)) }
{
    let count = initialiser_count(declarator);
    if declarator.dimensions != 1 || !has_list(declarator) {
        return Ok(None);
    }
    if count < 1 || count > MOST_ELEMENTS as usize {
        return Ok(None);
    }
    let mut lengths = Vec::new(alloc);
    push(&mut lengths, count as u64)?;
    Ok(Some(lengths))
}

/// The lengths of an array in elements, outermost first; a list in braces gives that of a single pair of empty
/// brackets (C99, sections 6.7.5.2 and 6.7.8). `None` where they are at fault: no constant from 1 to 1,048,576, more
/// than three, or a product above that. `Memory` where memory was refused.
pub fn dims_of(alloc: Global, declarator: &Declarator) -> Result<Option<Vec<u64>>, Memory>
    ensures { IfOk result (λ o. option_map (λ v. v.items) o ≡ spec.dims_of (declarator_view declarator.now)) }
{
    if declarator.lengths.len() == declarator.dimensions {
        return allowed_lengths(alloc, declarator.lengths);
    }
    counted_length(alloc, declarator)
}

/// The lengths of an object of one element.
pub(crate) fn one_length(alloc: Global) -> Result<Vec<u64>, Memory>
    ensures { IfOk result (λ v. v.items ≡ 1 ∷ []) }
{
    let mut lengths = Vec::new(alloc);
    push(&mut lengths, 1)?;
    Ok(lengths)
}

/// What one index of an array of these lengths reaches: an element, a row of so many, or a plane of so many rows
/// (C99, section 6.5.2.1).
pub fn each_of(lengths: &[u64]) -> Each
    ensures { result ≡ spec.each_of lengths.now }
{
    match lengths {
        [_, b] => Each::Row { length: *b },
        [_, b, c] => Each::Plane {
            rows: *b,
            length: *c,
        },
        _ => Each::Element,
    }
}

/// The type that is the first of these parts, as in a parameter or a cast; `None` where there is none, or it is
/// outside the profile (C99, section 6.7.2).
pub fn first_type(parts: &[Tree]) -> Option<Declared>
    ensures { result ≡ spec.first_type (views parts.now) }
{
    match parts {
        [] => None,
        [part, ..] => declared_of(part),
    }
}

/// Whether the pointer whose star is behind the type of a parameter is `const` itself; `None` where there is no star
/// (C99, section 6.7.5.1).
pub fn second_star(parts: &[Tree]) -> Option<bool>
    ensures { result ≡ spec.second_star (views parts.now) }
{
    match parts {
        [] => None,
        [_, others @ ..] => star_in(others),
    }
}
