//! Declarations (OpenCL 1.2, sections 6.5 and 6.9; C99, section 6.7).

ghost use Rattle.std.specs.Prelude.{true};
ghost use Rattle.cl_tree.specs.Syntax.{view, views};
ghost use Rattle.cl_tree.specs.declared.terminal.Terminal.TheVariants as terminals;
ghost use Rattle.cl_read.specs.Gives.{Gives, spot_of};
ghost use Rattle.cl_read.specs.Members.{members};
ghost use Rattle.cl_read.specs.Reading.{is, readers, all_of, behind_comma, if_begun, unless, dimension_of, init_of};
ghost use Rattle.cl_read.specs.Reading.{declared, declare_rest, element_of};

use crate::expression::{assignment, conditional};
use crate::types::{star, type_name};
use cl_read::cursor::{Fail, next_is, no_tree, take};
use cl_read::members::{Members, concat, extend, nothing, of_token, of_token_and_tree};
use cl_read::node::{
    Node, Nodes, append, first_token, first_token_in, last_of_own, last_token, make, one, two,
};
use cl_read::set::Set;
use cl_tree::{Form, Leaf, Terminal};
use std::alloc::Global;

/// The star of a pointer, if there is one.
pub(crate) fn stars(alloc: Global, room: u32, items: &[Leaf]) -> Result<(Nodes, &[Leaf]), Fail>
    ensures { Gives (λ x. (views x.0.trees.items, x.1.now)) result (if_begun (is terminals.Star) (readers room).star
        items.now) }
{
    if !next_is(items, Terminal::Star) {
        return Ok((Nodes::new(alloc), items));
    }
    let (mark, rest) = star(alloc, room, items)?;
    Ok((one(alloc, mark)?, rest))
}

/// The length between brackets, if there is one.
fn length_of(alloc: Global, room: u32, items: &[Leaf]) -> Result<(Nodes, &[Leaf]), Fail>
    ensures { Gives (λ x. (views x.0.trees.items, x.1.now)) result
        (unless (is terminals.CloseBracket) (readers room).cond' items.now) }
{
    if next_is(items, Terminal::CloseBracket) {
        return Ok((Nodes::new(alloc), items));
    }
    let (length, rest) = conditional(alloc, room, items)?;
    Ok((one(alloc, length)?, rest))
}

#[tactic(auto, unfolding(cl_read::specs::Reading::dimension_of))]
fn dimension(alloc: Global, room: u32, items: &[Leaf]) -> Result<(Members<'_>, &[Leaf]), Fail>
    ensures { Gives (λ x. ((true, members x.0), x.1.now)) result (dimension_of (readers room) items.now) }
{
    let (mark, rest) = take(items, Terminal::OpenBracket)?;
    let (parts, rest) = length_of(alloc, room, rest)?;
    let (close, rest) = take(rest, Terminal::CloseBracket)?;
    let own = vec![in alloc; mark, close]?;
    Ok((Members { own, parts }, rest))
}

/// The dimensions of an array.
#[tactic(auto, using(cl_read::proofs::Loops::front_empty, cl_read::proofs::Loops::list_stops))]
fn dimensions(alloc: Global, room: u32, items: &[Leaf]) -> Result<(Members<'_>, &[Leaf]), Fail>
    ensures { Gives (λ x. (members x.0, x.1.now)) result
        (all_of (is terminals.OpenBracket) (dimension_of (readers room)) items.now) }
{
    let mut list = nothing(alloc);
    let mut rest = items;
    'members: while next_is(rest, Terminal::OpenBracket) {
        let (member, behind) = dimension(alloc, room, rest)?;
        list = extend(list, member)?;
        rest = behind;
    }
    Ok((list, rest))
}

/// What a variable is initialised with.
#[tactic(auto, unfolding(cl_read::specs::Reading::init_of))]
fn initial(alloc: Global, room: u32, items: &[Leaf]) -> Result<(Node, &[Leaf]), Fail>
    ensures { Gives (λ x. (view x.0.tree, x.1.now)) result (init_of (readers room) items.now) }
{
    if next_is(items, Terminal::OpenBrace) {
        return initializers(alloc, room, items);
    }
    assignment(alloc, room, items)
}

/// A declarator, behind its name.
#[tactic(auto, unfolding(cl_read::specs::Reading::declared))]
pub(crate) fn declared<'a>(
    alloc: Global,
    room: u32,
    marks: Nodes,
    name: &'a Leaf,
    items: &'a [Leaf],
) -> Result<(Node, &'a [Leaf]), Fail>
    ensures { Gives (λ x. (view x.0.tree, x.1.now)) result (declared (readers room) (views marks.trees.items)
        (spot_of name.now) items.now) }
{
    let first = first_token_in(&marks, name.number);
    let (list, rest) = dimensions(alloc, room, items)?;
    if !next_is(rest, Terminal::Equals) {
        let last = last_of_own(&list.own, name.number);
        let own = concat(vec![in alloc; name]?, list.own)?;
        let parts = append(marks, list.parts)?;
        return Ok((
            make(alloc, Form::DeclaratorNode, &own, first, last, parts)?,
            rest,
        ));
    }
    let (equals, rest) = take(rest, Terminal::Equals)?;
    let (value, rest) = initial(alloc, room, rest)?;
    let last = last_token(&value);
    let own = concat(list.own, vec![in alloc; equals]?)?;
    let own = concat(vec![in alloc; name]?, own)?;
    let parts = append(list.parts, one(alloc, value)?)?;
    let parts = append(marks, parts)?;
    Ok((
        make(alloc, Form::DeclaratorNode, &own, first, last, parts)?,
        rest,
    ))
}

#[tactic(auto, using(cl_read::proofs::Equations::equations), unfolding(cl_read::specs::Reading::declarator_of))]
pub(crate) fn declarator(
    alloc: Global,
    budget: u32,
    items: &[Leaf],
) -> Result<(Node, &[Leaf]), Fail>
    ensures { Gives (λ x. (view x.0.tree, x.1.now)) result ((readers budget).declarator items.now) }
{
    if budget == 0 {
        return Err(no_tree(items, Set::Declarator));
    }
    let (marks, rest) = stars(alloc, budget - 1, items)?;
    let (name, rest) = take(rest, Terminal::Name)?;
    declared(alloc, budget - 1, marks, name, rest)
}

fn further_declarator(
    alloc: Global,
    room: u32,
    items: &[Leaf],
) -> Result<(Members<'_>, &[Leaf]), Fail>
    ensures { Gives (λ x. ((true, members x.0), x.1.now)) result (behind_comma (readers room).declarator items.now) }
{
    let (comma, rest) = take(items, Terminal::Comma)?;
    let (other, rest) = declarator(alloc, room, rest)?;
    Ok((of_token_and_tree(alloc, comma, other)?, rest))
}

/// The declarators behind the first one.
#[tactic(auto, using(cl_read::proofs::Loops::front_empty, cl_read::proofs::Loops::list_stops))]
fn declarators(alloc: Global, room: u32, items: &[Leaf]) -> Result<(Members<'_>, &[Leaf]), Fail>
    ensures { Gives (λ x. (members x.0, x.1.now)) result
        (all_of (is terminals.Comma) (behind_comma (readers room).declarator) items.now) }
{
    let mut list = nothing(alloc);
    let mut rest = items;
    'members: while next_is(rest, Terminal::Comma) {
        let (member, behind) = further_declarator(alloc, room, rest)?;
        list = extend(list, member)?;
        rest = behind;
    }
    Ok((list, rest))
}

/// A declaration, behind its first declarator.
#[tactic(auto, unfolding(cl_read::specs::Reading::declare_rest))]
pub(crate) fn declaration_behind(
    alloc: Global,
    room: u32,
    target: Node,
    head: Node,
    items: &[Leaf],
) -> Result<(Node, &[Leaf]), Fail>
    ensures { Gives (λ x. (view x.0.tree, x.1.now)) result (declare_rest (readers room) (view target.tree)
        (view head.tree) items.now) }
{
    let first = first_token(&target);
    let (list, rest) = declarators(alloc, room, items)?;
    let (end, rest) = take(rest, Terminal::Semicolon)?;
    let own = concat(list.own, vec![in alloc; end]?)?;
    let parts = append(two(alloc, target, head)?, list.parts)?;
    Ok((
        make(alloc, Form::DeclareNode, &own, first, end.number, parts)?,
        rest,
    ))
}

#[tactic(auto, using(cl_read::proofs::Equations::equations), unfolding(cl_read::specs::Reading::declare_of))]
pub(crate) fn declaration(
    alloc: Global,
    budget: u32,
    items: &[Leaf],
) -> Result<(Node, &[Leaf]), Fail>
    ensures { Gives (λ x. (view x.0.tree, x.1.now)) result ((readers budget).declare items.now) }
{
    if budget == 0 {
        return Err(no_tree(items, Set::Type));
    }
    let (target, rest) = type_name(alloc, budget - 1, items)?;
    let (head, rest) = declarator(alloc, budget - 1, rest)?;
    declaration_behind(alloc, budget - 1, target, head, rest)
}

/// A comma and an initialiser, or the comma that ends a list; and whether the list may go on.
#[tactic(auto, unfolding(cl_read::specs::Reading::element_of))]
fn element(alloc: Global, room: u32, items: &[Leaf]) -> Result<((bool, Members<'_>), &[Leaf]), Fail>
    ensures { Gives (λ x. ((x.0.0, members x.0.1), x.1.now)) result (element_of (readers room) items.now) }
{
    let (comma, rest) = take(items, Terminal::Comma)?;
    if next_is(rest, Terminal::CloseBrace) {
        return Ok(((false, of_token(alloc, comma)?), rest));
    }
    let (value, rest) = assignment(alloc, room, rest)?;
    Ok(((true, of_token_and_tree(alloc, comma, value)?), rest))
}

/// The elements of a list behind the first one.
#[tactic(auto, using(cl_read::proofs::Loops::front_empty, cl_read::proofs::Loops::list_stops))]
fn elements(alloc: Global, room: u32, items: &[Leaf]) -> Result<(Members<'_>, &[Leaf]), Fail>
    ensures { Gives (λ x. (members x.0, x.1.now)) result (all_of (is terminals.Comma) (element_of (readers room))
        items.now) }
{
    let mut list = nothing(alloc);
    let mut rest = items;
    'members: while next_is(rest, Terminal::Comma) {
        let ((goes_on, member), behind) = element(alloc, room, rest)?;
        list = extend(list, member)?;
        rest = behind;
        if !goes_on {
            return Ok((list, rest));
        }
    }
    Ok((list, rest))
}

/// A list of initialisers between braces.
#[tactic(auto, using(cl_read::proofs::Equations::equations), unfolding(cl_read::specs::Reading::initializers_of))]
fn initializers(alloc: Global, budget: u32, items: &[Leaf]) -> Result<(Node, &[Leaf]), Fail>
    ensures { Gives (λ x. (view x.0.tree, x.1.now)) result ((readers budget).initializers items.now) }
{
    if budget == 0 {
        return Err(no_tree(items, Set::Only(Terminal::OpenBrace)));
    }
    let (mark, rest) = take(items, Terminal::OpenBrace)?;
    let (value, rest) = assignment(alloc, budget - 1, rest)?;
    let (list, rest) = elements(alloc, budget - 1, rest)?;
    let (close, rest) = take(rest, Terminal::CloseBrace)?;
    let own = concat(list.own, vec![in alloc; close]?)?;
    let own = concat(vec![in alloc; mark]?, own)?;
    let parts = append(one(alloc, value)?, list.parts)?;
    let node = make(
        alloc,
        Form::ListNode,
        &own,
        mark.number,
        close.number,
        parts,
    )?;
    Ok((node, rest))
}
