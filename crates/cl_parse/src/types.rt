//! Types: what the tokens of a type, a star or an address space spell (OpenCL 1.2, sections 6.1, 6.5 and 6.7).

ghost use Rattle.std.specs.Prelude.{true};
ghost use Rattle.cl_tree.specs.Syntax.{view};
ghost use Rattle.cl_read.specs.Gives.{Gives, spots};
ghost use Rattle.cl_read.specs.Members.{members};
ghost use Rattle.cl_read.specs.Reading.{readers, qualifiers, qualifier_of, core_of, base_of, front_of, behind_of};

use cl_read::cursor::{Fail, next_in, next_is, no_tree, take, take_in};
use cl_read::members::{Members, concat, extend, nothing, of_token};
use cl_read::node::{
    Node, Nodes, first_of_own, first_token, last_of_own, last_token, make, of_word, one,
};
use cl_read::set::Set;
use cl_tree::{Form, Leaf, Terminal};
use std::alloc::Global;

#[tactic(auto, unfolding(cl_read::specs::Reading::qualifier_of))]
fn qualifier(
    alloc: Global,
    behind_star: bool,
    items: &[Leaf],
) -> Result<(Members<'_>, &[Leaf]), Fail>
    ensures { Gives (λ x. ((true, members x.0), x.1.now)) result (qualifier_of behind_star items.now) }
{
    let (word, rest) = take_in(items, Set::Qualifier(behind_star))?;
    Ok((of_token(alloc, word)?, rest))
}

/// The words that are no address space, behind a star or around a base type.
#[tactic(auto, using(cl_read::proofs::Loops::front_empty, cl_read::proofs::Loops::list_stops))]
fn qualifiers(
    alloc: Global,
    behind_star: bool,
    items: &[Leaf],
) -> Result<(Members<'_>, &[Leaf]), Fail>
    ensures { Gives (λ x. (members x.0, x.1.now)) result (qualifiers behind_star items.now) }
{
    let mut list = nothing(alloc);
    let mut rest = items;
    'members: while next_in(rest, Set::Qualifier(behind_star)) {
        let (member, behind) = qualifier(alloc, behind_star, rest)?;
        list = extend(list, member)?;
        rest = behind;
    }
    Ok((list, rest))
}

/// The words of a base type behind its sign.
#[tactic(auto, unfolding(cl_read::specs::Reading::core_of))]
fn core(alloc: Global, items: &[Leaf]) -> Result<(Vec<&Leaf>, &[Leaf]), Fail>
    ensures { Gives (λ x. (spots x.0.items, x.1.now)) result (core_of items.now) }
{
    if next_is(items, Terminal::Char) {
        let (word, rest) = take(items, Terminal::Char)?;
        return Ok((vec![in alloc; word]?, rest));
    }
    if next_is(items, Terminal::Int) {
        let (word, rest) = take(items, Terminal::Int)?;
        return Ok((vec![in alloc; word]?, rest));
    }
    let (word, rest) = take(items, Terminal::Length)?;
    if !next_is(rest, Terminal::Int) {
        return Ok((vec![in alloc; word]?, rest));
    }
    let (int, rest) = take(rest, Terminal::Int)?;
    Ok((vec![in alloc; word, int]?, rest))
}

/// The words of a base type.
#[tactic(auto, unfolding(cl_read::specs::Reading::base_of))]
fn base(alloc: Global, items: &[Leaf]) -> Result<(Vec<&Leaf>, &[Leaf]), Fail>
    ensures { Gives (λ x. (spots x.0.items, x.1.now)) result (base_of items.now) }
{
    if next_is(items, Terminal::TypeWord) {
        let (word, rest) = take(items, Terminal::TypeWord)?;
        return Ok((vec![in alloc; word]?, rest));
    }
    if !next_is(items, Terminal::Sign) {
        return core(alloc, items);
    }
    let (sign, rest) = take(items, Terminal::Sign)?;
    let own = vec![in alloc; sign]?;
    if !next_in(rest, Set::Core) {
        return Ok((own, rest));
    }
    let (words, rest) = core(alloc, rest)?;
    Ok((concat(own, words)?, rest))
}

/// An address space.
#[tactic(auto, using(cl_read::proofs::Equations::equations), unfolding(cl_read::specs::Reading::space_of))]
fn space(alloc: Global, budget: u32, items: &[Leaf]) -> Result<(Node, &[Leaf]), Fail>
    ensures { Gives (λ x. (view x.0.tree, x.1.now)) result ((readers budget).space items.now) }
{
    if budget == 0 {
        return Err(no_tree(items, Set::Only(Terminal::Space)));
    }
    let (word, rest) = take(items, Terminal::Space)?;
    Ok((of_word(alloc, Form::SpaceNode, word)?, rest))
}

/// The star of a pointer.
#[tactic(auto, using(cl_read::proofs::Equations::equations), unfolding(cl_read::specs::Reading::star_of))]
pub(crate) fn star(alloc: Global, budget: u32, items: &[Leaf]) -> Result<(Node, &[Leaf]), Fail>
    ensures { Gives (λ x. (view x.0.tree, x.1.now)) result ((readers budget).star items.now) }
{
    if budget == 0 {
        return Err(no_tree(items, Set::Only(Terminal::Star)));
    }
    let (mark, rest) = take(items, Terminal::Star)?;
    let (list, rest) = qualifiers(alloc, true, rest)?;
    let last = last_of_own(&list.own, mark.number);
    let own = concat(vec![in alloc; mark]?, list.own)?;
    let node = make(
        alloc,
        Form::StarNode,
        &own,
        mark.number,
        last,
        Nodes::new(alloc),
    )?;
    Ok((node, rest))
}

/// A type with its address space before its base, behind the words before that.
#[tactic(auto, unfolding(cl_read::specs::Reading::front_of))]
fn type_front<'a>(
    alloc: Global,
    room: u32,
    own: Vec<&'a Leaf>,
    items: &'a [Leaf],
) -> Result<(Node, &'a [Leaf]), Fail>
    ensures { Gives (λ x. (view x.0.tree, x.1.now)) result (front_of (readers room) (spots own.entry.items)
        items.now) }
{
    let (space, rest) = space(alloc, room, items)?;
    let (before, rest) = qualifiers(alloc, false, rest)?;
    let (base, rest) = base(alloc, rest)?;
    let (behind, rest) = qualifiers(alloc, false, rest)?;
    let first = first_of_own(&own, first_token(&space));
    let last = last_of_own(&behind.own, last_of_own(&base, 0));
    let words = concat(base, behind.own)?;
    let words = concat(before.own, words)?;
    let words = concat(own, words)?;
    let parts = one(alloc, space)?;
    Ok((
        make(alloc, Form::TypeNode, &words, first, last, parts)?,
        rest,
    ))
}

/// A type with its address space behind its base, or with none, behind the words before its base.
#[tactic(auto, unfolding(cl_read::specs::Reading::behind_of))]
fn type_behind<'a>(
    alloc: Global,
    room: u32,
    own: Vec<&'a Leaf>,
    items: &'a [Leaf],
) -> Result<(Node, &'a [Leaf]), Fail>
    ensures { Gives (λ x. (view x.0.tree, x.1.now)) result (behind_of (readers room) (spots own.entry.items)
        items.now) }
{
    let (base, rest) = base(alloc, items)?;
    let (before, rest) = qualifiers(alloc, false, rest)?;
    if !next_is(rest, Terminal::Space) {
        let words = concat(base, before.own)?;
        let words = concat(own, words)?;
        let first = first_of_own(&words, 0);
        let last = last_of_own(&words, 0);
        let node = make(
            alloc,
            Form::TypeNode,
            &words,
            first,
            last,
            Nodes::new(alloc),
        )?;
        return Ok((node, rest));
    }
    let (space, rest) = space(alloc, room, rest)?;
    let (behind, rest) = qualifiers(alloc, false, rest)?;
    let first = first_of_own(&own, first_of_own(&base, 0));
    let last = last_of_own(&behind.own, last_token(&space));
    let words = concat(before.own, behind.own)?;
    let words = concat(base, words)?;
    let words = concat(own, words)?;
    let parts = one(alloc, space)?;
    Ok((
        make(alloc, Form::TypeNode, &words, first, last, parts)?,
        rest,
    ))
}

/// A type.
#[tactic(auto, using(cl_read::proofs::Equations::equations), unfolding(cl_read::specs::Reading::type_of))]
pub(crate) fn type_name(alloc: Global, budget: u32, items: &[Leaf]) -> Result<(Node, &[Leaf]), Fail>
    ensures { Gives (λ x. (view x.0.tree, x.1.now)) result ((readers budget).type' items.now) }
{
    if budget == 0 {
        return Err(no_tree(items, Set::Type));
    }
    let (list, rest) = qualifiers(alloc, false, items)?;
    if next_is(rest, Terminal::Space) {
        return type_front(alloc, budget - 1, list.own, rest);
    }
    type_behind(alloc, budget - 1, list.own, rest)
}
