//! Expressions (OpenCL 1.2, sections 6.2 and 6.3; C99, section 6.5).

ghost use Rattle.std.specs.Prelude.{◌≡◌, ◌≤◌, ◌<◌, ◌-◌, ◌^◌, true, IfOk};
ghost use Rattle.cl_tree.specs.Syntax.{view};
ghost use Rattle.cl_tree.specs.Nodes.{prefix_node};
ghost use Rattle.cl_tree.specs.Precedence.{joins, form_of};
ghost use Rattle.cl_tree.specs.declared.terminal.Terminal.TheVariants as terminals;
ghost use Rattle.cl_read.specs.Gives.{Gives, spot_of};
ghost use Rattle.cl_read.specs.Members.{members};
ghost use Rattle.cl_read.specs.Reading.{is, readers, chain, all_of, behind_comma, level_step, expr_step, postfix_step};
ghost use Rattle.cl_read.specs.Reading.{selection_of};
ghost use Rattle.cl_read.specs.Reading.{postfixed, paren_of, opened, sizeof_of, operand_of, primary_of, call_of};

use crate::types::type_name;
use cl_read::cursor::{Fail, next_in, next_is, no_tree, take, take_in};
use cl_read::members::{Members, concat, extend, nothing, of_token_and_tree};
use cl_read::node::{
    Node, Nodes, append, first_token, fits, is_unary_node, last_token, make, of_word, one, pair,
    three, two,
};
use cl_read::set::Set;
use cl_tree::{Form, Leaf, Terminal};
use std::alloc::{AllocError, Global};

/// The production of the level of that number.
fn level_form(number: u32) -> Form
    requires { number < 10 }
    ensures { result ≡ form_of number }
{
    match number {
        0 => Form::TermNode,
        1 => Form::SumNode,
        2 => Form::ShiftNode,
        3 => Form::OrderNode,
        4 => Form::EqualNode,
        5 => Form::BandNode,
        6 => Form::BxorNode,
        7 => Form::BorNode,
        8 => Form::AndNode,
        _ => Form::OrNode,
    }
}

/// Assignments, with commas between them.
#[cycle(expression)]
#[tactic(auto, using(cl_read::proofs::Equations::equations))]
pub(crate) fn expression(
    alloc: Global,
    budget: u32,
    items: &[Leaf],
) -> Result<(Node, &[Leaf]), Fail>
    ensures { Gives (λ x. (view x.0.tree, x.1.now)) result ((readers budget).expr items.now) }
{
    if budget == 0 {
        return Err(no_tree(items, Set::Expression));
    }
    let (left, rest) = assignment(alloc, budget, items)?;
    expression_chain(alloc, budget - 1, left, rest)
}

#[cycle(expression)]
#[tactic(auto, using(crate::proofs::Chains::chains), unfolding(cl_read::specs::Reading::expr_step))]
fn expression_chain(
    alloc: Global,
    room: u32,
    head: Node,
    items: &[Leaf],
) -> Result<(Node, &[Leaf]), Fail>
    requires { room < 2 ^ 32 - 1 }
    ensures { Gives (λ x. (view x.0.tree, x.1.now)) result
        (chain room (is terminals.Comma) (expr_step room (readers room)) room (view head.tree) items.now) }
{
    let mut left = head;
    let mut rest = items;
    let mut count = room;
    'operators: while next_is(rest, Terminal::Comma) {
        if count == 0 {
            return Err(Fail::Nesting { left: rest.len() });
        }
        if !fits(&left, room) {
            return Err(Fail::Nesting { left: rest.len() });
        }
        count -= 1;
        let (operator, behind) = take(rest, Terminal::Comma)?;
        let (right, behind) = assignment(alloc, room, behind)?;
        left = pair(alloc, Form::ExprNode, left, operator, right)?;
        rest = behind;
    }
    Ok((left, rest))
}

#[cycle(expression)]
#[tactic(auto, using(cl_read::proofs::Equations::equations), unfolding(cl_read::specs::Reading::assign_of))]
pub(crate) fn assignment(
    alloc: Global,
    budget: u32,
    items: &[Leaf],
) -> Result<(Node, &[Leaf]), Fail>
    ensures { Gives (λ x. (view x.0.tree, x.1.now)) result ((readers budget).assign items.now) }
{
    if budget == 0 {
        return Err(no_tree(items, Set::Expression));
    }
    let (left, rest) = conditional(alloc, budget, items)?;
    if !is_unary_node(&left) {
        return Ok((left, rest));
    }
    if !next_in(rest, Set::Assignment) {
        return Ok((left, rest));
    }
    let (operator, rest) = take_in(rest, Set::Assignment)?;
    let (right, rest) = assignment(alloc, budget - 1, rest)?;
    Ok((pair(alloc, Form::AssignNode, left, operator, right)?, rest))
}

#[cycle(expression)]
#[tactic(auto, using(crate::proofs::Chains::conditions), unfolding(cl_read::specs::Reading::cond_of))]
pub(crate) fn conditional(
    alloc: Global,
    budget: u32,
    items: &[Leaf],
) -> Result<(Node, &[Leaf]), Fail>
    ensures { Gives (λ x. (view x.0.tree, x.1.now)) result ((readers budget).cond' items.now) }
{
    if budget == 0 {
        return Err(no_tree(items, Set::Expression));
    }
    let (test, rest) = level(alloc, budget, 10, items)?;
    if !next_is(rest, Terminal::Question) {
        return Ok((test, rest));
    }
    let (question, rest) = take(rest, Terminal::Question)?;
    let (yes, rest) = expression(alloc, budget - 1, rest)?;
    let (colon, rest) = take(rest, Terminal::Colon)?;
    let (no, rest) = conditional(alloc, budget - 1, rest)?;
    let first = first_token(&test);
    let last = last_token(&no);
    let parts = three(alloc, test, yes, no)?;
    let node = make(
        alloc,
        Form::CondNode,
        &[question, colon],
        first,
        last,
        parts,
    )?;
    Ok((node, rest))
}

/// The operators of the levels below that number, from `*` to `||`.
#[cycle(expression)]
#[tactic(auto, using(cl_read::proofs::Equations::equations))]
fn level(alloc: Global, budget: u32, number: u32, items: &[Leaf]) -> Result<(Node, &[Leaf]), Fail>
    requires { number ≤ 10 }
    ensures { Gives (λ x. (view x.0.tree, x.1.now)) result ((readers budget).level number items.now) }
{
    if budget == 0 {
        return Err(no_tree(items, Set::Expression));
    }
    if number == 0 {
        return cast(alloc, budget, items);
    }
    let (left, rest) = level(alloc, budget, number - 1, items)?;
    level_chain(alloc, budget - 1, number - 1, left, rest)
}

#[cycle(expression)]
#[tactic(auto, using(crate::proofs::Chains::chains), unfolding(cl_read::specs::Reading::level_step))]
fn level_chain(
    alloc: Global,
    room: u32,
    number: u32,
    head: Node,
    items: &[Leaf],
) -> Result<(Node, &[Leaf]), Fail>
    requires operator { number < 10 }
    requires room { room < 2 ^ 32 - 1 }
    ensures { Gives (λ x. (view x.0.tree, x.1.now)) result
        (chain room (joins number) (level_step room (readers room) number) room (view head.tree) items.now) }
{
    let mut left = head;
    let mut rest = items;
    let mut count = room;
    'operators: while next_in(rest, Set::Level(number)) {
        if count == 0 {
            return Err(Fail::Nesting { left: rest.len() });
        }
        if !fits(&left, room) {
            return Err(Fail::Nesting { left: rest.len() });
        }
        count -= 1;
        let (operator, behind) = take_in(rest, Set::Level(number))?;
        let (right, behind) = level(alloc, room, number, behind)?;
        left = pair(alloc, level_form(number), left, operator, right)?;
        rest = behind;
    }
    Ok((left, rest))
}

#[cycle(expression)]
#[tactic(auto, using(cl_read::proofs::Equations::equations), unfolding(cl_read::specs::Reading::cast_of))]
fn cast(alloc: Global, budget: u32, items: &[Leaf]) -> Result<(Node, &[Leaf]), Fail>
    ensures { Gives (λ x. (view x.0.tree, x.1.now)) result ((readers budget).cast items.now) }
{
    if budget == 0 {
        return Err(no_tree(items, Set::Expression));
    }
    if !next_is(items, Terminal::Open) {
        return operand(alloc, budget - 1, items);
    }
    let (mark, rest) = take(items, Terminal::Open)?;
    cast_behind_open(alloc, budget - 1, mark, rest)
}

/// A cast or a parenthesis, and what follows it, behind its opening.
#[cycle(expression)]
#[tactic(auto, unfolding(cl_read::specs::Reading::opened))]
fn cast_behind_open<'a>(
    alloc: Global,
    room: u32,
    mark: &'a Leaf,
    items: &'a [Leaf],
) -> Result<(Node, &'a [Leaf]), Fail>
    requires { room < 2 ^ 32 - 1 }
    ensures { Gives (λ x. (view x.0.tree, x.1.now)) result (opened room (readers room) (spot_of mark.now) items.now) }
{
    if !next_in(items, Set::Type) {
        return parenthesis(alloc, room, mark, items);
    }
    let (target, rest) = type_name(alloc, room, items)?;
    let (close, rest) = take(rest, Terminal::Close)?;
    let (value, rest) = cast(alloc, room, rest)?;
    let last = last_token(&value);
    let parts = two(alloc, target, value)?;
    let node = make(
        alloc,
        Form::CastNode,
        &[mark, close],
        mark.number,
        last,
        parts,
    )?;
    Ok((node, rest))
}

/// A parenthesis, and what follows it, behind its opening.
#[cycle(expression)]
#[tactic(auto, unfolding(cl_read::specs::Reading::paren_of))]
fn parenthesis<'a>(
    alloc: Global,
    room: u32,
    mark: &'a Leaf,
    items: &'a [Leaf],
) -> Result<(Node, &'a [Leaf]), Fail>
    requires { room < 2 ^ 32 - 1 }
    ensures { Gives (λ x. (view x.0.tree, x.1.now)) result (paren_of room (readers room) (spot_of mark.now)
        items.now) }
{
    let (inner, rest) = expression(alloc, room, items)?;
    let (close, rest) = take(rest, Terminal::Close)?;
    let parts = one(alloc, inner)?;
    let node = make(
        alloc,
        Form::ParenNode,
        &[mark, close],
        mark.number,
        close.number,
        parts,
    )?;
    postfix_parts(alloc, room, node, rest)
}

#[cycle(expression)]
#[tactic(auto, using(cl_read::proofs::Equations::equations), unfolding(cl_read::specs::Reading::unary_of))]
fn unary(alloc: Global, budget: u32, items: &[Leaf]) -> Result<(Node, &[Leaf]), Fail>
    ensures { Gives (λ x. (view x.0.tree, x.1.now)) result ((readers budget).unary items.now) }
{
    if budget == 0 {
        return Err(no_tree(items, Set::Expression));
    }
    if !next_is(items, Terminal::Open) {
        return operand(alloc, budget - 1, items);
    }
    let (mark, rest) = take(items, Terminal::Open)?;
    parenthesis(alloc, budget - 1, mark, rest)
}

/// A unary that begins with no parenthesis.
#[cycle(expression)]
#[tactic(auto, unfolding(cl_read::specs::Reading::operand_of))]
fn operand(alloc: Global, room: u32, items: &[Leaf]) -> Result<(Node, &[Leaf]), Fail>
    requires { room < 2 ^ 32 - 1 }
    ensures { Gives (λ x. (view x.0.tree, x.1.now)) result (operand_of room (readers room) items.now) }
{
    if next_is(items, Terminal::Step) {
        let (operator, rest) = take(items, Terminal::Step)?;
        let (inner, rest) = unary(alloc, room, rest)?;
        return Ok((prefixed(alloc, operator, inner)?, rest));
    }
    if next_in(items, Set::Prefix) {
        let (operator, rest) = take_in(items, Set::Prefix)?;
        let (inner, rest) = cast(alloc, room, rest)?;
        return Ok((prefixed(alloc, operator, inner)?, rest));
    }
    if next_is(items, Terminal::Sizeof) {
        return size_of(alloc, room, items);
    }
    let (left, rest) = primary(alloc, room, items)?;
    postfix_parts(alloc, room, left, rest)
}

/// A unary of an operator before its operand.
fn prefixed(alloc: Global, operator: &Leaf, inner: Node) -> Result<Node, AllocError>
    ensures { IfOk result (λ x. view x.tree ≡ prefix_node (spot_of operator.now) (view inner.tree)) }
{
    let last = last_token(&inner);
    let parts = one(alloc, inner)?;
    make(
        alloc,
        Form::UnaryNode,
        &[operator],
        operator.number,
        last,
        parts,
    )
}

#[tactic(auto, unfolding(cl_read::specs::Reading::sizeof_of))]
fn size_of(alloc: Global, room: u32, items: &[Leaf]) -> Result<(Node, &[Leaf]), Fail>
    ensures { Gives (λ x. (view x.0.tree, x.1.now)) result (sizeof_of room (readers room) items.now) }
{
    let (word, rest) = take(items, Terminal::Sizeof)?;
    let (mark, rest) = take(rest, Terminal::Open)?;
    let (target, rest) = type_name(alloc, room, rest)?;
    let (close, rest) = take(rest, Terminal::Close)?;
    let parts = one(alloc, target)?;
    let own = [word, mark, close];
    let node = make(
        alloc,
        Form::UnaryNode,
        &own,
        word.number,
        close.number,
        parts,
    )?;
    Ok((node, rest))
}

/// The indexes and steps behind an operand.
#[cycle(expression)]
#[tactic(auto, using(crate::proofs::Chains::chains), unfolding(cl_read::specs::Reading::postfixed))]
fn postfix_parts(
    alloc: Global,
    room: u32,
    head: Node,
    items: &[Leaf],
) -> Result<(Node, &[Leaf]), Fail>
    requires { room < 2 ^ 32 - 1 }
    ensures { Gives (λ x. (view x.0.tree, x.1.now)) result (postfixed room (readers room) (view head.tree) items.now) }
{
    let mut left = head;
    let mut rest = items;
    let mut count = room;
    'operators: while next_in(rest, Set::Postfix) {
        if count == 0 {
            return Err(Fail::Nesting { left: rest.len() });
        }
        if !fits(&left, room) {
            return Err(Fail::Nesting { left: rest.len() });
        }
        count -= 1;
        let (longer, behind) = postfix_part(alloc, room, left, rest)?;
        left = longer;
        rest = behind;
    }
    Ok((left, rest))
}

/// A selection of components behind an expression.
#[tactic(auto, unfolding(cl_read::specs::Reading::selection_of))]
fn selection(alloc: Global, left: Node, items: &[Leaf]) -> Result<(Node, &[Leaf]), Fail>
    ensures { Gives (λ x. (view x.0.tree, x.1.now)) result (selection_of (view left.tree) items.now) }
{
    let first = first_token(&left);
    let (point, rest) = take(items, Terminal::Point)?;
    let (name, rest) = take(rest, Terminal::Name)?;
    let parts = one(alloc, left)?;
    let own = [point, name];
    let node = make(alloc, Form::PostfixNode, &own, first, name.number, parts)?;
    Ok((node, rest))
}

/// One index or step behind an operand.
#[cycle(expression)]
#[tactic(auto, unfolding(cl_read::specs::Reading::postfix_step))]
fn postfix_part(
    alloc: Global,
    room: u32,
    left: Node,
    items: &[Leaf],
) -> Result<(Node, &[Leaf]), Fail>
    ensures { Gives (λ x. (view x.0.tree, x.1.now)) result (postfix_step room (readers room) (view left.tree)
        items.now) }
{
    let first = first_token(&left);
    if next_is(items, Terminal::Point) {
        return selection(alloc, left, items);
    }
    if !next_is(items, Terminal::OpenBracket) {
        let (step, rest) = take(items, Terminal::Step)?;
        let parts = one(alloc, left)?;
        let node = make(alloc, Form::PostfixNode, &[step], first, step.number, parts)?;
        return Ok((node, rest));
    }
    let (mark, rest) = take(items, Terminal::OpenBracket)?;
    let (inner, rest) = expression(alloc, room, rest)?;
    let (close, rest) = take(rest, Terminal::CloseBracket)?;
    let parts = two(alloc, left, inner)?;
    let own = [mark, close];
    let node = make(alloc, Form::PostfixNode, &own, first, close.number, parts)?;
    Ok((node, rest))
}

/// A number, a truth word, a variable or a call.
#[cycle(expression)]
#[tactic(auto, unfolding(cl_read::specs::Reading::primary_of))]
fn primary(alloc: Global, room: u32, items: &[Leaf]) -> Result<(Node, &[Leaf]), Fail>
    ensures { Gives (λ x. (view x.0.tree, x.1.now)) result (primary_of room (readers room) items.now) }
{
    if next_is(items, Terminal::Truth) {
        let (word, rest) = take(items, Terminal::Truth)?;
        return Ok((of_word(alloc, Form::TruthNode, word)?, rest));
    }
    if !next_is(items, Terminal::Name) {
        let (number, rest) = take(items, Terminal::Number)?;
        return Ok((of_word(alloc, Form::NumberNode, number)?, rest));
    }
    let (name, rest) = take(items, Terminal::Name)?;
    if !next_is(rest, Terminal::Open) {
        return Ok((of_word(alloc, Form::VariableNode, name)?, rest));
    }
    let (mark, rest) = take(rest, Terminal::Open)?;
    call(alloc, room, name, mark, rest)
}

/// A call, behind its opening.
#[cycle(expression)]
#[tactic(auto, unfolding(cl_read::specs::Reading::call_of))]
fn call<'a>(
    alloc: Global,
    room: u32,
    name: &'a Leaf,
    mark: &'a Leaf,
    items: &'a [Leaf],
) -> Result<(Node, &'a [Leaf]), Fail>
    ensures { Gives (λ x. (view x.0.tree, x.1.now)) result (call_of room (readers room) (spot_of name.now)
        (spot_of mark.now) items.now) }
{
    let first = name.number;
    if next_is(items, Terminal::Close) {
        let (close, rest) = take(items, Terminal::Close)?;
        let own = [name, mark, close];
        let node = make(
            alloc,
            Form::CallNode,
            &own,
            first,
            close.number,
            Nodes::new(alloc),
        )?;
        return Ok((node, rest));
    }
    let (argument, rest) = assignment(alloc, room, items)?;
    let (others, rest) = arguments(alloc, room, rest)?;
    let (close, rest) = take(rest, Terminal::Close)?;
    let own = concat(others.own, vec![in alloc; close]?)?;
    let own = concat(vec![in alloc; name, mark]?, own)?;
    let parts = append(one(alloc, argument)?, others.parts)?;
    let node = make(alloc, Form::CallNode, &own, first, close.number, parts)?;
    Ok((node, rest))
}

/// The arguments of a call behind the first one.
#[cycle(expression)]
#[tactic(auto, using(cl_read::proofs::Loops::front_empty, cl_read::proofs::Loops::list_stops))]
fn arguments(alloc: Global, room: u32, items: &[Leaf]) -> Result<(Members<'_>, &[Leaf]), Fail>
    ensures { Gives (λ x. (members x.0, x.1.now)) result
        (all_of (is terminals.Comma) (behind_comma (readers room).assign) items.now) }
{
    let mut list = nothing(alloc);
    let mut rest = items;
    'members: while next_is(rest, Terminal::Comma) {
        let (member, behind) = further_argument(alloc, room, rest)?;
        list = extend(list, member)?;
        rest = behind;
    }
    Ok((list, rest))
}

#[cycle(expression)]
fn further_argument(
    alloc: Global,
    room: u32,
    items: &[Leaf],
) -> Result<(Members<'_>, &[Leaf]), Fail>
    ensures { Gives (λ x. ((true, members x.0), x.1.now)) result (behind_comma (readers room).assign items.now) }
{
    let (comma, rest) = take(items, Terminal::Comma)?;
    let (argument, rest) = assignment(alloc, room, rest)?;
    Ok((of_token_and_tree(alloc, comma, argument)?, rest))
}
