//! Statements (OpenCL 1.2, chapter 6; C99, section 6.8).

ghost use Rattle.std.specs.Prelude.{true, not};
ghost use Rattle.cl_tree.specs.Syntax.{view, views};
ghost use Rattle.cl_tree.specs.declared.terminal.Terminal.TheVariants as terminals;
ghost use Rattle.cl_read.specs.Starts.{same};
ghost use Rattle.cl_read.specs.Gives.{Gives};
ghost use Rattle.cl_read.specs.Members.{members};
ghost use Rattle.cl_read.specs.Reading.{is, readers, all_of, each, unless, line_of, block_of, if_of, while_of, do_of};
ghost use Rattle.cl_read.specs.Reading.{start_of, for_of, switch_of, case_of, default_of, leave_of, return_of, leaving};
ghost use Rattle.cl_read.specs.Reading.{labelled, simple_of};

use crate::declaration::declaration;
use crate::expression::{conditional, expression};
use cl_read::cursor::{Fail, next_differs, next_in, next_is, no_tree, take};
use cl_read::members::{Members, extend, nothing, of_tree};
use cl_read::node::{Node, Nodes, append, first_token_in, last_token, make, one, three, two};
use cl_read::set::Set;
use cl_tree::{Form, Leaf, Terminal};
use std::alloc::Global;

/// An expression, unless the token that ends it comes at once.
fn expression_before(
    alloc: Global,
    room: u32,
    end: Terminal,
    items: &[Leaf],
) -> Result<(Nodes, &[Leaf]), Fail>
    ensures { Gives (λ x. (views x.0.trees.items, x.1.now)) result (unless (is end) (readers room).expr items.now) }
{
    if next_is(items, end) {
        return Ok((Nodes::new(alloc), items));
    }
    let (value, rest) = expression(alloc, room, items)?;
    Ok((one(alloc, value)?, rest))
}

/// An expression as a statement, or none.
#[tactic(auto, unfolding(cl_read::specs::Reading::simple_of))]
fn plain(alloc: Global, room: u32, items: &[Leaf]) -> Result<(Node, &[Leaf]), Fail>
    ensures { Gives (λ x. (view x.0.tree, x.1.now)) result (simple_of (readers room) items.now) }
{
    let (parts, rest) = expression_before(alloc, room, Terminal::Semicolon, items)?;
    let (end, rest) = take(rest, Terminal::Semicolon)?;
    let first = first_token_in(&parts, end.number);
    Ok((
        make(alloc, Form::SimpleNode, &[end], first, end.number, parts)?,
        rest,
    ))
}

#[tactic(auto, using(cl_read::proofs::Equations::equations))]
fn simple(alloc: Global, budget: u32, items: &[Leaf]) -> Result<(Node, &[Leaf]), Fail>
    ensures { Gives (λ x. (view x.0.tree, x.1.now)) result ((readers budget).simple items.now) }
{
    if budget == 0 {
        return Err(no_tree(items, Set::Simple));
    }
    plain(alloc, budget - 1, items)
}

/// `break` or `continue`.
#[tactic(auto, unfolding(cl_read::specs::Reading::leave_of))]
fn jump(
    alloc: Global,
    room: u32,
    terminal: Terminal,
    form: Form,
    items: &[Leaf],
) -> Result<(Node, &[Leaf]), Fail>
    ensures { Gives (λ x. (view x.0.tree, x.1.now)) result (leave_of (readers room) terminal form items.now) }
{
    let (word, rest) = take(items, terminal)?;
    let (end, rest) = take(rest, Terminal::Semicolon)?;
    let own = [word, end];
    let node = make(
        alloc,
        form,
        &own,
        word.number,
        end.number,
        Nodes::new(alloc),
    )?;
    Ok((node, rest))
}

#[tactic(auto, unfolding(cl_read::specs::Reading::return_of))]
fn return_statement(alloc: Global, room: u32, items: &[Leaf]) -> Result<(Node, &[Leaf]), Fail>
    ensures { Gives (λ x. (view x.0.tree, x.1.now)) result (return_of (readers room) items.now) }
{
    let (word, rest) = take(items, Terminal::Return)?;
    let (parts, rest) = expression_before(alloc, room, Terminal::Semicolon, rest)?;
    let (end, rest) = take(rest, Terminal::Semicolon)?;
    let own = [word, end];
    Ok((
        make(
            alloc,
            Form::ReturnNode,
            &own,
            word.number,
            end.number,
            parts,
        )?,
        rest,
    ))
}

/// A statement without statements in it.
#[tactic(auto, unfolding(cl_read::specs::Reading::leaving))]
fn single(alloc: Global, room: u32, items: &[Leaf]) -> Result<(Node, &[Leaf]), Fail>
    ensures { Gives (λ x. (view x.0.tree, x.1.now)) result (leaving (readers room) items.now) }
{
    if next_is(items, Terminal::Break) {
        return jump(alloc, room, Terminal::Break, Form::BreakNode, items);
    }
    if next_is(items, Terminal::Continue) {
        return jump(alloc, room, Terminal::Continue, Form::ContinueNode, items);
    }
    if next_is(items, Terminal::Return) {
        return return_statement(alloc, room, items);
    }
    plain(alloc, room, items)
}

#[cycle(statement)]
#[tactic(auto, using(cl_read::proofs::Equations::equations), unfolding(cl_read::specs::Reading::statement_of))]
pub(crate) fn statement(alloc: Global, budget: u32, items: &[Leaf]) -> Result<(Node, &[Leaf]), Fail>
    ensures { Gives (λ x. (view x.0.tree, x.1.now)) result ((readers budget).statement items.now) }
{
    if budget == 0 {
        return Err(no_tree(items, Set::Statement));
    }
    if next_is(items, Terminal::OpenBrace) {
        return braces(alloc, budget - 1, items);
    }
    if next_is(items, Terminal::If) {
        return if_statement(alloc, budget - 1, items);
    }
    if next_is(items, Terminal::While) {
        return while_statement(alloc, budget - 1, items);
    }
    if next_is(items, Terminal::Do) {
        return do_statement(alloc, budget - 1, items);
    }
    if next_is(items, Terminal::For) {
        return for_statement(alloc, budget - 1, items);
    }
    labelled_statement(alloc, budget - 1, items)
}

#[cycle(statement)]
#[tactic(auto, unfolding(cl_read::specs::Reading::labelled))]
fn labelled_statement(alloc: Global, room: u32, items: &[Leaf]) -> Result<(Node, &[Leaf]), Fail>
    ensures { Gives (λ x. (view x.0.tree, x.1.now)) result (labelled (readers room) items.now) }
{
    if next_is(items, Terminal::Switch) {
        return switch_statement(alloc, room, items);
    }
    if next_is(items, Terminal::Case) {
        return case_statement(alloc, room, items);
    }
    if next_is(items, Terminal::Default) {
        return default_statement(alloc, room, items);
    }
    single(alloc, room, items)
}

/// A block.
#[cycle(statement)]
#[tactic(auto, unfolding(cl_read::specs::Reading::block_of))]
fn braces(alloc: Global, room: u32, items: &[Leaf]) -> Result<(Node, &[Leaf]), Fail>
    ensures { Gives (λ x. (view x.0.tree, x.1.now)) result (block_of (readers room) items.now) }
{
    let (mark, rest) = take(items, Terminal::OpenBrace)?;
    let (list, rest) = lines(alloc, room, rest)?;
    let (close, rest) = take(rest, Terminal::CloseBrace)?;
    let own = [mark, close];
    let node = make(
        alloc,
        Form::BlockNode,
        &own,
        mark.number,
        close.number,
        list.parts,
    )?;
    Ok((node, rest))
}

#[tactic(auto, using(cl_read::proofs::Equations::equations))]
pub(crate) fn block(alloc: Global, budget: u32, items: &[Leaf]) -> Result<(Node, &[Leaf]), Fail>
    ensures { Gives (λ x. (view x.0.tree, x.1.now)) result ((readers budget).block items.now) }
{
    if budget == 0 {
        return Err(no_tree(items, Set::Only(Terminal::OpenBrace)));
    }
    braces(alloc, budget - 1, items)
}

/// The declarations and statements of a block.
#[cycle(statement)]
#[tactic(auto, using(cl_read::proofs::Loops::front_empty, cl_read::proofs::Loops::list_stops))]
fn lines(alloc: Global, room: u32, items: &[Leaf]) -> Result<(Members<'_>, &[Leaf]), Fail>
    ensures { Gives (λ x. (members x.0, x.1.now)) result (all_of (λ k. not (same k terminals.CloseBrace))
        (each (line_of (readers room))) items.now) }
{
    let mut list = nothing(alloc);
    let mut rest = items;
    'members: while next_differs(rest, Terminal::CloseBrace) {
        let (member, behind) = line(alloc, room, rest)?;
        list = extend(list, member)?;
        rest = behind;
    }
    Ok((list, rest))
}

#[cycle(statement)]
#[tactic(auto, unfolding(cl_read::specs::Reading::line_of))]
fn line(alloc: Global, room: u32, items: &[Leaf]) -> Result<(Members<'_>, &[Leaf]), Fail>
    ensures { Gives (λ x. ((true, members x.0), x.1.now)) result (each (line_of (readers room)) items.now) }
{
    if next_in(items, Set::Type) {
        let (part, rest) = declaration(alloc, room, items)?;
        return Ok((of_tree(alloc, part)?, rest));
    }
    let (part, rest) = statement(alloc, room, items)?;
    Ok((of_tree(alloc, part)?, rest))
}

#[cycle(statement)]
#[tactic(auto, unfolding(cl_read::specs::Reading::if_of))]
fn if_statement(alloc: Global, room: u32, items: &[Leaf]) -> Result<(Node, &[Leaf]), Fail>
    ensures { Gives (λ x. (view x.0.tree, x.1.now)) result (if_of (readers room) items.now) }
{
    let (word, rest) = take(items, Terminal::If)?;
    let (mark, rest) = take(rest, Terminal::Open)?;
    let (test, rest) = expression(alloc, room, rest)?;
    let (close, rest) = take(rest, Terminal::Close)?;
    let (yes, rest) = statement(alloc, room, rest)?;
    let first = word.number;
    if !next_is(rest, Terminal::Else) {
        let last = last_token(&yes);
        let parts = two(alloc, test, yes)?;
        let node = make(
            alloc,
            Form::IfNode,
            &[word, mark, close],
            first,
            last,
            parts,
        )?;
        return Ok((node, rest));
    }
    let (other, rest) = take(rest, Terminal::Else)?;
    let (no, rest) = statement(alloc, room, rest)?;
    let last = last_token(&no);
    let parts = three(alloc, test, yes, no)?;
    let node = make(
        alloc,
        Form::IfNode,
        &[word, mark, close, other],
        first,
        last,
        parts,
    )?;
    Ok((node, rest))
}

#[cycle(statement)]
#[tactic(auto, unfolding(cl_read::specs::Reading::while_of))]
fn while_statement(alloc: Global, room: u32, items: &[Leaf]) -> Result<(Node, &[Leaf]), Fail>
    ensures { Gives (λ x. (view x.0.tree, x.1.now)) result (while_of (readers room) items.now) }
{
    let (word, rest) = take(items, Terminal::While)?;
    let (mark, rest) = take(rest, Terminal::Open)?;
    let (test, rest) = expression(alloc, room, rest)?;
    let (close, rest) = take(rest, Terminal::Close)?;
    let (body, rest) = statement(alloc, room, rest)?;
    let last = last_token(&body);
    let parts = two(alloc, test, body)?;
    let node = make(
        alloc,
        Form::WhileNode,
        &[word, mark, close],
        word.number,
        last,
        parts,
    )?;
    Ok((node, rest))
}

#[cycle(statement)]
#[tactic(auto, unfolding(cl_read::specs::Reading::do_of))]
fn do_statement(alloc: Global, room: u32, items: &[Leaf]) -> Result<(Node, &[Leaf]), Fail>
    ensures { Gives (λ x. (view x.0.tree, x.1.now)) result (do_of (readers room) items.now) }
{
    let (word, rest) = take(items, Terminal::Do)?;
    let (body, rest) = statement(alloc, room, rest)?;
    let (other, rest) = take(rest, Terminal::While)?;
    let (mark, rest) = take(rest, Terminal::Open)?;
    let (test, rest) = expression(alloc, room, rest)?;
    let (close, rest) = take(rest, Terminal::Close)?;
    let (end, rest) = take(rest, Terminal::Semicolon)?;
    let parts = two(alloc, body, test)?;
    let own = [word, other, mark, close, end];
    Ok((
        make(alloc, Form::DoNode, &own, word.number, end.number, parts)?,
        rest,
    ))
}

/// What a `for` begins with.
#[tactic(auto, unfolding(cl_read::specs::Reading::start_of))]
fn start(alloc: Global, room: u32, items: &[Leaf]) -> Result<(Node, &[Leaf]), Fail>
    ensures { Gives (λ x. (view x.0.tree, x.1.now)) result (start_of (readers room) items.now) }
{
    if next_in(items, Set::Type) {
        return declaration(alloc, room, items);
    }
    simple(alloc, room, items)
}

#[cycle(statement)]
#[tactic(auto, unfolding(cl_read::specs::Reading::for_of))]
fn for_statement(alloc: Global, room: u32, items: &[Leaf]) -> Result<(Node, &[Leaf]), Fail>
    ensures { Gives (λ x. (view x.0.tree, x.1.now)) result (for_of (readers room) items.now) }
{
    let (word, rest) = take(items, Terminal::For)?;
    let (mark, rest) = take(rest, Terminal::Open)?;
    let (begin, rest) = start(alloc, room, rest)?;
    let (test, rest) = expression_before(alloc, room, Terminal::Semicolon, rest)?;
    let (end, rest) = take(rest, Terminal::Semicolon)?;
    let (step, rest) = expression_before(alloc, room, Terminal::Close, rest)?;
    let (close, rest) = take(rest, Terminal::Close)?;
    let (body, rest) = statement(alloc, room, rest)?;
    let last = last_token(&body);
    let parts = append(step, one(alloc, body)?)?;
    let parts = append(test, parts)?;
    let parts = append(one(alloc, begin)?, parts)?;
    let own = [word, mark, end, close];
    Ok((
        make(alloc, Form::ForNode, &own, word.number, last, parts)?,
        rest,
    ))
}

#[cycle(statement)]
#[tactic(auto, unfolding(cl_read::specs::Reading::switch_of))]
fn switch_statement(alloc: Global, room: u32, items: &[Leaf]) -> Result<(Node, &[Leaf]), Fail>
    ensures { Gives (λ x. (view x.0.tree, x.1.now)) result (switch_of (readers room) items.now) }
{
    let (word, rest) = take(items, Terminal::Switch)?;
    let (mark, rest) = take(rest, Terminal::Open)?;
    let (value, rest) = expression(alloc, room, rest)?;
    let (close, rest) = take(rest, Terminal::Close)?;
    let (brace, rest) = take(rest, Terminal::OpenBrace)?;
    let (list, rest) = statements(alloc, room, rest)?;
    let (end, rest) = take(rest, Terminal::CloseBrace)?;
    let parts = append(one(alloc, value)?, list.parts)?;
    let own = [word, mark, close, brace, end];
    Ok((
        make(
            alloc,
            Form::SwitchNode,
            &own,
            word.number,
            end.number,
            parts,
        )?,
        rest,
    ))
}

/// The statements of a switch body.
#[cycle(statement)]
#[tactic(auto, using(cl_read::proofs::Loops::front_empty, cl_read::proofs::Loops::list_stops))]
fn statements(alloc: Global, room: u32, items: &[Leaf]) -> Result<(Members<'_>, &[Leaf]), Fail>
    ensures { Gives (λ x. (members x.0, x.1.now)) result (all_of (λ k. not (same k terminals.CloseBrace))
        (each (readers room).statement) items.now) }
{
    let mut list = nothing(alloc);
    let mut rest = items;
    'members: while next_differs(rest, Terminal::CloseBrace) {
        let (member, behind) = further_statement(alloc, room, rest)?;
        list = extend(list, member)?;
        rest = behind;
    }
    Ok((list, rest))
}

#[cycle(statement)]
fn further_statement(
    alloc: Global,
    room: u32,
    items: &[Leaf],
) -> Result<(Members<'_>, &[Leaf]), Fail>
    ensures { Gives (λ x. ((true, members x.0), x.1.now)) result (each (readers room).statement items.now) }
{
    let (part, rest) = statement(alloc, room, items)?;
    Ok((of_tree(alloc, part)?, rest))
}

#[cycle(statement)]
#[tactic(auto, unfolding(cl_read::specs::Reading::case_of))]
fn case_statement(alloc: Global, room: u32, items: &[Leaf]) -> Result<(Node, &[Leaf]), Fail>
    ensures { Gives (λ x. (view x.0.tree, x.1.now)) result (case_of (readers room) items.now) }
{
    let (word, rest) = take(items, Terminal::Case)?;
    let (value, rest) = conditional(alloc, room, rest)?;
    let (colon, rest) = take(rest, Terminal::Colon)?;
    let (body, rest) = statement(alloc, room, rest)?;
    let last = last_token(&body);
    let parts = two(alloc, value, body)?;
    Ok((
        make(
            alloc,
            Form::CaseNode,
            &[word, colon],
            word.number,
            last,
            parts,
        )?,
        rest,
    ))
}

#[cycle(statement)]
#[tactic(auto, unfolding(cl_read::specs::Reading::default_of))]
fn default_statement(alloc: Global, room: u32, items: &[Leaf]) -> Result<(Node, &[Leaf]), Fail>
    ensures { Gives (λ x. (view x.0.tree, x.1.now)) result (default_of (readers room) items.now) }
{
    let (word, rest) = take(items, Terminal::Default)?;
    let (colon, rest) = take(rest, Terminal::Colon)?;
    let (body, rest) = statement(alloc, room, rest)?;
    let last = last_token(&body);
    let parts = one(alloc, body)?;
    Ok((
        make(
            alloc,
            Form::DefaultNode,
            &[word, colon],
            word.number,
            last,
            parts,
        )?,
        rest,
    ))
}
