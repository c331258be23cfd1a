//! Functions, prototypes and the unit (OpenCL 1.2, sections 6.7 and 6.9; C99, section 6.9).

ghost use Rattle.std.specs.Prelude.{◌≡◌, true, IfOk};
ghost use Rattle.cl_tree.specs.Syntax.{view, views};
ghost use Rattle.cl_tree.specs.declared.terminal.Terminal.TheVariants as terminals;
ghost use Rattle.cl_tree.specs.Nodes.{alone_node, params_node};
ghost use Rattle.cl_read.specs.Starts.{starts_head};
ghost use Rattle.cl_read.specs.Gives.{Gives, spots, spot_of};
ghost use Rattle.cl_read.specs.Members.{members};
ghost use Rattle.cl_read.specs.Reading.{begins, is, readers, all_of, each, behind_comma, attribute_of, head_of};
ghost use Rattle.cl_read.specs.Reading.{param_of, params_of, callable, named, result_of, typed, headed, item_of};
ghost use Rattle.cl_read.specs.Reading.{unit_of};

use crate::declaration::{declaration_behind, declarator, declared, stars};
use crate::expression::conditional;
use crate::statement::block;
use crate::types::type_name;
use cl_read::cursor::{Fail, next_in, next_is, take};
use cl_read::members::{Members, extend, nothing, of_token, of_token_and_tree, of_tree};
use cl_read::node::{
    Node, Nodes, append, first_of_own, first_token, first_token_in, last_of_own, last_token,
    last_token_in, make, of_word, one, three, two,
};
use cl_read::set::Set;
use cl_tree::{Form, Leaf, Terminal};
use std::alloc::{AllocError, Global};

/// How deep the parts of an attribute and of a parameter may nest, in a unit that nests at most 256.
const INNER_ROOM: u32 = 252;
/// How deep the type of a result may nest.
const RESULT_ROOM: u32 = 253;
/// How deep the parts of a function or a declaration may nest.
const PART_ROOM: u32 = 254;

#[tactic(auto, unfolding(cl_read::specs::Reading::attribute_of))]
fn attribute(alloc: Global, items: &[Leaf]) -> Result<(Node, &[Leaf]), Fail>
    ensures { Gives (λ x. (view x.0.tree, x.1.now)) result (attribute_of (readers 252) (readers 253) (readers 254)
        items.now) }
{
    let (word, rest) = take(items, Terminal::Attribute)?;
    let (outer, rest) = take(rest, Terminal::Open)?;
    let (inner, rest) = take(rest, Terminal::Open)?;
    let (name, rest) = take(rest, Terminal::AttributeName)?;
    let (mark, rest) = take(rest, Terminal::Open)?;
    let (x, rest) = conditional(alloc, INNER_ROOM, rest)?;
    let (comma, rest) = take(rest, Terminal::Comma)?;
    let (y, rest) = conditional(alloc, INNER_ROOM, rest)?;
    let (other, rest) = take(rest, Terminal::Comma)?;
    let (z, rest) = conditional(alloc, INNER_ROOM, rest)?;
    let (close, rest) = take(rest, Terminal::Close)?;
    let (inner_close, rest) = take(rest, Terminal::Close)?;
    let (outer_close, rest) = take(rest, Terminal::Close)?;
    let parts = three(alloc, x, y, z)?;
    let own = [
        word,
        outer,
        inner,
        name,
        mark,
        comma,
        other,
        close,
        inner_close,
        outer_close,
    ];
    let node = make(
        alloc,
        Form::AttributeNode,
        &own,
        word.number,
        outer_close.number,
        parts,
    )?;
    Ok((node, rest))
}

/// A node of one part and no token.
fn alone(alloc: Global, form: Form, part: Node) -> Result<Node, AllocError>
    ensures { IfOk result (λ x. view x.tree ≡ alone_node form (view part.tree)) }
{
    let first = first_token(&part);
    let last = last_token(&part);
    let parts = one(alloc, part)?;
    make(alloc, form, &[], first, last, parts)
}

#[tactic(auto, unfolding(cl_read::specs::Reading::head_of))]
fn head(alloc: Global, items: &[Leaf]) -> Result<(Node, &[Leaf]), Fail>
    ensures { Gives (λ x. (view x.0.tree, x.1.now)) result (head_of (readers 252) (readers 253) (readers 254)
        items.now) }
{
    if next_is(items, Terminal::HeadWord) {
        let (word, rest) = take(items, Terminal::HeadWord)?;
        return Ok((of_word(alloc, Form::HeadNode, word)?, rest));
    }
    let (part, rest) = attribute(alloc, items)?;
    Ok((alone(alloc, Form::HeadNode, part)?, rest))
}

fn further_head(alloc: Global, items: &[Leaf]) -> Result<(Members<'_>, &[Leaf]), Fail>
    ensures { Gives (λ x. ((true, members x.0), x.1.now)) result
        (each (head_of (readers 252) (readers 253) (readers 254)) items.now) }
{
    let (part, rest) = head(alloc, items)?;
    Ok((of_tree(alloc, part)?, rest))
}

/// The heads of a function.
#[tactic(auto, using(cl_read::proofs::Loops::front_empty, cl_read::proofs::Loops::list_stops))]
fn heads(alloc: Global, items: &[Leaf]) -> Result<(Members<'_>, &[Leaf]), Fail>
    ensures { Gives (λ x. (members x.0, x.1.now)) result
        (all_of starts_head (each (head_of (readers 252) (readers 253) (readers 254))) items.now) }
{
    let mut list = nothing(alloc);
    let mut rest = items;
    'members: while next_in(rest, Set::Head) {
        let (member, behind) = further_head(alloc, rest)?;
        list = extend(list, member)?;
        rest = behind;
    }
    Ok((list, rest))
}

#[tactic(auto, unfolding(cl_read::specs::Reading::param_of))]
fn parameter(alloc: Global, items: &[Leaf]) -> Result<(Node, &[Leaf]), Fail>
    ensures { Gives (λ x. (view x.0.tree, x.1.now)) result (param_of (readers 252) (readers 253) (readers 254)
        items.now) }
{
    let (target, rest) = type_name(alloc, INNER_ROOM, items)?;
    let (marks, rest) = stars(alloc, INNER_ROOM, rest)?;
    let (name, rest) = take(rest, Terminal::Name)?;
    let first = first_token(&target);
    let parts = append(one(alloc, target)?, marks)?;
    let node = make(alloc, Form::ParamNode, &[name], first, name.number, parts)?;
    Ok((node, rest))
}

fn further_parameter(alloc: Global, items: &[Leaf]) -> Result<(Members<'_>, &[Leaf]), Fail>
    ensures { Gives (λ x. ((true, members x.0), x.1.now)) result
        (behind_comma (param_of (readers 252) (readers 253) (readers 254)) items.now) }
{
    let (comma, rest) = take(items, Terminal::Comma)?;
    let (part, rest) = parameter(alloc, rest)?;
    Ok((of_token_and_tree(alloc, comma, part)?, rest))
}

/// The parameters behind the first one.
#[tactic(auto, using(cl_read::proofs::Loops::front_empty, cl_read::proofs::Loops::list_stops))]
fn further_parameters(alloc: Global, items: &[Leaf]) -> Result<(Members<'_>, &[Leaf]), Fail>
    ensures { Gives (λ x. (members x.0, x.1.now)) result
        (all_of (is terminals.Comma) (behind_comma (param_of (readers 252) (readers 253) (readers 254))) items.now) }
{
    let mut list = nothing(alloc);
    let mut rest = items;
    'members: while next_is(rest, Terminal::Comma) {
        let (member, behind) = further_parameter(alloc, rest)?;
        list = extend(list, member)?;
        rest = behind;
    }
    Ok((list, rest))
}

#[tactic(auto, unfolding(cl_read::specs::Reading::params_of))]
fn parameters(alloc: Global, items: &[Leaf]) -> Result<(Members<'_>, &[Leaf]), Fail>
    ensures { Gives (λ x. (members x.0, x.1.now)) result (params_of (readers 252) (readers 253) (readers 254)
        items.now) }
{
    if next_is(items, Terminal::Close) {
        return Ok((nothing(alloc), items));
    }
    if next_is(items, Terminal::Void) {
        let (word, rest) = take(items, Terminal::Void)?;
        return Ok((of_token(alloc, word)?, rest));
    }
    let (part, rest) = parameter(alloc, items)?;
    let (list, rest) = further_parameters(alloc, rest)?;
    let own = list.own;
    let parts = append(one(alloc, part)?, list.parts)?;
    Ok((Members { own, parts }, rest))
}

/// The node of the parameters, before the token that closes them.
fn parameters_node(alloc: Global, list: Members<'_>, close: &Leaf) -> Result<Node, AllocError>
    ensures { IfOk result (λ x. view x.tree ≡ params_node (spots list.entry.own.items)
        (views list.entry.parts.trees.items) (spot_of close.now)) }
{
    let at = close.number;
    let Members { own, parts } = list;
    let first = first_token_in(&parts, first_of_own(&own, at));
    let last = last_token_in(&parts, last_of_own(&own, at));
    make(alloc, Form::ParamsNode, &own, first, last, parts)
}

/// A function or a prototype, behind the parenthesis that opens its parameters.
#[tactic(auto, unfolding(cl_read::specs::Reading::callable))]
fn callable<'a>(
    alloc: Global,
    front: Nodes,
    outcome: Node,
    name: &'a Leaf,
    mark: &'a Leaf,
    items: &'a [Leaf],
) -> Result<(Node, &'a [Leaf]), Fail>
    ensures { Gives (λ x. (view x.0.tree, x.1.now)) result (callable (readers 252) (readers 253) (readers 254)
        (views front.trees.items) (view outcome.tree) (spot_of name.now) (spot_of mark.now) items.now) }
{
    let (list, rest) = parameters(alloc, items)?;
    let (close, rest) = take(rest, Terminal::Close)?;
    let params = parameters_node(alloc, list, close)?;
    let first = first_token_in(&front, first_token(&outcome));
    if next_is(rest, Terminal::Semicolon) {
        let (end, rest) = take(rest, Terminal::Semicolon)?;
        let parts = append(front, two(alloc, outcome, params)?)?;
        let own = [name, mark, close, end];
        let node = make(alloc, Form::PrototypeNode, &own, first, end.number, parts)?;
        return Ok((node, rest));
    }
    let (body, rest) = block(alloc, PART_ROOM, rest)?;
    let last = last_token(&body);
    let parts = append(front, three(alloc, outcome, params, body)?)?;
    let own = [name, mark, close];
    Ok((
        make(alloc, Form::FunctionNode, &own, first, last, parts)?,
        rest,
    ))
}

/// A function or a prototype, behind its result.
#[tactic(auto, unfolding(cl_read::specs::Reading::named))]
fn named(
    alloc: Global,
    front: Nodes,
    outcome: Node,
    items: &[Leaf],
) -> Result<(Node, &[Leaf]), Fail>
    ensures { Gives (λ x. (view x.0.tree, x.1.now)) result (named (readers 252) (readers 253) (readers 254)
        (views front.trees.items) (view outcome.tree) items.now) }
{
    let (name, rest) = take(items, Terminal::Name)?;
    let (mark, rest) = take(rest, Terminal::Open)?;
    callable(alloc, front, outcome, name, mark, rest)
}

#[tactic(auto, unfolding(cl_read::specs::Reading::result_of))]
fn result_type(alloc: Global, items: &[Leaf]) -> Result<(Node, &[Leaf]), Fail>
    ensures { Gives (λ x. (view x.0.tree, x.1.now)) result (result_of (readers 252) (readers 253) (readers 254)
        items.now) }
{
    if next_is(items, Terminal::Void) {
        let (word, rest) = take(items, Terminal::Void)?;
        return Ok((of_word(alloc, Form::ResultNode, word)?, rest));
    }
    let (target, rest) = type_name(alloc, RESULT_ROOM, items)?;
    Ok((alone(alloc, Form::ResultNode, target)?, rest))
}

/// An item without heads, behind its type.
#[tactic(auto, unfolding(cl_read::specs::Reading::typed))]
fn typed(alloc: Global, target: Node, items: &[Leaf]) -> Result<(Node, &[Leaf]), Fail>
    ensures { Gives (λ x. (view x.0.tree, x.1.now)) result (typed (readers 252) (readers 253) (readers 254)
        (view target.tree) items.now) }
{
    if next_is(items, Terminal::Star) {
        let (first, rest) = declarator(alloc, PART_ROOM, items)?;
        return declaration_behind(alloc, PART_ROOM, target, first, rest);
    }
    let (name, rest) = take(items, Terminal::Name)?;
    if next_is(rest, Terminal::Open) {
        let (mark, rest) = take(rest, Terminal::Open)?;
        let kind = alone(alloc, Form::ResultNode, target)?;
        return callable(alloc, Nodes::new(alloc), kind, name, mark, rest);
    }
    let (first, rest) = declared(alloc, RESULT_ROOM, Nodes::new(alloc), name, rest)?;
    declaration_behind(alloc, PART_ROOM, target, first, rest)
}

/// A function or a prototype with heads.
#[tactic(auto, unfolding(cl_read::specs::Reading::headed))]
fn headed(alloc: Global, items: &[Leaf]) -> Result<(Node, &[Leaf]), Fail>
    ensures { Gives (λ x. (view x.0.tree, x.1.now)) result (headed (readers 252) (readers 253) (readers 254)
        items.now) }
{
    let (list, rest) = heads(alloc, items)?;
    let (kind, rest) = result_type(alloc, rest)?;
    named(alloc, list.parts, kind, rest)
}

/// A function, a prototype or a declaration.
#[tactic(auto, unfolding(cl_read::specs::Reading::item_of))]
fn item(alloc: Global, items: &[Leaf]) -> Result<(Node, &[Leaf]), Fail>
    ensures { Gives (λ x. (view x.0.tree, x.1.now)) result (item_of (readers 252) (readers 253) (readers 254)
        items.now) }
{
    if next_in(items, Set::Head) {
        return headed(alloc, items);
    }
    if next_is(items, Terminal::Void) {
        let (word, rest) = take(items, Terminal::Void)?;
        let kind = of_word(alloc, Form::ResultNode, word)?;
        return named(alloc, Nodes::new(alloc), kind, rest);
    }
    let (target, rest) = type_name(alloc, RESULT_ROOM, items)?;
    typed(alloc, target, rest)
}

fn further_item(alloc: Global, items: &[Leaf]) -> Result<(Members<'_>, &[Leaf]), Fail>
    ensures { Gives (λ x. ((true, members x.0), x.1.now)) result
        (each (item_of (readers 252) (readers 253) (readers 254)) items.now) }
{
    let (part, rest) = item(alloc, items)?;
    Ok((of_tree(alloc, part)?, rest))
}

fn is_any_left(items: &[Leaf]) -> bool
    ensures { result ≡ begins (λ j. true) items.now }
{
    !items.is_empty()
}

/// The items of a unit, through the end of the tokens.
#[tactic(auto, using(cl_read::proofs::Loops::front_empty, cl_read::proofs::Loops::list_stops))]
fn list_items(alloc: Global, items: &[Leaf]) -> Result<(Members<'_>, &[Leaf]), Fail>
    ensures { Gives (λ x. (members x.0, x.1.now)) result
        (all_of (λ j. true) (each (item_of (readers 252) (readers 253) (readers 254))) items.now) }
{
    let mut list = nothing(alloc);
    let mut rest = items;
    'members: while is_any_left(rest) {
        let (member, behind) = further_item(alloc, rest)?;
        list = extend(list, member)?;
        rest = behind;
    }
    Ok((list, rest))
}

/// All of the tokens, as a unit.
#[tactic(auto, unfolding(cl_read::specs::Reading::unit_of))]
pub(crate) fn unit(alloc: Global, items: &[Leaf]) -> Result<(Node, &[Leaf]), Fail>
    ensures { Gives (λ x. (view x.0.tree, x.1.now)) result (unit_of 251 items.now) }
{
    let (list, rest) = list_items(alloc, items)?;
    let first = first_token_in(&list.parts, 0);
    let last = last_token_in(&list.parts, 0);
    Ok((
        make(alloc, Form::UnitNode, &[], first, last, list.parts)?,
        rest,
    ))
}
