//! What each node stands for.

ghost use Rattle.std.specs.Prelude.{◌≡◌, IfOk, true, map, option_map};
ghost use Rattle.cl_scope.specs.Walk.{inner_at, body_view};
ghost use Rattle.cl_meaning.specs.Environment.{Env};
ghost use Rattle.cl_fragment.specs.Making.{made_at, form_at, first_place, is_primary, is_joined, is_fixed};
ghost use Rattle.cl_fragment.specs.Making.{is_expression, is_line, is_test, is_jump};
ghost use Rattle.cl_fragment.specs.View.{piece_of, what_of, built_of};

use crate::boxes::as_statement;
use crate::context::{call_at, case_at, declarator_at, function_at, name_at};
use crate::fragment::{Piece, What};
use crate::{assignments, elements, functions, leaves, lines, operators, statements, switches};
use cl_meaning::{binary_of, literal, name_of, postfix_of, prefix_of, setting_of, truth_of};
use cl_scope::{Body, Environment, declarator_in, first_type, place_of};
use cl_tree::{Form, Tree};
use std::alloc::Global;
use wg_num::{Memory, Place};

/// A node, what is visible at it behind its parts, and the places of the tokens of its unit.
#[derive(Clone, Copy)]
pub struct Node<'a> {
    pub environment: &'a Environment,
    pub tree: &'a Tree,
    pub places: &'a [Place],
}

/// The place of the first token of a node, which is that of its site.
#[tactic(auto, using(cl_meaning::proofs::Views::view_out))]
fn place_at(node: Node) -> Place
    ensures { result ≡ first_place node.entry }
{
    place_of(node.places, node.tree.first)
}

/// What an expression with no operator stands for.
#[tactic(auto, using(cl_meaning::proofs::Views::view_out), unfolding(cl_meaning::specs::Meant::make))]
fn primary(
    alloc: Global,
    node: Node,
    sites: &mut Vec<Place>,
    pieces: Vec<Piece>,
) -> Result<What, Memory>
    ensures { IfOk result (λ w. (inner : Env) → is_primary (form_at node.entry) ≡ true →
        made_at node.entry inner sites.old.items (map piece_of pieces.items) ≡ built_of w sites.new.items) }
{
    let place = place_at(node);
    let word = node.tree.word.bytes();
    match node.tree.form {
        Form::NumberNode => leaves::number(alloc, literal(word)),
        Form::TruthNode => leaves::truth(alloc, truth_of(word)),
        Form::VariableNode => name_at(alloc, node.environment, place, sites, name_of(word)),
        Form::ParenNode => Ok(leaves::only_part(pieces)),
        Form::CallNode => call_at(alloc, node.environment, place, sites, name_of(word), pieces),
        Form::ListNode => lines::list(alloc, node.environment.declared, pieces),
        _ => Ok(What::Nothing),
    }
}

/// What an expression with an operator on two or three operands stands for.
#[tactic(auto, using(cl_meaning::proofs::Views::view_out), unfolding(cl_meaning::specs::Meant::make))]
fn joined(
    alloc: Global,
    node: Node,
    sites: &mut Vec<Place>,
    pieces: Vec<Piece>,
) -> Result<What, Memory>
    ensures { IfOk result (λ w. (inner : Env) → is_joined (form_at node.entry) ≡ true →
        made_at node.entry inner sites.old.items (map piece_of pieces.items) ≡ built_of w sites.new.items) }
{
    let place = place_at(node);
    let word = node.tree.word.bytes();
    match node.tree.form {
        Form::ExprNode => operators::comma(alloc, pieces),
        Form::AssignNode => assignments::set(alloc, setting_of(word), pieces),
        Form::CondNode => operators::choice(alloc, place, sites, pieces),
        Form::OrNode => operators::or(alloc, place, sites, pieces),
        Form::AndNode => operators::and(alloc, place, sites, pieces),
        Form::BorNode
        | Form::BxorNode
        | Form::BandNode
        | Form::EqualNode
        | Form::OrderNode
        | Form::ShiftNode
        | Form::SumNode
        | Form::TermNode => operators::binary(alloc, binary_of(word), pieces),
        _ => Ok(What::Nothing),
    }
}

/// What a cast, or an expression with an operator in front of its operand or behind it, stands for.
#[tactic(auto, using(cl_meaning::proofs::Views::view_out), unfolding(cl_meaning::specs::Meant::make))]
fn fixed(
    alloc: Global,
    node: Node,
    sites: &mut Vec<Place>,
    pieces: Vec<Piece>,
) -> Result<What, Memory>
    ensures { IfOk result (λ w. (inner : Env) → is_fixed (form_at node.entry) ≡ true →
        made_at node.entry inner sites.old.items (map piece_of pieces.items) ≡ built_of w sites.new.items) }
{
    let place = place_at(node);
    let word = node.tree.word.bytes();
    match node.tree.form {
        Form::CastNode => operators::cast(alloc, first_type(&node.tree.parts), pieces),
        Form::UnaryNode => {
            let of = first_type(&node.tree.parts);
            elements::prefix(alloc, place, sites, of, prefix_of(word), pieces)
        }
        Form::PostfixNode => elements::postfix(alloc, place, sites, postfix_of(word), pieces),
        _ => Ok(What::Nothing),
    }
}

/// What a declaration, or a statement that stands for its parts in order, stands for.
#[tactic(auto, using(cl_meaning::proofs::Views::view_out), unfolding(cl_meaning::specs::Meant::make))]
fn line(
    alloc: Global,
    node: Node,
    sites: &mut Vec<Place>,
    pieces: Vec<Piece>,
) -> Result<What, Memory>
    ensures { IfOk result (λ w. (inner : Env) → is_line (form_at node.entry) ≡ true →
        made_at node.entry inner sites.old.items (map piece_of pieces.items) ≡ built_of w sites.new.items) }
{
    let place = place_at(node);
    match node.tree.form {
        Form::DeclaratorNode => {
            let tree = node.tree;
            let declarator = declarator_in(tree.word.bytes(), tree.first, &tree.parts)?;
            declarator_at(alloc, node.environment, place, sites, &declarator, pieces)
        }
        Form::DeclareNode => lines::declaration(alloc, pieces),
        Form::SimpleNode => as_statement(alloc, lines::simple(alloc, pieces)),
        Form::BlockNode => lines::block(alloc, pieces),
        _ => Ok(What::Nothing),
    }
}

/// What a statement that tests stands for.
#[tactic(auto, using(crate::proofs::Loops::loop_parts), unfolding(cl_meaning::specs::Meant::make))]
fn test(
    alloc: Global,
    node: Node,
    sites: &mut Vec<Place>,
    pieces: Vec<Piece>,
) -> Result<What, Memory>
    ensures { IfOk result (λ w. (inner : Env) → is_test (form_at node.entry) ≡ true →
        made_at node.entry inner sites.old.items (map piece_of pieces.items) ≡ built_of w sites.new.items) }
{
    let place = place_at(node);
    match node.tree.form {
        Form::IfNode => statements::branch(alloc, place, sites, pieces),
        Form::WhileNode => statements::while_loop(alloc, place, sites, pieces),
        Form::DoNode => statements::do_loop(alloc, place, sites, pieces),
        Form::ForNode => {
            let tested = statements::second_is_test(&node.tree.parts);
            statements::for_loop(alloc, place, sites, tested, pieces)
        }
        Form::SwitchNode => switches::switch(alloc, place, sites, pieces),
        _ => Ok(What::Nothing),
    }
}

/// What a label or an exit stands for.
#[tactic(auto, using(cl_meaning::proofs::Views::view_out), unfolding(cl_meaning::specs::Meant::make))]
fn jump(
    alloc: Global,
    node: Node,
    sites: &mut Vec<Place>,
    pieces: Vec<Piece>,
) -> Result<What, Memory>
    ensures { IfOk result (λ w. (inner : Env) → is_jump (form_at node.entry) ≡ true →
        made_at node.entry inner sites.old.items (map piece_of pieces.items) ≡ built_of w sites.new.items) }
{
    let environment = node.environment;
    let place = place_at(node);
    match node.tree.form {
        Form::CaseNode => case_at(alloc, environment, &node.tree.parts, pieces),
        Form::DefaultNode => switches::default(alloc, pieces),
        Form::BreakNode => statements::leave(alloc, place, sites),
        Form::ContinueNode => statements::go_on(alloc, place, sites),
        Form::ReturnNode => {
            let result = environment.owner.result;
            statements::give_back(alloc, place, sites, result, pieces)
        }
        _ => Ok(What::Nothing),
    }
}

/// What an expression stands for, whatever its operator (C99, section 6.5).
#[tactic(auto, using(cl_meaning::proofs::Views::view_out), unfolding(cl_meaning::specs::Meant::make))]
fn expression(
    alloc: Global,
    node: Node,
    sites: &mut Vec<Place>,
    pieces: Vec<Piece>,
) -> Result<What, Memory>
    ensures { IfOk result (λ w. (inner : Env) → is_expression (form_at node.entry) ≡ true →
        made_at node.entry inner sites.old.items (map piece_of pieces.items) ≡ built_of w sites.new.items) }
{
    match node.tree.form {
        Form::NumberNode
        | Form::TruthNode
        | Form::VariableNode
        | Form::ParenNode
        | Form::CallNode
        | Form::ListNode => primary(alloc, node, sites, pieces),
        Form::ExprNode
        | Form::AssignNode
        | Form::CondNode
        | Form::OrNode
        | Form::AndNode
        | Form::BorNode
        | Form::BxorNode
        | Form::BandNode
        | Form::EqualNode
        | Form::OrderNode
        | Form::ShiftNode
        | Form::SumNode
        | Form::TermNode => joined(alloc, node, sites, pieces),
        Form::CastNode | Form::UnaryNode | Form::PostfixNode => fixed(alloc, node, sites, pieces),
        _ => Ok(What::Nothing),
    }
}

/// What a node stands for, from what its parts stand for; `body` and `sizes` are what is known at the end of a
/// function alone: its variables and arrays, and the work-group size that its heads require (OpenCL 1.2, section
/// 6.7.2). `sites` are those so far, to which the node adds its own. An error is that memory was refused, or that
/// there are more than 2^32 of something.
#[tactic(auto, using(cl_meaning::proofs::Views::view_out), unfolding(cl_meaning::specs::Meant::make))]
pub fn make(
    alloc: Global,
    node: Node,
    body: Option<Body>,
    sizes: Option<[u64; 3]>,
    sites: &mut Vec<Place>,
    pieces: Vec<Piece>,
) -> Result<What, Memory>
    ensures { IfOk result (λ w. (inner : Env) →
        option_map body_view body ≡ (inner_at (form_at node.entry) inner).body →
        sizes ≡ (inner_at (form_at node.entry) inner).sizes →
        made_at node.entry inner sites.old.items (map piece_of pieces.items) ≡
        record { what = what_of w; sites = sites.new.items }) }
{
    match node.tree.form {
        Form::DeclaratorNode | Form::DeclareNode | Form::SimpleNode | Form::BlockNode => {
            line(alloc, node, sites, pieces)
        }
        Form::IfNode | Form::WhileNode | Form::DoNode | Form::ForNode | Form::SwitchNode => {
            test(alloc, node, sites, pieces)
        }
        Form::CaseNode
        | Form::DefaultNode
        | Form::BreakNode
        | Form::ContinueNode
        | Form::ReturnNode => jump(alloc, node, sites, pieces),
        Form::FunctionNode => {
            let tree = node.tree;
            function_at(alloc, body, sizes, tree.word.bytes(), &tree.parts, pieces)
        }
        Form::UnitNode => {
            let all = functions::functions(alloc, pieces)?;
            Ok(What::Functions(all))
        }
        Form::PrototypeNode
        | Form::HeadNode
        | Form::AttributeNode
        | Form::ResultNode
        | Form::ParamsNode
        | Form::ParamNode
        | Form::TypeNode
        | Form::SpaceNode
        | Form::StarNode => Ok(What::Nothing),
        _ => expression(alloc, node, sites, pieces),
    }
}
