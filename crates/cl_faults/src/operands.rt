//! The kind of a node, and operands that do not fit (C99, section 6.5).

ghost use Rattle.std.specs.Prelude.{◌≡◌};
ghost use Rattle.cl_meaning.specs.Kinds as spec;
ghost use Rattle.cl_tree.specs.Syntax.{views};
ghost use Rattle.cl_meaning.specs.Spelling.{literal_in};
ghost use Rattle.cl_faults.specs.View.{looked_of};

use crate::arguments::list_kind;
use crate::callees::call_kind;
use crate::kinds::{cast_kind, number};
use crate::looked::Looked;
use crate::operators::{postfix_kind, prefix_kind};
use crate::parts::{binary_of, choice_of, comma_of, logic_of, only_of, set_of};
use cl_meaning::{Kind, declared_of, literal, name_of, postfix_of, prefix_of, setting_of};
use cl_scope::{callee_of, name_kind};
use cl_tree::{Form, Tree};
use wg_num::IntType;

fn literal_kind(word: &[u8]) -> Option<Kind>
    ensures { result ≡ spec.literal_kind (literal_in word.now) }
{
    match literal(word) {
        Some(literal) => Some(number(literal.of)),
        None => None,
    }
}

fn cast_of(parts: &[Tree], kinds: &[Option<Kind>]) -> Option<Kind>
    ensures { result ≡ spec.cast_part_kind (views parts.now) kinds.now }
{
    match (parts, kinds) {
        ([to, ..], [_, Some(kind)]) => cast_kind(declared_of(to), *kind),
        _ => None,
    }
}

/// The kind of the node, from the kinds of its parts; `None` where it is no expression, or it or a part is at
/// fault.
#[tactic(auto, using(cl_meaning::proofs::Views::view_out), unfolding(cl_meaning::specs::Kinds::kind_step))]
pub fn kind_of(node: Looked) -> Option<Kind>
    ensures { result ≡ spec.kind_step (looked_of node.entry).env (looked_of node.entry).form
        (looked_of node.entry).word (looked_of node.entry).parts (looked_of node.entry).kinds' }
{
    let word = node.tree.word.bytes();
    let kinds = node.kinds;
    match node.tree.form {
        Form::NumberNode => literal_kind(word),
        Form::TruthNode => Some(number(IntType::Int)),
        Form::VariableNode => name_kind(node.environment, name_of(word)),
        Form::ParenNode => only_of(kinds),
        Form::ExprNode => comma_of(kinds),
        Form::AssignNode => set_of(setting_of(word)?, kinds),
        Form::CondNode => choice_of(kinds),
        Form::OrNode | Form::AndNode => logic_of(kinds),
        Form::BorNode
        | Form::BxorNode
        | Form::BandNode
        | Form::EqualNode
        | Form::OrderNode
        | Form::ShiftNode
        | Form::SumNode
        | Form::TermNode => binary_of(cl_meaning::binary_of(word)?, kinds),
        Form::CastNode => cast_of(&node.tree.parts, kinds),
        Form::UnaryNode => prefix_kind(prefix_of(word)?, kinds),
        Form::PostfixNode => postfix_kind(postfix_of(word)?, kinds),
        Form::CallNode => call_kind(callee_of(node.environment, name_of(word))?, kinds),
        Form::ListNode => list_kind(kinds),
        _ => None,
    }
}
