//! Operands of kinds that do not fit (C99, section 6.5).

ghost use Rattle.std.specs.Prelude.{◌≡◌, ◌||◌, IfOk};
ghost use Rattle.cl_meaning.specs.Spelling.{name_in, binary_in, prefix_in, postfix_in, setting_in};
ghost use Rattle.cl_meaning.specs.Kinds as kind_spec;
ghost use Rattle.cl_meaning.specs.Faults as spec;
ghost use Rattle.cl_tree.specs.Syntax.{views};
ghost use Rattle.cl_faults.specs.View.{looked_of};

use crate::arguments::are_known;
use crate::callees::{arity_fits, yields_nothing};
use crate::declarators::{declarator_misfits, declarator_of};
use crate::fitting::{
    binary_misfits, choice_misfits, comma_misfits, logic_misfits, postfix_misfits, prefix_misfits,
    setting_misfits,
};
use crate::kinds::{cast_kind, is_number};
use crate::looked::Looked;
use crate::operands::kind_of;
use cl_meaning::{Kind, Role, binary_of, declared_of, name_of, postfix_of, prefix_of, setting_of};
use cl_scope::{callee_of, last_kind};
use cl_tree::{Form, Tree};
use wg_num::Memory;

fn cast_misfits(parts: &[Tree], kinds: &[Option<Kind>]) -> bool
    ensures { result ≡ spec.cast_misfits (views parts.now) kinds.now }
{
    match (parts, kinds) {
        ([to, ..], [_, Some(kind), ..]) => match declared_of(to) {
            Some(declared) => cast_kind(Some(declared), *kind).is_none(),
            None => false,
        },
        _ => false,
    }
}

/// Whether the node is a call without a value that stands elsewhere than as the whole of a statement.
#[tactic(auto, using(cl_meaning::proofs::Views::view_out, crate::proofs::Known::all_are_known))]
fn is_valueless(node: Looked) -> bool
    ensures { result ≡ spec.valueless (looked_of node.entry) (kind_spec.callee_of (looked_of node.entry).env
        (name_in (looked_of node.entry).word)) }
{
    match callee_of(node.environment, name_of(node.tree.word.bytes())) {
        Some(callee) => {
            are_known(node.kinds)
                && arity_fits(callee, node.kinds.len())
                && yields_nothing(callee)
                && node.role != Role::Whole
        }
        None => false,
    }
}

fn pair_misfits(word: &[u8], kinds: &[Option<Kind>]) -> bool
    ensures { result ≡ spec.given (binary_in word.now) (λ op. spec.lacks_pair (kind_spec.binary_kind op) kinds.now) }
{
    match binary_of(word) {
        Some(op) => binary_misfits(op, kinds),
        None => false,
    }
}

fn prefixed_misfits(word: &[u8], kinds: &[Option<Kind>]) -> bool
    ensures { result ≡ spec.given (prefix_in word.now) (spec.prefix_misfits kinds.now) }
{
    match prefix_of(word) {
        Some(prefix) => prefix_misfits(prefix, kinds),
        None => false,
    }
}

fn postfixed_misfits(word: &[u8], kinds: &[Option<Kind>]) -> bool
    ensures { result ≡ spec.given (postfix_in word.now) (spec.postfix_misfits kinds.now) }
{
    match postfix_of(word) {
        Some(postfix) => postfix_misfits(postfix, kinds),
        None => false,
    }
}

fn set_misfits(word: &[u8], kinds: &[Option<Kind>]) -> bool
    ensures { result ≡ spec.given (setting_in word.now) (spec.setting_misfits kinds.now) }
{
    match setting_of(word) {
        Some(setting) => setting_misfits(setting, kinds),
        None => false,
    }
}

/// Whether the operands of an expression, or a declarator and its initialiser, do not fit.
#[tactic(auto, using(cl_meaning::proofs::Views::view_out), unfolding(cl_meaning::specs::Faults::misfits))]
pub(crate) fn operands_misfit(node: Looked) -> Result<bool, Memory>
    ensures { IfOk result (λ b. b ≡ spec.misfits (looked_of node.entry) (looked_of node.entry).form) }
{
    let word = node.tree.word.bytes();
    let kinds = node.kinds;
    match node.tree.form {
        Form::ExprNode => Ok(comma_misfits(kinds)),
        Form::AssignNode => Ok(set_misfits(word, kinds)),
        Form::CondNode => Ok(choice_misfits(kinds)),
        Form::OrNode | Form::AndNode => Ok(logic_misfits(kinds)),
        Form::BorNode
        | Form::BxorNode
        | Form::BandNode
        | Form::EqualNode
        | Form::OrderNode
        | Form::ShiftNode
        | Form::SumNode
        | Form::TermNode => Ok(pair_misfits(word, kinds)),
        Form::CastNode => Ok(cast_misfits(&node.tree.parts, kinds)),
        Form::UnaryNode => Ok(prefixed_misfits(word, kinds)),
        Form::PostfixNode => Ok(postfixed_misfits(word, kinds)),
        Form::CallNode => Ok(is_valueless(node)),
        Form::DeclaratorNode => {
            let declarator = declarator_of(node)?;
            Ok(declarator_misfits(node.environment.declared, &declarator, last_kind(kinds)))
        }
        _ => Ok(false),
    }
}

/// Whether a statement tests the node, and it is no number.
#[tactic(auto, using(cl_meaning::proofs::Views::view_out))]
pub(crate) fn tested_misfits(node: Looked) -> bool
    ensures { result ≡ spec.tested_misfits (looked_of node.entry) }
{
    if node.role != Role::Tested {
        return false;
    }
    match kind_of(node) {
        Some(kind) => !is_number(kind),
        None => false,
    }
}

/// Whether the node's operands do not fit, or a statement tests it and it is no number.
pub(crate) fn has_misfit(node: Looked) -> Result<bool, Memory>
    ensures { IfOk result (λ b. b ≡ (spec.misfits (looked_of node.entry) (looked_of node.entry).form ||
        spec.tested_misfits (looked_of node.entry))) }
{
    Ok(operands_misfit(node)? || tested_misfits(node))
}
