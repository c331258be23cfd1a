//! How a vector is made of its parts, and what else may stand among operands.

ghost use Rattle.std.specs.Prelude.{◌≡◌, option_map};
ghost use Rattle.cl_short_vec.specs.Made as spec;
ghost use Rattle.cl_short_vec.specs.Order as order;
ghost use Rattle.cl_tree.specs.Syntax.{view};

use crate::kinds::{Kind, is_vector};
use crate::selections::selection_of;
use cl_meaning::{Prefix, binary_of, prefix_of};
use cl_tree::{Form, Tree};
use wg_num::{Bin, IntType, Un};

/// What an operand is, or the items of a list.
#[derive(Clone, Copy, PartialEq, Eq, Debug)]
pub enum Made {
    /// No vector.
    Number,
    /// Several items of a list.
    Items,
    Variable,
    Element,
    /// In parentheses.
    Inside,
    Signed(Un),
    /// Several components of a vector.
    Selected,
    Joined(Bin),
    /// A function of vectors.
    Called,
    /// A list behind its type.
    Listed,
}

fn made_by_prefix(prefix: Option<Prefix>) -> Made
    ensures { result ≡ spec.made_by_prefix prefix }
{
    match prefix {
        Some(Prefix::Operator(op)) => Made::Signed(op),
        _ => Made::Element,
    }
}

fn made_by_selection(selection: Option<&[u8]>) -> Made
    ensures { result ≡ spec.made_by_selection (option_map (λ n. n.now) selection.entry) }
{
    match selection {
        Some(_) => Made::Selected,
        None => Made::Element,
    }
}

fn made_by_operator(op: Option<Bin>) -> Made
    ensures { result ≡ spec.made_by_operator op }
{
    match op {
        Some(op) => Made::Joined(op),
        None => Made::Variable,
    }
}

/// What an expression that is a vector is, by its production and its own words.
#[tactic(auto, unfolding(crate::specs::Made::made_in))]
fn made_in(form: Form, word: &[u8]) -> Made
    ensures { result ≡ spec.made_in form word.now }
{
    match form {
        Form::VariableNode => Made::Variable,
        Form::ParenNode => Made::Inside,
        Form::UnaryNode => made_by_prefix(prefix_of(word)),
        Form::PostfixNode => made_by_selection(selection_of(word)),
        Form::CallNode => Made::Called,
        Form::CastNode => Made::Listed,
        _ => made_by_operator(binary_of(word)),
    }
}

fn is_comma(form: Form) -> bool
    ensures { result ≡ spec.is_comma form }
{
    match form {
        Form::ExprNode => true,
        _ => false,
    }
}

/// What an operand is, or the items of a list where `listed` says so.
#[tactic(auto, using(cl_meaning::proofs::Views::view_out))]
pub(crate) fn made_of(listed: bool, tree: &Tree, kind: Kind) -> Made
    ensures { result ≡ spec.made_of listed (view tree.now) kind }
{
    if listed && is_comma(tree.form) {
        return Made::Items;
    }
    if is_vector(kind) {
        return made_in(tree.form, tree.word.bytes());
    }
    Made::Number
}

/// The type of the components of a vector; `int` for anything else.
pub(crate) fn type_in(kind: Kind) -> IntType
    ensures { result ≡ order.type_in kind }
{
    match kind {
        Kind::Vectors { vector, .. } => vector.of,
        _ => IntType::Int,
    }
}

/// How many components a vector has; anything else is one of itself.
pub(crate) fn count_in(kind: Kind) -> usize
    ensures { result ≡ order.count_in kind }
{
    match kind {
        Kind::Vectors { vector, .. } => vector.count,
        _ => 1,
    }
}
