//! Constant expressions.

ghost use Rattle.std.specs.Prelude.{◌≡◌, IfSome};
ghost use Rattle.wg_num.specs.Wrap.{IsValue};
ghost use Rattle.cl_tree.specs.Syntax.{view};
ghost use Rattle.cl_meaning.specs.Constants as spec;

use crate::conversions::{binary_type, common, operand_type, promoted, right_type, unary_type};
use crate::{Declared, Prefix, binary_of, declared_of, literal, prefix_of, truth_of};
use cl_tree::{Form, Tree};
use wg_num::{Bin, IntType, Un, binary, convert, size_of, unary};

/// The type and the value of a constant expression.
#[derive(Clone, Copy, PartialEq, Eq, Debug)]
pub struct Constant {
    pub of: IntType,
    pub value: i128,
}

fn is_true(constant: Constant) -> bool
    ensures { result ≡ spec.is_true constant.value }
{
    constant.value != 0
}

fn number_constant(word: &[u8]) -> Option<Constant>
    ensures { result ≡ spec.word_constant Form.NumberNode word.now }
{
    let found = literal(word)?;
    Some(Constant {
        of: found.of,
        value: i128::from(found.value),
    })
}

fn truth_constant(word: &[u8]) -> Option<Constant>
    ensures { result ≡ spec.word_constant Form.TruthNode word.now }
{
    let value = truth_of(word)?;
    Some(Constant {
        of: IntType::Int,
        value,
    })
}

fn word_constant(form: Form, word: &[u8]) -> Option<Constant>
    ensures { result ≡ spec.word_constant form word.now }
{
    match form {
        Form::NumberNode => number_constant(word),
        Form::TruthNode => truth_constant(word),
        _ => None,
    }
}

fn unary_constant(op: Un, a: Option<Constant>) -> Option<Constant>
    ensures { result ≡ spec.unary_constant op a }
{
    let a = a?;
    let of = promoted(a.of);
    Some(Constant {
        of: unary_type(op, of),
        value: unary(op, of, convert(of, a.value)),
    })
}

fn size_constant(declared: Option<Declared>) -> Option<Constant>
    ensures { result ≡ spec.size_constant declared }
{
    let declared = declared?;
    Some(Constant {
        of: IntType::Ulong,
        value: i128::from(size_of(declared.of)),
    })
}

fn prefixed_constant(
    form: Form,
    word: &[u8],
    declared: Option<Declared>,
    a: Option<Constant>,
) -> Option<Constant>
    ensures { result ≡ spec.prefixed_constant form word.now declared a }
{
    match form {
        Form::ParenNode => a,
        Form::UnaryNode => match prefix_of(word) {
            Some(Prefix::Operator(op)) => unary_constant(op, a),
            Some(Prefix::Size) => size_constant(declared),
            _ => None,
        },
        _ => None,
    }
}

fn binary_result(op: Bin, a: Constant, b: Constant) -> Constant
    ensures { result ≡ spec.binary_result op a b }
{
    let of = operand_type(op, a.of, b.of);
    let left = convert(of, a.value);
    let right = convert(right_type(op, a.of, b.of), b.value);
    Constant {
        of: binary_type(op, of),
        value: binary(op, of, left, right),
    }
}

fn binary_constant(op: Option<Bin>, a: Option<Constant>, b: Option<Constant>) -> Option<Constant>
    ensures { result ≡ spec.binary_constant op a b }
{
    match (op, a, b) {
        (Some(op), Some(a), Some(b)) => Some(binary_result(op, a, b)),
        _ => None,
    }
}

fn both_constant(a: Option<Constant>, b: Option<Constant>) -> Option<Constant>
    ensures { result ≡ spec.both_constant a b }
{
    match (a, b) {
        (Some(a), Some(b)) => Some(Constant {
            of: IntType::Int,
            value: i128::from(is_true(a) && is_true(b)),
        }),
        _ => None,
    }
}

fn either_constant(a: Option<Constant>, b: Option<Constant>) -> Option<Constant>
    ensures { result ≡ spec.either_constant a b }
{
    match (a, b) {
        (Some(a), Some(b)) => Some(Constant {
            of: IntType::Int,
            value: i128::from(is_true(a) || is_true(b)),
        }),
        _ => None,
    }
}

fn cast_constant(declared: Option<Declared>, a: Option<Constant>) -> Option<Constant>
    ensures { result ≡ spec.cast_constant declared a }
{
    match (declared, a) {
        (Some(declared), Some(a)) => Some(Constant {
            of: declared.of,
            value: convert(declared.of, a.value),
        }),
        _ => None,
    }
}

fn joined_constant(
    form: Form,
    word: &[u8],
    declared: Option<Declared>,
    a: Option<Constant>,
    b: Option<Constant>,
) -> Option<Constant>
    ensures { result ≡ spec.joined_constant form word.now declared a b }
{
    match form {
        Form::CastNode => cast_constant(declared, b),
        Form::TermNode
        | Form::SumNode
        | Form::ShiftNode
        | Form::OrderNode
        | Form::EqualNode
        | Form::BandNode
        | Form::BxorNode
        | Form::BorNode => binary_constant(binary_of(word), a, b),
        Form::AndNode => both_constant(a, b),
        Form::OrNode => either_constant(a, b),
        _ => None,
    }
}

fn chosen_constant(
    t: Option<Constant>,
    a: Option<Constant>,
    b: Option<Constant>,
) -> Option<Constant>
    ensures { result ≡ spec.chosen_constant t a b }
{
    match (t, a, b) {
        (Some(t), Some(a), Some(b)) => {
            let of = common(a.of, b.of);
            let chosen = if is_true(t) { a.value } else { b.value };
            Some(Constant {
                of,
                value: convert(of, chosen),
            })
        }
        _ => None,
    }
}

fn selected_constant(
    form: Form,
    t: Option<Constant>,
    a: Option<Constant>,
    b: Option<Constant>,
) -> Option<Constant>
    ensures { result ≡ spec.selected_constant form t a b }
{
    match form {
        Form::CondNode => chosen_constant(t, a, b),
        _ => None,
    }
}

/// The type and the value of a constant expression: one of numbers, truth words, operators, casts
/// and `sizeof` (C99, section 6.6). `None` for other trees.
pub fn constant_of(tree: &Tree) -> Option<Constant>
    ensures same { result ≡ spec.constant_of (view tree.now) }
    ensures value { IfSome result (λ c. IsValue c.of c.value) }
{
    let word = tree.word.bytes();
    match tree.parts.as_slice() {
        [] => word_constant(tree.form, word),
        [a] => prefixed_constant(tree.form, word, declared_of(a), constant_of(a)),
        [a, b] => joined_constant(
            tree.form,
            word,
            declared_of(a),
            constant_of(a),
            constant_of(b),
        ),
        [t, a, b] => selected_constant(tree.form, constant_of(t), constant_of(a), constant_of(b)),
        _ => None,
    }
}
