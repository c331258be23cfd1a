//! New nodes and names. A node that is new has the first and the last token of what it stands for.

ghost use Rattle.std.specs.Prelude.{◌≡◌, ◌-◌, ◌++◌, map, IfOk, OnOk};
ghost use Rattle.wg_num.specs.Wrap.{width_bits};
ghost use Rattle.cl_tree.specs.Syntax.{view, views, none};
ghost use Rattle.cl_tree.specs.Nodes.{forest1, forest2, forest3};
ghost use Rattle.cl_short_vec.specs.Nodes as spec;

use crate::types::Vector;
use cl_meaning::is_comparison;
use cl_model::Space;
use cl_tree::{Form, Tree};
use itoa::Buffer;
use std::alloc::Global;
use wg_num::{Bin, IntType, Memory, Un, Word, is_shift, push};

/// The numbers of the first and the last token of a node.
#[derive(Clone, Copy, PartialEq, Eq, Debug)]
pub struct Span {
    pub first: u32,
    pub last: u32,
}

// ---- nodes

/// The first and the last token of a tree.
#[tactic(auto, using(cl_meaning::proofs::Views::view_out))]
pub(crate) fn span_of(tree: &Tree) -> Span
    ensures { result ≡ spec.span_of (view tree.now) }
{
    Span {
        first: tree.first,
        last: tree.last,
    }
}

/// A node with these parts. `Memory` where memory was refused, here and below.
#[tactic(auto, using(cl_meaning::proofs::Views::view_out))]
pub(crate) fn node(
    alloc: Global,
    form: Form,
    word: &[u8],
    span: Span,
    parts: Vec<Tree>,
) -> Result<Tree, Memory>
    ensures { IfOk result (λ t. view t ≡ spec.at form word.now span (views parts.items)) }
{
    let word = Word::new(alloc, word)?;
    Ok(Tree {
        form,
        word,
        first: span.first,
        last: span.last,
        parts,
    })
}

/// The node of a tree, with other parts.
#[tactic(auto, using(cl_meaning::proofs::Views::view_out))]
pub(crate) fn with_parts(alloc: Global, tree: &Tree, parts: Vec<Tree>) -> Result<Tree, Memory>
    ensures { IfOk result (λ t. view t ≡ spec.with_parts (view tree.now) (views parts.items)) }
{
    node(alloc, tree.form, tree.word.bytes(), span_of(tree), parts)
}

pub(crate) fn leaf(alloc: Global, form: Form, word: &[u8], span: Span) -> Result<Tree, Memory>
    ensures { IfOk result (λ t. view t ≡ spec.at form word.now span none) }
{
    node(alloc, form, word, span, Vec::new(alloc))
}

/// One tree as a list.
pub(crate) fn one(alloc: Global, a: Tree) -> Result<Vec<Tree>, Memory>
    ensures { IfOk result (λ v. views v.items ≡ forest1 (view a)) }
{
    let mut parts = Vec::new(alloc);
    push(&mut parts, a)?;
    Ok(parts)
}

pub(crate) fn two(alloc: Global, a: Tree, b: Tree) -> Result<Vec<Tree>, Memory>
    ensures { IfOk result (λ v. views v.items ≡ forest2 (view a) (view b)) }
{
    let mut parts = Vec::new(alloc);
    push(&mut parts, a)?;
    push(&mut parts, b)?;
    Ok(parts)
}

pub(crate) fn three(alloc: Global, a: Tree, b: Tree, c: Tree) -> Result<Vec<Tree>, Memory>
    ensures { IfOk result (λ v. views v.items ≡ forest3 (view a) (view b) (view c)) }
{
    let mut parts = Vec::new(alloc);
    push(&mut parts, a)?;
    push(&mut parts, b)?;
    push(&mut parts, c)?;
    Ok(parts)
}

pub(crate) fn variable_at(alloc: Global, name: &[u8], span: Span) -> Result<Tree, Memory>
    ensures { IfOk result (λ t. view t ≡ spec.variable_at name.now span) }
{
    leaf(alloc, Form::VariableNode, name, span)
}

pub(crate) fn put(text: &mut Vec<u8>, bytes: &[u8]) -> Result<(), Memory>
    ensures { OnOk result (text.new.items ≡ text.old.items ++ bytes.now) }
{
    match text.extend_from_slice(bytes) {
        Ok(()) => Ok(()),
        Err(_) => Err(Memory),
    }
}

/// A number of type `long`.
pub(crate) fn long_at(alloc: Global, number: usize, span: Span) -> Result<Tree, Memory>
    ensures { IfOk result (λ t. view t ≡ spec.long_at number span) }
{
    let mut digits = Buffer::new();
    let mut text = Vec::new(alloc);
    put(&mut text, digits.format(number).as_bytes())?;
    put(&mut text, b"L")?;
    leaf(alloc, Form::NumberNode, &text, span)
}

/// A number of type `int`.
pub(crate) fn int_at(alloc: Global, number: usize, span: Span) -> Result<Tree, Memory>
    ensures { IfOk result (λ t. view t ≡ spec.int_at number span) }
{
    let mut digits = Buffer::new();
    leaf(
        alloc,
        Form::NumberNode,
        digits.format(number).as_bytes(),
        span,
    )
}

pub(crate) fn paren_at(alloc: Global, span: Span, tree: Tree) -> Result<Tree, Memory>
    ensures { IfOk result (λ t. view t ≡ spec.paren_at span (view tree)) }
{
    let parts = one(alloc, tree)?;
    node(alloc, Form::ParenNode, b"( )", span, parts)
}

// ---- types

fn type_word(of: IntType) -> &'static [u8]
    ensures { result.now ≡ spec.type_word of }
{
    match of {
        IntType::Bool => b"bool",
        IntType::Char => b"char",
        IntType::Uchar => b"uchar",
        IntType::Short => b"short",
        IntType::Ushort => b"ushort",
        IntType::Int => b"int",
        IntType::Uint => b"uint",
        IntType::Long => b"long",
        IntType::Ulong => b"ulong",
    }
}

/// The words of a type that is `const` or not.
pub(crate) fn constant_word(alloc: Global, constant: bool, of: IntType) -> Result<Vec<u8>, Memory>
    ensures { IfOk result (λ v. v.items ≡ spec.constant_word constant of) }
{
    let mut text = Vec::new(alloc);
    if constant {
        put(&mut text, b"const ")?;
    }
    put(&mut text, type_word(of))?;
    Ok(text)
}

pub(crate) fn typed_at(alloc: Global, of: IntType, span: Span) -> Result<Tree, Memory>
    ensures { IfOk result (λ t. view t ≡ spec.typed_at of span) }
{
    leaf(alloc, Form::TypeNode, type_word(of), span)
}

fn space_word(space: Space) -> &'static [u8]
    ensures { result.now ≡ spec.space_word space }
{
    match space {
        Space::Global => b"__global",
        Space::Constant => b"__constant",
        Space::Local => b"__local",
        Space::Private => b"__private",
    }
}

/// A type in a space.
pub(crate) fn spaced_at(
    alloc: Global,
    space: Space,
    constant: bool,
    of: IntType,
    span: Span,
) -> Result<Tree, Memory>
    ensures { IfOk result (λ t. view t ≡ spec.spaced_at space constant of span) }
{
    let word = constant_word(alloc, constant, of)?;
    let inner = leaf(alloc, Form::SpaceNode, space_word(space), span)?;
    let parts = one(alloc, inner)?;
    node(alloc, Form::TypeNode, &word, span, parts)
}

/// The conversion of a tree in parentheses to a type.
pub(crate) fn cast_at(alloc: Global, of: IntType, span: Span, tree: Tree) -> Result<Tree, Memory>
    ensures { IfOk result (λ t. view t ≡ spec.cast_at of span (view tree)) }
{
    let base = typed_at(alloc, of, span)?;
    let inner = paren_at(alloc, span, tree)?;
    let parts = two(alloc, base, inner)?;
    node(alloc, Form::CastNode, b"( )", span, parts)
}

// ---- operators

fn operator_form(op: Bin) -> Form
    ensures { result ≡ spec.operator_form op }
{
    match op {
        Bin::Mul | Bin::Div | Bin::Rem => Form::TermNode,
        Bin::Add | Bin::Sub => Form::SumNode,
        Bin::Shl | Bin::Shr => Form::ShiftNode,
        Bin::And => Form::BandNode,
        Bin::Xor => Form::BxorNode,
        Bin::Or => Form::BorNode,
        Bin::Eq | Bin::Ne => Form::EqualNode,
        Bin::Lt | Bin::Le | Bin::Gt | Bin::Ge => Form::OrderNode,
    }
}

fn operator_word(op: Bin) -> &'static [u8]
    ensures { result.now ≡ spec.operator_word op }
{
    match op {
        Bin::Mul => b"*",
        Bin::Div => b"/",
        Bin::Rem => b"%",
        Bin::Add => b"+",
        Bin::Sub => b"-",
        Bin::Shl => b"<<",
        Bin::Shr => b">>",
        Bin::And => b"&",
        Bin::Xor => b"^",
        Bin::Or => b"|",
        Bin::Eq => b"==",
        Bin::Ne => b"!=",
        Bin::Lt => b"<",
        Bin::Le => b"<=",
        Bin::Gt => b">",
        Bin::Ge => b">=",
    }
}

fn sign_word(op: Un) -> &'static [u8]
    ensures { result.now ≡ spec.sign_word op }
{
    match op {
        Un::Plus => b"+",
        Un::Minus => b"-",
        Un::Flip => b"~",
        Un::Not => b"!",
    }
}

/// An operator between two operands.
pub(crate) fn joined_at(
    alloc: Global,
    op: Bin,
    span: Span,
    a: Tree,
    b: Tree,
) -> Result<Tree, Memory>
    ensures { IfOk result (λ t. view t ≡ spec.joined_at op span (view a) (view b)) }
{
    let parts = two(alloc, a, b)?;
    node(alloc, operator_form(op), operator_word(op), span, parts)
}

/// An operator before its operand.
pub(crate) fn signed_at(alloc: Global, op: Un, span: Span, tree: Tree) -> Result<Tree, Memory>
    ensures { IfOk result (λ t. view t ≡ spec.signed_at op span (view tree)) }
{
    let parts = one(alloc, tree)?;
    node(alloc, Form::UnaryNode, sign_word(op), span, parts)
}

/// The greatest amount by which a shift in that type shifts.
fn greatest_amount(of: IntType) -> usize
    ensures { result ≡ width_bits of - 1 }
{
    match of {
        IntType::Bool | IntType::Char | IntType::Uchar => 7,
        IntType::Short | IntType::Ushort => 15,
        IntType::Int | IntType::Uint => 31,
        IntType::Long | IntType::Ulong => 63,
    }
}

/// The low bits of an amount, as many as a shift in that type looks at (OpenCL 1.2, section 6.3).
fn amount_at(alloc: Global, of: IntType, span: Span, tree: Tree) -> Result<Tree, Memory>
    ensures { IfOk result (λ t. view t ≡ spec.amount_at of span (view tree)) }
{
    let bits = int_at(alloc, greatest_amount(of), span)?;
    let low = joined_at(alloc, Bin::And, span, tree, bits)?;
    paren_at(alloc, span, low)
}

/// An operator on two components, in the type of its result: a comparison gives 0 or -1 (OpenCL 1.2, section 6.3).
pub(crate) fn component_joined(
    alloc: Global,
    op: Bin,
    of: IntType,
    span: Span,
    a: Tree,
    b: Tree,
) -> Result<Tree, Memory>
    ensures { IfOk result (λ t. view t ≡ spec.component_joined op of span (view a) (view b)) }
{
    if is_comparison(op) {
        let compared = joined_at(alloc, op, span, a, b)?;
        let inner = paren_at(alloc, span, compared)?;
        let signed = signed_at(alloc, Un::Minus, span, inner)?;
        return cast_at(alloc, of, span, signed);
    }
    let right = if is_shift(op) {
        amount_at(alloc, of, span, b)?
    } else {
        b
    };
    let joined = joined_at(alloc, op, span, a, right)?;
    cast_at(alloc, of, span, joined)
}

// ---- elements

/// The element of a pointer at an index.
pub(crate) fn element_at(
    alloc: Global,
    span: Span,
    pointer: Tree,
    index: Tree,
) -> Result<Tree, Memory>
    ensures { IfOk result (λ t. view t ≡ spec.element_at span (view pointer) (view index)) }
{
    let parts = two(alloc, pointer, index)?;
    node(alloc, Form::PostfixNode, b"[ ]", span, parts)
}

/// An index, as many times as a vector has components.
pub(crate) fn scaled(alloc: Global, vector: Vector, index: Tree) -> Result<Tree, Memory>
    ensures { IfOk result (λ t. view t ≡ spec.scaled vector (view index)) }
{
    let span = span_of(&index);
    let long = cast_at(alloc, IntType::Long, span, index)?;
    let count = long_at(alloc, vector.count, span)?;
    joined_at(alloc, Bin::Mul, span, long, count)
}

/// The index of a component behind that of the first one.
pub(crate) fn further(alloc: Global, component: usize, index: Tree) -> Result<Tree, Memory>
    ensures { IfOk result (λ t. view t ≡ spec.further component (view index)) }
{
    let span = span_of(&index);
    let number = long_at(alloc, component, span)?;
    joined_at(alloc, Bin::Add, span, index, number)
}

// ---- assignments and declarations

pub(crate) fn assigned_at(
    alloc: Global,
    word: &[u8],
    span: Span,
    target: Tree,
    value: Tree,
) -> Result<Tree, Memory>
    ensures { IfOk result (λ t. view t ≡ spec.assigned_at word.now span (view target) (view value)) }
{
    let parts = two(alloc, target, value)?;
    node(alloc, Form::AssignNode, word, span, parts)
}

/// The word of an operator that assigns.
pub(crate) fn setting_word(alloc: Global, op: Bin) -> Result<Vec<u8>, Memory>
    ensures { IfOk result (λ v. v.items ≡ spec.setting_word op) }
{
    let mut text = Vec::new(alloc);
    put(&mut text, operator_word(op))?;
    put(&mut text, b"=")?;
    Ok(text)
}

/// The statement that sets a target.
pub(crate) fn statement_at(
    alloc: Global,
    span: Span,
    target: Tree,
    value: Tree,
) -> Result<Tree, Memory>
    ensures { IfOk result (λ t. view t ≡ spec.statement_at span (view target) (view value)) }
{
    let assignment = assigned_at(alloc, b"=", span, target, value)?;
    let parts = one(alloc, assignment)?;
    node(alloc, Form::SimpleNode, b";", span, parts)
}

/// A declaration of one variable with its initialiser, whose declarator has these parts.
pub(crate) fn declared_at(
    alloc: Global,
    span: Span,
    base: Tree,
    name: &[u8],
    parts: Vec<Tree>,
) -> Result<Tree, Memory>
    ensures { IfOk result (λ t. view t ≡ spec.declared_at span (view base) name.now (views parts.items)) }
{
    let mut word = Vec::new(alloc);
    put(&mut word, name)?;
    put(&mut word, b" =")?;
    let declarator = node(alloc, Form::DeclaratorNode, &word, span, parts)?;
    let whole = two(alloc, base, declarator)?;
    node(alloc, Form::DeclareNode, b";", span, whole)
}

/// A star in front of a name whose token is the first one.
pub(crate) fn star_at(alloc: Global, span: Span) -> Result<Tree, Memory>
    ensures { IfOk result (λ t. view t ≡ spec.star_at span) }
{
    let star = Span {
        first: span.first,
        last: span.first.saturating_sub(1),
    };
    leaf(alloc, Form::StarNode, b"*", star)
}

// ---- names

/// The name of a component of a vector variable.
pub(crate) fn component_name(
    alloc: Global,
    name: &[u8],
    component: usize,
) -> Result<Vec<u8>, Memory>
    ensures { IfOk result (λ v. v.items ≡ spec.component_name name.now component) }
{
    let mut digits = Buffer::new();
    let mut text = Vec::new(alloc);
    put(&mut text, name)?;
    put(&mut text, b".")?;
    put(&mut text, digits.format(component).as_bytes())?;
    Ok(text)
}

/// The name of the helping variable of a leaf or of a target.
pub(crate) fn helper(alloc: Global, span: Span) -> Result<Vec<u8>, Memory>
    ensures { IfOk result (λ v. v.items ≡ spec.helper span) }
{
    let mut digits = Buffer::new();
    let mut text = Vec::new(alloc);
    put(&mut text, b".")?;
    put(&mut text, digits.format(span.first).as_bytes())?;
    Ok(text)
}

/// The helping variable of a component of a leaf or of a target.
pub(crate) fn helping_component(alloc: Global, span: Span, component: usize) -> Result<Tree, Memory>
    ensures { IfOk result (λ t. view t ≡ spec.helping_component span component) }
{
    let name = helper(alloc, span)?;
    let whole = component_name(alloc, &name, component)?;
    variable_at(alloc, &whole, span)
}
