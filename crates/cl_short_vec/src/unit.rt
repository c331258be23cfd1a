//! The unit without vectors that stands for a unit with vectors: a vector statement becomes a line for each of its
//! steps, and a vector variable one variable for each component.

ghost use Rattle.std.specs.Prelude.{◌≡◌, ◌&&◌, not, option_map, Some, None, IfOk, OnOk};
ghost use Rattle.cl_tree.specs.declared.tree.Form.TheVariants as forms;
ghost use Rattle.cl_tree.specs.Syntax.{view, views, joined};
ghost use Rattle.cl_meaning.specs.Declarations.{form_of};
ghost use Rattle.cl_meaning.specs.Declarations as declarations;
ghost use Rattle.cl_short_vec.specs.Marks.{tree_at};
ghost use Rattle.cl_short_vec.specs.Nodes as nodes;
ghost use Rattle.cl_short_vec.specs.Scalar as scalar;
ghost use Rattle.cl_short_vec.specs.Unit as spec;
ghost use Rattle.cl_short_vec.specs.View.{mark_of, marks_of, named_of, step_of, steps_from, assigned_from};

use crate::kinds::{Kind, Reach, is_vector};
use crate::made::type_in;
use crate::marks::{Marked, back};
use crate::nodes::{
    Span, component_name, declared_at, element_at, helper, int_at, joined_at, leaf, long_at, node,
    one, paren_at, spaced_at, span_of, star_at, statement_at, three, two, typed_at, variable_at,
    with_parts,
};
use crate::parts::{Assigned, assigned_part};
use crate::refuse::components_of;
use crate::scalar::{scalar, scalars};
use crate::selections::all_components;
use crate::steps::{Step, Variable, initial_steps, operator_in, setting_steps, under};
use crate::types::{Vector, vector_type};
use cl_meaning::{dimensions_of, is_set, name_of, setting_of};
use cl_tree::{Form, Tree};
use std::alloc::Global;
use wg_num::{Bin, IntType, Memory, push};

// ---- lines

/// The first and the last token of a marked tree.
#[tactic(auto, using(crate::proofs::Views::seen))]
fn span_at(part: &Marked) -> Span
    ensures { result ≡ nodes.span_of (tree_at (mark_of part.now)) }
{
    span_of(part.tree)
}

/// The type of what an element is. `Memory` where memory was refused, here and below.
fn pointed_at(alloc: Global, kind: Kind, span: Span) -> Result<Tree, Memory>
    ensures { IfOk result (λ t. view t ≡ spec.pointed_at kind span) }
{
    match kind {
        Kind::Vectors {
            vector,
            reach: Reach::Element { space, constant },
        } => spaced_at(alloc, space, constant, vector.of, span),
        _ => typed_at(alloc, IntType::Int, span),
    }
}

/// The pointer to the first component of an element.
fn address_at(alloc: Global, element: &Marked) -> Result<Tree, Memory>
    ensures { IfOk result (λ t. view t ≡ spec.address_at (mark_of element.now)) }
{
    let place = scalar(alloc, element)?;
    let parts = one(alloc, place)?;
    node(alloc, Form::UnaryNode, b"&", span_at(element), parts)
}

#[tactic(auto, using(crate::proofs::Views::seen))]
fn offset_line(alloc: Global, element: &Marked) -> Result<Tree, Memory>
    ensures { IfOk result (λ t. view t ≡ spec.offset_line (mark_of element.now)) }
{
    let span = span_at(element);
    let base = pointed_at(alloc, element.kind, span)?;
    let name = helper(alloc, span)?;
    let star = star_at(alloc, span)?;
    let address = address_at(alloc, element)?;
    let parts = two(alloc, star, address)?;
    declared_at(alloc, span, base, &name, parts)
}

fn number_line(alloc: Global, of: IntType, number: &Marked) -> Result<Tree, Memory>
    ensures { IfOk result (λ t. view t ≡ spec.number_line of (mark_of number.now)) }
{
    let span = span_at(number);
    let base = typed_at(alloc, of, span)?;
    let name = helper(alloc, span)?;
    let value = scalar(alloc, number)?;
    let parts = one(alloc, value)?;
    declared_at(alloc, span, base, &name, parts)
}

fn copy_line(
    alloc: Global,
    of: IntType,
    variable: Variable,
    component: usize,
) -> Result<Tree, Memory>
    ensures { IfOk result (λ t. view t ≡ spec.copy_line of (named_of variable.entry) component) }
{
    let span = variable.span;
    let base = typed_at(alloc, of, span)?;
    let help = helper(alloc, span)?;
    let name = component_name(alloc, &help, component)?;
    let old = component_name(alloc, variable.name, component)?;
    let value = variable_at(alloc, &old, span)?;
    let parts = one(alloc, value)?;
    declared_at(alloc, span, base, &name, parts)
}

/// A component of an element whose pointer is a helping variable.
fn helped_element(alloc: Global, span: Span, component: usize) -> Result<Tree, Memory>
    ensures { IfOk result (λ t. view t ≡ spec.helped_element span component) }
{
    let name = helper(alloc, span)?;
    let pointer = variable_at(alloc, &name, span)?;
    let index = long_at(alloc, component, span)?;
    element_at(alloc, span, pointer, index)
}

#[tactic(auto, using(crate::proofs::Views::seen))]
fn load_line(alloc: Global, element: &Marked, component: usize) -> Result<Tree, Memory>
    ensures { IfOk result (λ t. view t ≡ spec.load_line (mark_of element.now) component) }
{
    let span = span_at(element);
    let base = typed_at(alloc, type_in(element.kind), span)?;
    let help = helper(alloc, span)?;
    let name = component_name(alloc, &help, component)?;
    let value = helped_element(alloc, span, component)?;
    let parts = one(alloc, value)?;
    declared_at(alloc, span, base, &name, parts)
}

/// The line that sets a component of a variable, or declares it behind a type.
fn set_line(
    alloc: Global,
    base: Option<&Marked>,
    variable: Variable,
    component: usize,
    value: Tree,
) -> Result<Tree, Memory>
    ensures { IfOk result (λ t. view t ≡ spec.set_line (option_map (λ m. mark_of m.now) base.entry)
        (named_of variable.entry) component (view value)) }
{
    let name = component_name(alloc, variable.name, component)?;
    match base {
        None => {
            let target = variable_at(alloc, &name, variable.span)?;
            statement_at(alloc, variable.span, target, value)
        }
        Some(base) => {
            let tree = scalar(alloc, base)?;
            let parts = one(alloc, value)?;
            declared_at(alloc, variable.span, tree, &name, parts)
        }
    }
}

fn store_line(
    alloc: Global,
    element: &Marked,
    component: usize,
    value: Tree,
) -> Result<Tree, Memory>
    ensures { IfOk result (λ t. view t ≡ spec.store_line (mark_of element.now) component (view value)) }
{
    let span = span_at(element);
    let target = helped_element(alloc, span, component)?;
    statement_at(alloc, span, target, value)
}

/// The line of a step, where components are declared behind `base`.
fn line_of(
    alloc: Global,
    base: Option<&Marked>,
    assigned: &Assigned,
    step: Step,
) -> Result<Tree, Memory>
    ensures { IfOk result (λ t. view t ≡ spec.line_of (option_map (λ m. mark_of m.now) base.entry)
        (assigned_from assigned.now) (step_of step.entry)) }
{
    match step {
        Step::Offset { element } => offset_line(alloc, element),
        Step::Number { of, number } => number_line(alloc, of, number),
        Step::Copy {
            of,
            variable,
            component,
        } => copy_line(alloc, of, variable, component),
        Step::Load { element, component } => load_line(alloc, element, component),
        Step::Set {
            variable,
            component,
            value,
        } => {
            let part = assigned_part(alloc, assigned, value)?;
            set_line(alloc, base, variable, component, part)
        }
        Step::Store {
            element,
            component,
            value,
        } => {
            let part = assigned_part(alloc, assigned, value)?;
            store_line(alloc, element, component, part)
        }
    }
}

/// Puts the lines of some steps behind others.
fn put_lines(
    alloc: Global,
    lines: &mut Vec<Tree>,
    base: Option<&Marked>,
    assigned: &Assigned,
    steps: &[Step],
) -> Result<(), Memory>
    ensures { OnOk result (views lines.new.items ≡ joined (views lines.old.items)
        (spec.lines_of (option_map (λ m. mark_of m.now) base.entry) (assigned_from assigned.now)
        (steps_from steps.now))) }
{
    for step in steps {
        let line = line_of(alloc, base, assigned, *step)?;
        push(lines, line)?;
    }
    Ok(())
}

// ---- statements

/// An assignment to a vector, as a block.
#[tactic(auto, using(crate::proofs::Views::seen))]
fn set_block<'b, 'a>(
    alloc: Global,
    span: Span,
    operator: Option<Bin>,
    target: &'b Marked<'a>,
    value: &'b Marked<'a>,
) -> Result<Tree, Memory>
    ensures { IfOk result (λ t. view t ≡ spec.set_block span operator (mark_of target.now) (mark_of value.now)) }
{
    let assigned = Assigned {
        operator,
        of: type_in(target.kind),
        target: span_at(under(target)),
        components: components_of(alloc, target)?,
        value,
    };
    let steps = setting_steps(alloc, operator, target, value)?;
    let mut lines = Vec::new(alloc);
    put_lines(alloc, &mut lines, None, &assigned, &steps)?;
    node(alloc, Form::BlockNode, b"{ }", span, lines)
}

/// An assignment that is the whole of that statement, with that span.
#[tactic(auto, using(crate::proofs::Units::counted_or_not, crate::proofs::Units::not_two))]
fn assignment_by(
    alloc: Global,
    span: Span,
    whole: &Marked,
    statement: &Marked,
) -> Result<Tree, Memory>
    ensures { IfOk result (λ t. view t ≡ spec.whole_by forms.AssignNode span (mark_of whole.now)
        (scalar.scalar (mark_of statement.now))) }
{
    match whole.parts.as_slice() {
        [] => scalar(alloc, statement),
        [_] => scalar(alloc, statement),
        [target, value] => {
            if is_vector(target.kind) {
                let operator = operator_in(setting_of(whole.tree.word.bytes()));
                return set_block(alloc, span, operator, target, value);
            }
            scalar(alloc, statement)
        }
        [_, _, _, ..] => scalar(alloc, statement),
    }
}

/// An expression that is the whole of that statement, with that span.
#[tactic(auto, using(crate::proofs::Views::seen, cl_meaning::proofs::Views::view_out))]
fn whole_by(alloc: Global, span: Span, whole: &Marked, statement: &Marked) -> Result<Tree, Memory>
    ensures { IfOk result (λ t. view t ≡ spec.whole_by (form_of (tree_at (mark_of whole.now))) span
        (mark_of whole.now) (scalar.scalar (mark_of statement.now))) }
{
    match whole.tree.form {
        Form::AssignNode => assignment_by(alloc, span, whole, statement),
        _ => scalar(alloc, statement),
    }
}

/// A statement that is an expression.
#[tactic(auto, using(crate::proofs::Units::simple))]
fn simple_at(alloc: Global, statement: &Marked) -> Result<Tree, Memory>
    ensures { IfOk result (λ t. view t ≡ spec.simple_of (mark_of statement.now)) }
{
    match statement.parts.as_slice() {
        [] => scalar(alloc, statement),
        [whole] => whole_by(alloc, span_of(statement.tree), whole, statement),
        [_, _, ..] => scalar(alloc, statement),
    }
}

// ---- declarations

/// The number of the token behind a star, or else the first one.
#[tactic(auto, using(cl_meaning::proofs::Views::view_out))]
fn name_token(first: u32, parts: &[Tree]) -> Result<u32, Memory>
    ensures { IfOk result (λ t. t ≡ declarations.name_token first (views parts.now)) }
{
    match parts {
        [] => Ok(first),
        [part, ..] => match part.form {
            Form::StarNode => part.last.checked_add(1).ok_or(Memory),
            _ => Ok(first),
        },
    }
}

/// The token of a declarator's name.
#[tactic(auto, using(cl_meaning::proofs::Views::view_out))]
fn name_span(tree: &Tree) -> Result<Span, Memory>
    ensures { IfOk result (λ s. s ≡ spec.name_span (view tree.now)) }
{
    let token = name_token(tree.first, &tree.parts)?;
    Ok(Span {
        first: token,
        last: token,
    })
}

/// The variable of a declarator.
#[tactic(auto, using(cl_meaning::proofs::Views::view_out))]
fn declared_name<'a>(tree: &'a Tree) -> Result<Variable<'a>, Memory>
    ensures { IfOk result (λ x. named_of x ≡ spec.declared_name (view tree.now)) }
{
    let span = name_span(tree)?;
    Ok(Variable {
        name: name_of(tree.word.bytes()),
        span,
    })
}

fn component_declarator(alloc: Global, variable: Variable, component: usize) -> Result<Tree, Memory>
    ensures { IfOk result (λ t. view t ≡ spec.component_declarator (named_of variable.entry) component) }
{
    let name = component_name(alloc, variable.name, component)?;
    leaf(alloc, Form::DeclaratorNode, &name, variable.span)
}

/// Puts the components of a variable without an initialiser behind other declarators.
fn put_components(
    alloc: Global,
    list: &mut Vec<Tree>,
    variable: Variable,
    components: &[usize],
) -> Result<(), Memory>
    ensures { OnOk result (views list.new.items ≡ joined (views list.old.items)
        (spec.component_declarators (named_of variable.entry) components.now)) }
{
    for component in components {
        let declarator = component_declarator(alloc, variable, *component)?;
        push(list, declarator)?;
    }
    Ok(())
}

/// A length beside a number, with an operator between them.
fn beside(
    alloc: Global,
    op: Bin,
    span: Span,
    length: &Marked,
    number: usize,
) -> Result<Tree, Memory>
    ensures { IfOk result (λ t. view t ≡ spec.beside op span (scalar.scalar (mark_of length.now)) number) }
{
    let tree = scalar(alloc, length)?;
    let inner = paren_at(alloc, span, tree)?;
    let right = int_at(alloc, number, span)?;
    joined_at(alloc, op, span, inner, right)
}

fn test_at(alloc: Global, span: Span, length: &Marked) -> Result<Tree, Memory>
    ensures { IfOk result (λ t. view t ≡ spec.test_at span (scalar.scalar (mark_of length.now))) }
{
    let some = beside(alloc, Bin::Gt, span, length, 0)?;
    let room = beside(alloc, Bin::Lt, span, length, 1048577)?;
    let parts = two(alloc, some, room)?;
    node(alloc, Form::AndNode, b"&&", span, parts)
}

/// As many elements as the vectors of an array have components together.
fn length_at(alloc: Global, vector: Vector, length: &Marked) -> Result<Tree, Memory>
    ensures { IfOk result (λ t. view t ≡ spec.length_at vector (scalar.scalar (mark_of length.now))) }
{
    let tree = scalar(alloc, length)?;
    let span = span_of(&tree);
    let test = test_at(alloc, span, length)?;
    let many = beside(alloc, Bin::Mul, span, length, vector.count)?;
    let zero = int_at(alloc, 0, span)?;
    let parts = three(alloc, test, many, zero)?;
    node(alloc, Form::CondNode, b"? :", span, parts)
}

fn is_length_form(form: Form) -> bool
    ensures { result ≡ spec.is_length_form form }
{
    match form {
        Form::StarNode | Form::ListNode => false,
        _ => true,
    }
}

/// A part of an array's declarator.
#[tactic(auto, using(crate::proofs::Views::seen, cl_meaning::proofs::Views::view_out))]
fn length_or_part(alloc: Global, vector: Vector, part: &Marked) -> Result<Tree, Memory>
    ensures { IfOk result (λ t. view t ≡ spec.length_or_part vector (mark_of part.now)) }
{
    if is_length_form(part.tree.form) {
        return length_at(alloc, vector, part);
    }
    scalar(alloc, part)
}

fn lengths_at(alloc: Global, vector: Vector, parts: &[Marked]) -> Result<Vec<Tree>, Memory>
    ensures { IfOk result (λ v. views v.items ≡ spec.lengths_at vector (marks_of parts.now)) }
{
    let mut list = Vec::new(alloc);
    for part in parts {
        let tree = length_or_part(alloc, vector, part)?;
        push(&mut list, tree)?;
    }
    Ok(list)
}

/// Puts what stands for a declarator behind a vector type behind other declarators.
#[tactic(auto, using(crate::proofs::Views::node_seen, crate::proofs::Growing::views_pushed))]
fn put_declarator(
    alloc: Global,
    list: &mut Vec<Tree>,
    vector: Vector,
    declarator: &Marked,
) -> Result<(), Memory>
    ensures { OnOk result (views list.new.items ≡ joined (views list.old.items)
        (spec.declarators_of vector (mark_of declarator.now))) }
{
    if dimensions_of(declarator.tree.word.bytes()) == 0 {
        let variable = declared_name(declarator.tree)?;
        let components = all_components(alloc, vector.count)?;
        return put_components(alloc, list, variable, &components);
    }
    let parts = lengths_at(alloc, vector, &declarator.parts)?;
    let word = declarator.tree.word.bytes();
    let tree = node(
        alloc,
        Form::DeclaratorNode,
        word,
        span_of(declarator.tree),
        parts,
    )?;
    push(list, tree)
}

/// Puts what stands for some declarators behind a vector type behind other declarators.
fn put_declarators(
    alloc: Global,
    list: &mut Vec<Tree>,
    vector: Vector,
    declarators: &[Marked],
) -> Result<(), Memory>
    ensures { OnOk result (views list.new.items ≡ joined (views list.old.items)
        (spec.all_declarators vector (marks_of declarators.now))) }
{
    for declarator in declarators {
        put_declarator(alloc, list, vector, declarator)?;
    }
    Ok(())
}

/// The parts of a declaration in one node.
#[tactic(auto, using(crate::proofs::Views::seen), unfolding(crate::specs::Scalar::scalars))]
fn declaration(alloc: Global, parts: &[Marked]) -> Result<Vec<Tree>, Memory>
    ensures { IfOk result (λ v. views v.items ≡ spec.declaration (marks_of parts.now)) }
{
    match parts {
        [] => Ok(Vec::new(alloc)),
        [base, declarators @ ..] => match vector_type(base.tree) {
            None => scalars(alloc, parts),
            Some(vector) => {
                let tree = scalar(alloc, base)?;
                let mut list = one(alloc, tree)?;
                put_declarators(alloc, &mut list, vector, declarators)?;
                Ok(list)
            }
        },
    }
}

/// The initialiser of a declarator.
#[tactic(auto, using(crate::proofs::Views::node_seen))]
fn initialiser<'b, 'a>(declarator: &'b Marked<'a>) -> Option<&'b Marked<'a>>
    ensures { option_map (λ m. mark_of m.now) result ≡ spec.initialiser (mark_of declarator.now) }
{
    if is_set(declarator.tree.word.bytes()) {
        return back(&declarator.parts);
    }
    None
}

/// Puts the line of a declarator behind a vector type, without an initialiser, behind others.
#[tactic(auto, using(crate::proofs::Views::seen, crate::proofs::Growing::views_pushed))]
fn put_plain(
    alloc: Global,
    lines: &mut Vec<Tree>,
    vector: Vector,
    base: &Marked,
    declarator: &Marked,
) -> Result<(), Memory>
    ensures { OnOk result (views lines.new.items ≡ joined (views lines.old.items)
        (spec.declarator_lines vector (mark_of base.now) (mark_of declarator.now) None)) }
{
    let tree = scalar(alloc, base)?;
    let mut parts = one(alloc, tree)?;
    put_declarator(alloc, &mut parts, vector, declarator)?;
    let line = node(alloc, Form::DeclareNode, b";", span_at(declarator), parts)?;
    push(lines, line)
}

/// Puts the lines of a declarator behind a vector type, with that initialiser, behind others.
#[tactic(auto, using(crate::proofs::Views::seen))]
fn put_set<'b, 'a>(
    alloc: Global,
    lines: &mut Vec<Tree>,
    vector: Vector,
    base: &Marked,
    declarator: &'b Marked<'a>,
    value: &'b Marked<'a>,
) -> Result<(), Memory>
    ensures { OnOk result (views lines.new.items ≡ joined (views lines.old.items)
        (spec.declarator_lines vector (mark_of base.now) (mark_of declarator.now) (Some (mark_of value.now)))) }
{
    let variable = declared_name(declarator.tree)?;
    let assigned = Assigned {
        operator: None,
        of: vector.of,
        target: variable.span,
        components: Vec::new(alloc),
        value,
    };
    let steps = initial_steps(alloc, vector, variable, value)?;
    put_lines(alloc, lines, Some(base), &assigned, &steps)
}

/// Puts the lines of a declarator behind a vector type behind others.
fn put_declared(
    alloc: Global,
    lines: &mut Vec<Tree>,
    vector: Vector,
    base: &Marked,
    declarator: &Marked,
) -> Result<(), Memory>
    ensures { OnOk result (views lines.new.items ≡ joined (views lines.old.items)
        (spec.declarator_lines vector (mark_of base.now) (mark_of declarator.now)
        (spec.initialiser (mark_of declarator.now)))) }
{
    match initialiser(declarator) {
        None => put_plain(alloc, lines, vector, base, declarator),
        Some(value) => put_set(alloc, lines, vector, base, declarator, value),
    }
}

fn put_all_declared(
    alloc: Global,
    lines: &mut Vec<Tree>,
    vector: Vector,
    base: &Marked,
    declarators: &[Marked],
) -> Result<(), Memory>
    ensures { OnOk result (views lines.new.items ≡ joined (views lines.old.items)
        (spec.vector_lines vector (mark_of base.now) (marks_of declarators.now))) }
{
    for declarator in declarators {
        put_declared(alloc, lines, vector, base, declarator)?;
    }
    Ok(())
}

/// Puts the lines of a declaration in a block behind others.
#[tactic(auto, using(crate::proofs::Views::parted, crate::proofs::Views::seen, crate::proofs::Growing::views_pushed))]
fn put_declaration(alloc: Global, lines: &mut Vec<Tree>, declaration: &Marked) -> Result<(), Memory>
    ensures { OnOk result (views lines.new.items ≡ joined (views lines.old.items)
        (spec.declaration_lines (mark_of declaration.now))) }
{
    match declaration.parts.as_slice() {
        [] => {
            let line = with_parts(alloc, declaration.tree, Vec::new(alloc))?;
            push(lines, line)
        }
        [base, declarators @ ..] => match vector_type(base.tree) {
            None => {
                let parts = scalars(alloc, &declaration.parts)?;
                let line = with_parts(alloc, declaration.tree, parts)?;
                push(lines, line)
            }
            Some(vector) => put_all_declared(alloc, lines, vector, base, declarators),
        },
    }
}

// ---- the unit

#[tactic(auto, using(crate::proofs::Views::seen, cl_meaning::proofs::Views::view_out))]
fn is_declaration(part: &Marked) -> bool
    ensures { result ≡ spec.is_declaration (mark_of part.now) }
{
    match part.tree.form {
        Form::DeclareNode => true,
        _ => false,
    }
}

/// A unit, a function, a statement or a declaration without vectors.
#[cycle(unit)]
#[tactic(auto, using(crate::proofs::Views::node_seen), unfolding(crate::specs::Unit::scalarised))]
pub(crate) fn scalarised(alloc: Global, part: &Marked) -> Result<Tree, Memory>
    ensures { IfOk result (λ t. view t ≡ spec.scalarised (mark_of part.now)) }
{
    match part.tree.form {
        Form::UnitNode
        | Form::FunctionNode
        | Form::IfNode
        | Form::WhileNode
        | Form::DoNode
        | Form::SwitchNode
        | Form::CaseNode
        | Form::DefaultNode => {
            let mut parts = Vec::new(alloc);
            put_scalarised(alloc, &part.parts, &mut parts)?;
            with_parts(alloc, part.tree, parts)
        }
        Form::BlockNode => {
            let lines = block_lines(alloc, &part.parts)?;
            with_parts(alloc, part.tree, lines)
        }
        Form::ForNode => {
            let parts = loop_parts(alloc, &part.parts)?;
            with_parts(alloc, part.tree, parts)
        }
        Form::SimpleNode => simple_at(alloc, part),
        Form::DeclareNode => {
            let parts = declaration(alloc, &part.parts)?;
            with_parts(alloc, part.tree, parts)
        }
        _ => scalar(alloc, part),
    }
}

/// Puts units, functions, statements and declarations without vectors behind others.
#[cycle(unit)]
fn put_scalarised(alloc: Global, parts: &[Marked], list: &mut Vec<Tree>) -> Result<(), Memory>
    ensures { OnOk result (views list.new.items ≡ joined (views list.old.items)
        (spec.all_scalarised (marks_of parts.now))) }
{
    for part in parts {
        let tree = scalarised(alloc, part)?;
        push(list, tree)?;
    }
    Ok(())
}

/// The lines of a block.
#[cycle(unit)]
fn block_lines(alloc: Global, parts: &[Marked]) -> Result<Vec<Tree>, Memory>
    ensures { IfOk result (λ v. views v.items ≡ spec.block_lines (marks_of parts.now)) }
{
    let mut lines = Vec::new(alloc);
    for part in parts {
        if is_declaration(part) {
            put_declaration(alloc, &mut lines, part)?;
        } else {
            let line = scalarised(alloc, part)?;
            push(&mut lines, line)?;
        }
    }
    Ok(lines)
}

/// Whether a part of a `for` is its head, and no declaration.
fn is_plain_head(front: bool, part: &Marked) -> bool
    ensures { result ≡ (front && not (spec.is_declaration (mark_of part.now))) }
{
    front && !is_declaration(part)
}

/// The parts of a `for`: in its head no statement is a vector's.
#[cycle(unit)]
fn loop_parts(alloc: Global, parts: &[Marked]) -> Result<Vec<Tree>, Memory>
    ensures { IfOk result (λ v. views v.items ≡ spec.loop_parts (marks_of parts.now)) }
{
    let mut list = Vec::new(alloc);
    let mut front = true;
    for part in parts {
        let plain = is_plain_head(front, part);
        let tree = if plain {
            scalar(alloc, part)?
        } else {
            scalarised(alloc, part)?
        };
        push(&mut list, tree)?;
        front = false;
    }
    Ok(list)
}
