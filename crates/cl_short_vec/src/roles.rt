//! Where the nodes of a unit stand: whether a vector may stand there.

ghost use Rattle.std.specs.Prelude.{◌≡◌, option_map};
ghost use Rattle.cl_tree.specs.Syntax.{view};
ghost use Rattle.cl_meaning.specs.Declarations.{form_of, word_of};
ghost use Rattle.cl_short_vec.specs.Types.{selection_in};
ghost use Rattle.cl_short_vec.specs.Roles as spec;
ghost use Rattle.cl_short_vec.specs.View.{mark_of, marks_of};

use crate::kinds::{Kind, Reach, is_vector};
use crate::marks::{Marked, back, front_kind, front_type};
use crate::names::{is_variable, space_in};
use crate::selections::selection_of;
use crate::types::Vector;
use cl_meaning::{Prefix, is_set, prefix_of};
use cl_model::Space;
use cl_tree::{Form, Tree};

/// Where a declaration stands: in a block, as the first part of a `for`, or outside of all functions.
#[derive(Clone, Copy, PartialEq, Eq, Debug)]
pub enum Around {
    Block,
    Head,
    Unit,
}

/// A declaration: where it stands, the vector type in front of its declarators and the address space that it names.
#[derive(Clone, Copy, PartialEq, Eq, Debug)]
pub struct Declaration {
    pub around: Around,
    pub vector: Option<Vector>,
    pub space: Option<Space>,
}

/// Where a node stands.
#[derive(Clone, Copy, PartialEq, Eq, Debug)]
pub enum Role {
    /// Where no vector may stand.
    Free,
    /// An operand of a vector, an initialiser or a right side.
    Used,
    /// The initialiser of a vector variable in the head of a `for`, where no vector may stand.
    Barred,
    /// A vector that is assigned to: a variable, an element or a selection of one alone.
    Target,
    /// A vector of which one component is selected: a variable, an element or a selection of one alone.
    Base,
    /// The whole expression of a statement.
    Whole,
    /// Behind a vector type in parentheses.
    Listed,
    /// In the parentheses behind a vector type.
    Items,
    /// The first part of a `for`.
    Head,
    /// An item of the unit.
    Outer,
    /// A type that may be a vector's.
    Typed,
    /// A declarator.
    Declared(Declaration),
}

/// Whether a vector is a variable, an element or selected components of one.
pub(crate) fn is_place(kind: Kind) -> bool
    ensures { result ≡ spec.is_place kind }
{
    match kind {
        Kind::Vectors {
            reach: Reach::Value,
            ..
        } => false,
        Kind::Vectors { .. } => true,
        _ => false,
    }
}

fn is_element_kind(kind: Kind) -> bool
    ensures { result ≡ spec.is_element_kind kind }
{
    match kind {
        Kind::Vectors {
            reach: Reach::Element { .. },
            ..
        } => true,
        _ => false,
    }
}

/// Whether a node is an element, where its first part is one or not, parentheses aside.
#[tactic(auto, using(cl_meaning::proofs::Views::view_out))]
fn element_by(tree: &Tree, kind: Kind, inner: bool) -> bool
    ensures { result ≡ spec.element_by (form_of (view tree.now)) (selection_in (word_of (view tree.now))) kind
        inner }
{
    match tree.form {
        Form::ParenNode => inner,
        Form::PostfixNode => match selection_of(tree.word.bytes()) {
            Some(_) => false,
            None => is_element_kind(kind),
        },
        _ => is_element_kind(kind),
    }
}

/// Whether a node is an element, parentheses aside, and no selection of one.
#[tactic(auto, using(crate::proofs::Views::parted), unfolding(crate::specs::Roles::is_element))]
fn is_element(node: &Marked) -> bool
    ensures { result ≡ spec.is_element (mark_of node.now) }
{
    match node.parts.as_slice() {
        [] => false,
        [front, ..] => element_by(node.tree, node.kind, is_element(front)),
    }
}

fn whole_of(role: Role) -> Role
    ensures { result ≡ spec.whole_of role }
{
    match role {
        Role::Head => Role::Free,
        _ => Role::Whole,
    }
}

fn used_in(kind: Kind) -> Role
    ensures { result ≡ spec.used_in kind }
{
    if is_vector(kind) {
        Role::Used
    } else {
        Role::Free
    }
}

/// The role of what stands in parentheses.
fn paren_role(role: Role, kind: Kind) -> Role
    ensures { result ≡ spec.paren_role role kind }
{
    match role {
        Role::Listed => Role::Items,
        Role::Target => {
            if is_place(kind) {
                Role::Target
            } else {
                Role::Used
            }
        }
        _ => used_in(kind),
    }
}

/// The role of what components are selected from: any vector for several, a place for one.
fn selected_role(selection: Option<&[u8]>, kind: Kind) -> Role
    ensures { result ≡ spec.selected_role (option_map (λ n. n.now) selection.entry) kind }
{
    match selection {
        None => Role::Free,
        Some(_) => {
            if is_vector(kind) {
                Role::Used
            } else {
                Role::Base
            }
        }
    }
}

/// The role of the operand of an operator before it.
fn operand_role(prefix: Option<Prefix>, kind: Kind, part: &Marked) -> Role
    ensures { result ≡ spec.operand_role prefix kind (mark_of part.now) }
{
    match prefix {
        Some(Prefix::Address) => {
            if is_element(part) {
                Role::Used
            } else {
                Role::Free
            }
        }
        Some(Prefix::Operator(_)) => used_in(kind),
        _ => Role::Free,
    }
}

/// The production of the last of some parts.
#[tactic(auto, using(crate::proofs::Views::node_seen))]
pub(crate) fn back_form(parts: &[Marked]) -> Form
    ensures { result ≡ spec.back_form (marks_of parts.now) }
{
    match back(parts) {
        Some(part) => part.tree.form,
        None => Form::UnitNode,
    }
}

pub(crate) fn is_paren(form: Form) -> bool
    ensures { result ≡ spec.is_paren form }
{
    match form {
        Form::ParenNode => true,
        _ => false,
    }
}

/// Whether these are the parts of a cast with a list of components: a vector type, and parentheses behind it (OpenCL
/// 1.2, section 6.1.6).
pub(crate) fn is_list_cast(parts: &[Marked]) -> bool
    ensures { result ≡ spec.is_list_cast (marks_of parts.now) }
{
    front_type(parts).is_some() && is_paren(back_form(parts))
}

/// The role of an item of a list.
fn item_role(role: Role, front: bool) -> Role
    ensures { result ≡ spec.item_role role front }
{
    match role {
        Role::Items => { if front { Role::Items } else { Role::Used } }
        _ => Role::Free,
    }
}

/// Whether an assignment with this target is a whole statement, and sets a vector.
pub(crate) fn sets_vector(role: Role, target: Kind) -> bool
    ensures { result ≡ spec.sets_vector role target }
{
    match role {
        Role::Whole => is_vector(target),
        _ => false,
    }
}

fn around_of(role: Role) -> Around
    ensures { result ≡ spec.around_of role }
{
    match role {
        Role::Head => Around::Head,
        Role::Outer => Around::Unit,
        _ => Around::Block,
    }
}

/// The address space of the type that is the first of some parts.
#[tactic(auto, using(crate::proofs::Views::mark_out))]
fn front_space(parts: &[Marked]) -> Option<Space>
    ensures { result ≡ spec.front_space (marks_of parts.now) }
{
    match parts {
        [] => None,
        [part, ..] => space_in(part.tree),
    }
}

fn declaration_of(role: Role, parts: &[Marked]) -> Declaration
    ensures { result ≡ spec.declaration_of role (marks_of parts.now) }
{
    Declaration {
        around: around_of(role),
        vector: front_type(parts),
        space: front_space(parts),
    }
}

/// The role of the initialiser of a vector variable.
fn initial_at(around: Around) -> Role
    ensures { result ≡ spec.initial_at around }
{
    match around {
        Around::Block => Role::Used,
        Around::Head => Role::Barred,
        Around::Unit => Role::Free,
    }
}

/// The role of an initialiser; `variable` is whether it is one of a variable.
fn initial_role(role: Role, variable: bool) -> Role
    ensures { result ≡ spec.initial_role role variable }
{
    match role {
        Role::Declared(declaration) => {
            if variable && declaration.vector.is_some() {
                return initial_at(declaration.around);
            }
            Role::Free
        }
        _ => Role::Free,
    }
}

/// Where a part of a node stands; `front` is whether it is the first part, and `back` whether it is the last.
#[tactic(auto, using(crate::proofs::Views::node_seen), unfolding(crate::specs::Roles::role_of))]
pub(crate) fn role_of(role: Role, node: &Marked, front: bool, back: bool, part: &Marked) -> Role
    ensures { result ≡ spec.role_of role (mark_of node.now) front back (mark_of part.now) }
{
    let word = node.tree.word.bytes();
    match node.tree.form {
        Form::UnitNode => Role::Outer,
        Form::ForNode => { if front { Role::Head } else { Role::Free } }
        Form::SimpleNode => whole_of(role),
        Form::DeclareNode => {
            if front {
                Role::Typed
            } else {
                Role::Declared(declaration_of(role, &node.parts))
            }
        }
        Form::DeclaratorNode => {
            if back && is_set(word) {
                initial_role(role, is_variable(word, &node.tree.parts))
            } else {
                Role::Free
            }
        }
        Form::ParamNode => {
            if front && !back {
                Role::Typed
            } else {
                Role::Free
            }
        }
        Form::ParenNode => paren_role(role, node.kind),
        Form::PostfixNode => selected_role(selection_of(word), node.kind),
        Form::UnaryNode => operand_role(prefix_of(word), node.kind, part),
        Form::CastNode => {
            if is_list_cast(&node.parts) {
                if front { Role::Typed } else { Role::Listed }
            } else {
                Role::Free
            }
        }
        Form::ExprNode => item_role(role, front),
        Form::AssignNode => {
            if sets_vector(role, front_kind(&node.parts)) {
                if front { Role::Target } else { Role::Used }
            } else {
                Role::Free
            }
        }
        _ => used_in(node.kind),
    }
}
