//! The conditions E501 to E503: at which node of a unit each stands, and which is told.

ghost use Rattle.std.specs.Prelude.{◌≡◌, ℕ, List, option_map, IfOk, true, map};
ghost use Rattle.cl_tree.specs.Syntax.{view, views};
ghost use Rattle.cl_meaning.specs.Declarations.{form_of, word_of, parts_of};
ghost use Rattle.cl_short_vec.specs.declared.roles.Role.TheVariants.{Free as free};
ghost use Rattle.cl_short_vec.specs.Faults as spec;
ghost use Rattle.cl_short_vec.specs.View.{mark_of, marks_of};

use crate::kinds::{Kind, Reach, is_operator, is_vector};
use crate::marks::{Marked, back, back_kind, front_kind, front_type, mark_unit, vector_among};
use crate::names::is_variable;
use crate::plain::has_vectors;
use crate::roles::{Around, Role, back_form, is_list_cast, is_place, role_of, sets_vector};
use crate::selections::{all_components, all_differ, picked, selected, selection_of};
use crate::types::{Vector, same_vector, vector_of};
use cl_meaning::{Setting, dimensions_of, is_set, setting_of};
use cl_model::Space;
use cl_scope::star_in;
use cl_tree::{Form, Tree};
use std::alloc::Global;
use wg_num::{Memory, same_type};

/// A condition on vectors (OpenCL 1.2, sections 6.1.2, 6.1.6, 6.1.7 and 6.3).
#[derive(Clone, Copy, PartialEq, Eq, Debug)]
pub enum VectorFault {
    /// E501: a vector or a vector type stands where none may.
    Misplaced,
    /// E502: a selection names no component of a vector, or a target names one twice.
    NoComponent,
    /// E503: vectors that must have one type have not, or a list does not fill its components.
    TypesDiffer,
}

/// A condition that stands at a node: the condition, and the number of the first token of the node.
#[derive(Clone, Copy, PartialEq, Eq, Debug)]
pub struct VectorRefusal {
    pub fault: VectorFault,
    pub token: u32,
}

/// The numbers of the components of a vector, in order.
fn all_of(alloc: Global, kind: Kind) -> Result<Vec<usize>, Memory>
    ensures { IfOk result (λ v. v.items ≡ spec.all_of kind) }
{
    match kind {
        Kind::Vectors { vector, .. } => all_components(alloc, vector.count),
        _ => Ok(Vec::new(alloc)),
    }
}

pub(crate) fn selected_in(
    alloc: Global,
    kind: Kind,
    name: &[u8],
) -> Result<Option<Vec<usize>>, Memory>
    ensures { IfOk result (λ o. option_map (λ v. v.items) o ≡ spec.selected_in kind name.now) }
{
    match kind {
        Kind::Vectors { vector, .. } => selected(alloc, vector.count, name),
        _ => Ok(None),
    }
}

fn chosen(
    alloc: Global,
    numbers: Option<Vec<usize>>,
    components: Vec<usize>,
) -> Result<Vec<usize>, Memory>
    ensures { IfOk result (λ v. v.items ≡ spec.chosen (option_map (λ w. w.items) numbers) components.items) }
{
    match numbers {
        Some(numbers) => picked(alloc, &components, &numbers),
        None => Ok(components),
    }
}

/// The components that a selection picks, of those that are in front of it.
fn picked_by(
    alloc: Global,
    selection: Option<&[u8]>,
    whole: Kind,
    front: Kind,
    components: Vec<usize>,
) -> Result<Vec<usize>, Memory>
    ensures { IfOk result (λ v. v.items ≡ spec.picked_by (option_map (λ n. n.now) selection.entry) whole front
        components.items) }
{
    match selection {
        Some(name) => {
            let numbers = selected_in(alloc, front, name)?;
            chosen(alloc, numbers, components)
        }
        None => all_of(alloc, whole),
    }
}

#[tactic(auto, using(cl_meaning::proofs::Views::view_out))]
fn components_by(
    alloc: Global,
    tree: &Tree,
    whole: Kind,
    front: Kind,
    components: Vec<usize>,
) -> Result<Vec<usize>, Memory>
    ensures { IfOk result (λ v. v.items ≡ spec.components_by (form_of (view tree.now)) (word_of (view tree.now)) whole
        front components.items) }
{
    match tree.form {
        Form::ParenNode => Ok(components),
        Form::PostfixNode => {
            let selection = selection_of(tree.word.bytes());
            picked_by(alloc, selection, whole, front, components)
        }
        _ => all_of(alloc, whole),
    }
}

/// The components of a variable or element that a place stands for, in order. `Memory` where memory was refused.
#[tactic(auto, using(crate::proofs::Views::parts_seen), unfolding(crate::specs::Faults::components_of))]
pub(crate) fn components_of(alloc: Global, node: &Marked) -> Result<Vec<usize>, Memory>
    ensures { IfOk result (λ v. v.items ≡ spec.components_of (mark_of node.now)) }
{
    match node.parts.as_slice() {
        [] => all_of(alloc, node.kind),
        [front, ..] => {
            let components = components_of(alloc, front)?;
            components_by(alloc, node.tree, node.kind, front.kind, components)
        }
    }
}

/// Whether a vector of that kind may not stand there.
fn misplaced_kind(role: Role, kind: Kind) -> bool
    ensures { result ≡ spec.misplaced_kind role kind }
{
    match role {
        Role::Used | Role::Listed | Role::Items => false,
        Role::Target | Role::Base => is_vector(kind) && !is_place(kind),
        _ => is_vector(kind),
    }
}

fn is_typed(role: Role) -> bool
    ensures { result ≡ spec.is_typed role }
{
    match role {
        Role::Typed => true,
        _ => false,
    }
}

/// Whether a list in braces that stands there initialises a vector variable.
fn is_initial(role: Role) -> bool
    ensures { result ≡ spec.is_initial role }
{
    match role {
        Role::Used | Role::Barred => true,
        _ => false,
    }
}

/// Whether a variable that is declared there is private.
fn is_private_at(around: Around, space: Option<Space>) -> bool
    ensures { result ≡ spec.is_private_at around space }
{
    match (around, space) {
        (Around::Unit, _) => false,
        (_, None) => true,
        (_, Some(Space::Private)) => true,
        _ => false,
    }
}

/// Whether a declarator with these own words and these parts may stand behind a vector type.
fn is_placed(around: Around, space: Option<Space>, word: &[u8], parts: &[Tree]) -> bool
    ensures { result ≡ spec.is_placed around space word.now (views parts.now) }
{
    if star_in(parts).is_some() {
        return false;
    }
    let dimensions = dimensions_of(word);
    if dimensions == 0 {
        return is_private_at(around, space);
    }
    dimensions == 1 && !is_set(word)
}

fn misplaced_declarator(role: Role, word: &[u8], parts: &[Tree]) -> bool
    ensures { result ≡ spec.misplaced_declarator role word.now (views parts.now) }
{
    match role {
        Role::Declared(declaration) => {
            declaration.vector.is_some()
                && !is_placed(declaration.around, declaration.space, word, parts)
        }
        _ => false,
    }
}

/// E501: whether a vector, a vector type, a declarator or a list stands where it may not.
#[tactic(auto, using(cl_meaning::proofs::Views::view_out), unfolding(crate::specs::Faults::misplaced))]
fn misplaced(role: Role, tree: &Tree, kind: Kind) -> bool
    ensures { result ≡ spec.misplaced role (view tree.now) kind }
{
    match tree.form {
        Form::TypeNode => vector_of(tree.word.bytes()).is_some() && !is_typed(role),
        Form::DeclaratorNode => misplaced_declarator(role, tree.word.bytes(), &tree.parts),
        Form::ListNode => is_initial(role),
        _ => misplaced_kind(role, kind),
    }
}

/// Whether a name selects nothing of what has that kind.
fn selects_nothing(alloc: Global, kind: Kind, name: &[u8]) -> Result<bool, Memory>
    ensures { IfOk result (λ b. b ≡ spec.selects_nothing kind name.now) }
{
    match kind {
        Kind::Vectors { vector, .. } => {
            let numbers = selected(alloc, vector.count, name)?;
            Ok(numbers.is_none())
        }
        _ => Ok(true),
    }
}

/// Whether a target names a component twice.
fn repeats(alloc: Global, role: Role, node: &Marked) -> Result<bool, Memory>
    ensures { IfOk result (λ b. b ≡ spec.repeats role (spec.components_of (mark_of node.now))) }
{
    match role {
        Role::Target => {
            let components = components_of(alloc, node)?;
            Ok(!all_differ(&components))
        }
        _ => Ok(false),
    }
}

fn lacks_component(
    alloc: Global,
    role: Role,
    selection: Option<&[u8]>,
    front: Kind,
    node: &Marked,
) -> Result<bool, Memory>
    ensures { IfOk result (λ b. b ≡ spec.lacks_component role (option_map (λ n. n.now) selection.entry) front
        (spec.components_of (mark_of node.now))) }
{
    match selection {
        None => Ok(false),
        Some(name) => {
            if selects_nothing(alloc, front, name)? {
                return Ok(true);
            }
            repeats(alloc, role, node)
        }
    }
}

/// E502: whether a selection selects nothing, or is a target that names a component twice. `Memory` where memory was
/// refused.
#[tactic(auto, using(crate::proofs::Views::node_seen), unfolding(crate::specs::Faults::no_component))]
fn no_component(alloc: Global, role: Role, node: &Marked) -> Result<bool, Memory>
    ensures { IfOk result (λ b. b ≡ spec.no_component role (mark_of node.now)) }
{
    match node.tree.form {
        Form::PostfixNode => {
            let selection = selection_of(node.tree.word.bytes());
            lacks_component(alloc, role, selection, front_kind(&node.parts), node)
        }
        _ => Ok(false),
    }
}

/// Whether two are not vectors of different types.
fn fits(a: Kind, b: Kind) -> bool
    ensures { result ≡ spec.fits a b }
{
    match (a, b) {
        (Kind::Vectors { vector: v, .. }, Kind::Vectors { vector: u, .. }) => same_vector(v, u),
        _ => true,
    }
}

/// Whether the second is a vector of the type of the first, as far as it is known what it is.
fn agrees(a: Kind, b: Kind) -> bool
    ensures { result ≡ spec.agrees a b }
{
    match (a, b) {
        (Kind::Vectors { vector: v, .. }, Kind::Vectors { vector: u, .. }) => same_vector(v, u),
        (Kind::Vectors { .. }, Kind::Other { known }) => !known,
        _ => false,
    }
}

/// Whether a right side fits its target: it is a vector of its type, or behind an operator a number.
fn right_fits(setting: Option<Setting>, target: Kind, value: Kind) -> bool
    ensures { result ≡ spec.right_fits setting target value }
{
    match setting {
        Some(Setting::With(_)) => fits(target, value),
        _ => agrees(target, value),
    }
}

/// How many components an item of a list gives; `None` where it has components of another type.
fn given_by(vector: Vector, kind: Kind) -> Option<usize>
    ensures { result ≡ spec.given_by vector kind }
{
    match kind {
        Kind::Vectors { vector: item, .. } => {
            if same_type(vector.of, item.of) {
                return Some(item.count);
            }
            None
        }
        _ => Some(1),
    }
}

/// The sum of two numbers. `Memory` where it has no room.
fn sum(a: Option<usize>, b: Option<usize>) -> Result<Option<usize>, Memory>
    ensures { IfOk result (λ o. o ≡ spec.sum a b) }
{
    match (a, b) {
        (Some(a), Some(b)) => match a.checked_add(b) {
            Some(sum) => Ok(Some(sum)),
            None => Err(Memory),
        },
        _ => Ok(None),
    }
}

/// What a list gives, from what the items in front and the last one give; anything else gives what it gives itself.
fn items_by(
    form: Form,
    front: Option<usize>,
    last: Option<usize>,
    whole: Option<usize>,
) -> Result<Option<usize>, Memory>
    ensures { IfOk result (λ o. o ≡ spec.items_by form front last whole) }
{
    match form {
        Form::ExprNode => sum(front, last),
        _ => Ok(whole),
    }
}

/// How many components the items of a list give together, or one item; `None` where one has components of another
/// type. `Memory` where the number has no room.
#[tactic(auto, using(crate::proofs::Views::parts_of_node), unfolding(crate::specs::Faults::items_given))]
fn items_given(vector: Vector, node: &Marked) -> Result<Option<usize>, Memory>
    ensures { IfOk result (λ o. o ≡ spec.items_given vector (mark_of node.now)) }
{
    match node.parts.as_slice() {
        [] => Ok(given_by(vector, node.kind)),
        [front, ..] => {
            let before = items_given(vector, front)?;
            let last = given_by(vector, back_kind(&node.parts));
            items_by(node.tree.form, before, last, given_by(vector, node.kind))
        }
    }
}

/// Whether so many components fill a vector: all of them, or one number alone.
fn fills(vector: Vector, count: Option<usize>) -> bool
    ensures { result ≡ spec.fills vector count }
{
    match count {
        Some(count) => count == vector.count || count == 1,
        None => false,
    }
}

/// Whether what stands in some parentheses fills a vector of that type.
#[tactic(auto, using(crate::proofs::Views::parted))]
fn inside_fills(vector: Vector, node: &Marked) -> Result<bool, Memory>
    ensures { IfOk result (λ b. b ≡ spec.inside_fills vector (mark_of node.now)) }
{
    match node.parts.as_slice() {
        [] => Ok(false),
        [front, ..] => Ok(fills(vector, items_given(vector, front)?)),
    }
}

/// Whether the list in the parentheses that are the last part fills a vector of that type.
fn cast_fills(vector: Option<Vector>, parts: &[Marked]) -> Result<bool, Memory>
    ensures { IfOk result (λ b. b ≡ spec.cast_fills vector (marks_of parts.now)) }
{
    match vector {
        Some(vector) => match back(parts) {
            Some(list) => inside_fills(vector, list),
            None => Ok(false),
        },
        None => Ok(true),
    }
}

/// Whether all parts are vectors of the type of this one.
#[tactic(auto, using(crate::proofs::Views::mark_out))]
fn all_agree(kind: Kind, parts: &[Marked]) -> bool
    ensures { result ≡ spec.all_agree kind (marks_of parts.now) }
{
    for part in parts {
        if !agrees(kind, part.kind) {
            return false;
        }
    }
    true
}

fn is_list(form: Form) -> bool
    ensures { result ≡ spec.is_list form }
{
    match form {
        Form::ListNode => true,
        _ => false,
    }
}

/// Whether a value fits a vector variable that is declared there. In the head of a `for` it is left out of the scalar
/// form, and with it any name that is not visible.
fn initial_fits(around: Around, wanted: Kind, value: Kind) -> bool
    ensures { result ≡ spec.initial_fits around wanted value }
{
    match around {
        Around::Head => is_vector(value) && agrees(wanted, value),
        _ => agrees(wanted, value),
    }
}

/// Whether the initialiser behind that vector type is no vector of it, and no list.
fn set_wrongly(around: Around, vector: Option<Vector>, parts: &[Marked]) -> bool
    ensures { result ≡ spec.set_wrongly around vector (marks_of parts.now) }
{
    match vector {
        None => false,
        Some(vector) => {
            let wanted = Kind::Vectors {
                vector,
                reach: Reach::Value,
            };
            !is_list(back_form(parts)) && !initial_fits(around, wanted, back_kind(parts))
        }
    }
}

#[tactic(auto, using(cl_meaning::proofs::Views::view_out))]
fn wrongly_set(role: Role, tree: &Tree, parts: &[Marked]) -> bool
    ensures { result ≡ spec.wrongly_set role (word_of (view tree.now)) (parts_of (view tree.now))
        (marks_of parts.now) }
{
    let word = tree.word.bytes();
    match role {
        Role::Declared(declaration) => {
            is_variable(word, &tree.parts)
                && is_set(word)
                && set_wrongly(declaration.around, declaration.vector, parts)
        }
        _ => false,
    }
}

/// E503: whether vectors that must have one type have not, or a list does not fill its components. `Memory` where a
/// number has no room.
#[tactic(auto, using(cl_meaning::proofs::Views::view_out), unfolding(crate::specs::Faults::types_differ))]
fn types_differ(role: Role, tree: &Tree, kind: Kind, parts: &[Marked]) -> Result<bool, Memory>
    ensures { IfOk result (λ b. b ≡ spec.types_differ role (view tree.now) kind (marks_of parts.now)) }
{
    let front = front_kind(parts);
    match tree.form {
        Form::AssignNode => {
            let setting = setting_of(tree.word.bytes());
            Ok(sets_vector(role, front) && !right_fits(setting, front, back_kind(parts)))
        }
        Form::CastNode => {
            if !is_list_cast(parts) {
                return Ok(false);
            }
            Ok(!cast_fills(front_type(parts), parts)?)
        }
        Form::CallNode => Ok(is_vector(kind) && !all_agree(vector_among(parts), parts)),
        Form::DeclaratorNode => Ok(wrongly_set(role, tree, parts)),
        _ => Ok(is_operator(tree.form) && !fits(front, back_kind(parts))),
    }
}

/// The least condition that stands at a node, parts aside. `Memory` where memory was refused.
#[tactic(auto, using(crate::proofs::Views::node_seen))]
fn refusal_at(alloc: Global, role: Role, node: &Marked) -> Result<Option<VectorRefusal>, Memory>
    ensures { IfOk result (λ r. r ≡ spec.told (spec.refusal_at role (mark_of node.now))) }
{
    let token = node.tree.first;
    if misplaced(role, node.tree, node.kind) {
        return Ok(Some(VectorRefusal {
            fault: VectorFault::Misplaced,
            token,
        }));
    }
    if no_component(alloc, role, node)? {
        return Ok(Some(VectorRefusal {
            fault: VectorFault::NoComponent,
            token,
        }));
    }
    if types_differ(role, node.tree, node.kind, &node.parts)? {
        return Ok(Some(VectorRefusal {
            fault: VectorFault::TypesDiffer,
            token,
        }));
    }
    Ok(None)
}

/// The first condition at a node of some parts of a node.
#[cycle(refuse)]
fn refuse_parts(
    alloc: Global,
    role: Role,
    parts: &[Marked],
    whole: &Marked,
) -> Result<Option<VectorRefusal>, Memory>
    ensures { IfOk result (λ r. r ≡ spec.told (spec.refusals_in role (mark_of whole.now) true (marks_of parts.now))) }
{
    let mut front = true;
    let mut left = parts.len();
    for part in parts {
        left -= 1;
        let place = role_of(role, whole, front, left == 0, part);
        match refuse(alloc, place, part)? {
            Some(refusal) => return Ok(Some(refusal)),
            None => front = false,
        }
    }
    Ok(None)
}

/// The first condition at a node of a tree, parts before the whole.
#[cycle(refuse)]
#[tactic(auto, using(crate::proofs::Telling::node_told), unfolding(crate::specs::Faults::refusals))]
fn refuse(alloc: Global, role: Role, node: &Marked) -> Result<Option<VectorRefusal>, Memory>
    ensures { IfOk result (λ r. r ≡ spec.told (spec.refusals role (mark_of node.now))) }
{
    match refuse_parts(alloc, role, &node.parts, node)? {
        Some(refusal) => Ok(Some(refusal)),
        None => refusal_at(alloc, role, node),
    }
}

/// The condition that is told of a unit with vectors.
pub(crate) fn told(alloc: Global, unit: &Marked) -> Result<Option<VectorRefusal>, Memory>
    ensures { IfOk result (λ r. r ≡ spec.told (spec.refusals free (mark_of unit.now))) }
{
    refuse(alloc, Role::Free, unit)
}

/// The condition of E501 to E503 that is told of a unit, if one of them stands at a node of it: the first, where the
/// parts of a node are in order and before the node itself, and the least that stands at that node. A unit that names
/// no vector type and selects nothing has none. `Memory` where memory was refused or a number has no room.
pub fn refusal(alloc: Global, unit: &Tree) -> Result<Option<VectorRefusal>, Memory>
    ensures { IfOk result (λ r. r ≡ spec.refusal_of (view unit.now)) }
{
    if !has_vectors(unit) {
        return Ok(None);
    }
    let whole = mark_unit(alloc, unit)?;
    told(alloc, &whole)
}
