//! What names stand for, as far as vectors go.

ghost use Rattle.std.specs.Prelude.{◌≡◌, ◌++◌, take, length, OnOk};
ghost use Rattle.cl_tree.specs.Syntax.{view, views};
ghost use Rattle.cl_meaning.specs.Types as types;
ghost use Rattle.cl_meaning.specs.Spelling.{intrinsic_in};
ghost use Rattle.cl_meaning.specs.Declarations.{parts_of};
ghost use Rattle.cl_short_vec.specs.Kinds as spec;
ghost use Rattle.cl_short_vec.specs.View.{names_of};

use crate::kinds::{Kind, Reach};
use crate::types::{Vector, vector_type};
use cl_meaning::{
    Intrinsic, declared_of, dimensions_of, intrinsic_of, is_const, name_of, space_of,
};
use cl_model::Space;
use cl_scope::{second_star, star_in};
use cl_tree::{Form, Tree};
use wg_num::{Memory, push};

/// A name that is visible, and what it stands for.
#[derive(Clone, Copy)]
pub struct Entry<'a> {
    pub name: &'a [u8],
    pub kind: Kind,
}

/// What the name stands for: the last of these names that is it decides, as an inner scope hides the outer ones (C99,
/// section 6.2.1). It is not known of a name that is not among them.
#[tactic(auto, using(crate::proofs::Stacks::found_at, crate::proofs::Stacks::passed_at))]
pub(crate) fn kind_named(names: &[Entry], name: &[u8]) -> Kind
    ensures { result ≡ names_of names.now name.now }
{
    let mut index = names.len();
    while index > 0 {
        index -= 1;
        if names[index].name == name {
            return names[index].kind;
        }
    }
    Kind::Other { known: false }
}

#[tactic(auto, using(crate::proofs::Stacks::names_push))]
fn declare<'a>(names: &mut Vec<Entry<'a>>, name: &'a [u8], kind: Kind) -> Result<(), Memory>
    ensures declared { OnOk result (names_of names.new.items ≡ spec.with_name (names_of names.old.items) name.now
        kind) }
    ensures kept { OnOk result (take (length names.old.items) names.new.items ≡ names.old.items) }
{
    push(names, Entry { name, kind })
}

/// The address space of a type, from its parts.
#[tactic(auto, using(cl_meaning::proofs::Views::view_out))]
fn space_among(parts: &[Tree]) -> Option<Space>
    ensures { result ≡ types.space_among (views parts.now) }
{
    match parts {
        [] => None,
        [part, ..] => match part.form {
            Form::SpaceNode => space_of(part.word.bytes()),
            _ => None,
        },
    }
}

/// The address space that a type names.
#[tactic(auto, using(cl_meaning::proofs::Views::view_out))]
pub(crate) fn space_in(tree: &Tree) -> Option<Space>
    ensures { result ≡ types.space_among (parts_of (view tree.now)) }
{
    space_among(&tree.parts)
}

fn space_or_private(space: Option<Space>) -> Space
    ensures { result ≡ spec.space_or_private space }
{
    match space {
        Some(space) => space,
        None => Space::Private,
    }
}

/// What points to vectors of that type, or an array of them.
#[tactic(auto, using(cl_meaning::proofs::Views::view_out))]
fn pointer_to(vector: Vector, tree: &Tree) -> Kind
    ensures { result ≡ spec.pointer_to vector (view tree.now) }
{
    Kind::Pointer {
        space: space_or_private(space_in(tree)),
        constant: is_const(tree.word.bytes()),
        vector,
    }
}

/// Whether a declarator with these own words and these parts has neither a star nor brackets.
pub(crate) fn is_variable(word: &[u8], parts: &[Tree]) -> bool
    ensures { result ≡ spec.is_variable word.now (views parts.now) }
{
    dimensions_of(word) == 0 && star_in(parts).is_none()
}

/// What a declarator behind a vector type declares.
#[tactic(auto, using(cl_meaning::proofs::Views::view_out))]
fn declared_kind(vector: Vector, base: &Tree, tree: &Tree) -> Kind
    ensures { result ≡ spec.declared_kind vector (view base.now) (view tree.now) }
{
    if is_variable(tree.word.bytes(), &tree.parts) {
        return Kind::Vectors {
            vector,
            reach: Reach::Variable,
        };
    }
    pointer_to(vector, base)
}

/// Goes behind a declarator of that type (C99, section 6.7.5).
#[tactic(auto, using(cl_meaning::proofs::Views::view_out))]
fn behind_declarator<'a>(
    names: &mut Vec<Entry<'a>>,
    base: &Tree,
    tree: &'a Tree,
) -> Result<(), Memory>
    ensures declared { OnOk result (names_of names.new.items ≡
        spec.behind_declarator (names_of names.old.items) (view base.now) (view tree.now)) }
    ensures kept { OnOk result (take (length names.old.items) names.new.items ≡ names.old.items) }
{
    let name = name_of(tree.word.bytes());
    match vector_type(base) {
        Some(vector) => declare(names, name, declared_kind(vector, base, tree)),
        None => {
            if declared_of(base).is_some() {
                return declare(names, name, Kind::Other { known: true });
            }
            Ok(())
        }
    }
}

#[tactic(auto, using(crate::proofs::Stacks::kept_on))]
fn behind_declarators<'a>(
    names: &mut Vec<Entry<'a>>,
    base: &Tree,
    trees: &'a [Tree],
) -> Result<(), Memory>
    ensures declared { OnOk result (names_of names.new.items ≡
        spec.behind_declarators (names_of names.old.items) (view base.now) (views trees.now)) }
    ensures kept { OnOk result (take (length names.old.items) names.new.items ≡ names.old.items) }
{
    for tree in trees {
        behind_declarator(names, base, tree)?;
    }
    Ok(())
}

/// What a parameter with these parts is: a pointer to vectors, or anything else (C99, section 6.7.5.3).
fn parameter_kind(parts: &[Tree]) -> Kind
    ensures { result ≡ spec.parameter_kind (views parts.now) }
{
    match parts {
        [] => Kind::Other { known: true },
        [base, ..] => match (vector_type(base), second_star(parts)) {
            (Some(vector), Some(_)) => pointer_to(vector, base),
            _ => Kind::Other { known: true },
        },
    }
}

#[tactic(auto, using(cl_meaning::proofs::Views::view_out))]
fn behind_parameter<'a>(names: &mut Vec<Entry<'a>>, tree: &'a Tree) -> Result<(), Memory>
    ensures declared { OnOk result (names_of names.new.items ≡
        spec.behind_parameter (names_of names.old.items) (view tree.now)) }
    ensures kept { OnOk result (take (length names.old.items) names.new.items ≡ names.old.items) }
{
    declare(
        names,
        name_of(tree.word.bytes()),
        parameter_kind(&tree.parts),
    )
}

#[tactic(auto, using(crate::proofs::Stacks::kept_on))]
fn behind_parameters<'a>(names: &mut Vec<Entry<'a>>, trees: &'a [Tree]) -> Result<(), Memory>
    ensures declared { OnOk result (names_of names.new.items ≡
        spec.behind_parameters (names_of names.old.items) (views trees.now)) }
    ensures kept { OnOk result (take (length names.old.items) names.new.items ≡ names.old.items) }
{
    for tree in trees {
        behind_parameter(names, tree)?;
    }
    Ok(())
}

fn behind_declaration<'a>(names: &mut Vec<Entry<'a>>, trees: &'a [Tree]) -> Result<(), Memory>
    ensures declared { OnOk result (names_of names.new.items ≡
        spec.behind_declaration (names_of names.old.items) (views trees.now)) }
    ensures kept { OnOk result (take (length names.old.items) names.new.items ≡ names.old.items) }
{
    match trees {
        [] => Ok(()),
        [base, declarators @ ..] => behind_declarators(names, base, declarators),
    }
}

/// Goes behind a line of a block, the parameters of a function or an item of a unit (C99, section 6.2.1).
#[tactic(auto, using(cl_meaning::proofs::Views::view_out))]
fn behind<'a>(names: &mut Vec<Entry<'a>>, tree: &'a Tree) -> Result<(), Memory>
    ensures declared { OnOk result (names_of names.new.items ≡ spec.behind (names_of names.old.items)
        (view tree.now)) }
    ensures kept { OnOk result (take (length names.old.items) names.new.items ≡ names.old.items) }
{
    match tree.form {
        Form::DeclareNode => behind_declaration(names, &tree.parts),
        Form::ParamsNode => behind_parameters(names, &tree.parts),
        Form::FunctionNode => declare(
            names,
            name_of(tree.word.bytes()),
            Kind::Other { known: false },
        ),
        _ => Ok(()),
    }
}

/// Goes behind a part of a declaration, whose type is the first of its parts.
fn behind_part<'a>(
    names: &mut Vec<Entry<'a>>,
    declaration: &[Tree],
    front: bool,
    part: &'a Tree,
) -> Result<(), Memory>
    ensures declared { OnOk result (names_of names.new.items ≡
        spec.behind_part (names_of names.old.items) (views declaration.now) front (view part.now)) }
    ensures kept { OnOk result (take (length names.old.items) names.new.items ≡ names.old.items) }
{
    match declaration {
        [] => Ok(()),
        [base, ..] => {
            if front {
                return Ok(());
            }
            behind_declarator(names, base, part)
        }
    }
}

/// Whether a call of that name is of a barrier or a fence.
#[tactic(auto)]
fn calls_fence(name: &[u8]) -> bool
    ensures { result ≡ spec.calls_fence (intrinsic_in name.now) }
{
    match intrinsic_of(name) {
        Some(Intrinsic::Barrier) | Some(Intrinsic::Fence) => true,
        _ => false,
    }
}

/// The names of fences stand for no vectors.
#[tactic(auto, using(crate::proofs::Stacks::kept_on))]
fn declare_fences(names: &mut Vec<Entry>) -> Result<(), Memory>
    ensures declared { OnOk result (names_of names.new.items ≡ spec.with_fences (names_of names.old.items)) }
    ensures kept { OnOk result (take (length names.old.items) names.new.items ≡ names.old.items) }
{
    let fence = Kind::Other { known: true };
    declare(names, "CLK_LOCAL_MEM_FENCE".as_bytes(), fence)?;
    declare(names, "CLK_GLOBAL_MEM_FENCE".as_bytes(), fence)
}

/// Goes to the parts of a node of that production with these own words. In the argument of a fence, the names of fences
/// are known first (OpenCL 1.2, section 6.12.8). `Memory` where memory was refused.
pub(crate) fn within(names: &mut Vec<Entry>, form: Form, word: &[u8]) -> Result<(), Memory>
    ensures declared { OnOk result (names_of names.new.items ≡ spec.within form word.now (names_of names.old.items)) }
    ensures kept { OnOk result (take (length names.old.items) names.new.items ≡ names.old.items) }
{
    match form {
        Form::CallNode => {
            if calls_fence(name_of(word)) {
                return declare_fences(names);
            }
            Ok(())
        }
        _ => Ok(()),
    }
}

/// Goes behind a part of a node of that production with these parts; `front` is whether it is the first one.
/// `Memory` where memory was refused.
pub(crate) fn later<'a>(
    names: &mut Vec<Entry<'a>>,
    form: Form,
    parts: &[Tree],
    front: bool,
    part: &'a Tree,
) -> Result<(), Memory>
    ensures declared { OnOk result (names_of names.new.items ≡
        spec.later form (views parts.now) (names_of names.old.items) front (view part.now)) }
    ensures kept { OnOk result (take (length names.old.items) names.new.items ≡ names.old.items) }
{
    match form {
        Form::DeclareNode => behind_part(names, parts, front, part),
        _ => behind(names, part),
    }
}
