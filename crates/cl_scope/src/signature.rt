//! What functions and prototypes say of themselves.
ghost use Rattle.std.specs.Prelude.{◌≡◌, ◌++◌, ◌∷◌, [], map, OnOk, IfOk};
ghost use Rattle.cl_tree.specs.Syntax.{view, views};
ghost use Rattle.cl_meaning.specs.Declarations as spec;
ghost use Rattle.cl_meaning.specs.Visible as visible;
ghost use Rattle.cl_scope.specs.View.{signature_of};
ghost use Rattle.cl_scope.specs.Signatures.{definition_at};

use crate::declarator::{first_type, second_star};
use crate::declare::pointed_space;
use crate::environment::Signature;
use cl_meaning::{Parameter, Yield, constant_of, declared_of, is_kernel, name_of, requires_size};
use cl_tree::{Form, Tree};
use std::alloc::Global;
use wg_num::{Memory, Word, push};

/// What a function whose result has these parts gives back: nothing for `void`, which has no parts, else a number of
/// that type, or a type outside the profile (C99, section 6.7.5.3).
pub fn yield_of(parts: &[Tree]) -> Yield
    ensures { result ≡ spec.yield_of (views parts.now) }
{
    match parts {
        [] => Yield::Nothing,
        [part, ..] => match declared_of(part) {
            Some(declared) => Yield::Number(declared.of),
            None => Yield::Outside,
        },
    }
}

/// What a parameter with these parts takes: a number of its type, a pointer to elements of it in a space, or
/// something outside the profile (C99, section 6.7.5.3; OpenCL 1.2, section 6.5).
pub fn parameter_of(parts: &[Tree]) -> Parameter
    ensures { result ≡ spec.parameter_of (views parts.now) }
{
    let Some(declared) = first_type(parts) else {
        return Parameter::Outside;
    };
    match second_star(parts) {
        Some(_) => Parameter::Pointer {
            space: pointed_space(declared),
            element: declared.of,
            constant: declared.constant,
        },
        None => Parameter::Number(declared.of),
    }
}

fn parameters_of(alloc: Global, parts: &[Tree]) -> Result<Vec<Parameter>, Memory>
    ensures { IfOk result (λ v. v.items ≡ spec.parameters_of (views parts.now)) }
{
    let mut parameters = Vec::new(alloc);
    for part in parts {
        push(&mut parameters, parameter_of(&part.parts))?;
    }
    Ok(parameters)
}

/// Whether a head makes its function a kernel.
#[tactic(auto, using(cl_meaning::proofs::Views::view_out))]
pub(crate) fn is_kernel_head(tree: &Tree) -> bool
    ensures { result ≡ spec.is_kernel_head (view tree.now) }
{
    is_kernel(tree.word.bytes())
}

/// Notes what a part of a function or prototype says: a head, its result, or its parameters.
#[tactic(auto, using(cl_meaning::proofs::Views::view_out))]
fn add_part(alloc: Global, signature: &mut Signature, part: &Tree) -> Result<(), Memory>
    ensures { OnOk result (signature_of signature.new ≡ spec.with_part (signature_of signature.old)
        (spec.form_of (view part.now)) (view part.now)) }
{
    match part.form {
        Form::HeadNode => {
            signature.kernel = signature.kernel || is_kernel_head(part);
            Ok(())
        }
        Form::ResultNode => {
            signature.result = yield_of(&part.parts);
            Ok(())
        }
        Form::ParamsNode => {
            signature.parameters = parameters_of(alloc, &part.parts)?;
            Ok(())
        }
        _ => Ok(()),
    }
}

/// What a function or prototype with these own words and these parts says of itself (C99, section 6.7.5.3). `Memory`
/// where memory was refused.
pub fn signature_in(alloc: Global, word: &[u8], parts: &[Tree]) -> Result<Signature, Memory>
    ensures { IfOk result (λ g. signature_of g ≡ spec.signature_in word.now (views parts.now)) }
{
    let mut signature = Signature {
        name: Word::new(alloc, name_of(word))?,
        kernel: false,
        result: Yield::Nothing,
        parameters: Vec::new(alloc),
    };
    for part in parts {
        add_part(alloc, &mut signature, part)?;
    }
    Ok(signature)
}

fn push_signature(signatures: &mut Vec<Signature>, signature: Signature) -> Result<(), Memory>
    ensures { OnOk result (map signature_of signatures.new.items ≡ map signature_of signatures.old.items ++
        signature_of signature ∷ []) }
{
    push(signatures, signature)
}

/// Notes what a part of a unit defines, if it is a function.
#[tactic(auto, using(cl_meaning::proofs::Views::view_out))]
fn add_definition(
    alloc: Global,
    definitions: &mut Vec<Signature>,
    part: &Tree,
) -> Result<(), Memory>
    ensures { OnOk result (map signature_of definitions.new.items ≡ map signature_of definitions.old.items ++
        definition_at (spec.form_of (view part.now)) (view part.now)) }
{
    match part.form {
        Form::FunctionNode => {
            let signature = signature_in(alloc, part.word.bytes(), &part.parts)?;
            push_signature(definitions, signature)
        }
        _ => Ok(()),
    }
}

/// What each function says of itself that a unit with these parts defines, in their order, prototypes left out (C99,
/// section 6.9.1). `Memory` where memory was refused.
pub fn definitions_in(alloc: Global, parts: &[Tree]) -> Result<Vec<Signature>, Memory>
    ensures { IfOk result (λ v. map signature_of v.items ≡ spec.definitions_in (views parts.now)) }
{
    let mut definitions = Vec::new(alloc);
    for part in parts {
        add_definition(alloc, &mut definitions, part)?;
    }
    Ok(definitions)
}

/// A size that an attribute requires: a constant, or else 0.
fn size_in(tree: &Tree) -> Result<u64, Memory>
    ensures { IfOk result (λ n. n ≡ spec.size_in (view tree.now)) }
{
    match constant_of(tree) {
        Some(constant) => {
            if constant.value < 0 {
                return Ok(0);
            }
            if constant.value > u64::MAX as i128 {
                return Err(Memory);
            }
            Ok(constant.value as u64)
        }
        None => Ok(0),
    }
}

/// The three sizes that an attribute requires; want of memory where there are more or fewer, which no
/// source spells.
fn three_sizes(parts: &[Tree]) -> Result<[u64; 3], Memory>
    ensures { IfOk result (λ s. s ≡ map spec.size_in (map view parts.now)) }
{
    match parts {
        [a, b, c] => Ok([size_in(a)?, size_in(b)?, size_in(c)?]),
        _ => Err(Memory),
    }
}

/// The work-group size that an attribute requires, in items in each of three dimensions; `None` where it requires
/// none (OpenCL 1.2, section 6.7.2). A size that is no constant, or a negative one, counts as 0. `Memory` where a
/// size would pass 64 bits, or there are not three of them.
#[tactic(auto, using(cl_meaning::proofs::Views::view_out))]
pub fn sizes_in(tree: &Tree) -> Result<Option<[u64; 3]>, Memory>
    ensures { IfOk result (λ o. o ≡ spec.sizes_in (view tree.now)) }
{
    match tree.form {
        Form::AttributeNode => {
            if requires_size(tree.word.bytes()) {
                return Ok(Some(three_sizes(&tree.parts)?));
            }
            Ok(None)
        }
        _ => Ok(None),
    }
}

/// The sizes that a head with these parts requires.
pub(crate) fn head_sizes(parts: &[Tree]) -> Result<Option<[u64; 3]>, Memory>
    ensures { IfOk result (λ o. o ≡ visible.head_sizes (views parts.now)) }
{
    match parts {
        [] => Ok(None),
        [part, ..] => sizes_in(part),
    }
}
