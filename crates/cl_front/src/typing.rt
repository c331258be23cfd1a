//! From the unit of a source to the typed program with a kernel.
ghost use Rattle.std.specs.Prelude.{◌≡◌, ◌≤◌, ℕ, false, List, length, All, IfOk, IfErr};
ghost use Rattle.cl_token.specs.Places.{place_at};
ghost use Rattle.cl_token.specs.Cuts.{limit};
ghost use Rattle.cl_prep.specs.declared.prep.Define.{Define};
ghost use Rattle.cl_tree.specs.Syntax.{view};
ghost use Rattle.cl_tree.specs.Selections.{has_selection};
ghost use Rattle.cl_check_sound.specs.Law.{DefinesFit};
ghost use Rattle.cl_front.specs.Forms.{ErrorForm, TypedForm};
ghost use Rattle.cl_front.specs.ScalarForm.{IsScalarFormOf};
ghost use Rattle.cl_front.specs.Front.{IsRefusal, IsScalarSource, place_of_token};
ghost use Rattle.cl_front.specs.Typed.{HasTypedUnit, IsKernelRefusal, IsUnitRefusal, places_of};
ghost use Rattle.cl_front.specs.declared.front.SourceError.TheVariants as errors;
ghost use Rattle.cl_meaning.specs.View.{unit_of};

use crate::condition::Condition;
use crate::front::{SourceError, read_tokens, read_unit};
use cl_check::{CheckError, check};
use cl_model::Program;
use cl_prep::Defines;
use cl_token::{Token, place_of, places};
use cl_tree::Tree;
use std::alloc::Global;
use wg_num::{Memory, Place};

/// A source that has a unit: its expanded tokens, the place of each and of the end of the source,
/// and the unit without vectors that stands for the one that they spell.
#[derive(Drop)]
pub struct Source {
    pub tokens: Vec<Token>,
    pub places: Vec<Place>,
    pub end: Place,
    pub unit: Tree,
}

// The source with the unit that its tokens spell.
fn with_unit(
    alloc: Global,
    source: &[u8],
    tokens: Vec<Token>,
    unit: Tree,
) -> Result<Source, SourceError>
    requires short { length source.now ≤ limit }
    requires inside { All (λ t. t.start ≤ length source.now) tokens.items }
    ensures tokens { IfOk result (λ s. s.tokens.items ≡ tokens.items) }
    ensures unit { IfOk result (λ s. s.unit ≡ unit) }
    ensures places { IfOk result (λ s. s.places.items ≡ places_of source.now s.tokens.items) }
    ensures end { IfOk result (λ s. s.end ≡ place_at source.now (length source.now)) }
    ensures err { IfErr result (λ e. e ≡ errors.Memory) }
{
    match places(alloc, source, &tokens) {
        Ok(places) => Ok(Source {
            tokens,
            places,
            end: place_of(source, source.len() as u32),
            unit,
        }),
        Err(Memory) => Err(SourceError::Memory),
    }
}

/// The unit of a source with these given names, as a unit without vectors, or its refusal: E101 to
/// E105 by its bytes, E201 to E206 by its macros, E301 and E302 by the grammar, E501 to E503 by its
/// vectors, in this order, each at the place that the condition names.
pub fn read_source(alloc: Global, source: &[u8], defines: &Defines) -> Result<Source, SourceError>
    ensures is { IfOk result (λ s. IsScalarSource source.now defines.now.list.items s.tokens.items (view s.unit)) }
    ensures plain { IfOk result (λ s. has_selection (view s.unit) ≡ false) }
    ensures form { IfOk result (λ s. DefinesFit defines.now.list.items →
        (h : IsScalarSource source.now defines.now.list.items s.tokens.items (view s.unit)) →
        IsScalarFormOf h.unit (view s.unit)) }
    ensures places { IfOk result (λ s. s.places.items ≡ places_of source.now s.tokens.items) }
    ensures end { IfOk result (λ s. s.end ≡ place_at source.now (length source.now)) }
    ensures err { IfErr result (λ e. IsRefusal source.now defines.now.list.items e) }
{
    let tokens = match read_tokens(alloc, source, defines) {
        Ok(tokens) => tokens,
        Err(error) => return Err(error),
    };
    match read_unit(alloc, source, &tokens) {
        Ok(unit) => with_unit(alloc, source, tokens, unit),
        Err(error) => Err(error),
    }
}

// The place of the token with that number, or of the end.
fn token_place(source: &Source, token: u32) -> Place
    ensures { (bytes : List ℕ) → source.now.places.items ≡ places_of bytes source.now.tokens.items →
        source.now.end ≡ place_at bytes (length bytes) →
        result ≡ place_of_token bytes source.now.tokens.items token }
{
    match source.places.get(token as usize) {
        Some(place) => *place,
        None => source.end,
    }
}

/// The typed program of a source's unit with the kernel of that name, or the first fault: E401 to
/// E424, at the first token of the node at fault, or at the end of the source where no kernel has
/// the name. Limits (E419 to E421, E423) are looked at where no node is at fault.
pub fn compile_kernel(alloc: Global, source: &Source, kernel: &[u8]) -> Result<Program, SourceError>
    requires selections { has_selection (view source.now.unit) ≡ false }
    ensures ok { IfOk result (λ p. (bytes : List ℕ) (defines : List Define) →
        IsScalarSource bytes defines source.now.tokens.items (view source.now.unit) →
        source.now.places.items ≡ places_of bytes source.now.tokens.items →
        HasTypedUnit bytes defines kernel.now (unit_of p)) }
    ensures form { IfOk result (λ p. (bytes : List ℕ) (defines : List Define) → DefinesFit defines →
        (h : HasTypedUnit bytes defines kernel.now (unit_of p)) → TypedForm bytes defines kernel.now (unit_of p) h) }
    ensures err { IfErr result (λ e. (bytes : List ℕ) (defines : List Define) →
        IsScalarSource bytes defines source.now.tokens.items (view source.now.unit) →
        source.now.places.items ≡ places_of bytes source.now.tokens.items →
        source.now.end ≡ place_at bytes (length bytes) → IsUnitRefusal bytes defines kernel.now e) }
    ensures err_form { IfErr result (λ e. (bytes : List ℕ) (defines : List Define) → DefinesFit defines →
        ErrorForm bytes defines kernel.now e) }
{
    match check(alloc, &source.unit, &source.places, kernel) {
        Ok(program) => Ok(program),
        Err(CheckError::Fault { fault, token }) => Err(SourceError::Refused {
            condition: Condition::Unit(fault),
            place: token_place(source, token),
        }),
        Err(CheckError::Memory) => Err(SourceError::Memory),
    }
}

/// The typed program of a source with these given names and the kernel of that name (OpenCL 1.2,
/// chapter 6), or the first refusal: E101 to E105, E201 to E206, E301 and E302, E501 to E503, E401 to E424.
pub fn compile(
    alloc: Global,
    source: &[u8],
    defines: &Defines,
    kernel: &[u8],
) -> Result<Program, SourceError>
    ensures ok { IfOk result (λ p. HasTypedUnit source.now defines.now.list.items kernel.now (unit_of p)) }
    ensures form { IfOk result (λ p. DefinesFit defines.now.list.items →
        (h : HasTypedUnit source.now defines.now.list.items kernel.now (unit_of p)) →
        TypedForm source.now defines.now.list.items kernel.now (unit_of p) h) }
    ensures err { IfErr result (IsKernelRefusal source.now defines.now.list.items kernel.now) }
    ensures err_form { IfErr result (λ e. DefinesFit defines.now.list.items →
        ErrorForm source.now defines.now.list.items kernel.now e) }
{
    let read = match read_source(alloc, source, defines) {
        Ok(read) => read,
        Err(error) => return Err(error),
    };
    match compile_kernel(alloc, &read, kernel) {
        Ok(program) => Ok(program),
        Err(error) => Err(error),
    }
}
