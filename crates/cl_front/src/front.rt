//! From the bytes of a source to its unit.
ghost use Rattle.std.specs.Prelude.{◌≡◌, ◌≤◌, false, List, length, Some, None, All, IfOk, IfErr};
ghost use Rattle.cl_token.specs.declared.token.Token.{Token as AnyToken};
ghost use Rattle.cl_token.specs.Answers.{IsRefusedOrMemory as IsUncutOrMemory};
ghost use Rattle.cl_token.specs.Cuts.{Cuts, limit};
ghost use Rattle.cl_prep.specs.declared.prep.Define.{Define};
ghost use Rattle.cl_prep.specs.Expands.{token_limit};
ghost use Rattle.cl_prep.specs.Progress.{IsRefusedOrMemory as IsUnexpandedOrMemory};
ghost use Rattle.cl_tree.specs.Syntax.{view, nesting};
ghost use Rattle.cl_tree.specs.Grammar.{SpellsUnit};
ghost use Rattle.cl_tree.specs.Selections.{has_selection};
ghost use Rattle.cl_front.specs.Front.{Reads, AreExpanded, IsScalarUnit, IsRefusal, place_of_token, condition_of_lexical};
ghost use Rattle.cl_front.specs.Front.{condition_of_expansion};

use crate::condition::Condition;
use cl_parse::{ParseError, parse};
use cl_prep::{Defines, PrepError, expand};
use cl_short_vec::{VectorError, scalarise};
use cl_token::{LexError, Token, place_of, tokens};
use cl_tree::Tree;
use std::alloc::Global;
use wg_num::{Memory, Place};

/// Why a source is refused.
#[derive(Clone, Copy)]
pub enum SourceError {
    /// The condition stands at that place.
    Refused { condition: Condition, place: Place },
    Memory,
}

// The place of the token with that number, or of the end of the source.
pub(crate) fn token_place(source: &[u8], tokens: &[Token], number: u32) -> Place
    requires short { length source.now ≤ limit }
    requires inside { All (λ t. t.start ≤ length source.now) tokens.now }
    ensures { result ≡ place_of_token source.now tokens.now number }
{
    match tokens.get(number as usize) {
        Some(token) => place_of(source, token.start),
        None => place_of(source, source.len() as u32),
    }
}

// The condition of an error of the tokens and the offset at which it stands; `Memory` where memory ran out.
fn lexical_condition(error: LexError) -> Result<(Condition, u32), Memory>
    ensures ok { IfOk result (λ found. condition_of_lexical error ≡ Some found) }
    ensures err { IfErr result (λ e. condition_of_lexical error ≡ None) }
{
    match error {
        LexError::NoToken { at } => Ok((Condition::NoToken, at)),
        LexError::OpenComment { at } => Ok((Condition::OpenComment, at)),
        LexError::BadNumber { at } => Ok((Condition::BadNumber, at)),
        LexError::LargeNumber { at } => Ok((Condition::LargeNumber, at)),
        LexError::TooLong => Ok((Condition::TooLong, 0)),
        LexError::Memory => Err(Memory),
    }
}

// The refusal of a source that is not cut into tokens.
fn uncut(source: &[u8], error: LexError) -> SourceError
    requires { IsUncutOrMemory source.now error }
    ensures { (defines : List Define) → IsRefusal source.now defines result }
{
    match lexical_condition(error) {
        Ok((condition, at)) => SourceError::Refused {
            condition,
            place: place_of(source, at),
        },
        Err(Memory) => SourceError::Memory,
    }
}

// The tokens of a source.
fn cut_source(alloc: Global, source: &[u8]) -> Result<Vec<Token>, SourceError>
    ensures short { IfOk result (λ ts. length source.now ≤ limit) }
    ensures cuts { IfOk result (λ ts. Cuts source.now ts.items) }
    ensures inside { IfOk result (λ ts. All (λ t. t.start ≤ length source.now) ts.items) }
    ensures err { IfErr result (λ e. (defines : List Define) → IsRefusal source.now defines e) }
{
    match tokens(alloc, source) {
        Ok(tokens) => Ok(tokens),
        Err(error) => Err(uncut(source, error)),
    }
}

// The condition of an error of the expansion and the token at which it stands; `Memory` where memory ran out.
fn expansion_condition(error: PrepError) -> Result<(Condition, u32), Memory>
    ensures ok { IfOk result (λ found. condition_of_expansion error ≡ Some found) }
    ensures err { IfErr result (λ e. condition_of_expansion error ≡ None) }
{
    match error {
        PrepError::BadDirective { token } => Ok((Condition::BadDirective, token)),
        PrepError::NoName { token } => Ok((Condition::NoName, token)),
        PrepError::Redefined { token } => Ok((Condition::Redefined, token)),
        PrepError::NoOpening { token } => Ok((Condition::NoOpening, token)),
        PrepError::NotClosed { token } => Ok((Condition::NotClosed, token)),
        PrepError::TooMany { token } => Ok((Condition::TooMany, token)),
        PrepError::Memory => Err(Memory),
    }
}

// The refusal of tokens that are not expanded.
fn unexpanded(source: &[u8], defines: &Defines, tokens: &[Token], error: PrepError) -> SourceError
    requires short { length source.now ≤ limit }
    requires cuts { Cuts source.now tokens.now }
    requires inside { All (λ t. t.start ≤ length source.now) tokens.now }
    requires refused { IsUnexpandedOrMemory tokens.now defines.now.list.items error }
    ensures { IsRefusal source.now defines.now.list.items result }
{
    match expansion_condition(error) {
        Ok((condition, token)) => SourceError::Refused {
            condition,
            place: token_place(source, tokens, token),
        },
        Err(Memory) => SourceError::Memory,
    }
}

// What the tokens of a source expand to.
fn expand_tokens(
    alloc: Global,
    source: &[u8],
    defines: &Defines,
    tokens: &[Token],
) -> Result<Vec<Token>, SourceError>
    requires short { length source.now ≤ limit }
    requires cuts { Cuts source.now tokens.now }
    requires inside { All (λ t. t.start ≤ length source.now) tokens.now }
    ensures reads { IfOk result (λ ts. Reads source.now defines.now.list.items tokens.now ts.items) }
    ensures inside { IfOk result (λ ts. All (λ t. t.start ≤ length source.now) ts.items) }
    ensures few { IfOk result (λ ts. length ts.items ≤ token_limit) }
    ensures err { IfErr result (λ e. IsRefusal source.now defines.now.list.items e) }
{
    match expand(alloc, tokens, defines) {
        Ok(expanded) => Ok(expanded),
        Err(error) => Err(unexpanded(source, defines, tokens, error)),
    }
}

/// The tokens of a source after directives, conditionals and the replacement of names (C99, sections
/// 6.4 and 6.10), with these given names.
///
/// A source is refused by its bytes first (E101 to E105), and then by its tokens (E201 to E206), at
/// the place that the condition names.
pub fn read_tokens(
    alloc: Global,
    source: &[u8],
    defines: &Defines,
) -> Result<Vec<Token>, SourceError>
    ensures expanded { IfOk result (λ ts. AreExpanded source.now defines.now.list.items ts.items) }
    ensures short { IfOk result (λ ts. length source.now ≤ limit) }
    ensures inside { IfOk result (λ ts. All (λ t. t.start ≤ length source.now) ts.items) }
    ensures few { IfOk result (λ ts. length ts.items ≤ token_limit) }
    ensures err { IfErr result (λ e. IsRefusal source.now defines.now.list.items e) }
{
    let tokens = match cut_source(alloc, source) {
        Ok(tokens) => tokens,
        Err(error) => return Err(error),
    };
    expand_tokens(alloc, source, defines, &tokens)
}

// The unit without vectors, or the refusal of the first condition on vectors.
fn scalar_unit(
    alloc: Global,
    source: &[u8],
    expanded: &[Token],
    unit: Tree,
) -> Result<Tree, SourceError>
    requires short { length source.now ≤ limit }
    requires inside { All (λ t. t.start ≤ length source.now) expanded.now }
    requires spelled { SpellsUnit (view unit) expanded.now }
    requires nests { nesting (view unit) ≤ 256 }
    ensures ok { IfOk result (λ t. IsScalarUnit expanded.now (view t)) }
    ensures plain { IfOk result (λ t. has_selection (view t) ≡ false) }
    ensures err { IfErr result (λ e. (defines : List Define) (tokens : List AnyToken) →
        Reads source.now defines tokens expanded.now → IsRefusal source.now defines e) }
{
    match scalarise(alloc, unit) {
        Ok(form) => Ok(form),
        Err(VectorError::Refused(refusal)) => Err(SourceError::Refused {
            condition: Condition::Vector(refusal.fault),
            place: token_place(source, expanded, refusal.token),
        }),
        Err(VectorError::Memory) => Err(SourceError::Memory),
    }
}

/// The unit without vectors that stands for the unit that the expanded tokens of a source spell
/// (OpenCL 1.2, chapter 6; C99, sections 6.5 to 6.9), or the refusal of that unit (E301 and E302,
/// then E501 to E503) at the place that the condition names.
pub fn read_unit(alloc: Global, source: &[u8], expanded: &[Token]) -> Result<Tree, SourceError>
    requires short { length source.now ≤ limit }
    requires inside { All (λ t. t.start ≤ length source.now) expanded.now }
    requires few { length expanded.now ≤ token_limit }
    ensures ok { IfOk result (λ t. IsScalarUnit expanded.now (view t)) }
    ensures plain { IfOk result (λ t. has_selection (view t) ≡ false) }
    ensures err { IfErr result (λ e. (defines : List Define) (tokens : List AnyToken) →
        Reads source.now defines tokens expanded.now → IsRefusal source.now defines e) }
{
    match parse(alloc, expanded) {
        Ok(unit) => scalar_unit(alloc, source, expanded, unit),
        Err(ParseError::Syntax { token }) => Err(SourceError::Refused {
            condition: Condition::Syntax,
            place: token_place(source, expanded, token),
        }),
        Err(ParseError::Nesting { token }) => Err(SourceError::Refused {
            condition: Condition::Nesting,
            place: token_place(source, expanded, token),
        }),
        Err(ParseError::Memory) => Err(SourceError::Memory),
    }
}
