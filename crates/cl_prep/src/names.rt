//! The table of names.
ghost use Rattle.std.specs.Prelude.{◌≡◌, [], Some, None, OnOk, IfOk};
ghost use Rattle.std.specs.Prelude.{option_map};
ghost use Rattle.cl_token.specs.Lexeme.{lexeme_of, lexemes_of};
ghost use Rattle.cl_prep.specs.Names as spec;
ghost use Rattle.cl_prep.specs.Expands.{placed as placed_at};
ghost use Rattle.cl_prep.specs.Table.{names_of};

use cl_token::Token;
use indexmap::IndexMap;
use std::alloc::Global;
use wg_num::{Memory, push};

/// From each name in force to the tokens that replace it.
pub(crate) type Names = IndexMap<Vec<u8>, Vec<Token>>;

/// The tokens that replace a name.
pub(crate) fn find<'a>(names: &'a Names, name: &[u8]) -> Option<&'a Vec<Token>>
    ensures { option_map (λ b. lexemes_of b.now.items) result ≡ names_of names.now name.now }
{
    names.get(name)
}

fn key_of(alloc: Global, name: &[u8]) -> Result<Vec<u8>, Memory>
    ensures { IfOk result (λ v. v.items ≡ name.now) }
{
    match name.to_vec(alloc) {
        Ok(key) => Ok(key),
        Err(_) => Err(Memory),
    }
}

/// Sets the replacement of a name.
pub(crate) fn set(
    alloc: Global,
    names: &mut Names,
    name: &[u8],
    body: Vec<Token>,
) -> Result<(), Memory>
    ensures { OnOk result (names_of names.new ≡ spec.with_name (names_of names.old) name.now
        (Some (lexemes_of body.items))) }
{
    let key = key_of(alloc, name)?;
    match names.insert(key, body) {
        Ok(_) => Ok(()),
        Err(_) => Err(Memory),
    }
}

/// Takes the replacement of a name away.
pub(crate) fn remove(names: &mut Names, name: &[u8])
    ensures { names_of names.new ≡ spec.with_name (names_of names.old) name.now None }
{
    let _ = names.swap_remove(name);
}

/// A token like this one.
pub(crate) fn copy(alloc: Global, token: &Token) -> Result<Token, Memory>
    ensures { IfOk result (λ t. t ≡ token.now) }
{
    Ok(Token {
        kind: token.kind,
        word: token.word.copy(alloc)?,
        start: token.start,
        end: token.end,
        first: token.first,
    })
}

/// A token of the same kind and word, in the place of another.
pub(crate) fn placed(alloc: Global, at: &Token, from: &Token) -> Result<Token, Memory>
    ensures { IfOk result (λ t. t ≡ placed_at at.now (lexeme_of from.now)) }
{
    Ok(Token {
        kind: from.kind,
        word: from.word.copy(alloc)?,
        start: at.start,
        end: at.end,
        first: false,
    })
}

/// Tokens like these.
pub(crate) fn copies(alloc: Global, tokens: &[Token]) -> Result<Vec<Token>, Memory>
    ensures { IfOk result (λ v. v.items ≡ tokens.now) }
{
    let mut copies = Vec::new(alloc);
    for token in tokens {
        push(&mut copies, copy(alloc, token)?)?;
    }
    Ok(copies)
}

/// Whether two lists of tokens have the same words.
pub(crate) fn same_words(a: &[Token], b: &[Token]) -> bool
    ensures { result ≡ spec.same_words (spec.words_of (lexemes_of a.now)) (spec.words_of (lexemes_of b.now)) }
{
    if a.len() != b.len() {
        return false;
    }
    for index in 0..a.len() {
        if a[index].word.bytes() != b[index].word.bytes() {
            return false;
        }
    }
    true
}
