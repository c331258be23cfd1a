//! The cutting of a source into tokens.
ghost use Rattle.std.specs.Prelude.{◌≡◌, ◌↔◌, List, ◌<◌, ◌≤◌, length, All, IfOk, IfErr};
ghost use Rattle.std.specs.Prelude.{MatchResult, [], Err, slice_range, drop};
ghost use Rattle.cl_token.specs.declared.token.Token.{Token as AnyToken};
ghost use Rattle.cl_token.specs.declared.token.LexError.{LexError as AnyError};
ghost use Rattle.cl_token.specs.Cuts.{Cuts, IsRefused, limit};
ghost use Rattle.cl_token.specs.Reading as reading;
ghost use Rattle.cl_token.specs.Answers.{IsTokens, IsFault, IsRefusedOrMemory, IsCutOrRefused, error_at};

use crate::lexeme::{Fault, Piece, piece_of};
use crate::token::{Kind, LexError, Token};
use std::alloc::Global;
use wg_num::{Word, push};

/// The most bytes that a source may have.
pub const SOURCE_LIMIT: usize = 262_144;

fn error_of(fault: Fault, at: u32) -> LexError
    ensures { result ≡ error_at fault at }
{
    match fault {
        Fault::NoToken => LexError::NoToken { at },
        Fault::OpenComment => LexError::OpenComment { at },
        Fault::BadNumber => LexError::BadNumber { at },
        Fault::LargeNumber => LexError::LargeNumber { at },
    }
}

fn token_at(
    alloc: Global,
    source: &[u8],
    kind: Kind,
    start: usize,
    end: usize,
    first: bool,
) -> Result<Token, LexError>
    requires order { start ≤ end }
    requires within { end ≤ length source.now }
    requires small { length source.now ≤ limit }
    ensures { MatchResult result (λ t. t ≡ record {
      kind = kind;
      word = slice_range source.now start end;
      start = start;
      end = end;
      first = first;
    }) (λ e. e ≡ LexError.Memory) }
{
    let word = Word::new(alloc, &source[start..end])?;
    Ok(Token {
        kind,
        word,
        start: start as u32,
        end: end as u32,
        first,
    })
}

fn piece_at(source: &[u8], at: usize) -> Result<Piece, Fault>
    requires { at ≤ length source.now }
    ensures { result ≡ reading.piece_of (drop at source.now) }
{
    piece_of(&source[at..])
}

/// The tokens of a source that is not too long.
fn cut(alloc: Global, source: &[u8]) -> Result<Vec<Token>, LexError>
    requires { length source.now ≤ limit }
    ensures { IsCutOrRefused source.now result }
{
    let mut tokens = Vec::new(alloc);
    let mut at = 0usize;
    let mut first = true;
    while at < source.len() {
        match piece_at(source, at) {
            Ok(Piece::LineEnd) => {
                at += 1;
                first = true;
            }
            Ok(Piece::Skipped(length)) => at += length,
            Ok(Piece::Cut(kind, length)) => {
                let token = token_at(alloc, source, kind, at, at + length, first)?;
                push(&mut tokens, token)?;
                at += length;
                first = false;
            }
            Err(fault) => return Err(error_of(fault, at as u32)),
        }
    }
    Ok(tokens)
}

/// The tokens of a source (OpenCL 1.2, section 6; C99, section 6.4), without its blanks and comments.
///
/// Of the errors but want of memory, `TooLong` comes before the others, and of those the first place
/// at which no token can be cut decides.
pub fn tokens(alloc: Global, source: &[u8]) -> Result<Vec<Token>, LexError>
    ensures short { IfOk result (λ ts. length source.now ≤ limit) }
    ensures cuts { IfOk result (λ ts. Cuts source.now ts.items) }
    ensures few { IfOk result (λ ts. length ts.items ≤ length source.now) }
    ensures inside { IfOk result (λ ts. All (λ t. t.start ≤ length source.now) ts.items) }
    ensures all { (ts : List AnyToken) → length source.now ≤ limit → Cuts source.now ts → IsTokens result ts }
    ensures refused { IfErr result (λ e. IsRefusedOrMemory source.now e) }
    ensures fault { (e : AnyError) → IsRefused source.now e → IsFault result e }
    ensures too_long { (result ≡ Err LexError.TooLong) ↔ (limit < length source.now) }
{
    if source.len() > SOURCE_LIMIT {
        return Err(LexError::TooLong);
    }
    cut(alloc, source)
}
