//! The names that are in force from the start, and those that are given.
ghost use Rattle.std.specs.Prelude.{◌≡◌, ◌++◌, ◌∷◌, [], Some, OnOk, IfOk};
ghost use Rattle.std.specs.Fmt.{decimal as decimal_text};
ghost use Rattle.cl_token.specs.Lexeme.{lexemes_of};
ghost use Rattle.cl_prep.specs.Names as spec;
ghost use Rattle.cl_prep.specs.Start as begin;
ghost use Rattle.cl_prep.specs.Table.{names_of};
ghost use Rattle.cl_prep.specs.Scopes.{Adds};

use crate::names::{Names, find, same_words, set};
use crate::prep::{Define, PrepError};
use cl_token::{Kind, Token};
use indexmap::IndexMap;
use std::alloc::Global;
use wg_num::{Memory, Word, push};

/// A token that stands in no source.
fn push_word(alloc: Global, tokens: &mut Vec<Token>, kind: Kind, word: &[u8]) -> Result<(), Memory>
    ensures { OnOk result (lexemes_of tokens.new.items ≡ lexemes_of tokens.old.items ++ record {
      kind = kind;
      word = word.now;
    } ∷ []) }
{
    let token = Token {
        kind,
        word: Word::new(alloc, word)?,
        start: 0,
        end: 0,
        first: false,
    };
    push(tokens, token)
}

/// One number.
fn number(alloc: Global, word: &[u8]) -> Result<Vec<Token>, Memory>
    ensures { IfOk result (λ ts. lexemes_of ts.items ≡ begin.number word.now) }
{
    let mut tokens = Vec::new(alloc);
    push_word(alloc, &mut tokens, Kind::Number, word)?;
    Ok(tokens)
}

/// The least value of a type, from its greatest one.
fn lowest(alloc: Global, word: &[u8]) -> Result<Vec<Token>, Memory>
    ensures { IfOk result (λ ts. lexemes_of ts.items ≡ begin.lowest word.now) }
{
    let mut tokens = Vec::new(alloc);
    push_word(alloc, &mut tokens, Kind::Mark, b"(")?;
    push_word(alloc, &mut tokens, Kind::Mark, b"-")?;
    push_word(alloc, &mut tokens, Kind::Number, word)?;
    push_word(alloc, &mut tokens, Kind::Mark, b"-")?;
    push_word(alloc, &mut tokens, Kind::Number, b"1")?;
    push_word(alloc, &mut tokens, Kind::Mark, b")")?;
    Ok(tokens)
}

fn add_number(alloc: Global, names: &mut Names, name: &[u8], word: &[u8]) -> Result<(), Memory>
    ensures { OnOk result (names_of names.new ≡ spec.with_name (names_of names.old) name.now
        (Some (begin.number word.now))) }
{
    set(alloc, names, name, number(alloc, word)?)
}

fn add_lowest(alloc: Global, names: &mut Names, name: &[u8], word: &[u8]) -> Result<(), Memory>
    ensures { OnOk result (names_of names.new ≡ spec.with_name (names_of names.old) name.now
        (Some (begin.lowest word.now))) }
{
    set(alloc, names, name, lowest(alloc, word)?)
}

fn no_names(alloc: Global) -> Names
    ensures { names_of result ≡ spec.no_names }
{
    IndexMap::new(alloc)
}

fn add_narrow(alloc: Global, names: &mut Names) -> Result<(), Memory>
    ensures { OnOk result (names_of names.new ≡ begin.names_in (names_of names.old) begin.narrow_limits) }
{
    add_number(alloc, names, b"CHAR_BIT", b"8")?;
    add_number(alloc, names, b"SCHAR_MAX", b"127")?;
    add_lowest(alloc, names, b"SCHAR_MIN", b"127")?;
    add_number(alloc, names, b"CHAR_MAX", b"127")?;
    add_lowest(alloc, names, b"CHAR_MIN", b"127")?;
    add_number(alloc, names, b"SHRT_MAX", b"32767")?;
    add_lowest(alloc, names, b"SHRT_MIN", b"32767")?;
    Ok(())
}

fn add_wide(alloc: Global, names: &mut Names) -> Result<(), Memory>
    ensures { OnOk result (names_of names.new ≡ begin.names_in (names_of names.old) begin.wide_limits) }
{
    add_number(alloc, names, b"INT_MAX", b"2147483647")?;
    add_lowest(alloc, names, b"INT_MIN", b"2147483647")?;
    add_number(alloc, names, b"LONG_MAX", b"0x7fffffffffffffffL")?;
    add_lowest(alloc, names, b"LONG_MIN", b"0x7fffffffffffffffL")?;
    Ok(())
}

fn add_unsigned(alloc: Global, names: &mut Names) -> Result<(), Memory>
    ensures { OnOk result (names_of names.new ≡ begin.names_in (names_of names.old) begin.unsigned_limits) }
{
    add_number(alloc, names, b"UCHAR_MAX", b"255")?;
    add_number(alloc, names, b"USHRT_MAX", b"65535")?;
    add_number(alloc, names, b"UINT_MAX", b"0xffffffff")?;
    add_number(alloc, names, b"ULONG_MAX", b"0xffffffffffffffffUL")?;
    Ok(())
}

/// The names that are in force from the start (OpenCL 1.2, section 6.12.3).
#[tactic(auto, unfolding(crate::specs::Start::start_names))]
pub(crate) fn start_names(alloc: Global) -> Result<Names, Memory>
    ensures { IfOk result (λ m. names_of m ≡ begin.start_names) }
{
    let mut names = no_names(alloc);
    add_narrow(alloc, &mut names)?;
    add_wide(alloc, &mut names)?;
    add_unsigned(alloc, &mut names)?;
    Ok(names)
}

/// The decimal text of a number, as one token.
fn decimal(alloc: Global, value: u64) -> Result<Vec<Token>, Memory>
    ensures { IfOk result (λ ts. lexemes_of ts.items ≡ begin.number (decimal_text value)) }
{
    match value.to_string(alloc) {
        Ok(text) => number(alloc, text.as_bytes()),
        Err(_) => Err(Memory),
    }
}

/// Adds a given name.
fn add_define(alloc: Global, names: &mut Names, define: &Define) -> Result<(), PrepError>
    ensures { Adds (begin.with_define define.now (Some (names_of names.old))) result (names_of names.new) }
{
    let body = decimal(alloc, define.value)?;
    if let Some(old) = find(names, define.name.bytes()) {
        if same_words(old, body.as_slice()) {
            return Ok(());
        }
        return Err(PrepError::Redefined { token: 0 });
    }
    set(alloc, names, define.name.bytes(), body)?;
    Ok(())
}

/// Adds the given names, in order.
pub(crate) fn add_defines(
    alloc: Global,
    names: &mut Names,
    defines: &[Define],
) -> Result<(), PrepError>
    ensures { Adds (begin.with_defines (Some (names_of names.old)) defines.now) result (names_of names.new) }
{
    for define in defines {
        if let Err(error) = add_define(alloc, names, define) {
            return Err(error);
        }
    }
    Ok(())
}
