//! What stands at the head of the rest of a source.
ghost use Rattle.std.specs.Prelude.{◌≡◌, ◌+◌, ◌<◌, length};
ghost use Rattle.std.specs.Prelude.{IfSome, Ok, Err};
ghost use Rattle.std.specs.List.{prefix_len};
ghost use Rattle.cl_token.specs.Reading as reading;

use crate::bytes::{byte_at, is_digit, is_name_start, name_length, number_length};
use crate::number::{LiteralError, outcome_of};
use crate::token::Kind;

/// A piece of a source. Lengths are in bytes.
#[derive(Clone, Copy, PartialEq, Eq, Debug)]
pub(crate) enum Piece {
    LineEnd,
    /// A blank or a comment.
    Skipped(usize),
    Cut(Kind, usize),
}

/// Why there is no piece.
#[derive(Clone, Copy, PartialEq, Eq, Debug)]
pub(crate) enum Fault {
    NoToken,
    OpenComment,
    BadNumber,
    LargeNumber,
}

fn is_space(byte: u8) -> bool
    ensures { result ≡ reading.is_among reading.spaces byte }
{
    byte == b' ' || byte == b'\t' || byte == 0x0b || byte == 0x0c || byte == b'\r'
}

#[tactic(auto, unfolding(crate::specs::Reading::blank_length))]
fn blank_length(rest: &[u8]) -> usize
    ensures { result ≡ reading.blank_length rest.now }
{
    let first = byte_at(rest, 0);
    let second = byte_at(rest, 1);
    if is_space(first) {
        1
    } else if first == b'\\' && second == b'\n' {
        2
    } else if first == b'\\' && second == b'\r' && byte_at(rest, 2) == b'\n' {
        3
    } else {
        0
    }
}

/// How many bytes stand before the end of the line.
fn line_length(rest: &[u8]) -> usize
    ensures { result ≡ prefix_len reading.is_line_byte rest.now }
{
    rest.iter().take_while(|byte| **byte != b'\n').count()
}

/// The first place at which a block comment ends.
fn close_of(text: &[u8]) -> Option<usize>
    ensures first { result ≡ reading.close_of text.now }
    ensures within { IfSome result (λ k. k < length text.now) }
{
    for (place, byte) in text.iter().enumerate() {
        if *byte == b'*' && byte_at(text, place + 1) == b'/' {
            return Some(place);
        }
    }
    None
}

fn is_single(a: u8) -> bool
    ensures { result ≡ reading.is_single a }
{
    b"{}()[];,.:?~!=<>+-*/%&|^".contains(&a)
}

fn is_double(a: u8, b: u8) -> bool
    ensures { result ≡ reading.is_double a b }
{
    b == b'=' && b"=!<>+-*/%&|^".contains(&a) || a == b && b"<>&|+-".contains(&a)
}

fn is_triple(a: u8, b: u8, c: u8) -> bool
    ensures { result ≡ reading.is_triple a b c }
{
    c == b'=' && a == b && (a == b'<' || a == b'>')
}

#[tactic(auto, unfolding(crate::specs::Reading::mark_length))]
fn mark_length(rest: &[u8]) -> usize
    ensures { result ≡ reading.mark_length rest.now }
{
    let a = byte_at(rest, 0);
    let b = byte_at(rest, 1);
    if is_triple(a, b, byte_at(rest, 2)) {
        3
    } else if is_double(a, b) {
        2
    } else if is_single(a) {
        1
    } else {
        0
    }
}

#[tactic(auto, unfolding(crate::specs::Reading::kind_at))]
fn kind_at(byte: u8) -> Kind
    ensures { result ≡ reading.kind_at byte }
{
    if is_name_start(byte) {
        Kind::Name
    } else if is_digit(byte) {
        Kind::Number
    } else if byte == b'#' {
        Kind::Hash
    } else {
        Kind::Mark
    }
}

#[tactic(auto, unfolding(crate::specs::Reading::length_of))]
fn length_of(kind: Kind, rest: &[u8]) -> usize
    ensures { result ≡ reading.length_of kind rest.now }
{
    match kind {
        Kind::Name => name_length(rest),
        Kind::Number => number_length(rest),
        Kind::Hash => 1,
        Kind::Mark => mark_length(rest),
    }
}

/// The token at the head.
#[tactic(auto, unfolding(crate::specs::Reading::token_of))]
fn token_of(rest: &[u8]) -> Result<Piece, Fault>
    ensures { result ≡ reading.token_of rest.now }
{
    let kind = kind_at(byte_at(rest, 0));
    let length = length_of(kind, rest);
    if length == 0 {
        return Err(Fault::NoToken);
    }
    if kind != Kind::Number {
        return Ok(Piece::Cut(kind, length));
    }
    let word = rest.get(..length).unwrap_or(rest);
    match outcome_of(word) {
        Ok(_) => Ok(Piece::Cut(Kind::Number, length)),
        Err(LiteralError::Malformed) => Err(Fault::BadNumber),
        Err(LiteralError::TooLarge) => Err(Fault::LargeNumber),
    }
}

/// The piece at the head.
#[tactic(auto, unfolding(crate::specs::Reading::piece_of))]
pub(crate) fn piece_of(rest: &[u8]) -> Result<Piece, Fault>
    ensures { result ≡ reading.piece_of rest.now }
{
    let first = byte_at(rest, 0);
    let second = byte_at(rest, 1);
    if first == b'\n' {
        return Ok(Piece::LineEnd);
    }
    let blank = blank_length(rest);
    if blank > 0 {
        return Ok(Piece::Skipped(blank));
    }
    if first == b'/' && second == b'/' {
        return Ok(Piece::Skipped(line_length(rest)));
    }
    if first == b'/' && second == b'*' {
        let text = rest.get(2..).unwrap_or(&[]);
        return match close_of(text) {
            Some(place) => Ok(Piece::Skipped(place + 4)),
            None => Err(Fault::OpenComment),
        };
    }
    token_of(rest)
}
