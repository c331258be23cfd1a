//! Integer constants: how they are spelled, their values and their types.
ghost use Rattle.std.specs.Prelude.{◌≡◌, ◌↔◌, ℕ, ◌^◌, ◌<◌, ◌≤◌, ◌+◌, ◌*◌, length};
ghost use Rattle.std.specs.Prelude.{IfOk, Ok, Err, None, SomeIff, option_map};
ghost use Rattle.std.specs.List.{prefix_len};
ghost use Rattle.wg_num.specs.declared.types.IntType.{IntType as AnyType};
ghost use Rattle.cl_token.specs.Number as spec;
ghost use Rattle.cl_token.specs.NumberReading as reading;

use crate::bytes::{byte_at, is_digit, is_hexadecimal_digit, is_octal_digit};
use thiserror::Error;
use wg_num::IntType;

/// How the digits of a number are written (C99, 6.4.4.1).
#[derive(Clone, Copy, PartialEq, Eq, Debug)]
pub enum Base {
    Decimal,
    Octal,
    Hexadecimal,
}

/// What an integer constant stands for.
#[derive(Clone, Copy, PartialEq, Eq, Debug)]
pub struct Literal {
    pub of: IntType,
    pub value: u64,
}

/// Why a number has no value.
#[derive(Clone, Copy, PartialEq, Eq, Debug, Error)]
pub enum LiteralError {
    #[error("malformed number")]
    Malformed,
    #[error("number too large")]
    TooLarge,
}

/// A number in its form, with its digits.
#[derive(Drop)]
struct Parts<'a> {
    base: Base,
    unsigned: bool,
    long: bool,
    digits: &'a [u8],
}

fn is_x(byte: u8) -> bool
    ensures { result ≡ spec.is_x byte }
{
    byte == b'x' || byte == b'X'
}

fn is_u(byte: u8) -> bool
    ensures { result ≡ spec.is_u byte }
{
    byte == b'u' || byte == b'U'
}

fn is_l(byte: u8) -> bool
    ensures { result ≡ spec.is_l byte }
{
    byte == b'l' || byte == b'L'
}

fn base_of(word: &[u8]) -> Base
    ensures { result ≡ reading.base_of word.now }
{
    if byte_at(word, 0) != b'0' {
        Base::Decimal
    } else if is_x(byte_at(word, 1)) {
        Base::Hexadecimal
    } else {
        Base::Octal
    }
}

fn prefix_length(base: Base) -> usize
    ensures { result ≡ reading.prefix_length base }
{
    match base {
        Base::Decimal => 0,
        Base::Octal => 1,
        Base::Hexadecimal => 2,
    }
}

fn radix(base: Base) -> u64
    ensures { result ≡ reading.radix base }
{
    match base {
        Base::Decimal => 10,
        Base::Octal => 8,
        Base::Hexadecimal => 16,
    }
}

fn is_digit_in(base: Base, byte: u8) -> bool
    ensures { result ≡ reading.digit_in base byte }
{
    match base {
        Base::Decimal => is_digit(byte),
        Base::Octal => is_octal_digit(byte),
        Base::Hexadecimal => is_hexadecimal_digit(byte),
    }
}

fn needs_digits(base: Base) -> bool
    ensures { result ≡ reading.needs_digits base }
{
    match base {
        Base::Decimal | Base::Hexadecimal => true,
        Base::Octal => false,
    }
}

fn digits_length(base: Base, body: &[u8]) -> usize
    ensures run { result ≡ prefix_len (reading.digit_in base) body.now }
    ensures within { result ≤ length body.now }
{
    body.iter()
        .take_while(|byte| is_digit_in(base, **byte))
        .count()
}

/// Whether the suffix has a `u` and whether it has an `l`; `None` where it is no suffix.
fn suffix_of(bytes: &[u8]) -> Option<(bool, bool)>
    ensures { result ≡ reading.suffix_of bytes.now }
{
    match bytes {
        [] => Some((false, false)),
        [b] if is_u(*b) => Some((true, false)),
        [b] if is_l(*b) => Some((false, true)),
        [b, c] if is_u(*b) && is_l(*c) || is_l(*b) && is_u(*c) => Some((true, true)),
        _ => None,
    }
}

#[tactic(auto, unfolding(crate::specs::NumberReading::parts_of))]
fn parts_of(word: &[u8]) -> Option<Parts<'_>>
    ensures { option_map (λ p. record {
      form = record { base = p.base; unsigned = p.unsigned; long = p.long };
      digits = p.digits.now;
    }) result ≡ reading.parts_of word.now }
{
    let base = base_of(word);
    let body = word.get(prefix_length(base)..).unwrap_or(&[]);
    let count = digits_length(base, body);
    if needs_digits(base) && count == 0 {
        return None;
    }
    let (digits, suffix) = body.split_at(count);
    let (unsigned, long) = suffix_of(suffix)?;
    Some(Parts {
        base,
        unsigned,
        long,
        digits,
    })
}

fn digit_value(byte: u8) -> u64
    ensures { result ≡ spec.digit_value byte }
{
    let zero = if is_digit(byte) {
        b'0'
    } else if b'a' <= byte {
        b'a' - 10
    } else {
        b'A' - 10
    };
    u64::from(byte.saturating_sub(zero))
}

/// The value with one digit more, if that is below 2 to the 64.
fn with_digit(value: u64, base: Base, digit: u8) -> Option<u64>
    ensures { SomeIff result (value * reading.radix base + spec.digit_value digit < 2 ^ 64)
        (value * reading.radix base + spec.digit_value digit) }
{
    value
        .checked_mul(radix(base))?
        .checked_add(digit_value(digit))
}

/// What the digits stand for, if that is below 2 to the 64.
#[tactic(auto, using(crate::proofs::Numbers::digits))]
fn value_of(base: Base, digits: &[u8]) -> Option<u64>
    ensures { SomeIff result (spec.number_in (reading.radix base) digits.now < 2 ^ 64)
        (spec.number_in (reading.radix base) digits.now) }
{
    let mut value = 0u64;
    for digit in digits {
        value = with_digit(value, base, *digit)?;
    }
    Some(value)
}

/// The types of a number that is written so, of which the first that holds its value is taken.
fn types_in(base: Base, unsigned: bool, long: bool) -> &'static [IntType]
    ensures { result.now ≡ spec.types_in base unsigned long }
{
    match (base, unsigned, long) {
        (Base::Decimal, false, false) => &[IntType::Int, IntType::Long],
        (Base::Decimal, false, true) => &[IntType::Long],
        (_, false, false) => &[IntType::Int, IntType::Uint, IntType::Long, IntType::Ulong],
        (_, false, true) => &[IntType::Long, IntType::Ulong],
        (_, true, false) => &[IntType::Uint, IntType::Ulong],
        (_, true, true) => &[IntType::Ulong],
    }
}

#[tactic(auto, unfolding(wg_num::specs::Wrap::half, wg_num::specs::Wrap::modulus))]
fn holds(value: u64, of: IntType) -> bool
    ensures { result ≡ spec.holds value of }
{
    let highest = match of {
        IntType::Bool => 1,
        IntType::Char => i8::MAX as u64,
        IntType::Uchar => u8::MAX as u64,
        IntType::Short => i16::MAX as u64,
        IntType::Ushort => u16::MAX as u64,
        IntType::Int => i32::MAX as u64,
        IntType::Uint => u32::MAX as u64,
        IntType::Long => i64::MAX as u64,
        IntType::Ulong => u64::MAX,
    };
    value <= highest
}

fn type_of(base: Base, unsigned: bool, long: bool, value: u64) -> Option<IntType>
    ensures { result ≡ spec.type_of (record { base = base; unsigned = unsigned; long = long }) value }
{
    types_in(base, unsigned, long)
        .iter()
        .copied()
        .find(|of| holds(value, *of))
}

#[tactic(auto, unfolding(crate::specs::NumberReading::outcome_of))]
pub(crate) fn outcome_of(word: &[u8]) -> Result<Literal, LiteralError>
    ensures { result ≡ reading.outcome_of word.now }
{
    let Some(parts) = parts_of(word) else {
        return Err(LiteralError::Malformed);
    };
    let Some(value) = value_of(parts.base, parts.digits) else {
        return Err(LiteralError::TooLarge);
    };
    match type_of(parts.base, parts.unsigned, parts.long, value) {
        Some(of) => Ok(Literal { of, value }),
        None => Err(LiteralError::TooLarge),
    }
}

/// The type and the value of an integer constant: of its types the first that holds the value
/// (C99, 6.4.4.1).
#[tactic(auto, using(crate::proofs::Literals::literals))]
pub fn literal_of(word: &[u8]) -> Result<Literal, LiteralError>
    ensures found { IfOk result (λ l. spec.IsLiteral word.now l.of l.value) }
    ensures every { (t : AnyType) (v : ℕ) → spec.IsLiteral word.now t v →
        result ≡ Ok (record { of = t; value = v }) }
    ensures malformed { (result ≡ Err LiteralError.Malformed) ↔ spec.IsMalformed word.now }
    ensures too_large { (result ≡ Err LiteralError.TooLarge) ↔ spec.IsTooLarge word.now }
{
    outcome_of(word)
}
