//! Types and address spaces.

ghost use Rattle.std.specs.Prelude.{◌≡◌, ◌<◌, length, IfSome, map, false};
ghost use Rattle.std.specs.List.{list_any};
ghost use Rattle.cl_meaning.specs.OwnWords.{listed, first_row};
ghost use Rattle.cl_meaning.specs.Types as spec;
ghost use Rattle.cl_tree.specs.Syntax.{view, views};

use crate::own_words::{has_piece, next_piece};
use crate::table::{is_one_of, look_up};
use cl_model::Space;
use cl_tree::{Form, Tree};
use wg_num::IntType;

/// The base of a type (OpenCL 1.2, section 6.1): an integer type, with `size` where it is written
/// `size_t`, or a type that the profile does not have.
#[derive(Clone, Copy, PartialEq, Eq, Debug)]
pub enum Base {
    Integer { of: IntType, size: bool },
    Outside,
}

/// What a type of the profile declares: the integer type, whether it is written `size_t`, whether
/// it is `const`, and its address space, if it names one (OpenCL 1.2, sections 6.5 and 6.8).
#[derive(Clone, Copy, PartialEq, Eq, Debug)]
pub struct Declared {
    pub of: IntType,
    pub size: bool,
    pub constant: bool,
    pub space: Option<Space>,
}

/// The first piece of a word that is no qualifier, and what stands behind it.
fn next_bare(word: &[u8]) -> Option<(&[u8], &[u8])>
    ensures listed { listed spec.bare (λ p. p.0.now) (λ p. p.1.now) result ≡ spec.bare word.now }
    ensures shorter { IfSome result (λ p. length p.1.now < length word.now) }
{
    let mut rest = word;
    while let Some((piece, behind)) = next_piece(rest) {
        if !is_one_of(piece, &["const", "volatile"]) {
            return Some((piece, behind));
        }
        rest = behind;
    }
    None
}

/// Whether the word is this text, qualifiers aside.
fn is_spelled(word: &[u8], text: &str) -> bool
    ensures { result ≡ spec.spells word.now text.now }
{
    let mut rest = word;
    let mut left = text.as_bytes();
    while let Some((wanted, others)) = next_piece(left) {
        match next_bare(rest) {
            Some((piece, behind)) if piece == wanted => {
                rest = behind;
                left = others;
            }
            _ => return false,
        }
    }
    next_bare(rest).is_none()
}

/// Whether the word is one of these texts, qualifiers aside.
fn is_one_spelled(word: &[u8], texts: &[&str]) -> bool
    ensures { result ≡ list_any (spec.spells word.now) (map (λ w. w.now) texts.now) }
{
    for text in texts {
        if is_spelled(word, text) {
            return true;
        }
    }
    false
}

/// The base with that spelling, qualifiers aside.
fn look_up_base(word: &[u8], table: &[(&str, Base)]) -> Option<Base>
    ensures { result ≡ first_row (spec.spells word.now) (map (λ r. record { word = r.0.now; value = r.1 })
        table.now) }
{
    for (text, base) in table {
        if is_spelled(word, text) {
            return Some(*base);
        }
    }
    None
}

/// Whether the word names a type that the profile does not have.
#[tactic(auto, unfolding(crate::specs::Types::names_outside))]
fn names_outside(word: &[u8]) -> bool
    ensures { result ≡ spec.names_outside word.now }
{
    is_one_spelled(
        word,
        &[
            "float",
            "double",
            "half",
            "ptrdiff_t",
            "intptr_t",
            "uintptr_t",
            "event_t",
            "sampler_t",
            "image1d_t",
            "image1d_buffer_t",
            "image1d_array_t",
            "image2d_t",
            "image2d_array_t",
            "image3d_t",
        ],
    ) || is_one_spelled(
        word,
        &[
            "char2", "char3", "char4", "char8", "char16", "uchar2", "uchar3", "uchar4", "uchar8",
            "uchar16", "short2", "short3", "short4", "short8", "short16", "ushort2", "ushort3",
            "ushort4", "ushort8", "ushort16",
        ],
    ) || is_one_spelled(
        word,
        &[
            "int2", "int3", "int4", "int8", "int16", "uint2", "uint3", "uint4", "uint8", "uint16",
            "long2", "long3", "long4", "long8", "long16", "ulong2", "ulong3", "ulong4", "ulong8",
            "ulong16",
        ],
    ) || is_one_spelled(
        word,
        &[
            "float2", "float3", "float4", "float8", "float16", "double2", "double3", "double4",
            "double8", "double16", "half2", "half3", "half4", "half8", "half16",
        ],
    )
}

/// The base that is written otherwise than `size_t`.
fn integer(of: IntType) -> Base
    ensures { result ≡ Base.Integer of false }
{
    Base::Integer { of, size: false }
}

/// The integer type with that spelling.
fn integer_base(word: &[u8]) -> Option<Base>
    ensures { result ≡ first_row (spec.spells word.now) spec.integers }
{
    look_up_base(
        word,
        &[
            ("bool", integer(IntType::Bool)),
            ("char", integer(IntType::Char)),
            ("signed char", integer(IntType::Char)),
            ("uchar", integer(IntType::Uchar)),
            ("unsigned char", integer(IntType::Uchar)),
            ("short", integer(IntType::Short)),
            ("short int", integer(IntType::Short)),
            ("signed short", integer(IntType::Short)),
            ("signed short int", integer(IntType::Short)),
            ("ushort", integer(IntType::Ushort)),
            ("unsigned short", integer(IntType::Ushort)),
            ("unsigned short int", integer(IntType::Ushort)),
            ("int", integer(IntType::Int)),
            ("signed int", integer(IntType::Int)),
            ("signed", integer(IntType::Int)),
            ("uint", integer(IntType::Uint)),
            ("unsigned int", integer(IntType::Uint)),
            ("unsigned", integer(IntType::Uint)),
            ("long", integer(IntType::Long)),
            ("long int", integer(IntType::Long)),
            ("signed long", integer(IntType::Long)),
            ("signed long int", integer(IntType::Long)),
            ("ulong", integer(IntType::Ulong)),
            ("unsigned long", integer(IntType::Ulong)),
            ("unsigned long int", integer(IntType::Ulong)),
            (
                "size_t",
                Base::Integer {
                    of: IntType::Ulong,
                    size: true,
                },
            ),
        ],
    )
}

/// The base of a type, from its own words.
#[tactic(auto, unfolding(crate::specs::Types::base_in))]
pub fn base_of(word: &[u8]) -> Option<Base>
    ensures { result ≡ spec.base_in word.now }
{
    if names_outside(word) {
        return Some(Base::Outside);
    }
    integer_base(word)
}

/// Whether a type or a star is `const`, from its own words.
pub fn is_const(word: &[u8]) -> bool
    ensures { result ≡ spec.is_const word.now }
{
    has_piece(word, b"const")
}

/// The address space with this word.
#[tactic(auto, unfolding(crate::specs::Types::space_in))]
pub fn space_of(word: &[u8]) -> Option<Space>
    ensures { result ≡ spec.space_in word.now }
{
    look_up(
        word,
        &[
            ("__global", Space::Global),
            ("global", Space::Global),
            ("__constant", Space::Constant),
            ("constant", Space::Constant),
            ("__local", Space::Local),
            ("local", Space::Local),
            ("__private", Space::Private),
            ("private", Space::Private),
        ],
    )
}

/// The address space of a type, from its parts.
#[tactic(auto, using(crate::proofs::Views::view_out))]
fn space_among(parts: &[Tree]) -> Option<Space>
    ensures { result ≡ spec.space_among (views parts.now) }
{
    match parts {
        [] => None,
        [part, ..] => match part.form {
            Form::SpaceNode => space_of(part.word.bytes()),
            _ => None,
        },
    }
}

/// What a type of the profile declares; `None` where its base is outside the profile, and for other
/// trees.
#[tactic(auto, using(crate::proofs::Views::view_out))]
pub fn declared_of(tree: &Tree) -> Option<Declared>
    ensures { result ≡ spec.declared_in (view tree.now) }
{
    match tree.form {
        Form::TypeNode => match base_of(tree.word.bytes()) {
            Some(Base::Integer { of, size }) => {
                let constant = is_const(tree.word.bytes());
                let space = space_among(&tree.parts);
                Some(Declared {
                    of,
                    size,
                    constant,
                    space,
                })
            }
            _ => None,
        },
        _ => None,
    }
}

/// Whether the tree is a type that the profile does not have.
#[tactic(auto, using(crate::proofs::Views::view_out))]
pub fn is_outside(tree: &Tree) -> bool
    ensures { result ≡ spec.is_outside (view tree.now) }
{
    match tree.form {
        Form::TypeNode => match base_of(tree.word.bytes()) {
            Some(Base::Outside) => true,
            _ => false,
        },
        _ => false,
    }
}
