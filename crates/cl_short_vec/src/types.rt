//! Vector types (OpenCL 1.2, section 6.1.2).

ghost use Rattle.std.specs.Prelude.{◌≡◌, map, option_map};
ghost use Rattle.std.specs.List.{after_first};
ghost use Rattle.cl_tree.specs.Syntax.{view};
ghost use Rattle.cl_meaning.specs.OwnWords.{is_blank, looked_up};
ghost use Rattle.cl_meaning.specs.Types.{bare, is_qualifier};
ghost use Rattle.cl_short_vec.specs.Types as spec;

use cl_meaning::name_of;
use cl_tree::{Form, Tree};
use wg_num::{IntType, same_type};

/// A vector type: the type of the components, and their number.
#[derive(Clone, Copy, PartialEq, Eq, Debug)]
pub struct Vector {
    pub of: IntType,
    pub count: usize,
}

/// What stands behind the first blank of a word.
fn behind_first(word: &[u8]) -> &[u8]
    ensures { result.now ≡ after_first is_blank word.now }
{
    word.get(name_of(word).len() + 1..).unwrap_or(&[])
}

fn is_qualifier(piece: &[u8]) -> bool
    ensures { result ≡ is_qualifier piece.now }
{
    piece == "const".as_bytes() || piece == "volatile".as_bytes()
}

/// The one piece of a type's words that is no qualifier; `None` where there are several, or none.
#[tactic(auto, using(cl_meaning::proofs::Cuts::cuts))]
fn bare_word(word: &[u8]) -> Option<&[u8]>
    ensures { option_map (λ p. p.now) result ≡ spec.alone (bare word.now) }
{
    let mut found = None;
    let mut rest = word;
    while !rest.is_empty() {
        let piece = name_of(rest);
        rest = behind_first(rest);
        if !piece.is_empty() && !is_qualifier(piece) {
            if found.is_some() {
                return None;
            }
            found = Some(piece);
        }
    }
    found
}

fn look_up(word: &[u8], table: &[(&str, Vector)]) -> Option<Vector>
    ensures { result ≡ looked_up word.now (map (λ r. record { word = r.0.now; value = r.1 }) table.now) }
{
    for (text, vector) in table {
        if word == text.as_bytes() {
            return Some(*vector);
        }
    }
    None
}

fn components(of: IntType, count: usize) -> Vector
    ensures { result ≡ spec.vector of count }
{
    Vector { of, count }
}

/// The vector type with this name.
fn named(name: &[u8]) -> Option<Vector>
    ensures { result ≡ looked_up name.now spec.vectors }
{
    look_up(
        name,
        &[
            ("char2", components(IntType::Char, 2)),
            ("char4", components(IntType::Char, 4)),
            ("char8", components(IntType::Char, 8)),
            ("char16", components(IntType::Char, 16)),
            ("uchar2", components(IntType::Uchar, 2)),
            ("uchar4", components(IntType::Uchar, 4)),
            ("uchar8", components(IntType::Uchar, 8)),
            ("uchar16", components(IntType::Uchar, 16)),
            ("short2", components(IntType::Short, 2)),
            ("short4", components(IntType::Short, 4)),
            ("short8", components(IntType::Short, 8)),
            ("short16", components(IntType::Short, 16)),
            ("ushort2", components(IntType::Ushort, 2)),
            ("ushort4", components(IntType::Ushort, 4)),
            ("ushort8", components(IntType::Ushort, 8)),
            ("ushort16", components(IntType::Ushort, 16)),
            ("int2", components(IntType::Int, 2)),
            ("int4", components(IntType::Int, 4)),
            ("int8", components(IntType::Int, 8)),
            ("int16", components(IntType::Int, 16)),
            ("uint2", components(IntType::Uint, 2)),
            ("uint4", components(IntType::Uint, 4)),
            ("uint8", components(IntType::Uint, 8)),
            ("uint16", components(IntType::Uint, 16)),
            ("long2", components(IntType::Long, 2)),
            ("long4", components(IntType::Long, 4)),
            ("long8", components(IntType::Long, 8)),
            ("long16", components(IntType::Long, 16)),
            ("ulong2", components(IntType::Ulong, 2)),
            ("ulong4", components(IntType::Ulong, 4)),
            ("ulong8", components(IntType::Ulong, 8)),
            ("ulong16", components(IntType::Ulong, 16)),
        ],
    )
}

/// The vector type that a type's own words name, qualifiers aside.
#[tactic(auto, unfolding(crate::specs::Types::vector_in))]
pub fn vector_of(word: &[u8]) -> Option<Vector>
    ensures { result ≡ spec.vector_in word.now }
{
    match bare_word(word) {
        Some(name) => named(name),
        None => None,
    }
}

/// The vector type that a tree is; `None` for other trees.
#[tactic(auto, using(cl_meaning::proofs::Views::view_out))]
pub fn vector_type(tree: &Tree) -> Option<Vector>
    ensures { result ≡ spec.vector_type (view tree.now) }
{
    match tree.form {
        Form::TypeNode => vector_of(tree.word.bytes()),
        _ => None,
    }
}

/// Whether two vector types are one.
pub fn same_vector(a: Vector, b: Vector) -> bool
    ensures { result ≡ spec.same_vector a b }
{
    same_type(a.of, b.of) && a.count == b.count
}

/// The signed type of that width, in which the components of a comparison are (OpenCL 1.2, section 6.3).
pub fn signed_of(of: IntType) -> IntType
    ensures { result ≡ spec.signed_of of }
{
    match of {
        IntType::Uchar => IntType::Char,
        IntType::Ushort => IntType::Short,
        IntType::Uint => IntType::Int,
        IntType::Ulong => IntType::Long,
        _ => of,
    }
}
