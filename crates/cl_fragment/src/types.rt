//! Types of pieces.

ghost use Rattle.std.specs.Prelude.{◌≡◌};
ghost use Rattle.cl_meaning.specs.Expressions as meaning;

use cl_meaning::Kind;
use wg_num::IntType;

/// The type of the value of a piece: that of a pointer is its offset's.
pub(crate) fn type_in(kind: Option<Kind>) -> IntType
    ensures { result ≡ meaning.type_in kind }
{
    match kind {
        None => IntType::Int,
        Some(Kind::Number { of, .. }) => of,
        Some(_) => IntType::Long,
    }
}
