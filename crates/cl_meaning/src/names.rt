//! Names that need no declaration, and the words of declarations.

ghost use Rattle.std.specs.Prelude.{◌≡◌};
ghost use Rattle.cl_meaning.specs.Names as spec;

use crate::own_words::{count_pieces, has_piece};
use crate::table::{is_one_of, look_up};
use cl_model::Query;
use wg_num::Fun;

/// What a name means without a declaration (OpenCL 1.2, section 6.12).
#[derive(Clone, Copy, PartialEq, Eq, Debug)]
pub enum Intrinsic {
    Function(Fun),
    Query(Query),
    Barrier,
    /// `mem_fence`, `read_mem_fence` or `write_mem_fence`.
    Fence,
}

/// A flag of a barrier or fence (OpenCL 1.2, section 6.12.8).
#[derive(Clone, Copy, PartialEq, Eq, Debug)]
pub enum Flag {
    Local,
    Global,
}

/// What a name means without a declaration.
#[tactic(auto, unfolding(crate::specs::Names::intrinsic_in))]
pub fn intrinsic_of(word: &[u8]) -> Option<Intrinsic>
    ensures { result ≡ spec.intrinsic_in word.now }
{
    look_up(
        word,
        &[
            ("abs", Intrinsic::Function(Fun::Abs)),
            ("abs_diff", Intrinsic::Function(Fun::AbsDiff)),
            ("min", Intrinsic::Function(Fun::Min)),
            ("max", Intrinsic::Function(Fun::Max)),
            ("clamp", Intrinsic::Function(Fun::Clamp)),
            ("add_sat", Intrinsic::Function(Fun::AddSat)),
            ("sub_sat", Intrinsic::Function(Fun::SubSat)),
            ("hadd", Intrinsic::Function(Fun::Hadd)),
            ("rhadd", Intrinsic::Function(Fun::Rhadd)),
            ("mul_hi", Intrinsic::Function(Fun::MulHi)),
            ("rotate", Intrinsic::Function(Fun::Rotate)),
            ("clz", Intrinsic::Function(Fun::Clz)),
            ("popcount", Intrinsic::Function(Fun::Popcount)),
            ("get_work_dim", Intrinsic::Query(Query::WorkDim)),
            ("get_global_id", Intrinsic::Query(Query::GlobalId)),
            ("get_local_id", Intrinsic::Query(Query::LocalId)),
            ("get_group_id", Intrinsic::Query(Query::GroupId)),
            ("get_global_size", Intrinsic::Query(Query::GlobalSize)),
            ("get_local_size", Intrinsic::Query(Query::LocalSize)),
            ("get_num_groups", Intrinsic::Query(Query::NumGroups)),
            ("get_global_offset", Intrinsic::Query(Query::GlobalOffset)),
            ("barrier", Intrinsic::Barrier),
            ("mem_fence", Intrinsic::Fence),
            ("read_mem_fence", Intrinsic::Fence),
            ("write_mem_fence", Intrinsic::Fence),
        ],
    )
}

/// The flag that a name is.
#[tactic(auto, unfolding(crate::specs::Names::flag_in))]
pub fn flag_of(word: &[u8]) -> Option<Flag>
    ensures { result ≡ spec.flag_in word.now }
{
    look_up(
        word,
        &[
            ("CLK_LOCAL_MEM_FENCE", Flag::Local),
            ("CLK_GLOBAL_MEM_FENCE", Flag::Global),
        ],
    )
}

/// How many dimensions a declarator has, from its own words.
pub fn dimensions_of(word: &[u8]) -> usize
    ensures { result ≡ spec.dimensions_in word.now }
{
    count_pieces(word, b"[")
}

/// Whether a declarator has an initialiser, from its own words.
pub fn is_set(word: &[u8]) -> bool
    ensures { result ≡ spec.is_set word.now }
{
    has_piece(word, b"=")
}

/// Whether a head makes a function a kernel (OpenCL 1.2, section 6.7.1).
pub fn is_kernel(word: &[u8]) -> bool
    ensures { result ≡ spec.is_kernel word.now }
{
    is_one_of(word, &["kernel", "__kernel"])
}

/// Whether an attribute requires the size of a work-group, from its own words (OpenCL 1.2, section
/// 6.7.2).
pub fn requires_size(word: &[u8]) -> bool
    ensures { result ≡ spec.requires_size word.now }
{
    has_piece(word, b"reqd_work_group_size")
}
