//! The program of a work-group.

ghost use Rattle.std.specs.Prelude.{◌≡◌, true};
ghost use Rattle.lane_code.specs.Program.{is_group_program, plain_with};

use crate::code::Node;
use cl_model::{Table, VarKind};
use wg_num::{Place, Width, Word};

/// The program of a work-group: the kernel's name, the width of a chunk, the kinds of the kernel's
/// parameters, its constant tables, the bytes of each local array of a group and of each private
/// array of an item, how many columns and once slots it has, the place of each site, and what it
/// does.
#[derive(Drop)]
pub struct GroupProgram {
    pub kernel: Word,
    pub width: Width,
    pub params: Vec<VarKind>,
    pub tables: Vec<Table>,
    pub locals: Vec<u64>,
    pub privates: Vec<u64>,
    pub columns: u32,
    pub slots: u32,
    pub sites: Vec<Place>,
    pub top: Node,
    ghost valid: { is_group_program (plain_with width params.items tables.items locals.items privates.items columns
        slots sites.items top) ≡ true },
}
