//! What the steps of operators and of accesses name.

use lane_code::Reg;
use wg_num::IntType;

/// Where the results of an operator go: values of the type, into the active lanes of a register.
#[derive(Clone, Copy)]
pub(crate) struct Output {
    pub of: IntType,
    pub to: Reg,
    pub mask: Reg,
}

/// An access of the active lanes: to elements of the type, whose numbers the wide register `index`
/// has, from or into the lanes of the register `value`.
#[derive(Clone, Copy)]
pub(crate) struct Access {
    pub of: IntType,
    pub index: Reg,
    pub value: Reg,
    pub mask: Reg,
}
