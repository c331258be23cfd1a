//! The registers of a region.

ghost use Rattle.std.specs.Prelude.{◌≡◌, ◌+◌, [], IfOk};
ghost use Rattle.mask_lower.specs.Banks as banks;

use lane_code::{Bank, Reg};
use wg_num::{IntType, Memory};

/// The number of the first free register of each bank of lanes, from 0.
#[derive(Clone, Copy)]
pub struct Free {
    pub narrow: u32,
    pub wide: u32,
}

/// A value: its type, and the register in which it is.
#[derive(Clone, Copy)]
pub struct Operand {
    pub of: IntType,
    pub at: Reg,
}

/// What the code of a region is made with: the register and type of each cell that the region names,
/// the number of each array among those of its space, and the registers for what is on its way to
/// another bank.
#[derive(Drop)]
pub struct Layout {
    pub cells: Vec<Option<Operand>>,
    pub arrays: Vec<u32>,
    pub scratch: Free,
}

/// Whether values of the type have 64 bits.
pub(crate) fn is_wide(of: IntType) -> bool
    ensures { result ≡ banks.is_wide of }
{
    match of {
        IntType::Long | IntType::Ulong => true,
        IntType::Bool
        | IntType::Char
        | IntType::Uchar
        | IntType::Short
        | IntType::Ushort
        | IntType::Int
        | IntType::Uint => false,
    }
}

/// Whether the types have different banks.
pub(crate) fn crosses(of: IntType, kind: IntType) -> bool
    ensures { result ≡ banks.crosses of kind }
{
    if is_wide(of) {
        !is_wide(kind)
    } else {
        is_wide(kind)
    }
}

/// The type in which an operator of this type takes the amount of a shift.
pub(crate) fn amount_type(of: IntType) -> IntType
    ensures { result ≡ banks.amount_type of }
{
    if is_wide(of) {
        IntType::Long
    } else {
        IntType::Uint
    }
}

/// The mask with this number.
pub(crate) fn mask_reg(number: u32) -> Reg
    ensures { result ≡ banks.mask_reg number }
{
    Reg {
        bank: Bank::Mask,
        number,
    }
}

/// The scalar register by which slots are read and written.
pub(crate) fn slot_reg() -> Reg
    ensures { result ≡ banks.slot_reg }
{
    Reg {
        bank: Bank::Scalar,
        number: 0,
    }
}

/// The first free register of the bank of a type.
pub(crate) fn register_at(next: Free, of: IntType) -> Reg
    ensures { result ≡ banks.register_at next of }
{
    if is_wide(of) {
        Reg {
            bank: Bank::Wide,
            number: next.wide,
        }
    } else {
        Reg {
            bank: Bank::Narrow,
            number: next.narrow,
        }
    }
}

/// The registers that are free behind that one.
pub(crate) fn advanced(next: Free, of: IntType) -> Result<Free, Memory>
    ensures { IfOk result (λ after. after ≡ banks.advanced next of) }
{
    if is_wide(of) {
        let wide = more(next.wide, 1)?;
        Ok(Free {
            narrow: next.narrow,
            wide,
        })
    } else {
        let narrow = more(next.narrow, 1)?;
        Ok(Free {
            narrow,
            wide: next.wide,
        })
    }
}

/// So many more, where that is a number of 32 bits.
pub(crate) fn more(n: u32, by: u32) -> Result<u32, Memory>
    ensures { IfOk result (λ m. m ≡ n + by) }
{
    n.checked_add(by).ok_or(Memory)
}
