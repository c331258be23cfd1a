//! Makes codes and programs of groups from their parts, which it checks.

ghost use Rattle.std.specs.Prelude.{◌≡◌, ◌+◌, max, is_some, IfSome, true};
ghost use Rattle.lane_code.specs.Fits.{is_below, is_ahead, own_test, keeps_mask_0, well_test, and_test, all_pass};
ghost use Rattle.lane_code.specs.Fits.{is_well, is_code_step, is_code, count_of};
ghost use Rattle.lane_code.specs.Rows.{row_of};
ghost use Rattle.lane_code.specs.Counting.{counted_at, counted_among, counted_in, counted, are_few, make_code};
ghost use Rattle.wg_num.specs.Types.{is_value};

use crate::code::{Code, Counts};
use crate::operand::{Label, Operand};
use crate::row::row_of;
use crate::step::{Bank, Reg, Step};
use wg_num::is_value;

/// One more than the number of a register of the bank, 0 for any other operand.
fn count_at(bank: Bank, operand: Operand) -> u64
    ensures { result ≡ counted_at bank operand }
{
    match operand {
        Operand::Register(_, _, x) => {
            if x.bank == bank {
                x.number as u64 + 1
            } else {
                0
            }
        }
        Operand::Site(_)
        | Operand::Array(_)
        | Operand::Column(_)
        | Operand::Slot(_)
        | Operand::Parameter(_)
        | Operand::Ahead(_)
        | Operand::Back(_)
        | Operand::Type(_, _)
        | Operand::Value(_, _)
        | Operand::Unary(_)
        | Operand::Binary(_)
        | Operand::Function(_)
        | Operand::Query(_)
        | Operand::Read(_)
        | Operand::Written(_) => 0,
    }
}

/// One more than the highest number of a register of the bank among these, 0 where there is none.
fn count_among(bank: Bank, operands: &[Operand]) -> u64
    ensures { result ≡ counted_among bank operands.now }
{
    let mut count = 0;
    for operand in operands {
        count = count.max(count_at(bank, *operand));
    }
    count
}

/// The same of the registers that a step names.
fn count_in_step(bank: Bank, step: Step) -> u64
    ensures { result ≡ counted_among bank (row_of step).operands }
{
    let row = row_of(step);
    count_among(bank, row.list())
}

/// The same of the registers that steps name.
fn count_in(bank: Bank, steps: &[Step]) -> u64
    ensures { result ≡ counted_in bank steps.now }
{
    let mut count = 0;
    for step in steps {
        count = count.max(count_in_step(bank, *step));
    }
    count
}

/// As many registers of each bank as the steps name, with mask 0; `None` where a count passes 32
/// bits.
fn count(steps: &[Step]) -> Option<Counts>
    ensures some { is_some result ≡ are_few (counted steps.now) }
    ensures value { IfSome result (λ c. c ≡ counted steps.now) }
{
    let narrow = count_in(Bank::Narrow, steps);
    let wide = count_in(Bank::Wide, steps);
    let masks = count_in(Bank::Mask, steps).max(1);
    let scalars = count_in(Bank::Scalar, steps);
    let most = u32::MAX as u64;
    if narrow <= most && wide <= most && masks <= most && scalars <= most {
        Some(Counts {
            narrow: narrow as u32,
            wide: wide as u32,
            masks: masks as u32,
            scalars: scalars as u32,
        })
    } else {
        None
    }
}

/// How many registers of the bank there are.
fn count_of_bank(counts: Counts, bank: Bank) -> u32
    ensures { result ≡ count_of counts bank }
{
    match bank {
        Bank::Narrow => counts.narrow,
        Bank::Wide => counts.wide,
        Bank::Mask => counts.masks,
        Bank::Scalar => counts.scalars,
    }
}

/// Whether there is such a register.
pub(crate) fn has(counts: Counts, x: Reg) -> bool
    ensures { result ≡ is_below counts x }
{
    x.number < count_of_bank(counts, x.bank)
}

/// Whether a jump goes ahead, at most to the end.
pub(crate) fn goes_ahead(end: usize, place: usize, target: u32) -> bool
    ensures { result ≡ is_ahead end place target }
{
    place < target as usize && target as usize <= end
}

/// Whether the operand is not mask 0 where the step writes it; `None` where the step does not.
fn own_test(operand: Operand) -> Option<bool>
    ensures { result ≡ own_test operand }
{
    match operand {
        Operand::Register(Label::To, _, x) => Some(!(x.bank == Bank::Mask && x.number == 0)),
        Operand::Register(_, _, _)
        | Operand::Value(_, _)
        | Operand::Ahead(_)
        | Operand::Back(_)
        | Operand::Site(_)
        | Operand::Array(_)
        | Operand::Column(_)
        | Operand::Slot(_)
        | Operand::Parameter(_)
        | Operand::Type(_, _)
        | Operand::Unary(_)
        | Operand::Binary(_)
        | Operand::Function(_)
        | Operand::Query(_)
        | Operand::Read(_)
        | Operand::Written(_) => None,
    }
}

/// Whether the operand is well at this place of a code with so many steps and registers; `None`
/// where nothing is asked of it.
fn well_test(c: Counts, end: usize, place: usize, operand: Operand) -> Option<bool>
    ensures { result ≡ well_test c end place operand }
{
    match operand {
        Operand::Register(_, _, x) => Some(has(c, x)),
        Operand::Value(t, value) => Some(is_value(t, value)),
        Operand::Ahead(target) => Some(goes_ahead(end, place, target)),
        Operand::Back(target) => Some(target as usize <= place),
        Operand::Site(_)
        | Operand::Array(_)
        | Operand::Column(_)
        | Operand::Slot(_)
        | Operand::Parameter(_)
        | Operand::Type(_, _)
        | Operand::Unary(_)
        | Operand::Binary(_)
        | Operand::Function(_)
        | Operand::Query(_)
        | Operand::Read(_)
        | Operand::Written(_) => None,
    }
}

/// Whether a further test holds too, if there is one.
pub(crate) fn and_test(so_far: bool, test: Option<bool>) -> bool
    ensures { result ≡ and_test so_far test }
{
    match test {
        None => so_far,
        Some(test) => so_far && test,
    }
}

/// Whether the operands are well.
fn operands_well(c: Counts, end: usize, place: usize, operands: &[Operand]) -> bool
    ensures { result ≡ all_pass (well_test c end place) true operands.now }
{
    let mut well = true;
    for operand in operands {
        well = and_test(well, well_test(c, end, place, *operand));
    }
    well
}

/// Whether none of the operands is mask 0 where the step writes it.
fn operands_own(operands: &[Operand]) -> bool
    ensures { result ≡ all_pass own_test true operands.now }
{
    let mut own = true;
    for operand in operands {
        own = and_test(own, own_test(*operand));
    }
    own
}

/// Whether the step does not write mask 0.
fn keeps_mask_0(step: Step) -> bool
    ensures { result ≡ keeps_mask_0 step }
{
    let row = row_of(step);
    operands_own(row.list())
}

/// Whether the step is well at this place of a code with so many steps and registers.
fn is_well_at(c: Counts, end: usize, place: usize, step: Step) -> bool
    ensures { result ≡ is_well c end place step }
{
    let row = row_of(step);
    operands_well(c, end, place, row.list())
}

/// Whether the step is well there, and does not write mask 0.
fn is_code_step(c: Counts, end: usize, place: usize, step: Step) -> bool
    ensures { result ≡ is_code_step c end place step }
{
    keeps_mask_0(step) && is_well_at(c, end, place, step)
}

/// Whether the steps are well, each at its place, and do not write mask 0.
fn are_well(counts: Counts, steps: &[Step]) -> bool
    ensures { result ≡ is_code counts steps.now }
{
    for i in 0..steps.len() {
        if !is_code_step(counts, steps.len(), i, steps[i]) {
            return false;
        }
    }
    true
}

impl Code {
    /// The code of these steps, with as many registers as they name; `None` exactly where they are
    /// none, or name a register whose number is too great to be counted.
    pub fn new(steps: Vec<Step>) -> Option<Code>
        ensures some { is_some result ≡ make_code steps.items }
        ensures steps { IfSome result (λ c. c.steps.items ≡ steps.items) }
        ensures counts { IfSome result (λ c. c.counts ≡ counted steps.items) }
    {
        let counts = count(&steps)?;
        Code::with_counts(steps, counts)
    }

    /// The code of these steps with so many registers, which may be more than they name; `None`
    /// exactly where they are none.
    pub fn with_counts(steps: Vec<Step>, counts: Counts) -> Option<Code>
        ensures some { is_some result ≡ is_code counts steps.items }
        ensures steps { IfSome result (λ c. c.steps.items ≡ steps.items) }
        ensures counts { IfSome result (λ c. c.counts ≡ counts) }
    {
        if are_well(counts, &steps) {
            Some(Code { steps, counts })
        } else {
            None
        }
    }
}
