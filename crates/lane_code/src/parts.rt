//! Programs of groups, made from their parts where these fit each other.

ghost use Rattle.std.specs.Prelude.{◌≡◌, ◌&&◌, ◌||◌, length, is_some, IfSome, slice_get, true};
ghost use Rattle.lane_code.specs.Fits.{is_reg, bank_of, holds_lanes, holds_values, holds_numbers, is_mask, is_own_mask};
ghost use Rattle.lane_code.specs.Fits.{names_object, names_written, holds_argument};
ghost use Rattle.lane_code.specs.Fits.{is_of_group, holds_answer, holds_converted, role_test, fit_test, all_pass};
ghost use Rattle.lane_code.specs.Fits.{step_fits, all_steps, code_fits};
ghost use Rattle.lane_code.specs.Program.{work_of, names_of, work_fits, roots_are_own, is_parameter};
ghost use Rattle.lane_code.specs.Program.{is_group_program};
ghost use Rattle.lane_code.specs.View.{plain_of};
ghost use Rattle.lane_code.specs.Parts.{parts_of, nodes_fit, root_is_own};

use crate::checking::{and_test, goes_ahead, has};
use crate::code::{Code, Counts, Node};
use crate::operand::{Operand, Role};
use crate::program::GroupProgram;
use crate::row::row_of;
use crate::step::{Bank, Reg, Step};
use cl_model::{Query, Root, Table, VarKind, is_pointer, query_type};
use wg_num::{IntType, Place, Width, Word, is_value};

/// The parts of a group program, which need not fit each other.
#[derive(Drop)]
pub struct GroupParts {
    pub kernel: Word,
    pub width: Width,
    pub params: Vec<VarKind>,
    pub tables: Vec<Table>,
    pub locals: Vec<u64>,
    pub privates: Vec<u64>,
    pub columns: u32,
    pub slots: u32,
    pub sites: Vec<Place>,
    pub top: Node,
}

// ---- registers

/// Whether there is such a register, of that bank.
fn is_in(c: Counts, bank: Bank, x: Reg) -> bool
    ensures { result ≡ is_reg c bank x }
{
    x.bank == bank && has(c, x)
}

/// The bank of the lanes of a type.
fn bank_for(t: IntType) -> Bank
    ensures { result ≡ bank_of t }
{
    match t {
        IntType::Bool
        | IntType::Char
        | IntType::Uchar
        | IntType::Short
        | IntType::Ushort
        | IntType::Int
        | IntType::Uint => Bank::Narrow,
        IntType::Long | IntType::Ulong => Bank::Wide,
    }
}

/// Whether the register holds lanes of the type.
fn has_lanes(c: Counts, t: IntType, x: Reg) -> bool
    ensures { result ≡ holds_lanes c t x }
{
    is_in(c, bank_for(t), x)
}

/// Lanes of the type, or one scalar.
fn has_values(c: Counts, t: IntType, x: Reg) -> bool
    ensures { result ≡ holds_values c t x }
{
    has_lanes(c, t, x) || is_in(c, Bank::Scalar, x)
}

/// Lanes of either width.
fn has_numbers(c: Counts, x: Reg) -> bool
    ensures { result ≡ holds_numbers c x }
{
    is_in(c, Bank::Narrow, x) || is_in(c, Bank::Wide, x)
}

/// Whether it is a mask.
fn has_mask(c: Counts, x: Reg) -> bool
    ensures { result ≡ is_mask c x }
{
    is_in(c, Bank::Mask, x)
}

/// Whether it is a mask that a step may write.
fn has_own_mask(c: Counts, x: Reg) -> bool
    ensures { result ≡ is_own_mask c x }
{
    has_mask(c, x) && 0 < x.number
}

// ---- what a step names

/// Whether the root names an object.
fn has_object(parts: &GroupParts, root: Root) -> bool
    ensures { result ≡ names_object (names_of (parts_of parts.now)) root }
{
    match root {
        Root::Param(n) => is_pointer(&parts.params, n),
        Root::Constant(n) => (n as usize) < parts.tables.len(),
        Root::Local(n) => (n as usize) < parts.locals.len(),
        Root::Private(n) => (n as usize) < parts.privates.len(),
    }
}

/// Whether it names an object that may be written.
fn has_written(parts: &GroupParts, root: Root) -> bool
    ensures { result ≡ names_written (names_of (parts_of parts.now)) root }
{
    match root {
        Root::Param(n) => is_pointer(&parts.params, n),
        Root::Constant(_) => false,
        Root::Local(n) => (n as usize) < parts.locals.len(),
        Root::Private(n) => (n as usize) < parts.privates.len(),
    }
}

/// Whether the register may hold that parameter's value.
fn has_argument(c: Counts, params: &[VarKind], n: u32, to: Reg) -> bool
    ensures { result ≡ holds_argument c (slice_get params.now n) to }
{
    match params.get(n as usize) {
        Some(VarKind::Scalar(t)) => has_values(c, *t, to),
        Some(VarKind::Pointer { .. }) => has_values(c, IntType::Long, to),
        None => false,
    }
}

/// Whether the function gives all items of a group one value.
fn is_one_for_all(what: Query) -> bool
    ensures { result ≡ is_of_group what }
{
    match what {
        Query::GlobalId | Query::LocalId => false,
        Query::WorkDim
        | Query::GroupId
        | Query::GlobalSize
        | Query::LocalSize
        | Query::NumGroups
        | Query::GlobalOffset => true,
    }
}

/// Whether two registers are scalars.
fn are_scalars(c: Counts, to: Reg, from: Reg) -> bool
    ensures { result ≡ is_reg c Bank.Scalar to && is_reg c Bank.Scalar from }
{
    is_in(c, Bank::Scalar, to) && is_in(c, Bank::Scalar, from)
}

/// Whether a work-item function may be asked so.
fn has_answer(c: Counts, what: Query, to: Reg, dim: Reg) -> bool
    ensures { result ≡ holds_answer c what to dim }
{
    let lanes = has_lanes(c, query_type(what), to) && is_in(c, Bank::Narrow, dim);
    lanes || are_scalars(c, to, dim) && is_one_for_all(what)
}

/// Whether a value may be converted so.
fn has_converted(c: Counts, kind: IntType, was: IntType, to: Reg, from: Reg) -> bool
    ensures { result ≡ holds_converted c kind was to from }
{
    let lanes = has_lanes(c, kind, to) && has_lanes(c, was, from);
    lanes || are_scalars(c, to, from)
}

// ---- steps, codes and nodes

/// Whether the register is what the step asks for; `None` where nothing is asked of it.
fn role_test(parts: &GroupParts, c: Counts, role: Role, x: Reg) -> Option<bool>
    ensures { result ≡ role_test (names_of (parts_of parts.now)) c role x }
{
    match role {
        Role::Any => None,
        Role::In(bank) => Some(is_in(c, bank, x)),
        Role::OwnMask => Some(has_own_mask(c, x)),
        Role::Lanes(t) => Some(has_lanes(c, t, x)),
        Role::Values(t) => Some(has_values(c, t, x)),
        Role::Numbers => Some(has_numbers(c, x)),
        Role::NumbersOrScalar => Some(has_numbers(c, x) || is_in(c, Bank::Scalar, x)),
        Role::Argument(number) => Some(has_argument(c, &parts.params, number, x)),
        Role::Dimension(what, to) => Some(has_answer(c, what, to, x)),
        Role::Converted { kind, was, to } => Some(has_converted(c, kind, was, to, x)),
    }
}

/// Whether the operand fits at this place of a code with so many steps and registers; `None` where
/// nothing is asked of it.
fn fit_test(
    parts: &GroupParts,
    c: Counts,
    end: usize,
    place: usize,
    operand: Operand,
) -> Option<bool>
    ensures { result ≡ fit_test (names_of (parts_of parts.now)) c end place operand }
{
    match operand {
        Operand::Register(_, role, x) => role_test(parts, c, role, x),
        Operand::Site(n) => Some((n as usize) < parts.sites.len()),
        Operand::Array(n) => Some((n as usize) < parts.privates.len()),
        Operand::Column(n) => Some(n < parts.columns),
        Operand::Slot(n) => Some(n < parts.slots),
        Operand::Ahead(target) => Some(goes_ahead(end, place, target)),
        Operand::Back(target) => Some(target as usize <= place),
        Operand::Value(t, value) => Some(is_value(t, value)),
        Operand::Read(root) => Some(has_object(parts, root)),
        Operand::Written(root) => Some(has_written(parts, root)),
        Operand::Parameter(_)
        | Operand::Type(_, _)
        | Operand::Unary(_)
        | Operand::Binary(_)
        | Operand::Function(_)
        | Operand::Query(_) => None,
    }
}

/// Whether the operands fit.
fn operands_fit(
    parts: &GroupParts,
    c: Counts,
    end: usize,
    place: usize,
    operands: &[Operand],
) -> bool
    ensures { result ≡ all_pass (fit_test (names_of (parts_of parts.now)) c end place) true operands.now }
{
    let mut fit = true;
    for operand in operands {
        fit = and_test(fit, fit_test(parts, c, end, place, *operand));
    }
    fit
}

/// Whether the step fits at this place of a code with so many steps and registers.
fn fits_at(parts: &GroupParts, c: Counts, end: usize, place: usize, step: Step) -> bool
    ensures { result ≡ step_fits (names_of (parts_of parts.now)) c end place step }
{
    let row = row_of(step);
    operands_fit(parts, c, end, place, row.list())
}

/// Whether each step fits at its place.
fn steps_fit(parts: &GroupParts, counts: Counts, steps: &[Step]) -> bool
    ensures { result ≡ all_steps (step_fits (names_of (parts_of parts.now)) counts (length steps.now)) 0 steps.now }
{
    for i in 0..steps.len() {
        if !fits_at(parts, counts, steps.len(), i, steps[i]) {
            return false;
        }
    }
    true
}

/// Whether every step of a code fits, and mask 0 is there.
fn code_fits_in(parts: &GroupParts, code: &Code) -> bool
    ensures { result ≡ code_fits (names_of (parts_of parts.now)) code.now.counts code.now.steps.items }
{
    0 < code.counts.masks && steps_fit(parts, code.counts, &code.steps)
}

/// Whether each code of each of the nodes fits.
#[cycle(node)]
fn nodes_fit_in(parts: &GroupParts, nodes: &Vec<Node>) -> bool
    ensures { result ≡ nodes_fit (names_of (parts_of parts.now)) nodes.now.items }
{
    for one in nodes {
        if !node_fits_in(parts, one) {
            return false;
        }
    }
    true
}

/// Whether each code of the node fits.
#[cycle(node)]
fn node_fits_in(parts: &GroupParts, node: &Node) -> bool
    ensures { result ≡ work_fits (names_of (parts_of parts.now)) (work_of node.now) }
{
    match node {
        Node::Items(code) => code_fits_in(parts, code),
        Node::Seq(nodes) => nodes_fit_in(parts, nodes),
        Node::Vote {
            test,
            yes,
            no,
            mixed,
        } => {
            code_fits_in(parts, test)
                && node_fits_in(parts, yes)
                && node_fits_in(parts, no)
                && code_fits_in(parts, mixed)
        }
        Node::Loop {
            test,
            body,
            rest,
            ..
        } => node_fits_in(parts, test) && node_fits_in(parts, body) && code_fits_in(parts, rest),
    }
}

/// Whether the root is the parameter of that number.
fn is_root_of(n: usize, root: Root) -> bool
    ensures { result ≡ is_parameter n root }
{
    match root {
        Root::Param(k) => k as usize == n,
        Root::Constant(_) | Root::Local(_) | Root::Private(_) => false,
    }
}

/// Whether a pointer parameter of that number is its own root.
fn is_own_root(n: usize, kind: VarKind) -> bool
    ensures { result ≡ root_is_own n kind }
{
    match kind {
        VarKind::Scalar(_) => true,
        VarKind::Pointer { root, .. } => is_root_of(n, root),
    }
}

/// Whether each pointer parameter is its own root.
fn own_roots(params: &[VarKind]) -> bool
    ensures { result ≡ roots_are_own 0 params.now }
{
    for n in 0..params.len() {
        if !is_own_root(n, params[n]) {
            return false;
        }
    }
    true
}

impl GroupParts {
    /// Whether the parts fit each other.
    fn fit(&self) -> bool
        ensures { result ≡ is_group_program (parts_of self.now) }
    {
        node_fits_in(self, &self.top) && own_roots(&self.params)
    }

    /// The group program with these parts; `None` exactly where they do not fit each other.
    pub fn checked(self) -> Option<GroupProgram>
        ensures some { is_some result ≡ is_group_program (parts_of self) }
        ensures kernel { IfSome result (λ g. g.kernel ≡ self.kernel) }
        ensures width { IfSome result (λ g. g.width ≡ self.width) }
        ensures same { IfSome result (λ g. plain_of g ≡ parts_of self) }
        ensures tables { IfSome result (λ g. g.tables ≡ self.tables) }
    {
        if !self.fit() {
            return None;
        }
        let GroupParts {
            kernel,
            width,
            params,
            tables,
            locals,
            privates,
            columns,
            slots,
            sites,
            top,
        } = self;
        Some(GroupProgram {
            kernel,
            width,
            params,
            tables,
            locals,
            privates,
            columns,
            slots,
            sites,
            top,
        })
    }
}
