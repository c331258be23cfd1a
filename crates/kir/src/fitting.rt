//! The test of a kernel's parts: each number names something, types fit, and nothing stores to
//! constant memory.

ghost use Rattle.std.specs.Prelude.{◌≡◌, ◌&&◌, true, IfSome, IsSome, ◌↔◌, length, replicate, slice_get};
ghost use Rattle.cl_model.specs.Objects as objects;
ghost use Rattle.kir.specs.Listed.{lines_of, work_of};
ghost use Rattle.kir.specs.Tree.{NoLine, SetThen, LoadThen, StoreThen};
ghost use Rattle.kir.specs.Listed.{line_before};
ghost use Rattle.kir.specs.View.{kernel_of};
ghost use Rattle.kir.specs.Parts.{parts_of};
ghost use Rattle.kir.specs.Fits as fits;

use crate::kernel::{Cell, Kernel};
use crate::line::{Atom, Line, Work};
use cl_model::types::{arity_of, binary_type, kind_type, query_type, unary_type};
use cl_model::{Array, Root, Space, Table, VarKind};
use wg_num::{Bin, IntType, Place, is_shift, is_value, result_type, same_type};

/// The parts of a kernel, valid or not.
#[derive(Drop)]
pub struct KernelParts {
    pub params: Vec<VarKind>,
    pub cells: Vec<Cell>,
    pub arrays: Vec<Array>,
    pub tables: Vec<Table>,
    pub body: Vec<Line>,
    pub sites: Vec<Place>,
}

impl KernelParts {
    /// The kernel with these parts, exactly where it is valid.
    pub fn checked(self) -> Option<Kernel>
        ensures some { IfSome result (λ k. kernel_of k ≡ parts_of self) }
        ensures valid { fits.is_kernel (parts_of self) ≡ true ↔ IsSome result }
    {
        if is_kernel(&self) {
            Some(Kernel {
                params: self.params,
                cells: self.cells,
                arrays: self.arrays,
                tables: self.tables,
                body: self.body,
                sites: self.sites,
            })
        } else {
            None
        }
    }
}

fn has_some_type(found: Option<IntType>) -> bool
    ensures { result ≡ fits.has_some_type found }
{
    match found {
        None => false,
        Some(_) => true,
    }
}

fn has_type(of: IntType, found: Option<IntType>) -> bool
    ensures { result ≡ fits.has_type of found }
{
    match found {
        None => false,
        Some(t) => same_type(of, t),
    }
}

fn cell_type(parts: &KernelParts, cell: u32) -> Option<IntType>
    ensures { result ≡ fits.type_of_cell (slice_get (parts_of parts.now).cells cell) }
{
    match parts.cells.get(cell as usize) {
        None => None,
        Some(cell) => Some(cell.of),
    }
}

fn atom_type(parts: &KernelParts, atom: Atom) -> Option<IntType>
    ensures { result ≡ fits.atom_type (parts_of parts.now) atom }
{
    match atom {
        Atom::Const { value, of } => { if is_value(of, value) { Some(of) } else { None } }
        Atom::Cell(cell) => cell_type(parts, cell),
    }
}

fn parameter_type(parts: &KernelParts, number: u32) -> Option<IntType>
    ensures { result ≡ fits.type_of_parameter (slice_get (parts_of parts.now).params number) }
{
    match parts.params.get(number as usize) {
        None => None,
        Some(kind) => Some(kind_type(*kind)),
    }
}

fn right_fits(op: Bin, of: IntType, right: Option<IntType>) -> bool
    ensures { result ≡ fits.right_fits op of right }
{
    if is_shift(op) {
        has_some_type(right)
    } else {
        has_type(of, right)
    }
}

fn all_have_type(parts: &KernelParts, of: IntType, atoms: &[Atom]) -> bool
    ensures { result ≡ fits.have_types (parts_of parts.now) (replicate (length atoms.now) of) atoms.now }
{
    for atom in atoms {
        if !has_type(of, atom_type(parts, *atom)) {
            return false;
        }
    }
    true
}

fn work_fits(parts: &KernelParts, work: &Work) -> bool
    ensures { result ≡ fits.work_fits (parts_of parts.now) (work_of work.now) }
{
    match work {
        Work::Unary { of, a, .. } => has_type(*of, atom_type(parts, *a)),
        Work::Binary { op, of, a, b } => {
            has_type(*of, atom_type(parts, *a)) && right_fits(*op, *of, atom_type(parts, *b))
        }
        Work::Builtin { f, of, args } => {
            if args.len() == arity_of(*f) {
                all_have_type(parts, *of, args)
            } else {
                false
            }
        }
        Work::Convert { a, .. } => has_some_type(atom_type(parts, *a)),
        Work::Ask { dim, .. } => has_type(IntType::Uint, atom_type(parts, *dim)),
        Work::Argument(number) => has_some_type(parameter_type(parts, *number)),
        Work::Copy(a) => has_some_type(atom_type(parts, *a)),
    }
}

fn work_type(parts: &KernelParts, work: &Work) -> Option<IntType>
    ensures { result ≡ fits.work_type (parts_of parts.now) (work_of work.now) }
{
    match work {
        Work::Unary { op, of, .. } => Some(unary_type(*op, *of)),
        Work::Binary { op, of, .. } => Some(binary_type(*op, *of)),
        Work::Builtin { f, of, .. } => Some(result_type(*f, *of)),
        Work::Convert { to, .. } => Some(*to),
        Work::Ask { what, .. } => Some(query_type(*what)),
        Work::Argument(number) => parameter_type(parts, *number),
        Work::Copy(a) => atom_type(parts, *a),
    }
}

fn cell_takes(parts: &KernelParts, to: u32, of: Option<IntType>) -> bool
    ensures { result ≡ fits.cell_takes (parts_of parts.now) to of }
{
    match of {
        None => false,
        Some(of) => has_type(of, cell_type(parts, to)),
    }
}

fn is_written(space: Space) -> bool
    ensures { result ≡ fits.is_written space }
{
    match space {
        Space::Global | Space::Local | Space::Private => true,
        Space::Constant => false,
    }
}

fn is_local(space: Space) -> bool
    ensures { result ≡ objects.is_local space }
{
    match space {
        Space::Local => true,
        Space::Global | Space::Constant | Space::Private => false,
    }
}

fn is_private(space: Space) -> bool
    ensures { result ≡ objects.is_private space }
{
    match space {
        Space::Private => true,
        Space::Global | Space::Constant | Space::Local => false,
    }
}

fn points_to(parts: &KernelParts, n: u32, element: IntType) -> bool
    ensures { result ≡ fits.points_to element (slice_get (parts_of parts.now).params n) }
{
    match parts.params.get(n as usize) {
        None | Some(VarKind::Scalar(_)) => false,
        Some(VarKind::Pointer { element: of, .. }) => same_type(element, *of),
    }
}

fn points_to_written(parts: &KernelParts, n: u32, element: IntType) -> bool
    ensures { result ≡ fits.points_to_written element (slice_get (parts_of parts.now).params n) }
{
    match parts.params.get(n as usize) {
        None | Some(VarKind::Scalar(_)) => false,
        Some(
            VarKind::Pointer {
                space,
                element: of,
                ..
            },
        ) => same_type(element, *of) && is_written(*space),
    }
}

fn table_has(parts: &KernelParts, n: u32, element: IntType) -> bool
    ensures { result ≡ fits.table_has element (slice_get (parts_of parts.now).tables n) }
{
    match parts.tables.get(n as usize) {
        None => false,
        Some(table) => same_type(element, table.array.element),
    }
}

fn local_has(parts: &KernelParts, n: u32, element: IntType) -> bool
    ensures { result ≡ fits.array_has objects.is_local element (slice_get (parts_of parts.now).arrays n) }
{
    match parts.arrays.get(n as usize) {
        None => false,
        Some(array) => is_local(array.space) && same_type(element, array.element),
    }
}

fn private_has(parts: &KernelParts, n: u32, element: IntType) -> bool
    ensures { result ≡ fits.array_has objects.is_private element (slice_get (parts_of parts.now).arrays n) }
{
    match parts.arrays.get(n as usize) {
        None => false,
        Some(array) => is_private(array.space) && same_type(element, array.element),
    }
}

fn can_load(parts: &KernelParts, root: Root, element: IntType) -> bool
    ensures { result ≡ fits.can_load (parts_of parts.now) root element }
{
    match root {
        Root::Param(n) => points_to(parts, n, element),
        Root::Constant(n) => table_has(parts, n, element),
        Root::Local(n) => local_has(parts, n, element),
        Root::Private(n) => private_has(parts, n, element),
    }
}

fn can_store(parts: &KernelParts, root: Root, element: IntType) -> bool
    ensures { result ≡ fits.can_store (parts_of parts.now) root element }
{
    match root {
        Root::Param(n) => points_to_written(parts, n, element),
        Root::Constant(_) => false,
        Root::Local(n) => local_has(parts, n, element),
        Root::Private(n) => private_has(parts, n, element),
    }
}

fn is_private_array(parts: &KernelParts, array: u32) -> bool
    ensures { result ≡ fits.is_private_array (slice_get (parts_of parts.now).arrays array) }
{
    match parts.arrays.get(array as usize) {
        None => false,
        Some(array) => is_private(array.space),
    }
}

fn is_site(parts: &KernelParts, site: u32) -> bool
    ensures { result ≡ fits.is_site (parts_of parts.now) site }
{
    (site as usize) < parts.sites.len()
}

#[tactic(auto, using(crate::proofs::FirstLines::and_true))]
fn set_fits(parts: &KernelParts, to: u32, work: &Work) -> bool
    ensures { result ≡ fits.lines_fit (parts_of parts.now) (SetThen to (work_of work.now) NoLine) }
{
    work_fits(parts, work) && cell_takes(parts, to, work_type(parts, work))
}

fn load_fits(
    parts: &KernelParts,
    site: u32,
    to: u32,
    element: IntType,
    root: Root,
    index: Atom,
) -> bool
    ensures { result ≡ fits.lines_fit (parts_of parts.now) (LoadThen site to element root index NoLine) }
{
    is_site(parts, site)
        && can_load(parts, root, element)
        && has_type(IntType::Long, atom_type(parts, index))
        && cell_takes(parts, to, Some(element))
}

fn store_fits(
    parts: &KernelParts,
    site: u32,
    element: IntType,
    root: Root,
    index: Atom,
    from: Atom,
) -> bool
    ensures { result ≡ fits.lines_fit (parts_of parts.now) (StoreThen site element root index from NoLine) }
{
    is_site(parts, site)
        && can_store(parts, root, element)
        && has_type(IntType::Long, atom_type(parts, index))
        && has_type(element, atom_type(parts, from))
}

fn if_fits(parts: &KernelParts, site: u32, test: Atom, yes: bool, no: bool) -> bool
    ensures { result ≡ (fits.is_site (parts_of parts.now) site &&
        fits.has_some_type (fits.atom_type (parts_of parts.now) test) && yes && no) }
{
    is_site(parts, site) && has_some_type(atom_type(parts, test)) && yes && no
}

fn loop_fits(parts: &KernelParts, site: u32, test: bool, answer: Atom, body: bool) -> bool
    ensures { result ≡ (fits.is_site (parts_of parts.now) site && test &&
        fits.has_some_type (fits.atom_type (parts_of parts.now) answer) && body) }
{
    is_site(parts, site) && test && has_some_type(atom_type(parts, answer)) && body
}

// The line alone, whatever lines are behind it.
#[cycle(fitting)]
#[tactic(auto, using(crate::proofs::FirstLines::and_true))]
fn line_fits(parts: &KernelParts, line: &Line) -> bool
    ensures { result ≡ fits.lines_fit (parts_of parts.now) (line_before line.now NoLine) }
{
    match line {
        Line::Set { to, work } => set_fits(parts, *to, work),
        Line::Load {
            site,
            to,
            element,
            root,
            index,
        } => load_fits(parts, *site, *to, *element, *root, *index),
        Line::Store {
            site,
            element,
            root,
            index,
            from,
        } => store_fits(parts, *site, *element, *root, *index, *from),
        Line::Clear { array } => is_private_array(parts, *array),
        Line::If {
            site,
            test,
            yes,
            no,
        } => {
            let yes = lines_fit(parts, yes);
            let no = lines_fit(parts, no);
            if_fits(parts, *site, *test, yes, no)
        }
        Line::Loop {
            site,
            test,
            answer,
            body,
            ..
        } => {
            let test = lines_fit(parts, test);
            let body = lines_fit(parts, body);
            loop_fits(parts, *site, test, *answer, body)
        }
        Line::Barrier { site } => is_site(parts, *site),
    }
}

#[cycle(fitting)]
#[tactic(auto, using(crate::proofs::FirstLines::line_first))]
fn lines_fit(parts: &KernelParts, lines: &[Line]) -> bool
    ensures { result ≡ fits.lines_fit (parts_of parts.now) (lines_of lines.now) }
{
    for line in lines {
        if !line_fits(parts, line) {
            return false;
        }
    }
    true
}

fn is_parameter(n: usize, root: Root) -> bool
    ensures { result ≡ fits.is_parameter n root }
{
    match root {
        Root::Param(k) => k as usize == n,
        Root::Constant(_) | Root::Local(_) | Root::Private(_) => false,
    }
}

fn roots_are_own(params: &[VarKind]) -> bool
    ensures { result ≡ fits.roots_are_own 0 params.now }
{
    for (n, kind) in params.iter().enumerate() {
        match kind {
            VarKind::Scalar(_) => {}
            VarKind::Pointer { root, .. } => {
                if !is_parameter(n, *root) {
                    return false;
                }
            }
        }
    }
    true
}

fn are_few(count: usize) -> bool
    ensures { result ≡ fits.are_few count }
{
    count < 4_294_967_295
}

fn is_kernel(parts: &KernelParts) -> bool
    ensures { result ≡ fits.is_kernel (parts_of parts.now) }
{
    roots_are_own(&parts.params)
        && lines_fit(parts, &parts.body)
        && are_few(parts.params.len())
        && are_few(parts.cells.len())
        && are_few(parts.arrays.len())
        && are_few(parts.tables.len())
        && are_few(parts.sites.len())
}
