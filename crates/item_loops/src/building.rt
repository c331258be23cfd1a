//! From regions to the program of a work-group.

ghost use Rattle.std.specs.Prelude.{◌≡◌, [], map, true, false, IfOk};
ghost use Rattle.cl_model.specs.View.{array_of, table_of};
ghost use Rattle.kir.specs.View.{kernel_of};
ghost use Rattle.lane_code.specs.Program.{work_of};
ghost use Rattle.lane_code.specs.View.{plain_of};
ghost use Rattle.lane_code.specs.Parts.{parts_of};
ghost use Rattle.lane_laws.specs.Chain.{NoWork, work_before};
ghost use Rattle.regions.specs.Tree.{NoRegion};
ghost use Rattle.regions.specs.View.{tree_before, IsOneRegion};
ghost use Rattle.mask_lower.specs.Lowered.{region_code};
ghost use Rattle.item_loops.specs.Program.{IsBuilt, IsOneCode, HasPartsOf};
ghost use Rattle.item_loops.specs.Built.{array_sizes, built_work, built_of};
ghost use Rattle.ctx_plan.specs.View.{planned_of};

use crate::arrays::sizes_in;
use cl_model::{Table, VarKind, copy_tables};
use ctx_plan::Plan;
use kir::Kernel;
use lane_code::{GroupParts, GroupProgram, Node};
use mask_lower::lower_region;
use regions::RegionTree;
use std::alloc::Global;
use wg_num::{Memory, Place, Width, Word, boxed, copy_list, push};

/// The nodes of trees.
#[cycle(node)]
fn build_nodes(
    alloc: Global,
    trees: &Vec<RegionTree>,
    plan: &Plan,
    kernel: &Kernel,
) -> Result<Vec<Node>, Memory>
    ensures { IfOk result (λ v. map work_of v.items ≡
        map (built_work (region_code (kernel_of kernel.now) plan.now.homes.items)) trees.now.items) }
{
    let mut nodes = Vec::new(alloc);
    for tree in trees {
        let node = build_node(alloc, tree, plan, kernel)?;
        push(&mut nodes, node)?;
    }
    Ok(nodes)
}

/// The node of a tree, behind a box.
#[cycle(node)]
fn build_boxed(
    alloc: Global,
    tree: &RegionTree,
    plan: &Plan,
    kernel: &Kernel,
) -> Result<Box<Node>, Memory>
    ensures { IfOk result (λ b. work_of b.value ≡
        built_work (region_code (kernel_of kernel.now) plan.now.homes.items) tree.now) }
{
    let node = build_node(alloc, tree, plan, kernel)?;
    boxed(alloc, node)
}

/// The node of a tree, with the code of each region.
#[cycle(node)]
fn build_node(
    alloc: Global,
    tree: &RegionTree,
    plan: &Plan,
    kernel: &Kernel,
) -> Result<Node, Memory>
    ensures { IfOk result (λ n. work_of n ≡ built_work (region_code (kernel_of kernel.now) plan.now.homes.items)
        tree.now) }
{
    match tree {
        RegionTree::Items(region) => {
            let code = lower_region(alloc, region, plan, kernel)?;
            Ok(Node::Items(code))
        }
        RegionTree::Seq(trees) => {
            let nodes = build_nodes(alloc, trees, plan, kernel)?;
            Ok(Node::Seq(nodes))
        }
        RegionTree::Vote {
            test,
            yes,
            no,
            mixed,
        } => {
            let test = lower_region(alloc, test, plan, kernel)?;
            let yes = build_boxed(alloc, yes, plan, kernel)?;
            let no = build_boxed(alloc, no, plan, kernel)?;
            let mixed = lower_region(alloc, mixed, plan, kernel)?;
            Ok(Node::Vote {
                test,
                yes,
                no,
                mixed,
            })
        }
        RegionTree::Loop {
            test_first,
            test,
            body,
            rest,
        } => {
            let test = build_boxed(alloc, test, plan, kernel)?;
            let body = build_boxed(alloc, body, plan, kernel)?;
            let rest = lower_region(alloc, rest, plan, kernel)?;
            Ok(Node::Loop {
                test_first: *test_first,
                test,
                body,
                rest,
            })
        }
    }
}

/// The tables of a kernel, and the bytes of its local and of its private arrays.
#[derive(Drop)]
struct Objects {
    tables: Vec<Table>,
    locals: Vec<u64>,
    privates: Vec<u64>,
}

fn objects_of(alloc: Global, kernel: &Kernel) -> Result<Objects, Memory>
    ensures tables { IfOk result (λ o. map table_of o.tables.items ≡ map table_of kernel.now.tables.items) }
    ensures locals { IfOk result (λ o. o.locals.items ≡ array_sizes false (map array_of kernel.now.arrays.items)) }
    ensures privates { IfOk result (λ o. o.privates.items ≡
        array_sizes true (map array_of kernel.now.arrays.items)) }
{
    let tables = copy_tables(alloc, &kernel.tables)?;
    let locals = sizes_in(alloc, false, &kernel.arrays)?;
    let privates = sizes_in(alloc, true, &kernel.arrays)?;
    Ok(Objects {
        tables,
        locals,
        privates,
    })
}

/// The name of a kernel, the kinds of its parameters, and the places of its sites.
#[derive(Drop)]
struct Head {
    kernel: Word,
    params: Vec<VarKind>,
    sites: Vec<Place>,
}

fn head_of(alloc: Global, kernel: &Kernel, name: &Word) -> Result<Head, Memory>
    ensures name { IfOk result (λ h. h.kernel ≡ name.now) }
    ensures params { IfOk result (λ h. h.params.items ≡ kernel.now.params.items) }
    ensures sites { IfOk result (λ h. h.sites.items ≡ kernel.now.sites.items) }
{
    let params = copy_list(alloc, &kernel.params)?;
    let sites = copy_list(alloc, &kernel.sites)?;
    let kernel = name.copy(alloc)?;
    Ok(Head {
        kernel,
        params,
        sites,
    })
}

/// The parts of the program.
fn parts_for(
    alloc: Global,
    tree: &RegionTree,
    plan: &Plan,
    kernel: &Kernel,
    name: &Word,
    width: Width,
) -> Result<GroupParts, Memory>
    ensures plain { IfOk result (λ p. parts_of p ≡ built_of (kernel_of kernel.now) (planned_of plan.now) width
        tree.now) }
    ensures name { IfOk result (λ p. p.kernel ≡ name.now) }
    ensures width { IfOk result (λ p. p.width ≡ width) }
{
    let objects = objects_of(alloc, kernel)?;
    let head = head_of(alloc, kernel, name)?;
    let top = build_node(alloc, tree, plan, kernel)?;
    Ok(GroupParts {
        kernel: head.kernel,
        width,
        params: head.params,
        tables: objects.tables,
        locals: objects.locals,
        privates: objects.privates,
        columns: plan.columns,
        slots: plan.slots,
        sites: head.sites,
        top,
    })
}

/// The program of a work-group for the regions of a kernel whose cells are kept as the plan says: node for node the
/// tree, with the code of each region (OpenCL 1.2, section 3.2). `Memory` where memory was refused, and also where an
/// array's bytes pass 64 bits, and for parts that do not fit each other, as a region or a plan of another kernel.
pub fn build(
    alloc: Global,
    tree: &RegionTree,
    plan: &Plan,
    kernel: &Kernel,
    name: &Word,
    width: Width,
) -> Result<GroupProgram, Memory>
    ensures plain { IfOk result (λ g. plain_of g ≡ built_of (kernel_of kernel.now) (planned_of plan.now) width
        tree.now) }
    ensures name { IfOk result (λ g. g.kernel ≡ name.now) }
    ensures width { IfOk result (λ g. g.width ≡ width) }
    ensures parts { IfOk result (λ g. HasPartsOf (kernel_of kernel.now) (planned_of plan.now) width (plain_of g)) }
    ensures one { IfOk result (λ g. IsOneRegion tree.now → IsOneCode (plain_of g).top) }

    // The chain of codes is the tree's regions, each with its own code.
    ensures built { IfOk result (λ g.
        IsBuilt (λ region code. code ≡ region_code (kernel_of kernel.now) plan.now.homes.items region)
        (tree_before tree.now NoRegion) (work_before (plain_of g).top NoWork)) }
{
    let parts = parts_for(alloc, tree, plan, kernel, name, width)?;
    match parts.checked() {
        Some(program) => Ok(program),
        None => Err(Memory),
    }
}
