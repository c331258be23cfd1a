//! A program of one code with all that it runs on.
ghost use Rattle.std.specs.Prelude.{[], ◌≡◌, ◌<◌, ◌+◌, ◌-◌, ◌/◌, IfOk, true};
ghost use Rattle.cl_model.specs.View.{launch_of};
ghost use Rattle.lane_code.specs.Fits.{is_code, code_fits};
ghost use Rattle.wg_num.specs.Operators.{lanes_of};
ghost use Rattle.examples_machine.specs.Examples.{launch, params, names, counts, IsReady};

use cl_model::{Bound, Buffers, Launch, Root, Space, VarKind};
use lane_code::{Code, Counts, GroupProgram, Node, RegionEnd, RunEnd, Step};
use lane_flat::{FlatNode, flat_tree};
use lane_machine::{Group, Machine};
use std::alloc::Global;
use wg_num::{IntType, Memory, Place, Width, Word};

/// A program of one code, on a group of 20 items with a buffer of 20 ints. The program has a
/// private array of 4 bytes, a column, a once slot and two sites; its code has four registers of
/// either number bank, two masks and two scalars.
#[derive(Drop)]
pub struct Example {
    pub program: GroupProgram,
    pub flat: FlatNode,
    pub launch: Launch,
    pub machine: Machine,
    pub group: Group,
}

/// The launch of the examples.
fn launched(alloc: Global) -> Result<Launch, Memory>
    ensures { IfOk result (λ l. launch_of l ≡ launch) }
{
    let Ok(args) = vec![in alloc; Bound::Buffer(0)] else {
        return Err(Memory);
    };
    let Ok(lengths) = vec![in alloc; 80u64] else {
        return Err(Memory);
    };
    let mut loads = Vec::new(alloc);
    if loads.push(None).is_err() {
        return Err(Memory);
    }
    let mut saves = Vec::new(alloc);
    if saves.push(None).is_err() {
        return Err(Memory);
    }
    Ok(Launch {
        dims: 1,
        global: [20, 1, 1],
        local: [20, 1, 1],
        offset: [0, 0, 0],
        turns: 1000,
        args,
        lengths,
        loads,
        saves,
    })
}

/// A program of one code.
fn program_of(alloc: Global, width: Width, steps: Vec<Step>) -> Result<GroupProgram, Memory>
    requires well { is_code counts steps.items ≡ true }
    requires fits { code_fits names counts steps.items ≡ true }
    ensures parameters { IfOk result (λ p. p.params.items ≡ params) }
    ensures arrays { IfOk result (λ p. p.locals.items ≡ []) }
    ensures width { IfOk result (λ p. p.width ≡ width) }
{
    let kernel = Word::new(alloc, b"k")?;
    let Ok(params) = vec![in alloc;
        VarKind::Pointer {
            space: Space::Global,
            element: IntType::Int,
            root: Root::Param(0)
        },
    ] else {
        return Err(Memory);
    };
    let Ok(privates) = vec![in alloc; 4u64] else {
        return Err(Memory);
    };
    let Ok(sites) = vec![in alloc; Place { line: 1, column: 1 }, Place { line: 1, column: 2 }]
    else {
        return Err(Memory);
    };
    let counts = Counts {
        narrow: 4,
        wide: 4,
        masks: 2,
        scalars: 2,
    };
    Ok(GroupProgram {
        kernel,
        width,
        params,
        tables: Vec::new(alloc),
        locals: Vec::new(alloc),
        privates,
        columns: 1,
        slots: 1,
        sites,
        top: Node::Items(Code { steps, counts }),
    })
}

/// How many chunks of a width 20 items are.
fn chunks_of(width: Width) -> u32
    ensures { result ≡ (20 + (lanes_of width - 1)) / lanes_of width }
{
    match width {
        Width::W1 => 20,
        Width::W4 => 5,
        Width::W8 => 3,
        Width::W16 => 2,
    }
}

/// The code of a program on one chunk.
fn run_chunk(
    machine: &mut Machine,
    program: &GroupProgram,
    flat: &FlatNode,
    launch: &Launch,
    buffers: &mut Buffers,
    group: &mut Group,
    chunk: u32,
    turns: &mut u64,
) -> RegionEnd
    requires ready { IsReady program.now flat.now launch.now machine.old group.old }
    requires chunk { chunk < (20 + (lanes_of program.now.width - 1)) / lanes_of program.now.width }
    ensures ready { IsReady program.now flat.now launch.now machine.new group.new }
{
    match &program.top {
        Node::Items(code) => {
            let FlatNode::Items(flat) = flat else {
                unreachable!()
            };
            machine.region(code, flat, program, launch, buffers, group, chunk, turns)
        }
        Node::Seq(_) | Node::Vote { .. } | Node::Loop { .. } => RegionEnd::Done,
    }
}

/// The code of a program on all chunks of its group.
fn run_items(
    machine: &mut Machine,
    program: &GroupProgram,
    flat: &FlatNode,
    launch: &Launch,
    buffers: &mut Buffers,
    group: &mut Group,
    turns: &mut u64,
) -> RunEnd
    requires ready { IsReady program.now flat.now launch.now machine.old group.old }
    ensures ready { IsReady program.now flat.now launch.now machine.new group.new }
{
    match &program.top {
        Node::Items(code) => {
            let FlatNode::Items(flat) = flat else {
                unreachable!()
            };
            machine.items(code, flat, program, launch, buffers, group, turns)
        }
        Node::Seq(_) | Node::Vote { .. } | Node::Loop { .. } => RunEnd::Done,
    }
}

impl Example {
    /// The code at a width, with a group and a machine for it.
    pub fn new(alloc: Global, width: Width, steps: Vec<Step>) -> Result<Example, Memory>
        requires well { is_code counts steps.items ≡ true }
        requires fits { code_fits names counts steps.items ≡ true }
        ensures ready { IfOk result (λ e. IsReady e.program e.flat e.launch e.machine e.group) }
        ensures width { IfOk result (λ e. e.program.width ≡ width) }
    {
        let program = program_of(alloc, width, steps)?;
        let flat = flat_tree(alloc, &program.top)?;
        let launch = launched(alloc)?;
        let machine = Machine::new(alloc, &program)?;
        let group = Group::new(alloc, &program, &launch)?;
        Ok(Example {
            program,
            flat,
            launch,
            machine,
            group,
        })
    }

    /// The code on one chunk.
    pub fn chunk(&mut self, buffers: &mut Buffers, chunk: u32, turns: &mut u64) -> RegionEnd
        requires ready { IsReady self.old.program self.old.flat self.old.launch self.old.machine self.old.group }
        requires chunk { chunk < (20 + (lanes_of self.old.program.width - 1)) / lanes_of self.old.program.width }
        ensures ready { IsReady self.new.program self.new.flat self.new.launch self.new.machine self.new.group }
        ensures width { self.new.program.width ≡ self.old.program.width }
    {
        run_chunk(
            &mut self.machine,
            &self.program,
            &self.flat,
            &self.launch,
            buffers,
            &mut self.group,
            chunk,
            turns,
        )
    }

    /// The code on the first chunk.
    pub fn first_chunk(&mut self, buffers: &mut Buffers, turns: &mut u64) -> RegionEnd
        requires ready { IsReady self.old.program self.old.flat self.old.launch self.old.machine self.old.group }
        ensures ready { IsReady self.new.program self.new.flat self.new.launch self.new.machine self.new.group }
    {
        run_chunk(
            &mut self.machine,
            &self.program,
            &self.flat,
            &self.launch,
            buffers,
            &mut self.group,
            0,
            turns,
        )
    }

    /// The code on all chunks, by the call that a launch makes.
    pub fn items(&mut self, buffers: &mut Buffers, turns: &mut u64) -> RunEnd
        requires ready { IsReady self.old.program self.old.flat self.old.launch self.old.machine self.old.group }
        ensures ready { IsReady self.new.program self.new.flat self.new.launch self.new.machine self.new.group }
    {
        run_items(
            &mut self.machine,
            &self.program,
            &self.flat,
            &self.launch,
            buffers,
            &mut self.group,
            turns,
        )
    }

    /// The code on each chunk, up to the first end that is not `Done`.
    pub fn chunks(&mut self, buffers: &mut Buffers, turns: &mut u64) -> RegionEnd
        requires ready { IsReady self.old.program self.old.flat self.old.launch self.old.machine self.old.group }
        ensures ready { IsReady self.new.program self.new.flat self.new.launch self.new.machine self.new.group }
        ensures width { self.new.program.width ≡ self.old.program.width }
    {
        for chunk in 0..chunks_of(self.program.width) {
            let end = self.chunk(buffers, chunk, turns);
            if end != RegionEnd::Done {
                return end;
            }
        }
        RegionEnd::Done
    }

    /// The code on each chunk as a region, with the once slots of its start and its end.
    pub fn region(&mut self, buffers: &mut Buffers, turns: &mut u64) -> RegionEnd
        requires ready { IsReady self.old.program self.old.flat self.old.launch self.old.machine self.old.group }
        ensures ready { IsReady self.new.program self.new.flat self.new.launch self.new.machine self.new.group }
        ensures width { self.new.program.width ≡ self.old.program.width }
    {
        self.group.begin();
        let end = self.chunks(buffers, turns);
        self.group.finish();
        end
    }

    /// The group as at its start.
    pub fn clear(&mut self)
        requires ready { IsReady self.old.program self.old.flat self.old.launch self.old.machine self.old.group }
        ensures ready { IsReady self.new.program self.new.flat self.new.launch self.new.machine self.new.group }
        ensures width { self.new.program.width ≡ self.old.program.width }
    {
        self.group.clear(0);
    }
}
