//! The machine, with room for the codes of one program.
ghost use Rattle.std.specs.Prelude.{◌≡◌, ◌<◌, true, sum, IfOk};
ghost use Rattle.cl_model.specs.Sizes.{group_count};
ghost use Rattle.cl_model.specs.View.{buffers_of, launch_of};
ghost use Rattle.lane_code.specs.View.{plain_of};
ghost use Rattle.lane_code.specs.Program.{code_of, names_of};
ghost use Rattle.lane_code.specs.Fits.{code_fits, LaunchFits};
ghost use Rattle.lane_code.specs.Meaning.{region_end};
ghost use Rattle.lane_code.specs.Run.{chunk_at, chunk_count, items_end};
ghost use Rattle.lane_flat.specs.Trees.{IsFlatCode};
ghost use Rattle.lane_machine.specs.Ends.{ended, IsHeldFor};
ghost use Rattle.lane_machine.specs.Zeroed.{IsGroupOf};
ghost use Rattle.lane_machine.specs.Room.{HasRoom, HasRoomFor, IsNoLess};
ghost use Rattle.lane_machine.specs.Machinery.{room_at};

use crate::chunks::items_at;
use crate::group_state::Group;
use crate::region::region_at;
use crate::registers::Registers;
use crate::room::{counts_at, most_in, no_registers};
use crate::setting::Task;
use cl_model::{Buffers, Launch};
use lane_alike::question_of;
use lane_code::{Code, GroupProgram, RegionEnd, RunEnd};
use lane_flat::FlatCode;
use lane_kernels::Tally;
use std::alloc::Global;
use std::marker::Model;
use wg_num::{Memory, Width};

/// The registers of a chunk, at the width of the program that it was made for, and a count of the calls of vector
/// operations that ask for operator and type.
#[derive(Drop)]
pub struct Machine {
    pub tally: Tally,
    one: Registers<1>,
    four: Registers<4>,
    eight: Registers<8>,
    sixteen: Registers<16>,
}

impl Model for Machine {
    ghost use Rattle.lane_machine.specs.Machinery.{Machinery};

    ghost Value = { Machinery };

    ghost view = { λ m. record {
      tally = m.tally;
      one = m.one.room;
      four = m.four.room;
      eight = m.eight.room;
      sixteen = m.sixteen.room;
    } };
}

impl Machine {
    /// A machine with room for every code of the program, whose tally stands at 0; `Memory` where
    /// there is none for it.
    pub fn new(alloc: Global, program: &GroupProgram) -> Result<Machine, Memory>
        ensures tally { IfOk result (λ m. m.tally ≡ 0) }
        ensures room { IfOk result (λ m. HasRoomFor (room_at program.now.width m) (plain_of program.now).top) }
    {
        let counts = most_in(&program.top, no_registers());
        let width = program.width;
        let one = Registers::with_room(alloc, counts_at(width, Width::W1, counts))?;
        let four = Registers::with_room(alloc, counts_at(width, Width::W4, counts))?;
        let eight = Registers::with_room(alloc, counts_at(width, Width::W8, counts))?;
        let sixteen = Registers::with_room(alloc, counts_at(width, Width::W16, counts))?;
        Ok(Machine {
            tally: Tally::new(),
            one,
            four,
            eight,
            sixteen,
        })
    }

    /// Does a code of the program on one chunk of a group by its flat code, exactly as the code means, and takes no
    /// memory.
    pub fn region(
        &mut self,
        code: &Code,
        flat: &FlatCode,
        program: &GroupProgram,
        launch: &Launch,
        buffers: &mut Buffers,
        group: &mut Group,
        chunk: u32,
        turns: &mut u64,
    ) -> RegionEnd
        requires code { code_fits (names_of (plain_of program.now)) code.now.counts code.now.steps.items ≡ true }
        requires flat { IsFlatCode (code_of code.now) flat.now }
        requires launch { LaunchFits (plain_of program.now).params (sum (plain_of program.now).locals)
            (launch_of launch.now) }
        requires chunk { chunk < chunk_count (plain_of program.now) (launch_of launch.now) }
        requires number { group.old.number < group_count (launch_of launch.now) }
        requires made { IsGroupOf (plain_of program.now) (launch_of launch.now) group.old.kept }
        requires room { HasRoom code.now.counts (room_at program.now.width self.old) }
        ensures end { (region_end (chunk_at (plain_of program.now) (launch_of launch.now) group.old.number chunk)
            code.now.steps.items code.now.counts turns.old group.old.kept (buffers_of buffers.old)).end ≡ result }
        ensures turns { (region_end (chunk_at (plain_of program.now) (launch_of launch.now) group.old.number chunk)
            code.now.steps.items code.now.counts turns.old group.old.kept (buffers_of buffers.old)).turns ≡
            turns.new }
        ensures group { (region_end (chunk_at (plain_of program.now) (launch_of launch.now) group.old.number chunk)
            code.now.steps.items code.now.counts turns.old group.old.kept (buffers_of buffers.old)).state.group ≡
            group.new.kept }
        ensures buffers { (region_end (chunk_at (plain_of program.now) (launch_of launch.now) group.old.number chunk)
            code.now.steps.items code.now.counts turns.old group.old.kept (buffers_of buffers.old)).state.buffers
            ≡ buffers_of buffers.new }
        ensures made { IsGroupOf (plain_of program.now) (launch_of launch.now) group.new.kept }
        ensures number { group.new.number ≡ group.old.number }
        ensures room { IsNoLess (room_at program.now.width self.old) (room_at program.now.width self.new) }
    {
        let task = Task {
            code,
            flat,
            program,
            launch,
            chunk,
        };
        let tally = &mut self.tally;
        match program.width {
            Width::W1 => region_at(&mut self.one, task, buffers, group, turns, tally),
            Width::W4 => region_at(&mut self.four, task, buffers, group, turns, tally),
            Width::W8 => region_at(&mut self.eight, task, buffers, group, turns, tally),
            Width::W16 => region_at(&mut self.sixteen, task, buffers, group, turns, tally),
        }
    }

    /// Does a region of the program: a code on all chunks of a group, by its flat code and exactly as the code means. It
    /// takes no memory. Where the code is known to ask all items one question, that is answered once.
    #[inline(always)]
    pub fn items(
        &mut self,
        code: &Code,
        flat: &FlatCode,
        program: &GroupProgram,
        launch: &Launch,
        buffers: &mut Buffers,
        group: &mut Group,
        turns: &mut u64,
    ) -> RunEnd
        requires stands { IsHeldFor (plain_of program.now) (launch_of launch.now) group.old.number group.old }
        requires fits { code_fits (names_of (plain_of program.now)) code.now.counts code.now.steps.items ≡ true }
        requires flat { IsFlatCode (code_of code.now) flat.now }
        requires room { HasRoom code.now.counts (room_at program.now.width self.old) }
        ensures end { items_end (plain_of program.now) (launch_of launch.now) group.old.number (code_of code.now)
            turns.old group.old.kept (buffers_of buffers.old) ≡ ended result turns.new group.new.kept
            (buffers_of buffers.new) }
        ensures stands { IsHeldFor (plain_of program.now) (launch_of launch.now) group.old.number group.new }
        ensures room { IsNoLess (room_at program.now.width self.old) (room_at program.now.width self.new) }
    {
        if let Some(question) = question_of(code) {
            group.answer(question);
            return RunEnd::Done;
        }
        let task = Task {
            code,
            flat,
            program,
            launch,
            chunk: 0,
        };
        let tally = &mut self.tally;
        match program.width {
            Width::W1 => items_at(&mut self.one, task, buffers, group, turns, tally),
            Width::W4 => items_at(&mut self.four, task, buffers, group, turns, tally),
            Width::W8 => items_at(&mut self.eight, task, buffers, group, turns, tally),
            Width::W16 => items_at(&mut self.sixteen, task, buffers, group, turns, tally),
        }
    }
}
