//! Does what a group does.
ghost use Rattle.std.specs.Prelude.{◌≡◌, ◌<◌, true, sum};
ghost use Rattle.cl_model.specs.Sizes.{group_count};
ghost use Rattle.cl_model.specs.View.{buffers_of, launch_of};
ghost use Rattle.lane_code.specs.View.{plain_of};
ghost use Rattle.lane_code.specs.Fits.{code_fits, LaunchFits};
ghost use Rattle.lane_code.specs.Program.{code_of, work_of, names_of, work_fits};
ghost use Rattle.lane_code.specs.Parts.{nodes_fit};
ghost use Rattle.lane_code.specs.Run.{items_end, work_end, groups_end};
ghost use Rattle.lane_flat.specs.Trees.{flats_of, IsFlatCode, IsFlatWork, AreFlatNodes};
ghost use Rattle.lane_machine.specs.Room.{HasRoom, HasRoomFor, HasRoomForEach, IsNoLess};
ghost use Rattle.lane_machine.specs.Zeroed.{IsGroupOf};
ghost use Rattle.lane_machine.specs.Machinery.{room_at};
ghost use Rattle.lane_machine.specs.Ends.{ended, IsHeldFor};
ghost use Rattle.group_run.specs.Ends.{run_end, is_loop};
ghost use Rattle.group_run.specs.Nodes.{nodes_end, turn_end};

use crate::sizes::groups_in_launch;
use cl_model::{Buffers, Launch};
use lane_code::{Code, GroupProgram, Node, RunEnd};
use lane_flat::{FlatCode, FlatNode};
use lane_machine::{Answers, Group, Machine, has_done};

/// The machine, what a group keeps, and the turns that are left.
#[derive(Drop)]
pub(crate) struct Worker {
    pub(crate) machine: Machine,
    pub(crate) group: Group,
    pub(crate) turns: u64,
}

impl Worker {
    /// A region: a code on all chunks, between the entry and exit values of the once slots.
    #[inline(always)]
    fn items(
        &mut self,
        program: &GroupProgram,
        launch: &Launch,
        number: u64,
        code: &Code,
        flat: &FlatCode,
        buffers: &mut Buffers,
    ) -> RunEnd
        requires stands { IsHeldFor (plain_of program.now) (launch_of launch.now) number self.old.group }
        requires fits { code_fits (names_of (plain_of program.now)) code.now.counts code.now.steps.items ≡ true }
        requires room { HasRoom code.now.counts (room_at program.now.width self.old.machine) }
        requires flat { IsFlatCode (code_of code.now) flat.now }
        ensures end { items_end (plain_of program.now) (launch_of launch.now) number (code_of code.now) self.old.turns
            self.old.group.kept (buffers_of buffers.old) ≡ ended result self.new.turns self.new.group.kept
            (buffers_of buffers.new) }
        ensures stands { IsHeldFor (plain_of program.now) (launch_of launch.now) number self.new.group }
        ensures room { IsNoLess (room_at program.now.width self.old.machine)
            (room_at program.now.width self.new.machine) }
    {
        self.machine.items(
            code,
            flat,
            program,
            launch,
            buffers,
            &mut self.group,
            &mut self.turns,
        )
    }

    /// Nodes in order.
    #[cycle(node)]
    fn nodes(
        &mut self,
        program: &GroupProgram,
        launch: &Launch,
        number: u64,
        nodes: &Vec<Node>,
        flats: &Vec<FlatNode>,
        buffers: &mut Buffers,
    ) -> RunEnd
        requires stands { IsHeldFor (plain_of program.now) (launch_of launch.now) number self.old.group }
        requires fits { nodes_fit (names_of (plain_of program.now)) nodes.now.items ≡ true }
        requires room { HasRoomForEach (room_at program.now.width self.old.machine) nodes.now.items }
        requires flat { AreFlatNodes nodes.now.items flats.now.items }
        ensures end { nodes_end (plain_of program.now) (launch_of launch.now) number nodes.now.items self.old.turns
            self.old.group.kept (buffers_of buffers.old) ≡ ended result self.new.turns self.new.group.kept
            (buffers_of buffers.new) }
        ensures stands { IsHeldFor (plain_of program.now) (launch_of launch.now) number self.new.group }
        ensures room { IsNoLess (room_at program.now.width self.old.machine)
            (room_at program.now.width self.new.machine) }
    {
        for i in 0..nodes.len() {
            let end = self.part(program, launch, number, &nodes[i], &flats[i], buffers);
            if !has_done(end) {
                return end;
            }
        }
        RunEnd::Done
    }

    /// An iteration that the group begins on agreement, which takes a turn, if there is one.
    #[cycle(node)]
    fn iteration(
        &mut self,
        program: &GroupProgram,
        launch: &Launch,
        number: u64,
        body: &Node,
        flat: &FlatNode,
        buffers: &mut Buffers,
    ) -> RunEnd
        requires stands { IsHeldFor (plain_of program.now) (launch_of launch.now) number self.old.group }
        requires fits { work_fits (names_of (plain_of program.now)) (work_of body.now) ≡ true }
        requires room { HasRoomFor (room_at program.now.width self.old.machine) (work_of body.now) }
        requires flat { IsFlatWork (work_of body.now) (flats_of flat.now) }
        ensures end { turn_end (work_end (plain_of program.now) (launch_of launch.now) number (work_of body.now))
            self.old.turns self.old.group.kept (buffers_of buffers.old) ≡
            ended result self.new.turns self.new.group.kept (buffers_of buffers.new) }
        ensures stands { IsHeldFor (plain_of program.now) (launch_of launch.now) number self.new.group }
        ensures room { IsNoLess (room_at program.now.width self.old.machine)
            (room_at program.now.width self.new.machine) }
    {
        if self.turns == 0 {
            return RunEnd::Turns;
        }
        self.turns -= 1;
        self.part(program, launch, number, body, flat, buffers)
    }

    /// A loop on which the group votes before each iteration.
    #[cycle(node)]
    fn rounds(
        &mut self,
        program: &GroupProgram,
        launch: &Launch,
        number: u64,
        node: &Node,
        flat: &FlatNode,
        buffers: &mut Buffers,
    ) -> RunEnd
        requires repeats { is_loop (work_of node.now) ≡ true }
        requires stands { IsHeldFor (plain_of program.now) (launch_of launch.now) number self.old.group }
        requires fits { work_fits (names_of (plain_of program.now)) (work_of node.now) ≡ true }
        requires room { HasRoomFor (room_at program.now.width self.old.machine) (work_of node.now) }
        requires flat { IsFlatWork (work_of node.now) (flats_of flat.now) }
        ensures end { work_end (plain_of program.now) (launch_of launch.now) number (work_of node.now) self.old.turns
            self.old.group.kept (buffers_of buffers.old) ≡ ended result self.new.turns self.new.group.kept
            (buffers_of buffers.new) }
        ensures stands { IsHeldFor (plain_of program.now) (launch_of launch.now) number self.new.group }
        ensures room { IsNoLess (room_at program.now.width self.old.machine)
            (room_at program.now.width self.new.machine) }
    {
        let Node::Loop {
            test_first,
            test,
            body,
            rest,
        } = node
        else {
            unreachable!()
        };
        let FlatNode::Loop {
            test: flat_test,
            body: flat_body,
            rest: flat_rest,
        } = flat
        else {
            unreachable!()
        };
        let mut most = self.turns;
        if !*test_first {
            let end = self.iteration(program, launch, number, body, flat_body, buffers);
            if !has_done(end) {
                return end;
            }
        }
        loop {
            let end = self.part(program, launch, number, test, flat_test, buffers);
            if !has_done(end) {
                return end;
            }
            match self.group.answers() {
                Answers::No => return RunEnd::Done,
                Answers::Mixed => {
                    return self.items(program, launch, number, rest, flat_rest, buffers);
                }
                Answers::Yes => {}
            }
            if most == 0 {
                return RunEnd::Turns;
            }
            most -= 1;
            let end = self.iteration(program, launch, number, body, flat_body, buffers);
            if !has_done(end) {
                return end;
            }
        }
    }

    /// What a node says, where regions are done without a call of `node`.
    #[cycle(node)]
    #[inline(always)]
    fn part(
        &mut self,
        program: &GroupProgram,
        launch: &Launch,
        number: u64,
        node: &Node,
        flat: &FlatNode,
        buffers: &mut Buffers,
    ) -> RunEnd
        requires stands { IsHeldFor (plain_of program.now) (launch_of launch.now) number self.old.group }
        requires fits { work_fits (names_of (plain_of program.now)) (work_of node.now) ≡ true }
        requires room { HasRoomFor (room_at program.now.width self.old.machine) (work_of node.now) }
        requires flat { IsFlatWork (work_of node.now) (flats_of flat.now) }
        ensures end { work_end (plain_of program.now) (launch_of launch.now) number (work_of node.now) self.old.turns
            self.old.group.kept (buffers_of buffers.old) ≡ ended result self.new.turns self.new.group.kept
            (buffers_of buffers.new) }
        ensures stands { IsHeldFor (plain_of program.now) (launch_of launch.now) number self.new.group }
        ensures room { IsNoLess (room_at program.now.width self.old.machine)
            (room_at program.now.width self.new.machine) }
    {
        match node {
            Node::Items(code) => {
                let FlatNode::Items(flat) = flat else {
                    unreachable!()
                };
                self.items(program, launch, number, code, flat, buffers)
            }
            Node::Seq(_) | Node::Vote { .. } | Node::Loop { .. } => {
                self.node(program, launch, number, node, flat, buffers)
            }
        }
    }

    /// What a node says.
    #[cycle(node)]
    pub(crate) fn node(
        &mut self,
        program: &GroupProgram,
        launch: &Launch,
        number: u64,
        node: &Node,
        flat: &FlatNode,
        buffers: &mut Buffers,
    ) -> RunEnd
        requires stands { IsHeldFor (plain_of program.now) (launch_of launch.now) number self.old.group }
        requires fits { work_fits (names_of (plain_of program.now)) (work_of node.now) ≡ true }
        requires room { HasRoomFor (room_at program.now.width self.old.machine) (work_of node.now) }
        requires flat { IsFlatWork (work_of node.now) (flats_of flat.now) }
        ensures end { work_end (plain_of program.now) (launch_of launch.now) number (work_of node.now) self.old.turns
            self.old.group.kept (buffers_of buffers.old) ≡ ended result self.new.turns self.new.group.kept
            (buffers_of buffers.new) }
        ensures stands { IsHeldFor (plain_of program.now) (launch_of launch.now) number self.new.group }
        ensures room { IsNoLess (room_at program.now.width self.old.machine)
            (room_at program.now.width self.new.machine) }
    {
        match node {
            Node::Items(code) => {
                let FlatNode::Items(flat) = flat else {
                    unreachable!()
                };
                self.items(program, launch, number, code, flat, buffers)
            }
            Node::Seq(nodes) => {
                let FlatNode::Seq(flats) = flat else {
                    unreachable!()
                };
                self.nodes(program, launch, number, nodes, flats, buffers)
            }
            Node::Vote {
                test,
                yes,
                no,
                mixed,
            } => {
                let FlatNode::Vote {
                    test: flat_test,
                    yes: flat_yes,
                    no: flat_no,
                    mixed: flat_mixed,
                } = flat
                else {
                    unreachable!()
                };
                let end = self.items(program, launch, number, test, flat_test, buffers);
                if !has_done(end) {
                    return end;
                }
                match self.group.answers() {
                    Answers::Yes => self.node(program, launch, number, yes, flat_yes, buffers),
                    Answers::No => self.node(program, launch, number, no, flat_no, buffers),
                    Answers::Mixed => self.items(
                        program, launch, number, mixed, flat_mixed, buffers,
                    ),
                }
            }
            Node::Loop { .. } => self.rounds(program, launch, number, node, flat, buffers),
        }
    }

    /// All groups of the launch, in order.
    pub(crate) fn groups(
        &mut self,
        program: &GroupProgram,
        launch: &Launch,
        flat: &FlatNode,
        buffers: &mut Buffers,
    ) -> RunEnd
        requires fits { LaunchFits (plain_of program.now).params (sum (plain_of program.now).locals)
            (launch_of launch.now) }
        requires made { IsGroupOf (plain_of program.now) (launch_of launch.now) self.old.group.kept }
        requires room { HasRoomFor (room_at program.now.width self.old.machine) (plain_of program.now).top }
        requires flat { IsFlatWork (plain_of program.now).top (flats_of flat.now) }
        ensures end { groups_end (plain_of program.now) (launch_of launch.now) 0 (group_count (launch_of launch.now))
            self.old.turns (buffers_of buffers.old) ≡ run_end result self.new.turns (buffers_of buffers.new) }
        ensures made { IsGroupOf (plain_of program.now) (launch_of launch.now) self.new.group.kept }
        ensures room { HasRoomFor (room_at program.now.width self.new.machine) (plain_of program.now).top }
    {
        let count = groups_in_launch(launch);
        for number in 0..count {
            self.group.clear(number);
            let end = self.node(program, launch, number, &program.top, flat, buffers);
            if !has_done(end) {
                return end;
            }
        }
        RunEnd::Done
    }
}
