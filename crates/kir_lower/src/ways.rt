//! Ways out: the cell of a construct that says what is pending, and the guards on it. It holds 0
//! for nothing, 1 for `continue`, 2 for `break` and 3 for `return`.

ghost use Rattle.std.specs.Prelude.{◌≡◌, IfOk, OnOk};
ghost use Rattle.kir.specs.Listed.{lines_of};
ghost use Rattle.kir.specs.Tree.{NoLine, LoopThen, joined_to};
ghost use Rattle.kir_lower.specs.Actions as spec;
ghost use Rattle.kir_lower.specs.Actions.{closed};
ghost use Rattle.kir_lower.specs.View.{made_of};

use crate::actions::{Part, put_binary};
use crate::emit::{put, put_all, put_computed, put_copy, put_guarded, put_if};
use crate::places::{Made, Value, add_flag, add_value, constant, int};
use kir::{Atom, Line, Work};
use std::alloc::Global;
use wg_num::{Bin, IntType, Memory, Un};

/// What the cell of a construct holds where a `continue` of it is pending (C99, section 6.8.6.2).
pub const CONTINUES: i128 = 1;

/// What it holds where a `break` is pending (C99, section 6.8.6.3).
pub const BREAKS: i128 = 2;

/// What it holds where a `return` is pending (C99, section 6.8.6.4).
pub const RETURNS: i128 = 3;

/// A loop: its site, whether its test comes first, its first way out, and the cell of what is
/// pending in it.
#[derive(Clone, Copy)]
pub struct Round {
    pub site: u32,
    pub test_first: bool,
    pub way: Option<u32>,
    pub exit: u32,
}

/// The cell of a construct that has a way out, in which nothing is pending; else that around it.
#[tactic(auto, using(crate::proofs::Lists::join_assoc, crate::proofs::Lists::join_none))]
#[inline(never)]
pub fn put_opened(
    made: &mut Made,
    lines: &mut Vec<Line>,
    way: Option<u32>,
    exit: u32,
) -> Result<u32, Memory>
    ensures lines { OnOk result (lines_of lines.new.items ≡ joined_to (lines_of lines.old.items)
        (spec.opened way exit (made_of made.old)).lines) }
    ensures exit { IfOk result (λ c. c ≡ (spec.opened way exit (made_of made.old)).exit) }
    ensures made { OnOk result (made_of made.new ≡ (spec.opened way exit (made_of made.old)).made) }
{
    match way {
        None => Ok(exit),
        Some(_) => {
            let cell = add_flag(made)?;
            put_copy(lines, cell, int(0))?;
            Ok(cell)
        }
    }
}

/// A pending `continue` ends.
#[tactic(auto, using(crate::proofs::Lists::join_assoc, crate::proofs::Lists::join_none))]
pub fn put_settled(
    alloc: Global,
    made: &mut Made,
    lines: &mut Vec<Line>,
    site: u32,
    exit: u32,
) -> Result<(), Memory>
    ensures lines { OnOk result (lines_of lines.new.items ≡ joined_to (lines_of lines.old.items)
        (spec.settled site exit (made_of made.old)).lines) }
    ensures made { OnOk result (made_of made.new ≡ (spec.settled site exit (made_of made.old)).made) }
{
    let test = put_binary(
        made,
        lines,
        Bin::Eq,
        IntType::Int,
        Atom::Cell(exit),
        int(CONTINUES),
    )?;
    let mut yes = Vec::new(alloc);
    put_copy(&mut yes, exit, int(0))?;
    put_if(lines, site, test.atom, yes, Vec::new(alloc))
}

/// What is pending behind a construct is pending in that around it, but for a `break`, which ends.
#[tactic(auto, using(crate::proofs::Lists::join_assoc, crate::proofs::Lists::join_none))]
#[inline(never)]
pub fn put_outward(
    alloc: Global,
    made: &mut Made,
    lines: &mut Vec<Line>,
    way: Option<u32>,
    exit: u32,
    outer: u32,
) -> Result<(), Memory>
    ensures lines { OnOk result (lines_of lines.new.items ≡ joined_to (lines_of lines.old.items)
        (spec.outward way exit outer (made_of made.old)).lines) }
    ensures made { OnOk result (made_of made.new ≡ (spec.outward way exit outer (made_of made.old)).made) }
{
    match way {
        None => Ok(()),
        Some(site) => {
            let test = put_binary(
                made,
                lines,
                Bin::Eq,
                IntType::Int,
                Atom::Cell(exit),
                int(BREAKS),
            )?;
            let mut no = Vec::new(alloc);
            put_copy(&mut no, outer, Atom::Cell(exit))?;
            put_if(lines, site, test.atom, Vec::new(alloc), no)
        }
    }
}

/// A loop, from the lines of its parts.
#[tactic(auto, using(crate::proofs::Lists::join_assoc, crate::proofs::Lists::join_none))]
#[inline(never)]
pub fn put_round(
    alloc: Global,
    made: &mut Made,
    lines: &mut Vec<Line>,
    round: Round,
    tests: Part,
    steps: Vec<Line>,
    body: Vec<Line>,
) -> Result<(), Memory>
    ensures lines { OnOk result (lines_of lines.new.items ≡ joined_to (lines_of lines.old.items)
        (spec.round_code round.site round.test_first round.way round.exit (lines_of tests.lines.items) tests.value
        (lines_of steps.items) (lines_of body.items) (made_of made.old)).lines) }
    ensures made { OnOk result (made_of made.new ≡
        (spec.round_code round.site round.test_first round.way round.exit (lines_of tests.lines.items) tests.value
        (lines_of steps.items) (lines_of body.items) (made_of made.old)).made) }
{
    let Part {
        lines: mut test,
        value,
    } = tests;
    let mut body = body;
    match round.way {
        None => {
            put_all(&mut body, steps)?;
            put_loop(lines, round, test, value.atom, body)
        }
        Some(site) => {
            let to = add_value(made, value.of)?;
            put_copy(&mut test, to, value.atom)?;
            let mut ask = Vec::new(alloc);
            put_copy(&mut ask, to, constant(0, value.of).atom)?;
            put_if(
                &mut ask,
                site,
                Atom::Cell(round.exit),
                Vec::new(alloc),
                test,
            )?;
            put_settled(alloc, made, &mut body, site, round.exit)?;
            put_guarded(alloc, &mut body, site, round.exit, steps)?;
            put_loop(lines, round, ask, Atom::Cell(to), body)
        }
    }
}

#[tactic(auto, using(kir::proofs::Rows::loop_listed))]
fn put_loop(
    lines: &mut Vec<Line>,
    round: Round,
    test: Vec<Line>,
    answer: Atom,
    body: Vec<Line>,
) -> Result<(), Memory>
    ensures { OnOk result (lines_of lines.new.items ≡ joined_to (lines_of lines.old.items)
        (LoopThen round.site round.test_first (lines_of test.items) answer (lines_of body.items) NoLine)) }
{
    put(
        lines,
        Line::Loop {
            site: round.site,
            test_first: round.test_first,
            test,
            answer,
            body,
        },
    )
}

/// Whether the next arm of a switch is fallen into: this one was entered and, where it has a way
/// out, nothing is pending.
#[tactic(auto, using(crate::proofs::Lists::join_assoc, crate::proofs::Lists::join_none))]
#[inline(never)]
pub fn put_fallen(
    made: &mut Made,
    lines: &mut Vec<Line>,
    way: Option<u32>,
    exit: u32,
    entered: Value,
) -> Result<Value, Memory>
    ensures lines { OnOk result (lines_of lines.new.items ≡ joined_to (lines_of lines.old.items)
        (spec.fallen_code way exit entered (made_of made.old)).lines) }
    ensures value { IfOk result (λ v. v ≡ (spec.fallen_code way exit entered (made_of made.old)).value) }
    ensures made { OnOk result (made_of made.new ≡ (spec.fallen_code way exit entered (made_of made.old)).made) }
{
    match way {
        None => Ok(entered),
        Some(_) => {
            let work = Work::Unary {
                op: Un::Not,
                of: IntType::Int,
                a: Atom::Cell(exit),
            };
            let clear = put_computed(made, lines, work, IntType::Int)?;
            put_binary(
                made,
                lines,
                Bin::And,
                IntType::Int,
                entered.atom,
                clear.atom,
            )
        }
    }
}

/// Lines in order, or guarded ones.
#[tactic(auto, using(crate::proofs::Lists::join_none))]
#[inline(never)]
pub fn put_closed(
    alloc: Global,
    lines: &mut Vec<Line>,
    guard: Option<u32>,
    exit: u32,
    inside: Vec<Line>,
) -> Result<(), Memory>
    ensures { OnOk result (lines_of lines.new.items ≡ joined_to (lines_of lines.old.items)
        (closed guard exit (lines_of inside.items) NoLine)) }
{
    match guard {
        None => put_all(lines, inside),
        Some(site) => put_guarded(alloc, lines, site, exit, inside),
    }
}
