//! Statements as lines, each call in place. Each is given a value in whose place those of its
//! expressions stand.

ghost use Rattle.std.specs.Prelude.{◌≡◌, true, false, OnOk};
ghost use Rattle.cl_model.specs.Tree.{Declare, Return};
ghost use Rattle.cl_model.specs.View.{optional_expression, statement_of, listed_statements, function_of};
ghost use Rattle.kir.specs.Listed.{lines_of};
ghost use Rattle.kir.specs.Tree.{joined_to};
ghost use Rattle.cl_model.specs.Listed.{listed_arms};
ghost use Rattle.kir_lower.specs.Code.{optional_code, statement_code, list_code, in_order, arm_code, arms_code};
ghost use Rattle.kir_lower.specs.Code.{cases_code, body_code};
ghost use Rattle.kir_lower.specs.Forms.{is_fill, is_if, is_loop, is_switch};
ghost use Rattle.kir_lower.specs.View.{made_of, instance_of, calls_in, optional_listed};

use crate::actions::{Part, put_assigned, put_exit, put_filled};
use crate::arms::put_chosen;
use crate::emit::{put_barrier, put_copy, put_if};
use crate::exits::{declares, way_out, way_out_of_all, way_out_of_arms};
use crate::expressions::{put_expression, put_expressions};
use crate::places::{Instance, Made, Value, behind, constant, element_at, int, type_at};
use crate::steps::{Entered, step_arm, step_closed, step_entry, step_result};
use crate::ways::{BREAKS, CONTINUES, RETURNS, Round, put_opened, put_outward, put_round};
use cl_model::{Expr, Function, Stmt, SwitchArm};
use kir::Line;
use std::alloc::Global;
use wg_num::{IntType, Memory};

/// The lines of the body of a function; what a call of it gives takes the place of the value before.
#[cycle(lowering)]
#[tactic(auto, using(crate::proofs::Lists::joins), unfolding(crate::specs::Code::statement_code))]
#[inline(never)]
pub fn put_body(
    alloc: Global,
    here: &Instance<'_>,
    made: &mut Made,
    lines: &mut Vec<Line>,
    function: &Function,
    value: &mut Value,
) -> Result<(), Memory>
    ensures lines { OnOk result (lines_of lines.new.items ≡ joined_to (lines_of lines.old.items)
        (body_code (calls_in here.now) (instance_of here.now) (function_of function.now) (made_of made.old)).lines) }
    ensures value { OnOk result (value.new ≡
        (body_code (calls_in here.now) (instance_of here.now) (function_of function.now) (made_of made.old)).value) }
    ensures made { OnOk result (made_of made.new ≡
        (body_code (calls_in here.now) (instance_of here.now) (function_of function.now) (made_of made.old)).made) }
{
    step_result(made, lines, function.result, value)?;
    let given = *value;
    let way = way_out_of_all(&function.body, true, true);
    let exit = put_opened(made, lines, way, 0)?;
    put_statements(alloc, here, made, lines, exit, &function.body, value)?;
    *value = given;
    Ok(())
}

/// The lines of a statement; `exit` is the cell of the construct around it that says which way out
/// is pending.
#[cycle(lowering)]
#[tactic(auto, using(crate::proofs::Lists::joins), unfolding(crate::specs::Code::statement_code))]
#[inline(never)]
fn put_statement(
    alloc: Global,
    here: &Instance<'_>,
    made: &mut Made,
    lines: &mut Vec<Line>,
    exit: u32,
    s: &Stmt,
    value: &mut Value,
) -> Result<(), Memory>
    ensures lines { OnOk result (lines_of lines.new.items ≡ joined_to (lines_of lines.old.items)
        (statement_code (calls_in here.now) (instance_of here.now) exit (statement_of s.now)
        (made_of made.old)).lines) }
    ensures made { OnOk result (made_of made.new ≡
        (statement_code (calls_in here.now) (instance_of here.now) exit (statement_of s.now)
        (made_of made.old)).made) }
{
    match s {
        Stmt::Do(e) => put_expression(alloc, here, made, lines, e, value),
        Stmt::Declare { var, value: from } => {
            put_declared(alloc, here, made, lines, *var, from, value)
        }
        Stmt::Fill { .. } => put_array(alloc, here, made, lines, exit, s, value),
        Stmt::Block(list) => put_statements(alloc, here, made, lines, exit, list, value),
        Stmt::If { .. } => put_branches(alloc, here, made, lines, exit, s, value),
        Stmt::Loop { .. } => put_loop(alloc, here, made, lines, exit, s, value),
        Stmt::Switch { .. } => put_switch(alloc, here, made, lines, exit, s, value),
        Stmt::Break { .. } => put_exit(lines, exit, BREAKS),
        Stmt::Continue { .. } => put_exit(lines, exit, CONTINUES),
        Stmt::Return { value: from, .. } => {
            put_returned(alloc, here, made, lines, exit, from, value)
        }
        Stmt::Barrier { site } => put_barrier(lines, *site),
    }
}

/// The lines of an array with initial values.
#[cycle(lowering)]
#[tactic(auto, using(crate::proofs::Lists::joins), unfolding(crate::specs::Code::statement_code))]
#[inline(never)]
fn put_array(
    alloc: Global,
    here: &Instance<'_>,
    made: &mut Made,
    lines: &mut Vec<Line>,
    exit: u32,
    s: &Stmt,
    value: &mut Value,
) -> Result<(), Memory>
    requires { is_fill s.now ≡ true }
    ensures lines { OnOk result (lines_of lines.new.items ≡ joined_to (lines_of lines.old.items)
        (statement_code (calls_in here.now) (instance_of here.now) exit (statement_of s.now)
        (made_of made.old)).lines) }
    ensures made { OnOk result (made_of made.new ≡
        (statement_code (calls_in here.now) (instance_of here.now) exit (statement_of s.now)
        (made_of made.old)).made) }
{
    match s {
        Stmt::Fill {
            site,
            array,
            values,
        } => {
            let of = element_at(here, *array);
            let array = behind(here.arrays, *array)?;
            let values = put_expressions(alloc, here, made, lines, values, value)?;
            put_filled(lines, *site, of, array, &values)
        }
        _ => unreachable!(),
    }
}

/// The lines of a declaration.
#[cycle(lowering)]
#[tactic(auto, using(crate::proofs::Lists::joins), unfolding(crate::specs::Code::statement_code))]
#[inline(never)]
fn put_declared(
    alloc: Global,
    here: &Instance<'_>,
    made: &mut Made,
    lines: &mut Vec<Line>,
    var: u32,
    from: &Option<Expr>,
    value: &mut Value,
) -> Result<(), Memory>
    ensures lines { OnOk result (lines_of lines.new.items ≡ joined_to (lines_of lines.old.items)
        (statement_code (calls_in here.now) (instance_of here.now) 0 (Declare var (optional_expression from.now))
        (made_of made.old)).lines) }
    ensures made { OnOk result (made_of made.new ≡
        (statement_code (calls_in here.now) (instance_of here.now) 0 (Declare var (optional_expression from.now))
        (made_of made.old)).made) }
{
    match from {
        None => {
            let of = type_at(here, var);
            *value = constant(0, of);
        }
        Some(e) => put_expression(alloc, here, made, lines, e, value)?,
    }
    put_assigned(here, lines, var, *value)
}

/// The lines of a `return`.
#[cycle(lowering)]
#[tactic(auto, using(crate::proofs::Lists::joins), unfolding(crate::specs::Code::statement_code))]
#[inline(never)]
fn put_returned(
    alloc: Global,
    here: &Instance<'_>,
    made: &mut Made,
    lines: &mut Vec<Line>,
    exit: u32,
    from: &Option<Expr>,
    value: &mut Value,
) -> Result<(), Memory>
    ensures lines { OnOk result (lines_of lines.new.items ≡ joined_to (lines_of lines.old.items)
        (statement_code (calls_in here.now) (instance_of here.now) exit (Return 0 (optional_expression from.now))
        (made_of made.old)).lines) }
    ensures made { OnOk result (made_of made.new ≡
        (statement_code (calls_in here.now) (instance_of here.now) exit (Return 0 (optional_expression from.now))
        (made_of made.old)).made) }
{
    match from {
        None => put_exit(lines, exit, RETURNS),
        Some(e) => {
            put_expression(alloc, here, made, lines, e, value)?;
            put_copy(lines, here.answer, value.atom)?;
            put_exit(lines, exit, RETURNS)
        }
    }
}

/// The lines of an `if`.
#[cycle(lowering)]
#[tactic(auto, using(crate::proofs::Lists::joins), unfolding(crate::specs::Code::statement_code))]
#[inline(never)]
fn put_branches(
    alloc: Global,
    here: &Instance<'_>,
    made: &mut Made,
    lines: &mut Vec<Line>,
    exit: u32,
    s: &Stmt,
    value: &mut Value,
) -> Result<(), Memory>
    requires { is_if s.now ≡ true }
    ensures lines { OnOk result (lines_of lines.new.items ≡ joined_to (lines_of lines.old.items)
        (statement_code (calls_in here.now) (instance_of here.now) exit (statement_of s.now)
        (made_of made.old)).lines) }
    ensures made { OnOk result (made_of made.new ≡
        (statement_code (calls_in here.now) (instance_of here.now) exit (statement_of s.now)
        (made_of made.old)).made) }
{
    match s {
        Stmt::If {
            site,
            test,
            yes,
            no,
        } => {
            put_expression(alloc, here, made, lines, test, value)?;
            let test = value.atom;
            let mut first = Vec::new(alloc);
            put_statement(alloc, here, made, &mut first, exit, yes, value)?;
            let mut second = Vec::new(alloc);
            put_other(alloc, here, made, &mut second, exit, no, value)?;
            put_if(lines, *site, test, first, second)
        }
        _ => unreachable!(),
    }
}

/// The lines behind `else`, if it is there.
#[cycle(lowering)]
#[tactic(auto, using(crate::proofs::Lists::joins), unfolding(crate::specs::Code::statement_code))]
#[inline(never)]
fn put_other(
    alloc: Global,
    here: &Instance<'_>,
    made: &mut Made,
    lines: &mut Vec<Line>,
    exit: u32,
    s: &Option<Box<Stmt>>,
    value: &mut Value,
) -> Result<(), Memory>
    ensures lines { OnOk result (lines_of lines.new.items ≡ joined_to (lines_of lines.old.items)
        (in_order (list_code (calls_in here.now) (instance_of here.now) exit false (optional_listed s.now)
        (made_of made.old))).lines) }
    ensures made { OnOk result (made_of made.new ≡
        (in_order (list_code (calls_in here.now) (instance_of here.now) exit false (optional_listed s.now)
        (made_of made.old))).made) }
{
    match s {
        None => Ok(()),
        Some(s) => put_statement(alloc, here, made, lines, exit, s, value),
    }
}

/// The lines of the test or step of a loop, which may be absent; a test then is 1.
#[cycle(lowering)]
#[tactic(auto, using(crate::proofs::Lists::joins), unfolding(crate::specs::Code::statement_code))]
#[inline(never)]
fn put_optional(
    alloc: Global,
    here: &Instance<'_>,
    made: &mut Made,
    lines: &mut Vec<Line>,
    e: &Option<Expr>,
    value: &mut Value,
) -> Result<(), Memory>
    ensures lines { OnOk result (lines_of lines.new.items ≡ joined_to (lines_of lines.old.items)
        (optional_code (calls_in here.now) (instance_of here.now) (optional_expression e.now)
        (made_of made.old)).lines) }
    ensures value { OnOk result (value.new ≡
        (optional_code (calls_in here.now) (instance_of here.now) (optional_expression e.now)
        (made_of made.old)).value) }
    ensures made { OnOk result (made_of made.new ≡
        (optional_code (calls_in here.now) (instance_of here.now) (optional_expression e.now)
        (made_of made.old)).made) }
{
    match e {
        None => {
            *value = constant(1, IntType::Int);
            Ok(())
        }
        Some(e) => put_expression(alloc, here, made, lines, e, value),
    }
}

/// The lines of a loop.
#[cycle(lowering)]
#[tactic(auto, using(crate::proofs::Lists::joins), unfolding(crate::specs::Code::statement_code))]
#[inline(never)]
fn put_loop(
    alloc: Global,
    here: &Instance<'_>,
    made: &mut Made,
    lines: &mut Vec<Line>,
    exit: u32,
    s: &Stmt,
    value: &mut Value,
) -> Result<(), Memory>
    requires { is_loop s.now ≡ true }
    ensures lines { OnOk result (lines_of lines.new.items ≡ joined_to (lines_of lines.old.items)
        (statement_code (calls_in here.now) (instance_of here.now) exit (statement_of s.now)
        (made_of made.old)).lines) }
    ensures made { OnOk result (made_of made.new ≡
        (statement_code (calls_in here.now) (instance_of here.now) exit (statement_of s.now)
        (made_of made.old)).made) }
{
    match s {
        Stmt::Loop {
            site,
            test_first,
            test,
            step,
            body,
        } => {
            let way = way_out(body, true, true);
            let inner = put_opened(made, lines, way, exit)?;
            let mut tests = Vec::new(alloc);
            put_optional(alloc, here, made, &mut tests, test, value)?;
            let tests = Part {
                lines: tests,
                value: *value,
            };
            let mut steps = Vec::new(alloc);
            put_optional(alloc, here, made, &mut steps, step, value)?;
            let mut inside = Vec::new(alloc);
            put_statement(alloc, here, made, &mut inside, inner, body, value)?;
            let round = Round {
                site: *site,
                test_first: *test_first,
                way,
                exit: inner,
            };
            put_round(alloc, made, lines, round, tests, steps, inside)?;
            put_outward(alloc, made, lines, way_out(body, false, false), inner, exit)
        }
        _ => unreachable!(),
    }
}

/// The lines of a `switch`.
#[cycle(lowering)]
#[tactic(auto, using(crate::proofs::Lists::joins), unfolding(crate::specs::Code::statement_code))]
#[inline(never)]
fn put_switch(
    alloc: Global,
    here: &Instance<'_>,
    made: &mut Made,
    lines: &mut Vec<Line>,
    exit: u32,
    s: &Stmt,
    value: &mut Value,
) -> Result<(), Memory>
    requires { is_switch s.now ≡ true }
    ensures lines { OnOk result (lines_of lines.new.items ≡ joined_to (lines_of lines.old.items)
        (statement_code (calls_in here.now) (instance_of here.now) exit (statement_of s.now)
        (made_of made.old)).lines) }
    ensures made { OnOk result (made_of made.new ≡
        (statement_code (calls_in here.now) (instance_of here.now) exit (statement_of s.now)
        (made_of made.old)).made) }
{
    match s {
        Stmt::Switch {
            site,
            value: of,
            arms,
        } => {
            put_expression(alloc, here, made, lines, of, value)?;
            put_cases(alloc, here, made, lines, (*site, exit), arms, value)
        }
        _ => unreachable!(),
    }
}

/// The lines of a `switch` behind its value, for its site and the cell of what is pending around it.
#[cycle(lowering)]
#[tactic(auto, using(crate::proofs::Lists::joins), unfolding(crate::specs::Code::statement_code))]
#[inline(never)]
fn put_cases(
    alloc: Global,
    here: &Instance<'_>,
    made: &mut Made,
    lines: &mut Vec<Line>,
    of: (u32, u32),
    arms: &[SwitchArm],
    value: &mut Value,
) -> Result<(), Memory>
    ensures lines { OnOk result (lines_of lines.new.items ≡ joined_to (lines_of lines.old.items)
        (cases_code (calls_in here.now) (instance_of here.now) of.1 of.0 value.old (listed_arms arms.now)
        (made_of made.old)).lines) }
    ensures made { OnOk result (made_of made.new ≡
        (cases_code (calls_in here.now) (instance_of here.now) of.1 of.0 value.old (listed_arms arms.now)
        (made_of made.old)).made) }
{
    let (site, exit) = of;
    let way = way_out_of_arms(arms, true, true);
    let inner = put_opened(made, lines, way, exit)?;
    let chosen = put_chosen(alloc, made, lines, site, *value, arms)?;
    let entered = Entered {
        site,
        exit: inner,
        chosen,
        fallen: int(0),
        number: 0,
    };
    put_arms(alloc, here, made, lines, entered, arms, value)?;
    let way = way_out_of_arms(arms, false, true);
    put_outward(alloc, made, lines, way, inner, exit)
}

/// The lines of an arm; whether the next one is fallen into takes the place of the value before.
#[cycle(lowering)]
#[tactic(auto, using(crate::proofs::Lists::joins), unfolding(crate::specs::Code::statement_code))]
#[inline(never)]
fn put_arm(
    alloc: Global,
    here: &Instance<'_>,
    made: &mut Made,
    lines: &mut Vec<Line>,
    entered: &Entered,
    body: &[Stmt],
    value: &mut Value,
) -> Result<(), Memory>
    ensures lines { OnOk result (lines_of lines.new.items ≡ joined_to (lines_of lines.old.items)
        (arm_code (calls_in here.now) (instance_of here.now) entered.now.exit entered.now.site entered.now.chosen
        entered.now.fallen entered.now.number (listed_statements body.now) (made_of made.old)).lines) }
    ensures value { OnOk result (value.new ≡
        (arm_code (calls_in here.now) (instance_of here.now) entered.now.exit entered.now.site entered.now.chosen
        entered.now.fallen entered.now.number (listed_statements body.now) (made_of made.old)).value) }
    ensures made { OnOk result (made_of made.new ≡
        (arm_code (calls_in here.now) (instance_of here.now) entered.now.exit entered.now.site entered.now.chosen
        entered.now.fallen entered.now.number (listed_statements body.now) (made_of made.old)).made) }
{
    step_entry(made, lines, entered, value)?;
    let entry = *value;
    let mut inside = Vec::new(alloc);
    put_statements(alloc, here, made, &mut inside, entered.exit, body, value)?;
    *value = entry;
    let way = way_out_of_all(body, true, true);
    step_arm(alloc, made, lines, entered, way, &mut inside, value)
}

/// The lines of the arms of a `switch`.
#[cycle(lowering)]
#[tactic(auto, using(crate::proofs::Lists::joins), unfolding(crate::specs::Code::statement_code))]
#[inline(never)]
fn put_arms(
    alloc: Global,
    here: &Instance<'_>,
    made: &mut Made,
    lines: &mut Vec<Line>,
    entered: Entered,
    arms: &[SwitchArm],
    value: &mut Value,
) -> Result<(), Memory>
    ensures lines { OnOk result (lines_of lines.new.items ≡ joined_to (lines_of lines.old.items)
        (arms_code (calls_in here.now) (instance_of here.now) entered.exit entered.site entered.chosen
        entered.fallen entered.number (listed_arms arms.now) (made_of made.old)).lines) }
    ensures made { OnOk result (made_of made.new ≡
        (arms_code (calls_in here.now) (instance_of here.now) entered.exit entered.site entered.chosen
        entered.fallen entered.number (listed_arms arms.now) (made_of made.old)).made) }
{
    let mut entered = entered;
    let mut rest = arms;
    while let Some((arm, others)) = rest.split_first() {
        put_arm(alloc, here, made, lines, &entered, &arm.body, value)?;
        entered.fallen = value.atom;
        entered.number = behind(entered.number, 1)?;
        rest = others;
    }
    Ok(())
}

/// Statements in order. Those behind one with a way out, as far as the next such, are guarded
/// together; where a guarded one declares a variable, all that follow stand under its guard.
#[cycle(lowering)]
#[tactic(auto, using(crate::proofs::Lists::joins), unfolding(crate::specs::Code::statement_code))]
#[inline(never)]
fn put_statements(
    alloc: Global,
    here: &Instance<'_>,
    made: &mut Made,
    lines: &mut Vec<Line>,
    exit: u32,
    list: &[Stmt],
    value: &mut Value,
) -> Result<(), Memory>
    ensures lines { OnOk result (lines_of lines.new.items ≡ joined_to (lines_of lines.old.items)
        (in_order (list_code (calls_in here.now) (instance_of here.now) exit false (listed_statements list.now)
        (made_of made.old))).lines) }
    ensures made { OnOk result (made_of made.new ≡
        (in_order (list_code (calls_in here.now) (instance_of here.now) exit false (listed_statements list.now)
        (made_of made.old))).made) }
{
    let mut guard = None;
    let mut inside = Vec::new(alloc);
    let mut rest = list;
    while let Some((s, others)) = rest.split_first() {
        put_statement(alloc, here, made, &mut inside, exit, s, value)?;
        if guard.is_some() && declares(s) {
            put_statements(alloc, here, made, &mut inside, exit, others, value)?;
            return step_closed(alloc, lines, guard, exit, &mut inside);
        }
        if let Some(site) = way_out(s, true, true) {
            step_closed(alloc, lines, guard, exit, &mut inside)?;
            guard = Some(site);
        }
        rest = others;
    }
    step_closed(alloc, lines, guard, exit, &mut inside)
}
