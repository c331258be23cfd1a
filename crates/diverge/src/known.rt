//! What is known of the variables and results of functions while the analysis goes on.

ghost use Rattle.std.specs.Prelude.{◌≡◌, map};
ghost use Rattle.diverge.specs.Known as spec;
ghost use Rattle.diverge.specs.Known.{row_of, state_of};

/// What is known of a variable: whether it varies, whether something other than its declaration
/// assigns it, and the innermost condition around its declaration that varies, by its site. The
/// result of a function is a variable that each `return` assigns.
#[derive(Clone, Copy)]
pub struct Entry {
    pub varies: bool,
    pub assigned: bool,
    pub since: Option<u32>,
}

/// What is known of a function: of its variables, and of its result.
#[derive(Drop)]
pub struct Row {
    pub variables: Vec<Entry>,
    pub result: Entry,
}

/// What is known of each function of a program, and whether something has come to vary since the
/// round began.
#[derive(Drop)]
pub struct Known {
    pub rows: Vec<Row>,
    pub grew: bool,
}

/// Where a walk is: in the function with this number, of a program whose kernel has that number, under the innermost
/// condition that varies, by its site; none where no condition around it varies.
#[derive(Clone, Copy)]
pub struct Spot {
    pub kernel: u32,
    pub function: usize,
    pub guard: Option<u32>,
}

/// Whether statements hold a way out (`break`, `continue`, `return`), and whether they hold one
/// under a condition among them that varies.
#[derive(Clone, Copy)]
pub struct Ways {
    pub exits: bool,
    pub escapes: bool,
}

/// What is known at first.
pub(crate) fn fresh() -> Entry
    ensures { result ≡ spec.fresh }
{
    Entry {
        varies: false,
        assigned: false,
        since: None,
    }
}

// What is said of a variable that is not there.
fn absent() -> Entry
    ensures { result ≡ spec.absent }
{
    Entry {
        varies: true,
        assigned: false,
        since: None,
    }
}

// Whether both are the same condition.
fn same_guard(one: Option<u32>, other: Option<u32>) -> bool
    ensures { result ≡ spec.same_guard one other }
{
    match one {
        None => match other {
            None => true,
            Some(_) => false,
        },
        Some(a) => match other {
            None => false,
            Some(b) => a == b,
        },
    }
}

// The entry of a variable behind an assignment to it.
fn assigned(entry: Entry, guard: Option<u32>, varies: bool) -> Entry
    ensures { result ≡ spec.assigned guard varies entry }
{
    let under = !same_guard(entry.since, guard);
    Entry {
        varies: entry.varies || (varies || under),
        assigned: true,
        since: entry.since,
    }
}

// The entry of a variable behind its declaration.
fn declared(entry: Entry, guard: Option<u32>, varies: bool) -> Entry
    ensures { result ≡ spec.declared guard varies entry }
{
    Entry {
        varies: entry.varies || varies,
        assigned: entry.assigned,
        since: guard,
    }
}

// The entry of a parameter to which a call passes a value.
fn passed(entry: Entry, varies: bool) -> Entry
    ensures { result ≡ spec.passed varies entry }
{
    Entry {
        varies: entry.varies || varies,
        assigned: entry.assigned,
        since: entry.since,
    }
}

// The entry of a variable behind its scope, which holds a way out under a condition that varies.
fn left(entry: Entry) -> Entry
    ensures { result ≡ spec.left entry }
{
    Entry {
        varies: entry.varies || entry.assigned,
        assigned: entry.assigned,
        since: entry.since,
    }
}

/// What is known of a variable; one that is not there varies.
pub(crate) fn variable_at(known: &Known, function: usize, variable: usize) -> Entry
    ensures { result ≡ spec.variable_at (state_of known.now) function variable }
{
    match known.rows.get(function) {
        None => absent(),
        Some(row) => match row.variables.get(variable) {
            None => absent(),
            Some(entry) => *entry,
        },
    }
}

/// What is known of the result of a function; that of one that is not there varies.
pub(crate) fn result_at(known: &Known, function: usize) -> Entry
    ensures { result ≡ spec.result_at (state_of known.now) function }
{
    match known.rows.get(function) {
        None => absent(),
        Some(row) => row.result,
    }
}

// Whether the second of two entries varies and the first does not.
fn grows(old: Entry, new: Entry) -> bool
    ensures { result ≡ spec.grows old new }
{
    new.varies && !old.varies
}

// Replaces an entry of a row, if it is there.
fn put_entry(row: &mut Row, variable: usize, entry: Entry)
    ensures { row_of row.new ≡ spec.with_entry variable entry (row_of row.old) }
{
    if variable < row.variables.len() {
        row.variables[variable] = entry;
    }
}

// Replaces an entry of one of the rows, if it is there.
fn change_entry(rows: &mut [Row], function: usize, variable: usize, entry: Entry)
    ensures { map row_of rows.new ≡ spec.change_row function (spec.with_entry variable entry) (map row_of rows.old) }
{
    if function < rows.len() {
        let row = &mut rows[function];
        put_entry(row, variable, entry);
    }
}

// Replaces the result of one of the rows, if it is there.
fn change_result(rows: &mut [Row], function: usize, entry: Entry)
    ensures { map row_of rows.new ≡ spec.change_row function (spec.with_result_entry entry) (map row_of rows.old) }
{
    if function < rows.len() {
        let row = &mut rows[function];
        row.result = entry;
    }
}

// Replaces the entry of a variable, if it is there.
fn put_variable(known: &mut Known, function: usize, variable: usize, entry: Entry)
    ensures { state_of known.new ≡ spec.with_variable function variable entry (state_of known.old) }
{
    let grown = grows(variable_at(known, function, variable), entry);
    change_entry(&mut known.rows, function, variable, entry);
    known.grew = known.grew || grown;
}

// Replaces the entry of a function's result, if it is there.
fn put_result(known: &mut Known, function: usize, entry: Entry)
    ensures { state_of known.new ≡ spec.with_result function entry (state_of known.old) }
{
    let grown = grows(result_at(known, function), entry);
    change_result(&mut known.rows, function, entry);
    known.grew = known.grew || grown;
}

/// Notes an assignment to a variable.
pub(crate) fn assign(known: &mut Known, at: Spot, variable: usize, varies: bool)
    ensures { state_of known.new ≡ spec.assign at variable varies (state_of known.old) }
{
    let old = variable_at(known, at.function, variable);
    put_variable(
        known,
        at.function,
        variable,
        assigned(old, at.guard, varies),
    );
}

/// Notes the declaration of a variable, with whether its value varies.
pub(crate) fn declare(known: &mut Known, at: Spot, variable: usize, varies: bool)
    ensures { state_of known.new ≡ spec.declare at variable varies (state_of known.old) }
{
    let old = variable_at(known, at.function, variable);
    put_variable(
        known,
        at.function,
        variable,
        declared(old, at.guard, varies),
    );
}

/// Notes what a call passes to a parameter of a function; nothing is passed to the kernel.
pub(crate) fn pass(known: &mut Known, at: Spot, function: u32, parameter: usize, varies: bool)
    ensures { state_of known.new ≡ spec.pass at function parameter varies (state_of known.old) }
{
    if function != at.kernel {
        let old = variable_at(known, function as usize, parameter);
        put_variable(known, function as usize, parameter, passed(old, varies));
    }
}

/// Notes a `return`.
pub(crate) fn give(known: &mut Known, at: Spot, varies: bool)
    ensures { state_of known.new ≡ spec.give at varies (state_of known.old) }
{
    let old = result_at(known, at.function);
    put_result(known, at.function, assigned(old, at.guard, varies));
}

/// Notes that the scope of a variable holds a way out under a condition that varies.
pub(crate) fn leave(known: &mut Known, function: usize, variable: usize)
    ensures { state_of known.new ≡ spec.leave function variable (state_of known.old) }
{
    let old = variable_at(known, function, variable);
    put_variable(known, function, variable, left(old));
}

/// Notes that a function holds a way out under a condition that varies.
pub(crate) fn leave_result(known: &mut Known, function: usize)
    ensures { state_of known.new ≡ spec.leave_result function (state_of known.old) }
{
    let old = result_at(known, function);
    put_result(known, function, left(old));
}

/// The spot under a condition.
pub(crate) fn under(at: Spot, site: u32, varies: bool) -> Spot
    ensures { result ≡ spec.under site varies at }
{
    let guard = if varies { Some(site) } else { at.guard };
    Spot {
        kernel: at.kernel,
        function: at.function,
        guard,
    }
}

/// No way out.
pub(crate) fn no_way() -> Ways
    ensures { result ≡ spec.no_way }
{
    Ways {
        exits: false,
        escapes: false,
    }
}

/// A `break`, `continue` or `return`.
pub(crate) fn way_out() -> Ways
    ensures { result ≡ spec.way_out }
{
    Ways {
        exits: true,
        escapes: false,
    }
}

/// The ways out of either of two parts.
pub(crate) fn joined(one: Ways, other: Ways) -> Ways
    ensures { result ≡ spec.joined one other }
{
    Ways {
        exits: one.exits || other.exits,
        escapes: one.escapes || other.escapes,
    }
}

/// The ways out of a statement whose parts stand under its condition.
pub(crate) fn behind(varies: bool, inside: Ways) -> Ways
    ensures { result ≡ spec.behind varies inside }
{
    let escapes = if varies { inside.exits } else { inside.escapes };
    Ways {
        exits: inside.exits,
        escapes,
    }
}
