//! A group at its start: zeros everywhere.
ghost use Rattle.std.specs.Prelude.{◌≡◌, [], ◌∷◌, ◌++◌, IfOk, map, replicate, false, sum};
ghost use Rattle.cl_model.specs.View.{launch_of};
ghost use Rattle.lane_code.specs.View.{plain_of};
ghost use Rattle.lane_code.specs.Fits.{LaunchFits};
ghost use Rattle.lane_code.specs.Run.{start_group};
ghost use Rattle.cl_model.specs.Objects.{zeros, local_arguments};
ghost use Rattle.lane_machine.specs.Zeroed.{IsGroupOf};

use crate::group_state::Group;
use crate::queries::whole;
use cl_model::{Bound, Launch};
use lane_code::GroupProgram;
use std::alloc::Global;
use wg_num::Memory;

/// So many zero bytes.
fn zeros_of(alloc: Global, n: u64) -> Result<Vec<u8>, Memory>
    ensures { IfOk result (λ v. v.items ≡ zeros n) }
{
    let mut bytes = Vec::new(alloc);
    if bytes.resize(n as usize, 0u8).is_err() {
        return Err(Memory);
    }
    Ok(bytes)
}

/// An object of zeros for each size.
pub(crate) fn zero_objects(alloc: Global, sizes: &[u64]) -> Result<Vec<Vec<u8>>, Memory>
    ensures { IfOk result (λ l. map (λ v. v.items) l.items ≡ map zeros sizes.now) }
{
    let mut list = Vec::new(alloc);
    for i in 0..sizes.len() {
        let one = zeros_of(alloc, sizes[i])?;
        if list.push(one).is_err() {
            return Err(Memory);
        }
    }
    Ok(list)
}

/// An object of so many zeros for each item.
fn item_objects(alloc: Global, items: usize, bytes: u64) -> Result<Vec<Vec<u8>>, Memory>
    ensures { IfOk result (λ l. map (λ v. v.items) l.items ≡ replicate items (zeros bytes)) }
{
    let mut list = Vec::new(alloc);
    for _ in 0..items {
        let one = zeros_of(alloc, bytes)?;
        if list.push(one).is_err() {
            return Err(Memory);
        }
    }
    Ok(list)
}

/// The private arrays, each with an object of zeros for each item.
pub(crate) fn zero_arrays(
    alloc: Global,
    sizes: &[u64],
    items: usize,
) -> Result<Vec<Vec<Vec<u8>>>, Memory>
    ensures { IfOk result (λ l. map (λ a. map (λ v. v.items) a.items) l.items ≡
        map (λ n. replicate items (zeros n)) sizes.now) }
{
    let mut list = Vec::new(alloc);
    for i in 0..sizes.len() {
        let one = item_objects(alloc, items, sizes[i])?;
        if list.push(one).is_err() {
            return Err(Memory);
        }
    }
    Ok(list)
}

fn zero_numbers(alloc: Global, n: usize) -> Result<Vec<u64>, Memory>
    ensures { IfOk result (λ v. v.items ≡ replicate n 0) }
{
    let mut numbers = Vec::new(alloc);
    if numbers.resize(n, 0u64).is_err() {
        return Err(Memory);
    }
    Ok(numbers)
}

/// So many columns, each with a zero for each item.
pub(crate) fn zero_columns(alloc: Global, n: usize, items: usize) -> Result<Vec<Vec<u64>>, Memory>
    ensures { IfOk result (λ l. map (λ v. v.items) l.items ≡ replicate n (replicate items 0)) }
{
    let mut list = Vec::new(alloc);
    for _ in 0..n {
        let one = zero_numbers(alloc, items)?;
        if list.push(one).is_err() {
            return Err(Memory);
        }
    }
    Ok(list)
}

/// Adds an object of zeros, if the argument is of local memory.
fn add_argument(alloc: Global, mut list: Vec<Vec<u8>>, b: Bound) -> Result<Vec<Vec<u8>>, Memory>
    ensures { IfOk result (λ l. map (λ v. v.items) l.items ≡ map (λ v. v.items) list.items ++
        map zeros (local_arguments (b ∷ []))) }
{
    match b {
        Bound::Local(n) => {
            let one = zeros_of(alloc, n)?;
            if list.push(one).is_err() {
                return Err(Memory);
            }
            Ok(list)
        }
        Bound::Buffer(_) | Bound::Value(_) => Ok(list),
    }
}

/// The same for each argument.
fn add_arguments(
    alloc: Global,
    mut list: Vec<Vec<u8>>,
    args: &[Bound],
) -> Result<Vec<Vec<u8>>, Memory>
    ensures { IfOk result (λ l. map (λ v. v.items) l.items ≡ map (λ v. v.items) list.items ++
        map zeros (local_arguments args.now)) }
{
    for i in 0..args.len() {
        list = add_argument(alloc, list, args[i])?;
    }
    Ok(list)
}

fn no_votes(alloc: Global, n: usize) -> Result<Vec<bool>, Memory>
    ensures { IfOk result (λ v. v.items ≡ replicate n false) }
{
    let mut votes = Vec::new(alloc);
    if votes.resize(n, false).is_err() {
        return Err(Memory);
    }
    Ok(votes)
}

/// A group with number 0 and zeros in all that it keeps.
fn at_start(alloc: Global, program: &GroupProgram, launch: &Launch) -> Result<Group, Memory>
    requires fits { LaunchFits (plain_of program.now).params (sum (plain_of program.now).locals)
        (launch_of launch.now) }
    ensures kept { IfOk result (λ g. g.kept ≡ start_group (plain_of program.now) (launch_of launch.now)) }
    ensures number { IfOk result (λ g. g.number ≡ 0) }
{
    let items = whole(&launch.local) as usize;
    let own = zero_objects(alloc, &program.locals)?;
    let locals = add_arguments(alloc, own, &launch.args)?;
    let privates = zero_arrays(alloc, &program.privates, items)?;
    let columns = zero_columns(alloc, program.columns as usize, items)?;
    let entries = zero_numbers(alloc, program.slots as usize)?;
    let exits = zero_numbers(alloc, program.slots as usize)?;
    let votes = no_votes(alloc, items)?;
    Ok(Group {
        number: 0,
        locals,
        privates,
        columns,
        entries,
        exits,
        votes,
    })
}

impl Group {
    /// What a group of the launch keeps at its start, with number 0; `Memory` where there is none
    /// for it.
    pub fn new(alloc: Global, program: &GroupProgram, launch: &Launch) -> Result<Group, Memory>
        requires fits { LaunchFits (plain_of program.now).params (sum (plain_of program.now).locals)
            (launch_of launch.now) }
        ensures kept { IfOk result (λ g. g.kept ≡ start_group (plain_of program.now) (launch_of launch.now)) }
        ensures made { IfOk result (λ g. IsGroupOf (plain_of program.now) (launch_of launch.now) g.kept) }
        ensures number { IfOk result (λ g. g.number ≡ 0) }
    {
        at_start(alloc, program, launch)
    }
}
