//! Kernels that code makes, with their plain views.

ghost use Rattle.std.specs.Prelude.{◌≡◌, [], ◌∷◌, ◌++◌, IfOk};
ghost use Rattle.kir.specs.View.{kernel_of};
ghost use Rattle.kir.specs.Listed.{line_before};
ghost use Rattle.kir.specs.Tree.{NoLine};
ghost use Rattle.examples_kir.specs.Lowered.{meeting_lines, agreed_line};

use kir::{Atom, Kernel, Line};
use std::alloc::Global;
use wg_num::{IntType, Memory, Place};

/// A list with one item more.
fn also<T: Drop>(mut list: Vec<T>, item: T) -> Result<Vec<T>, Memory>
    ensures { IfOk result (λ v. v.items ≡ list.items ++ item ∷ []) }
{
    match list.push(item) {
        Ok(()) => Ok(list),
        Err(_) => Err(Memory),
    }
}

/// The lines that come from the smallest kernel with a barrier.
pub fn meeting(alloc: Global) -> Result<Kernel, Memory>
    ensures { IfOk result (λ k. kernel_of k ≡ meeting_lines) }
{
    let body = also(Vec::new(alloc), Line::Barrier { site: 0 })?;
    let sites = also(
        Vec::new(alloc),
        Place {
            line: 1,
            column: 24,
        },
    )?;
    Ok(Kernel {
        params: Vec::new(alloc),
        cells: Vec::new(alloc),
        arrays: Vec::new(alloc),
        tables: Vec::new(alloc),
        body,
        sites,
    })
}

/// A line with a barrier in its first branch.
pub fn agreed(alloc: Global) -> Result<Line, Memory>
    ensures { IfOk result (λ l. line_before l NoLine ≡ agreed_line) }
{
    let yes = also(Vec::new(alloc), Line::Barrier { site: 0 })?;
    Ok(Line::If {
        site: 1,
        test: Atom::Const {
            value: 1,
            of: IntType::Int,
        },
        yes,
        no: Vec::new(alloc),
    })
}
