//! The ways by which statements can be left but at their end.

ghost use Rattle.std.specs.Prelude.{◌≡◌};
ghost use Rattle.cl_model.specs.View.{statement_of, listed_statements};
ghost use Rattle.cl_model.specs.Listed.{listed_arms};
ghost use Rattle.kir_lower.specs.Ways as spec;

use cl_model::{Stmt, SwitchArm};

/// The site of the first `return` by which a statement can be left, or `continue`, where these
/// are asked for, or `break`.
#[cycle(leaving)]
#[tactic(auto, using(crate::proofs::Lists::first_alone))]
pub fn way_out(s: &Stmt, breaks: bool, continues: bool) -> Option<u32>
    ensures { result ≡ spec.way_out breaks continues (statement_of s.now) }
{
    match s {
        Stmt::Do(_) | Stmt::Declare { .. } | Stmt::Fill { .. } | Stmt::Barrier { .. } => None,
        Stmt::Block(list) => way_out_of_all(list, breaks, continues),
        Stmt::If { yes, no, .. } => match way_out(yes, breaks, continues) {
            Some(site) => Some(site),
            None => match no {
                None => None,
                Some(no) => way_out(no, breaks, continues),
            },
        },
        Stmt::Loop { body, .. } => way_out(body, false, false),
        Stmt::Switch { arms, .. } => way_out_of_arms(arms, false, continues),
        Stmt::Break { site } => { if breaks { Some(*site) } else { None } }
        Stmt::Continue { site } => { if continues { Some(*site) } else { None } }
        Stmt::Return { site, .. } => Some(*site),
    }
}

/// The site of the first way out of statements in order, as `way_out` gives it of one.
#[cycle(leaving)]
pub fn way_out_of_all(list: &[Stmt], breaks: bool, continues: bool) -> Option<u32>
    ensures { result ≡ spec.way_out_of_all breaks continues (listed_statements list.now) }
{
    for s in list {
        if let Some(site) = way_out(s, breaks, continues) {
            return Some(site);
        }
    }
    None
}

/// The site of the first way out of the arms of a `switch`, as `way_out` gives it of a statement.
#[cycle(leaving)]
pub fn way_out_of_arms(arms: &[SwitchArm], breaks: bool, continues: bool) -> Option<u32>
    ensures { result ≡ spec.way_out_of_arms breaks continues (listed_arms arms.now) }
{
    for arm in arms {
        if let Some(site) = way_out_of_all(&arm.body, breaks, continues) {
            return Some(site);
        }
    }
    None
}

/// Whether the statement declares a variable of the list in which it stands, and not of one inside it.
pub fn declares(s: &Stmt) -> bool
    ensures { result ≡ spec.declares (statement_of s.now) }
{
    match s {
        Stmt::Declare { .. } => true,
        Stmt::Do(_)
        | Stmt::Fill { .. }
        | Stmt::Block(_)
        | Stmt::If { .. }
        | Stmt::Loop { .. }
        | Stmt::Switch { .. }
        | Stmt::Break { .. }
        | Stmt::Continue { .. }
        | Stmt::Return { .. }
        | Stmt::Barrier { .. } => false,
    }
}
