//! A call of a function of the unit.

/// A call of a function that the unit defines: the number of the function in which it stands and of the one that
/// it calls.
#[derive(Clone, Copy, PartialEq, Eq, Debug)]
pub struct Call {
    pub caller: u32,
    pub called: u32,
}
