//! The unit without vectors is at fault only where the unit is with a number in the place of each vector. It differs
//! from the unit only where that has to do with vectors.
#![tactic(auto)]

ghost use Rattle.cl_short_vec_faults.specs.KeptLaw.{FormsKeep};
ghost use Rattle.cl_short_vec_faults.specs.Law.{ComponentsFollow, ExpressionsFollow};
ghost use Rattle.cl_short_vec_faults.specs.Lines.{InitialsFollow, SettingsFollow};
ghost use Rattle.cl_short_vec_faults.specs.Parts.{PartsFollow};
ghost use Rattle.cl_short_vec_faults.specs.UnitLaw.{UnitsFollow};

/// An expression of which no condition on vectors is told, and which is no vector, is at fault without vectors only
/// where its plain form is: that has numbers in the place of vectors, and no selections. Both have the same kind. So
/// has each component of a vector variable or element. In the argument of a fence the names of memory fences are known
/// first (OpenCL 1.2, sections 6.1.2, 6.1.7 and 6.12.8).
pub fn expressions_law()
    ensures expressions { ExpressionsFollow }
    ensures components { ComponentsFollow }
{}

/// A component of a vector value, with the helping variables of its leaves, is at fault only where the plain form of
/// the value is, and it is a number (OpenCL 1.2, sections 6.1.7 and 6.3).
pub fn parts_law()
    ensures { PartsFollow }
{}

/// An assignment to a vector becomes a block, one line for each component that it reads or sets. The block is at
/// fault only where the plain form of the assignment is, or where a leaf is no number.
pub fn settings_law()
    ensures { SettingsFollow }
{}

/// A vector variable with its initialiser becomes some lines, of which the last ones declare its components. They are
/// at fault only where the plain form of the initialiser is, where a leaf is no number, or where a name is not new;
/// and behind them what is visible is what is visible behind the variable in the plain form.
pub fn initials_law()
    ensures { InitialsFollow }
{}

/// In a unit of which no condition on vectors is told, a node of the unit without vectors is at fault, but by the
/// length of an array, only where a node of the plain form of the unit is, or where a leaf of a vector statement
/// should be a number and is none. Barriers stand too deep in its kernel only where they do in that of the plain
/// form (OpenCL 1.2, sections 6.1.2, 6.1.7, 6.3 and 6.12.8).
pub fn units_law()
    ensures { UnitsFollow }
{}

/// The unit without vectors differs from a unit of which no condition on vectors is told in these points alone:
/// declarations with a vector type are replaced by declarations and assignments, vector statements by a block of them,
/// any other vector type is that of the components, a selection of one component is that component's variable or
/// element, and what is added to a pointer to vectors is counted in components (OpenCL 1.2, sections 6.1.2 and 6.1.7).
pub fn kept_law()
    ensures { FormsKeep }
{}
