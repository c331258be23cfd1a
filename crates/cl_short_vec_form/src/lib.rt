//! What is true of the unit without vectors that stands for a unit, beside what its statements do: its size, its arrays
//! and variables of a work-group, and that it has no vectors.
#![tactic(auto)]

ghost use Rattle.cl_short_vec_form.specs.Law.{FormsAre, FormsLong, FormsPlain, FormsSmall, FormsStore};

/// What stands for a unit, a statement, a declaration or a parameter has at most 64 n c nodes, where n is the number of
/// its own nodes and c the number of components of its widest vector (OpenCL 1.2, section 6.1.2).
pub fn sizes_law()
    ensures { FormsSmall }
{}

/// The unit without vectors declares the arrays and the variables of a work-group that the unit declares, and no
/// others; an array of vectors has as many elements there as its vectors have components together (OpenCL 1.2,
/// sections 6.1.5 and 6.5).
pub fn storage_law()
    ensures stored { FormsStore }
    ensures long { FormsLong }
{}

/// In the unit without vectors no type names a vector, and no component is selected (OpenCL 1.2, sections 6.1.2 and
/// 6.1.7).
pub fn plain_law()
    ensures { FormsPlain }
{}

/// The same of the unit without vectors of a unit of which no condition on vectors is told, which is the unit itself
/// where that has no vectors.
pub fn scalar_form_law()
    ensures { FormsAre }
{}
