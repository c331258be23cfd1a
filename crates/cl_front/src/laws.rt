//! The laws on sources, each as the contract of a call that does nothing.
ghost use Rattle.cl_front.specs.Forms.{FormsHold};
ghost use Rattle.cl_front.specs.Law.{ProgramsValid};

/// The typed program of a source is a valid program of the model, where each number that is given for a name is below 2
/// to the power 63: its types fit, each variable is declared once and named behind its declaration alone, nothing
/// stores to constant memory, and calls end (OpenCL 1.2, chapter 6; C99, sections 6.5 to 6.9).
pub fn program_law()
    ensures { ProgramsValid }
{}

/// The unit without vectors that stands for the unit of a source is what it should be, where each number that is given
/// for a name is below 2 to the power 63. In the typed program of an accepted source each vector statement stands in
/// its function and does its steps; where elements stand, what is set and what does no steps is said beside it. A
/// refused source, but for the length of an array or a limit of size, is at fault as well with a number in the place of
/// each vector, or a leaf of a vector statement that should be a number is none, where no vector variable, array of
/// vectors or pointer to vectors has the name of a memory fence (OpenCL 1.2, sections 6.1.2, 6.1.5, 6.1.7 and 6.3).
pub fn forms_law()
    ensures { FormsHold }
{}
