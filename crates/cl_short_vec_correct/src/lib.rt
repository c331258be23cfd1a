//! The unit without vectors that stands for a unit with vectors has the shape of units, and does for each vector
//! statement what that says.
#![tactic(auto)]

ghost use Rattle.cl_short_vec_correct.specs.Law.{
  BarriersRefused,
  ContentsStand,
  FormsShaped,
  NumbersScaled,
  OffsetsScaled,
  ReturnsRefused,
  StatementsDo,
  StepsDone,
  VectorsAre,
};

/// A unit of the wide shape, in which vectors and selections of their components stand, becomes a unit of the narrow
/// shape, in which no selection stands, whether or not it is refused (OpenCL 1.2, sections 6.1.2 and 6.1.7; C99,
/// sections 6.5 to 6.9).
pub fn form_law()
    ensures { FormsShaped }
{}

/// Typed statements that stand for the steps of a vector statement do these steps, in order, in every launch that fits
/// the program, on all buffers, in all histories: they evaluate the numbers and where elements stand, load and store
/// each component of an element by one access, and set variables, and what they set or store is the result for what the
/// steps before gave. Each number and each component of a variable is a value of its type. Nothing else of the item
/// changes but helping variables.
pub fn steps_law()
    ensures { StepsDone }
{}

/// An item that stands before a `return` that ends it, behind which more is left to do, does no steps so, whatever the
/// steps are: what stands for a vector statement is not a `return`.
pub fn returns_law()
    ensures { ReturnsRefused }
{}

/// An item that stands at a barrier does no steps so, whatever the steps are and whatever is left behind the barrier:
/// what stands for a vector statement does not begin with one.
pub fn barriers_law()
    ensures { BarriersRefused }
{}

/// Where an element of vectors stands: a number that counts vectors is taken as a `long` times the number of their
/// components, which wraps at 64 bits; so `p[i]` stands that far behind what `p` points to, and `*p` stands where `p`
/// points to (OpenCL 1.2, section 6.1.5).
pub fn offsets_law()
    ensures scaled { NumbersScaled }
    ensures indexed { OffsetsScaled }
    ensures pointed { ContentsStand }
{}

/// In the typed program of each source that is accepted, what stands for every assignment to a vector and every
/// initialiser of one stands in the body of its function, and does its steps so: the target's place, its old
/// components, the leaves of the value from left to right, and then the components of the target. What is set or stored
/// is the list of values of the vector expression, from the values of its leaves by the operators, the functions and
/// lists in parentheses, and behind an operator the old components joined with it (OpenCL 1.2, sections 6.1.6, 6.1.7,
/// 6.2.6, 6.3 and 6.12.3). Its helping variables stand for nothing that the source can name. Numbers that are given for
/// names are below 2 to the power 63.
pub fn statements_law()
    ensures { StatementsDo }
{}

/// The list of values of a vector expression, from the values of its leaves, has the value of each component at its
/// number, and is what a statement sets or stores, where it has no operator of its own.
pub fn vectors_law()
    ensures { VectorsAre }
{}
