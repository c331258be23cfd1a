//! A unit without faults has a valid typed program: what its expressions stand for has the types that they have, and
//! the typed unit is a program as the model asks for.
#![tactic(auto)]

ghost use Rattle.cl_check_sound.specs.Law.{
  ExpressionsFit,
  NoneSelected,
  NumbersKept,
  UnitsShaped,
  UnitsValid,
  WideShaped,
};

/// Expressions in which no node is at fault have a kind, and the pieces of the typed program for which they
/// stand have the types that the validity of programs asks (OpenCL 1.2, section 6.2; C99, section 6.5).
pub fn expression_law()
    ensures { ExpressionsFit }
{}

/// Each number among the tokens to which a source expands has a type and a value, where each number that is given
/// for a name is below 2 to the power 63 (C99, sections 6.4.4.1 and 6.10.3). A larger one has no type, being decimal.
pub fn numbers_law()
    ensures { NumbersKept }
{}

/// A tree without selections of components that tokens spell by the grammar has the shape of a unit, where each number
/// among them has a value: each production has the parts that it may have, and the own words of types, operators and
/// numbers say something (OpenCL 1.2, chapter 6; C99, sections 6.5 to 6.9).
pub fn shape_law()
    ensures { UnitsShaped }
{}

/// Each tree that tokens spell, where each number among them has a value, has the wide shape of a unit: the same, but
/// that selections of components stand in it, a point and a name behind an operand (OpenCL 1.2, section 6.1.7).
pub fn wide_shape_law()
    ensures { WideShaped }
{}

/// In a tree that has the shape of a unit, and not only the wide one, no selection of components stands.
pub fn selection_law()
    ensures { NoneSelected }
{}

/// A unit of the shape without selections in which no node is at fault, and whose kernel keeps the limits, stands for a
/// valid program: its types fit, each variable is declared once and named behind its declaration alone, `break` and
/// `continue` stand in loops and switches, no two operations have one site, calls end, tables have their bytes, and
/// what the kernel runs is no larger than a program may be (OpenCL 1.2, chapter 6; C99, sections 6.5 to 6.9).
pub fn valid_law()
    ensures { UnitsValid }
{}
