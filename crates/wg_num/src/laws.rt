//! The laws of values, each as the contract of a call that does nothing.

ghost use Rattle.std.specs.Prelude.{◌+ℤ◌, ◌-ℤ◌, ◌*ℤ◌};
ghost use Rattle.wg_num.specs.Laws.{WrapIsTheValue, WrapIsAValue, WrapKeepsValues, WrapsLate, UnaryGivesValues};
ghost use Rattle.wg_num.specs.Laws.{BinaryGivesValues, BuiltinGivesValues, PatternGivesValue, ValueGivesPattern};
ghost use Rattle.wg_num.specs.Laws.{BytesGiveValue, BytesAreSize, LowHalfDecides};

/// `wrap` gives the one value of the type that is congruent to the number.
pub fn wrap_law()
    ensures a_value { WrapIsAValue }
    ensures the_value { WrapIsTheValue }
    ensures keeps { WrapKeepsValues }
{}

/// What is wrapped before a sum, a difference or a product does not show behind it.
pub fn late_wrap_law()
    ensures sums { WrapsLate (λ a b. a +ℤ b) }
    ensures differences { WrapsLate (λ a b. a -ℤ b) }
    ensures products { WrapsLate (λ a b. a *ℤ b) }
{}

/// Each operator and built-in function gives a value of its result's type.
pub fn result_law()
    ensures unary { UnaryGivesValues }
    ensures binary { BinaryGivesValues }
    ensures builtin { BuiltinGivesValues }
{}

/// Values and their patterns stand for one another.
pub fn pattern_law()
    ensures value { PatternGivesValue }
    ensures pattern { ValueGivesPattern }
    ensures low_half { LowHalfDecides }
{}

/// The bytes of a value give it back.
pub fn bytes_law()
    ensures value { BytesGiveValue }
    ensures size { BytesAreSize }
{}
