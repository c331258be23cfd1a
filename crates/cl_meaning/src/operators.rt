//! Operators.

ghost use Rattle.std.specs.Prelude.{◌≡◌};
ghost use Rattle.cl_meaning.specs.Operators.{binary_in, setting_in, prefix_in, postfix_in};

use crate::table::look_up;
use wg_num::{Bin, Un};

/// An operator before its operand (C99, section 6.5.3): `++` and `--` add or subtract one.
#[derive(Clone, Copy, PartialEq, Eq, Debug)]
pub enum Prefix {
    Step(Bin),
    Operator(Un),
    /// `&`
    Address,
    /// `*`
    Content,
    /// `sizeof`
    Size,
}

/// An operator behind its operand (C99, section 6.5.2): `++` and `--` add or subtract one.
#[derive(Clone, Copy, PartialEq, Eq, Debug)]
pub enum Postfix {
    Index,
    Step(Bin),
}

/// An assignment, or one with an operator (C99, section 6.5.16).
#[derive(Clone, Copy, PartialEq, Eq, Debug)]
pub enum Setting {
    Plain,
    With(Bin),
}

/// The operator on two operands with this word.
#[tactic(auto, unfolding(crate::specs::Operators::binary_in))]
pub fn binary_of(word: &[u8]) -> Option<Bin>
    ensures { result ≡ binary_in word.now }
{
    look_up(
        word,
        &[
            ("+", Bin::Add),
            ("-", Bin::Sub),
            ("*", Bin::Mul),
            ("/", Bin::Div),
            ("%", Bin::Rem),
            ("<<", Bin::Shl),
            (">>", Bin::Shr),
            ("&", Bin::And),
            ("|", Bin::Or),
            ("^", Bin::Xor),
            ("==", Bin::Eq),
            ("!=", Bin::Ne),
            ("<", Bin::Lt),
            ("<=", Bin::Le),
            (">", Bin::Gt),
            (">=", Bin::Ge),
        ],
    )
}

/// The assignment with this word.
#[tactic(auto, unfolding(crate::specs::Operators::setting_in))]
pub fn setting_of(word: &[u8]) -> Option<Setting>
    ensures { result ≡ setting_in word.now }
{
    look_up(
        word,
        &[
            ("=", Setting::Plain),
            ("+=", Setting::With(Bin::Add)),
            ("-=", Setting::With(Bin::Sub)),
            ("*=", Setting::With(Bin::Mul)),
            ("/=", Setting::With(Bin::Div)),
            ("%=", Setting::With(Bin::Rem)),
            ("<<=", Setting::With(Bin::Shl)),
            (">>=", Setting::With(Bin::Shr)),
            ("&=", Setting::With(Bin::And)),
            ("|=", Setting::With(Bin::Or)),
            ("^=", Setting::With(Bin::Xor)),
        ],
    )
}

/// The operator before its operand whose own words these are.
#[tactic(auto, unfolding(crate::specs::Operators::prefix_in))]
pub fn prefix_of(word: &[u8]) -> Option<Prefix>
    ensures { result ≡ prefix_in word.now }
{
    look_up(
        word,
        &[
            ("++", Prefix::Step(Bin::Add)),
            ("--", Prefix::Step(Bin::Sub)),
            ("+", Prefix::Operator(Un::Plus)),
            ("-", Prefix::Operator(Un::Minus)),
            ("~", Prefix::Operator(Un::Flip)),
            ("!", Prefix::Operator(Un::Not)),
            ("&", Prefix::Address),
            ("*", Prefix::Content),
            ("sizeof ( )", Prefix::Size),
        ],
    )
}

/// The operator behind its operand whose own words these are.
#[tactic(auto, unfolding(crate::specs::Operators::postfix_in))]
pub fn postfix_of(word: &[u8]) -> Option<Postfix>
    ensures { result ≡ postfix_in word.now }
{
    look_up(
        word,
        &[
            ("[ ]", Postfix::Index),
            ("++", Postfix::Step(Bin::Add)),
            ("--", Postfix::Step(Bin::Sub)),
        ],
    )
}
