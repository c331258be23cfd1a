//! The unit that tokens spell.

ghost use Rattle.std.specs.Prelude.{◌≡◌, ◌<◌, ◌≤◌, ◌-◌, ◌^◌, length, IfOk, ℕ};
ghost use Rattle.cl_tree.specs.Syntax.{Syntax, view, nesting};
ghost use Rattle.cl_tree.specs.Grammar.{SpellsUnit};
ghost use Rattle.cl_tree.specs.Places.{NoUnit, NoUnitWithin, SomeUnit, DeeperUnit};
ghost use Rattle.cl_parse.specs.Parsing.{Answers, IfSyntax, IfNesting};

use crate::unit::unit;
use cl_read::cursor::Fail;
use cl_read::node::fits;
use cl_token::Token;
use cl_tree::{Tree, leaves};
use std::alloc::Global;
use thiserror::Error;
use wg_num::Memory;

/// Why tokens are no unit. `token` is the number of a token, or how many tokens there are, which means their end.
#[derive(Clone, Copy, PartialEq, Eq, Debug, Error)]
pub enum ParseError {
    /// E301: no unit goes on from the tokens through this one; it is the first such token.
    #[error("syntax")]
    Syntax { token: u32 },
    /// E302: units go on from the tokens through this one, but all of them nest deeper than 256.
    #[error("nested too deep")]
    Nesting { token: u32 },
    #[error("out of memory")]
    Memory,
}

impl From<Memory> for ParseError {
    ghost use Rattle.cl_parse.specs.declared.parser.ParseError.{ParseError};
    ghost use Rattle.cl_parse.specs.declared.parser.ParseError.TheVariants as errors;

    ghost from_gives = { λ _ e. e ≡ errors.Memory };

    fn from(_e: Memory) -> ParseError {
        ParseError::Memory
    }
}

/// The unit that the tokens spell (OpenCL 1.2, chapter 6; C99, sections 6.5 to 6.9). It nests at most 256.
pub fn parse(alloc: Global, tokens: &[Token]) -> Result<Tree, ParseError>
    requires { length tokens.now < 2 ^ 32 - 1 }
    // What is answered is spelled by the tokens.
    ensures found { IfOk result (λ t. SpellsUnit (view t) tokens.now × (nesting (view t) ≤ 256)) }
    // What is spelled is answered, unless memory runs out.
    ensures only { (t : Syntax) → SpellsUnit t tokens.now → nesting t ≤ 256 → Answers result t }

    // No list of tokens that continues the place of a syntax error is a unit.
    ensures syntax { IfSyntax result (λ k. NoUnit tokens.now k) }
    // It is the first such place.
    ensures least { IfSyntax result (λ k. (j : ℕ) → j < k → SomeUnit tokens.now j) }

    // No list of tokens that continues the place of the other error is a unit that nests so little.
    ensures nesting { IfNesting result (λ k. NoUnitWithin 256 tokens.now k) }
    // But some list of them is a unit that nests deeper.
    ensures deeper { IfNesting result (λ k. DeeperUnit 256 tokens.now k) }
{
    let items = leaves(alloc, tokens)?;
    let count = tokens.len();
    match unit(alloc, &items) {
        Ok((node, _)) => {
            if !fits(&node, 256) {
                return Err(ParseError::Nesting {
                    token: count as u32,
                });
            }
            Ok(node.tree)
        }
        Err(Fail::Memory) => Err(ParseError::Memory),
        Err(Fail::Syntax { left }) => Err(ParseError::Syntax {
            token: (count - left) as u32,
        }),
        Err(Fail::Nesting { left: behind }) => Err(ParseError::Nesting {
            token: (count - behind) as u32,
        }),
    }
}
