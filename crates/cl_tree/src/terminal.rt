//! The terminals of the grammar: the words that stand at the same places of it are one terminal.

ghost use Rattle.std.specs.Prelude.{◌≡◌, ◌<◌, ◌-◌, ◌^◌, length, IfOk};
ghost use Rattle.cl_tree.specs.Words.{terminal_of};
ghost use Rattle.cl_tree.specs.Leaves.{leaves_of};

use crate::words::{bracket, control_word};
use cl_token::{Kind, Token};
use std::alloc::Global;
use wg_num::{Memory, Word};

/// A word of the grammar, or several words that stand at the same places of it.
#[derive(Clone, Copy, PartialEq, Eq, Debug)]
pub enum Terminal {
    /// A name that a source gives to a variable, an array or a function.
    Name,
    Number,
    /// `true`, `false`
    Truth,
    /// `__kernel`, `kernel`, `inline`, `static`
    HeadWord,
    /// `__attribute__`
    Attribute,
    /// `reqd_work_group_size`, `work_group_size_hint`
    AttributeName,
    Void,
    /// A word that is a whole base type by itself.
    TypeWord,
    /// `signed`, `unsigned`
    Sign,
    Char,
    Int,
    /// `short`, `long`
    Length,
    /// `const`, `volatile`
    Qualifier,
    /// `restrict`, `__restrict`
    Restrict,
    /// An address space.
    Space,
    If,
    Else,
    While,
    Do,
    For,
    Switch,
    Case,
    Default,
    Break,
    Continue,
    Return,
    Sizeof,
    OpenBrace,
    CloseBrace,
    Open,
    Close,
    OpenBracket,
    CloseBracket,
    Semicolon,
    Comma,
    Colon,
    Question,
    /// `=`
    Equals,
    /// `+=` and the other compound assignments.
    Compound,
    OrOr,
    AndAnd,
    Bar,
    Caret,
    Ampersand,
    /// `==`, `!=`
    Equality,
    /// `<`, `>`, `<=`, `>=`
    Relation,
    /// `<<`, `>>`
    Shift,
    /// `+`, `-`
    PlusMinus,
    /// `*`
    Star,
    /// `/`, `%`
    Slash,
    /// `~`, `!`
    Tilde,
    /// `++`, `--`
    Step,
    /// `.`
    Point,
    /// A token that stands nowhere in the grammar.
    Other,
}

/// A token at its place among the tokens.
#[derive(Drop)]
pub struct Leaf {
    /// The number of the token, from 0.
    pub number: u32,
    pub terminal: Terminal,
    /// The spelling of the token.
    pub word: Word,
}

/// The terminal that a token is.
#[tactic(auto, unfolding(crate::specs::Words::terminal_of))]
pub fn classify(token: &Token) -> Terminal
    ensures { result ≡ terminal_of token.now.kind token.now.word }
{
    let word = token.word.bytes();
    match token.kind {
        Kind::Name => control_word(word),
        Kind::Number => Terminal::Number,
        Kind::Mark => bracket(word),
        Kind::Hash => Terminal::Other,
    }
}

/// The tokens with their numbers and terminals.
#[tactic(auto, using(crate::proofs::Tables::leaves_take))]
pub fn leaves(alloc: Global, tokens: &[Token]) -> Result<Vec<Leaf>, Memory>
    requires { length tokens.now < 2 ^ 32 - 1 }
    ensures { IfOk result (λ v. v.items ≡ leaves_of 0 tokens.now) }
{
    let mut all = Vec::new(alloc);
    let mut number = 0;
    for token in tokens {
        let terminal = classify(token);
        let word = token.word.copy(alloc)?;
        let leaf = Leaf {
            number,
            terminal,
            word,
        };
        if all.push(leaf).is_err() {
            return Err(Memory);
        }
        number += 1;
    }
    Ok(all)
}
