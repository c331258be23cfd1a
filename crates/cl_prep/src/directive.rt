//! Directives and conditionals.
ghost use Rattle.std.specs.Prelude.{◌≡◌, ◌≤◌, length};
ghost use Rattle.std.specs.Option.{option_copied};
ghost use Rattle.std.specs.List.{prefix_len};
ghost use Rattle.std.specs.Str.{bytes_eq};
ghost use Rattle.cl_prep.specs.Directives as spec;

use cl_token::{Kind, Token};

/// A directive, by its word (C99, section 6.10).
#[derive(Clone, Copy, PartialEq, Eq, Debug)]
pub enum Directive {
    Define,
    Undef,
    Ifdef,
    Ifndef,
    Else,
    Endif,
    /// `#if` or `#elif`.
    If,
    Pragma,
    Other,
}

/// A conditional that is open.
#[derive(Clone, Copy, PartialEq, Eq, Debug)]
pub struct Conditional {
    /// The number of the `#` that opened it.
    pub token: u32,
    /// Whether the part that is being read is to be taken.
    pub taken: bool,
    /// Whether its `#else` has been read.
    pub otherwise: bool,
}

fn is_word(word: &[u8], text: &[u8]) -> bool
    ensures { result ≡ bytes_eq word.now text.now }
{
    word == text
}

/// The directive that a word names.
fn directive_named(word: &[u8]) -> Directive
    ensures { result ≡ spec.directive_named word.now }
{
    if is_word(word, b"define") {
        Directive::Define
    } else if is_word(word, b"undef") {
        Directive::Undef
    } else if is_word(word, b"ifdef") {
        Directive::Ifdef
    } else if is_word(word, b"ifndef") {
        Directive::Ifndef
    } else if is_word(word, b"else") {
        Directive::Else
    } else if is_word(word, b"endif") {
        Directive::Endif
    } else if is_word(word, b"if") || is_word(word, b"elif") {
        Directive::If
    } else if is_word(word, b"pragma") {
        Directive::Pragma
    } else {
        Directive::Other
    }
}

/// The directive that the token behind a `#` names.
#[tactic(auto, unfolding(crate::specs::Directives::directive_of))]
pub(crate) fn directive_of(token: &Token) -> Directive
    ensures { result ≡ spec.directive_of token.now }
{
    if token.kind == Kind::Name {
        directive_named(token.word.bytes())
    } else {
        Directive::Other
    }
}

pub(crate) fn begins_directive(token: &Token) -> bool
    ensures { result ≡ spec.begins_directive token.now }
{
    token.kind == Kind::Hash && token.first
}

/// How many tokens stand before the next line.
pub(crate) fn line_length(tokens: &[Token]) -> usize
    ensures run { result ≡ prefix_len spec.is_inside tokens.now }
    ensures within { result ≤ length tokens.now }
{
    tokens.iter().take_while(|token| !token.first).count()
}

/// The first argument, if it is a name.
pub(crate) fn name_in(args: &[Token]) -> Option<&Token>
    ensures { option_copied result ≡ spec.name_in args.now }
{
    match args.first() {
        Some(name) if name.kind == Kind::Name => Some(name),
        _ => None,
    }
}

/// Whether an opening parenthesis stands directly behind the name.
pub(crate) fn has_parameters(name: &Token, behind: &[Token]) -> bool
    ensures { result ≡ spec.has_parameters name.now behind.now }
{
    match behind.first() {
        Some(next) => {
            next.kind == Kind::Mark && is_word(next.word.bytes(), b"(") && next.start == name.end
        }
        None => false,
    }
}
