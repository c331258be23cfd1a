//! Sets of terminals.

ghost use Rattle.std.specs.Prelude.{◌≡◌};
ghost use Rattle.cl_tree.specs.Precedence.{looseness, prefixes, qualifies};
ghost use Rattle.cl_read.specs.Starts.{same, starts_expression, starts_simple, starts_statement, starts_type};
ghost use Rattle.cl_read.specs.Starts.{starts_core};
ghost use Rattle.cl_read.specs.Sets.{in_set};

use cl_tree::Terminal;

/// A set of terminals.
#[derive(Clone, Copy)]
pub enum Set {
    /// One terminal.
    Only(Terminal),
    /// What can begin an expression.
    Expression,
    /// What can begin an expression or its end.
    Simple,
    /// What can begin a statement.
    Statement,
    /// What can begin a type.
    Type,
    /// What can follow a sign in a base type.
    Core,
    /// What can begin a declarator.
    Declarator,
    /// What can begin the heads of a function.
    Head,
    /// What begins a postfix part.
    Postfix,
    /// The operators before an operand that is a cast.
    Prefix,
    /// `=` and the compound assignments.
    Assignment,
    /// The operators of that level, counted from `*`.
    Level(u32),
    /// The words behind a star, or else those around a base type that are no address space.
    Qualifier(bool),
}

/// Whether the terminals are the same one.
pub fn is_same(a: Terminal, b: Terminal) -> bool
    ensures { result ≡ same a b }
{
    a as u8 == b as u8
}

fn begins_expression(terminal: Terminal) -> bool
    ensures { result ≡ starts_expression terminal }
{
    matches!(
        terminal,
        Terminal::Name
            | Terminal::Number
            | Terminal::Truth
            | Terminal::Open
            | Terminal::PlusMinus
            | Terminal::Tilde
            | Terminal::Ampersand
            | Terminal::Star
            | Terminal::Step
            | Terminal::Sizeof
    )
}

fn begins_simple(terminal: Terminal) -> bool
    ensures { result ≡ starts_simple terminal }
{
    match terminal {
        Terminal::Semicolon => true,
        _ => begins_expression(terminal),
    }
}

fn begins_statement(terminal: Terminal) -> bool
    ensures { result ≡ starts_statement terminal }
{
    match terminal {
        Terminal::OpenBrace
        | Terminal::If
        | Terminal::While
        | Terminal::Do
        | Terminal::For
        | Terminal::Switch
        | Terminal::Case
        | Terminal::Default
        | Terminal::Break
        | Terminal::Continue
        | Terminal::Return => true,
        _ => begins_simple(terminal),
    }
}

fn begins_core(terminal: Terminal) -> bool
    ensures { result ≡ starts_core terminal }
{
    matches!(terminal, Terminal::Char | Terminal::Int | Terminal::Length)
}

fn begins_type(terminal: Terminal) -> bool
    ensures { result ≡ starts_type terminal }
{
    match terminal {
        Terminal::Qualifier | Terminal::Space | Terminal::TypeWord | Terminal::Sign => true,
        _ => begins_core(terminal),
    }
}

fn is_prefix(terminal: Terminal) -> bool
    ensures { result ≡ prefixes terminal }
{
    matches!(
        terminal,
        Terminal::PlusMinus | Terminal::Tilde | Terminal::Ampersand | Terminal::Star
    )
}

fn is_qualifier(behind_star: bool, terminal: Terminal) -> bool
    ensures { result ≡ qualifies behind_star terminal }
{
    match terminal {
        Terminal::Qualifier => true,
        Terminal::Restrict => behind_star,
        _ => false,
    }
}

/// How loosely a token behind an expression binds to it.
fn binding(terminal: Terminal) -> u32
    ensures { result ≡ looseness terminal }
{
    match terminal {
        Terminal::Open | Terminal::OpenBracket | Terminal::Step | Terminal::Point => 0,
        Terminal::Star | Terminal::Slash => 1,
        Terminal::PlusMinus => 2,
        Terminal::Shift => 3,
        Terminal::Relation => 4,
        Terminal::Equality => 5,
        Terminal::Ampersand => 6,
        Terminal::Caret => 7,
        Terminal::Bar => 8,
        Terminal::AndAnd => 9,
        Terminal::OrOr => 10,
        Terminal::Question => 11,
        Terminal::Equals | Terminal::Compound => 12,
        Terminal::Comma => 13,
        _ => 14,
    }
}

/// Whether the terminal is in the set.
pub fn contains(set: Set, terminal: Terminal) -> bool
    ensures { result ≡ in_set set terminal }
{
    match set {
        Set::Only(other) => is_same(terminal, other),
        Set::Expression => begins_expression(terminal),
        Set::Simple => begins_simple(terminal),
        Set::Statement => begins_statement(terminal),
        Set::Type => begins_type(terminal),
        Set::Core => begins_core(terminal),
        Set::Declarator => matches!(terminal, Terminal::Star | Terminal::Name),
        Set::Head => matches!(terminal, Terminal::HeadWord | Terminal::Attribute),
        Set::Postfix => matches!(
            terminal,
            Terminal::OpenBracket | Terminal::Step | Terminal::Point
        ),
        Set::Prefix => is_prefix(terminal),
        Set::Assignment => matches!(terminal, Terminal::Equals | Terminal::Compound),
        Set::Level(number) => u64::from(binding(terminal)) == u64::from(number) + 1,
        Set::Qualifier(behind_star) => is_qualifier(behind_star, terminal),
    }
}
