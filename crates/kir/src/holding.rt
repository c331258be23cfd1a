//! Which lines hold a barrier.

ghost use Rattle.std.specs.Prelude.{◌≡◌};
ghost use Rattle.kir.specs.Tree.{NoLine};
ghost use Rattle.kir.specs.Listed.{line_before, lines_of};
ghost use Rattle.kir.specs.Cuts.{holds_barrier};

use crate::line::Line;

/// Whether a barrier stands among the lines.
#[cycle(hold)]
pub fn lines_hold(lines: &[Line]) -> bool
    ensures { result ≡ holds_barrier (lines_of lines.now) }
{
    for line in lines {
        if line_holds(line) {
            return true;
        }
    }
    false
}

/// Whether the line is a barrier or holds one.
#[cycle(hold)]
pub fn line_holds(line: &Line) -> bool
    ensures { result ≡ holds_barrier (line_before line.now NoLine) }
{
    match line {
        Line::Set { .. } | Line::Load { .. } | Line::Store { .. } | Line::Clear { .. } => false,
        Line::If { yes, no, .. } => lines_hold(yes) || lines_hold(no),
        Line::Loop { test, body, .. } => lines_hold(test) || lines_hold(body),
        Line::Barrier { .. } => true,
    }
}
