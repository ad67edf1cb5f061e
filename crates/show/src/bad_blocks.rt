// The line of a bad text block that is at fault.
ghost use Rattle.std.specs.Prelude.{◌≤◌, length};

use crate::say::run_end;
use crate::texts::line_end;

// Where the first line from a place on begins that has more than its LF.
fn filled_line(source: &[u8], from: usize) -> usize
    requires { from ≤ length source.now }
    ensures { (from ≤ result) × (result ≤ length source.now) }
{
    run_end(source, from, |b| b != b'\n')
}

// The blanks that a line begins with.
fn indent(source: &[u8], from: usize) -> &[u8]
    requires { from ≤ length source.now }
{
    &source[from..run_end(source, from, |b| b != b' ' && b != b'\t')]
}

// The first line of a block that has neither the first one's indent nor nothing but its LF; the first one where it has no indent. From where the block
// starts on.
pub fn line_at_fault(source: &[u8], start: usize) -> usize {
    if source.len() <= start {
        return source.len();
    }
    let first = filled_line(source, line_end(source, start));
    let indent = indent(source, first);
    if indent.is_empty() {
        return first;
    }
    let mut i = first;
    while i < source.len() && source[i..].starts_with(indent) {
        i = filled_line(source, line_end(source, i));
    }
    i
}
