// The one line of a raw value that trims to something, found with no buffer.
ghost use Rattle.std.specs.Prelude.{◌≤◌, length};
ghost use Rattle.fields.specs.Sole.{KeptAt, SoleAt};

use rules::Part;
use text::line::line_len;
use white::trim;

// A line that trims to something: what is kept of it, and where the line ends.
#[derive(Clone, Copy)]
pub struct Kept {
    pub part: Part,
    pub next: usize,
}

// The first line from `at` on that trims to something.
fn next_kept(value: &[u8], at: usize) -> Option<Kept>
    requires { at ≤ length value.now }
    ensures { KeptAt value.now at result }
{
    let mut from = at;
    while from < value.len() {
        let next = from + line_len(&value[from..]);
        let kept = trim(&value[from..next]);
        if kept.start < kept.end {
            let start = from + kept.start;
            let end = from + kept.end;
            let part = Part { start, end };
            return Some(Kept { part, next });
        }
        from = next;
    }
    None
}

// The part of the one line that trims to something; none where no line does, or more than one.
pub fn sole_line(value: &[u8]) -> Option<Part>
    ensures { SoleAt value.now result }
{
    let first = next_kept(value, 0)?;
    match next_kept(value, first.next) {
        None => Some(first.part),
        Some(_) => None,
    }
}
