// The foot of a body (document 02, K6): whether its last bytes are enough, and where the walk of their trailers begins. It is read from the
// end upwards, to the blank line above the last paragraph.
#![tactic(auto)]

ghost use Rattle.std.specs.Prelude.{◌≡◌, ◌≤◌, length};
ghost use Rattle.foot.specs.Found.{foot_found, lines_from};

use find::count::count_lf;
use paragraph::last_paragraph;
use text::line::line_start;

// The foot of a body: where the walk of its trailers begins, how many lines stand from there on, and how many were looked at.
#[derive(Clone, Copy)]
pub struct Foot {
    pub at: usize,
    pub lines: usize,
    pub looked: usize,
}

// How many lines stand from `at` on: one, and one more for each LF before the last byte.
fn count_lines(s: &[u8], at: usize) -> usize
    requires { at ≤ length s.now }
    ensures { result ≡ lines_from s.now at }
{
    let end = s.len();
    if at == end {
        return 0;
    }
    1 + count_lf(s, at, end - 1)
}

// The foot that the last bytes of a body hold, all of it or not; none where more bytes are needed. Where they aren't all, they are enough
// if the blank line above the paragraph is not their first line, which is torn.
pub fn find_foot(tail: &[u8], whole: bool) -> Option<Foot>
    ensures { result ≡ foot_found tail.now whole }
{
    let paragraph = last_paragraph(tail);
    let top = line_start(tail, paragraph.start);
    if !whole & (top == 0) {
        return None;
    }
    let at = if paragraph.scan.is_block() {
        paragraph.start
    } else {
        tail.len()
    };
    let lines = count_lines(tail, at);
    let looked = count_lines(tail, top);
    Some(Foot { at, lines, looked })
}
