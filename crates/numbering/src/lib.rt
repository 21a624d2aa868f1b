// Cursors and the numbers of their lines: whether a cursor fits, one moved on to a later place, and the right one of a place.
#![tactic(auto)]

ghost use Rattle.std.specs.Prelude.{◌≡◌, ◌+◌, ◌-◌, ◌≤◌, ◌<◌, length, take, drop};
ghost use Rattle.rules.specs.Lines.{lines};
ghost use Rattle.rules.specs.Number.{cursor_at, cursor_fits, moved_on};

use find::count::count_lf;
use rules::Cursor;

// Whether a cursor's place is in the input, and its number can be that of a line there: not 0, and at most one more than the bytes
// before the place.
pub fn cursor_fits(cursor: Cursor, input: &[u8]) -> bool
    ensures { result ≡ cursor_fits cursor input.now }
{
    cursor.at <= input.len() && 1 <= cursor.line && cursor.line <= cursor.at + 1
}

// A cursor, moved on to a later place: the LFs between are counted.
pub fn move_on(input: &[u8], cursor: Cursor, at: usize) -> Cursor
    requires { (cursor.line ≤ cursor.at + 1) × (cursor.at ≤ at) × (at ≤ length input.now) }
    ensures { result ≡ moved_on input.now cursor at }
{
    let line = cursor.line + count_lf(input, cursor.at, at);
    Cursor { at, line }
}

// A cursor at a line's start, moved on to a later place. That line ends at `first`, and it has at most one LF, its last byte: the LFs are
// counted only where more lines are passed.
pub fn move_over(input: &[u8], cursor: Cursor, first: usize, at: usize) -> Cursor
    requires line_bound { (cursor.line ≤ cursor.at + 1) × (cursor.at < at) × (at ≤ length input.now) }
    requires input_len { length (lines (take (first - cursor.at) (drop cursor.at input.now))) ≡ 1 }
    ensures { result ≡ moved_on input.now cursor at }
{
    if first != at {
        return move_on(input, cursor, at);
    }
    let line = cursor.line + usize::from(input[at - 1] == b'\n');
    Cursor { at, line }
}

// The cursor of a place, its number counted from the top.
pub fn right_cursor(input: &[u8], at: usize) -> Cursor
    requires { at ≤ length input.now }
    ensures { result ≡ cursor_at input.now at }
{
    let line = 1 + count_lf(input, 0, at);
    Cursor { at, line }
}
