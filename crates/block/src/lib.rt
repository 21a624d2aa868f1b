// The block walk, by steps: a message, and the contiguous trailers following it.
#![tactic(auto)]

ghost use Rattle.std.specs.Prelude.{◌≡◌, ◌+◌, ◌-◌, ◌≤◌, length};
ghost use Rattle.rules.specs.Division.{blocks_from};
ghost use Rattle.block.specs.Step.{message_length, next_block, part_length};

use rules::BlockPlaces;
use text::line::line_len;
use trailer::line::{parse_trailer_line, trailer_at_start};

// The length of the lines at the front of `cursor`, until a trailer begins.
fn message_len(cursor: &[u8]) -> usize
    ensures { result ≡ message_length cursor.now }
{
    let mut len = 0;
    while len < cursor.len() {
        let rest = &cursor[len..];
        if parse_trailer_line(rest).is_some() {
            return len;
        }
        len += line_len(rest);
    }
    len
}

// The length of the trailers at the front of `cursor`.
fn trailers_len(cursor: &[u8]) -> usize
    ensures { result ≡ part_length cursor.now }
{
    let mut len = 0;
    while let Some(trailer) = trailer_at_start(&cursor[len..]) {
        len += trailer.len;
    }
    len
}

// The first block of `body` from `at` on. Its lines begin at `start`, and where that is before `at`, at `at`.
pub fn next_block_from(body: &[u8], at: usize, start: usize) -> Option<BlockPlaces>
    requires at_in_bounds { at ≤ length body.now }
    requires start_in_bounds { start ≤ length body.now }
    ensures { result ≡ next_block at (blocks_from body.now at start) }
{
    if at == body.len() {
        return None;
    }
    let from = at.max(start);
    let message_end = from + message_len(&body[from..]);
    let end = message_end + trailers_len(&body[message_end..]);
    Some(BlockPlaces { message_end, end })
}
