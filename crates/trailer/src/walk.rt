// The trailer walk, by steps over the lines.
ghost use Rattle.std.specs.Iterator.{at_most};
ghost use Rattle.std.specs.Prelude.{◌≡◌, ◌-◌, ◌≤◌, length};
ghost use Rattle.rules.specs.Trailer.{walk_from};
ghost use Rattle.trailer.specs.Walk.{Passes, next_of};

use crate::line::trailer_at_start;
use rules::Places;
use text::line::line_len;

// The trailers of the walk of `body` from `at` on, by their places.
#[derive(Clone, Copy)]
pub struct Trailers<'a> {
    pub body: &'a [u8],
    pub at: usize,
    ghost inside: { at ≤ length body.now },
}

impl<'a> Iterator for Trailers<'a> {
    type Item = Places;

    ghost next_gives = { λ before found after. Passes before.body.now before.at found after.body.now after.at };

    ghost remaining = { λ left. at_most (length left.body.now - left.at) };

    fn next(&mut self) -> Option<Places> {
        let places = next_trailer_from(self.body, self.at)?;
        self.at = places.end;
        Some(places)
    }
}

// The first trailer of the walk from `at` on: each line that begins no trailer is skipped alone. No token begins with a byte up to the space: the
// line end and the blank line with which most blocks start are known by their first byte.
pub fn next_trailer_from(body: &[u8], at: usize) -> Option<Places>
    requires { at ≤ length body.now }
    ensures { result ≡ next_of (walk_from body.now at) }
{
    let mut start = at;
    while start < body.len() {
        if body[start] > b' ' {
            if let Some(found) = trailer_at_start(&body[start..]) {
                return Some(Places {
                    start,
                    token_end: start + found.token_end,
                    value_start: start + found.value_start,
                    first_end: start + found.first,
                    end: start + found.len,
                });
            }
        }
        start += line_len(&body[start..]);
    }
    None
}
