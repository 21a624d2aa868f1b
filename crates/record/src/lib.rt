// The record of a trailer, read from where the trailer stands.
#![tactic(auto)]

ghost use Rattle.std.specs.Prelude.{◌≡◌, ◌-◌, ◌≤◌, ltb, length, take, drop};
ghost use Rattle.rules.specs.Record.{fitted, written_of};
ghost use Rattle.rules.specs.Trailer.{value_is_written};
ghost use Rattle.record.specs.Read.{trailer_read};

use rules::{Part, Places, Refusal, TrailerRef};
use text::line::trim_line_ending;
use value::read_value;

// The record of the trailer that stands at the places `at` of `body`, on the line with the number `line`. A folded value is written
// to the front of `out`. The bytes after the colon end as the trailer's last line does.
pub fn read_trailer(
    body: &[u8],
    at: Places,
    line: usize,
    out: &mut [u8],
) -> Result<TrailerRef, Refusal>
    requires value_start_bound { (at.value_start ≤ at.end) × (at.end ≤ length body.now) }
    requires body_value { value_is_written (take (at.end - at.value_start) (drop at.value_start body.now)) ≡ ltb at.first_end at.end }
    ensures value { result ≡ trailer_read line at (take (at.end - at.value_start) (drop at.value_start body.now)) (length out.old) }
    ensures out_after { out.new ≡ fitted (written_of (take (at.end - at.value_start) (drop at.value_start body.now))) out.old }
{
    let ending = trim_line_ending(&body[at.value_start..at.end]).ending;
    let value = read_value(body, at.value_start, at.first_end, at.end, out)?;
    Ok(TrailerRef {
        token: Part {
            start: at.start,
            end: at.token_end,
        },
        value,
        ending,
        line,
    })
}
