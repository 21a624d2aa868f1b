// What is found of each field's name among the trailers of a walk, in one pass.
ghost use Rattle.std.specs.Prelude.{◌≡◌, ◌≤◌, ◌<◌, ◌^◌, length};
ghost use Rattle.rules.specs.Trailer.{walk_from};
ghost use Rattle.closing.specs.Closing.{has};
ghost use Rattle.fields.specs.Tally.{TalliesOf, counted, how_many};

use closing::Field;
use rules::Part;
use text::fixed::eq_ignore_ascii_case;
use trailer::walk::Trailers;

// The trailers with a name: one alone, and where its raw value stands; or more, how many, and where that of the last stands.
#[derive(Clone, Copy)]
pub enum Found {
    Once(Part),
    Repeated(usize, Part),
}

// Those of each field; none where no trailer has its name.
#[derive(Clone, Copy)]
pub struct Tallies {
    pub vehicle: Option<Found>,
    pub records: Option<Found>,
    pub state: Option<Found>,
}

// Whether a token is the field's name, ASCII case aside.
fn is_field(field: Field, token: &[u8]) -> bool
    ensures { result ≡ has field token.now }
{
    match field {
        Field::Vehicle => eq_ignore_ascii_case(b"Vehicle", token),
        Field::Records => eq_ignore_ascii_case(b"Records", token),
        Field::OffloadState => eq_ignore_ascii_case(b"Offload-state", token),
    }
}

// One trailer more, if its token is the field's name.
fn count(found: Option<Found>, field: Field, token: &[u8], raw: Part) -> Option<Found>
    requires { how_many found < 2 ^ 63 }
    ensures { result ≡ counted found (has field token.now) raw }
{
    if !is_field(field, token) {
        return found;
    }
    match found {
        None => Some(Found::Once(raw)),
        Some(Found::Once(_)) => Some(Found::Repeated(2, raw)),
        Some(Found::Repeated(count, _)) => Some(Found::Repeated(count + 1, raw)),
    }
}

// What is found in the walk from `at` on.
pub fn tally_fields(message: &[u8], at: usize) -> Tallies
    requires { at ≤ length message.now }
    ensures { TalliesOf (walk_from message.now at) result }
{
    let mut tallies = Tallies {
        vehicle: None,
        records: None,
        state: None,
    };
    for places in (Trailers { body: message, at }) {
        let token = &message[places.start..places.token_end];
        let raw = Part {
            start: places.value_start,
            end: places.end,
        };
        let vehicle = count(tallies.vehicle, Field::Vehicle, token, raw);
        let records = count(tallies.records, Field::Records, token, raw);
        let state = count(tallies.state, Field::OffloadState, token, raw);
        tallies = Tallies {
            vehicle,
            records,
            state,
        };
    }
    tallies
}
