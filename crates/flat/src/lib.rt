// The listing as numbers, for C and Rust: the table is a slice of numbers, seven a record.
#![tactic(auto)]

ghost use Rattle.std.specs.Prelude.{◌≡◌, ◌/◌, length};
ghost use Rattle.std.proofs.Common.{rules};
ghost use Rattle.divider.specs.Readings.{in_reading, left_in};
ghost use Rattle.foot.specs.Foot.{foot_answer};
ghost use Rattle.listing.specs.Answers.{listing_says};
ghost use Rattle.planning.specs.Scopes.{message_buffer, message_listing, scope_answer, scope_buffer};
ghost use Rattle.planning.specs.declared.Scope.{Scope};
ghost use Rattle.flat.specs.Seven.{seven};
ghost use Rattle.flat.specs.Flat.{flat_table, message_table, numbers_of, width};

use copy::copy_at;
use divider::Reading;
use listing::{Listed, ListingError};
use planning::Scope;
use planning::fill::{Layout, list_into};
use rules::{Cursor, TrailerRef, Value};

// How many numbers a record has.
pub const WIDTH: usize = 7;

// The numbers of a record: its token's range, 0 or 1 and the range of its value, its ending, its line.
fn numbers_of(found: TrailerRef) -> [usize; WIDTH]
    ensures { result ≡ numbers_of found }
{
    let (held, value) = match found.value {
        Value::InInput(part) => (0, part),
        Value::InBuffer(part) => (1, part),
    };
    [
        found.token.start,
        found.token.end,
        held,
        value.start,
        value.end,
        usize::from(found.ending),
        found.line,
    ]
}

// A table of numbers.
struct Numbers;

impl Layout for Numbers {
    type Cell = usize;

    ghost WIDTH = { width };

    const WIDTH: usize = WIDTH;

    ghost cells = { numbers_of };

    fn put(found: TrailerRef, table: &mut [usize], at: usize) {
        copy_at(&numbers_of(found), table, at);
    }

    ghost some = { Prim.search rules };

    ghost wide = { seven };
}

// All trailers from the cursor on.
pub fn list_from(
    input: &[u8],
    cursor: Cursor,
    table: &mut [usize],
    out: &mut [u8],
) -> Result<Listed, ListingError>
    ensures result_value { listing_says result ≡ scope_answer input.now (Scope.From cursor) (length table.old / width) (length out.old) }
    ensures table_after { table.new ≡ flat_table input.now (Scope.From cursor) (length out.old) table.old }
    ensures out_after { out.new ≡ scope_buffer input.now (Scope.From cursor) (length table.old / width) out.old }
{
    list_into::<Numbers>(input, Scope::From(cursor), table, out)
}

// All trailers of a message in a reading. Places and numbers count in the message.
pub fn list_trailers(
    message: &[u8],
    reading: Reading,
    table: &mut [usize],
    out: &mut [u8],
) -> Result<Listed, ListingError>
    ensures result_value { listing_says result ≡ in_reading reading (message_listing (length table.old / width) (length out.old)) message.now }
    ensures table_after { table.new ≡ left_in reading (message_table (length out.old)) message.now table.old }
    ensures out_after { out.new ≡ left_in reading (message_buffer (length table.old / width)) message.now out.old }
{
    list_into::<Numbers>(message, Scope::Message(reading), table, out)
}

// The trailers of a body's foot, by the last bytes of the body and whether they are all of it. Places in the input are distances from the
// end, and numbers count upward from the last line.
pub fn list_foot(
    tail: &[u8],
    whole: bool,
    table: &mut [usize],
    out: &mut [u8],
) -> Result<Listed, ListingError>
    ensures result_value { listing_says result ≡ foot_answer tail.now whole (length table.old / width) (length out.old) }
    ensures table_after { table.new ≡ flat_table tail.now (Scope.Foot whole) (length out.old) table.old }
    ensures out_after { out.new ≡ scope_buffer tail.now (Scope.Foot whole) (length table.old / width) out.old }
{
    list_into::<Numbers>(tail, Scope::Foot(whole), table, out)
}
