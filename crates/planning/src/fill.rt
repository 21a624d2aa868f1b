// The loop that lists, into a table whose cells are of any kind.
ghost use Rattle.std.specs.Prelude.{List, ◌≡◌, ℕ, ◌+◌, ◌/◌, ◌≤◌, ◌<◌, length};
ghost use Rattle.rules.specs.Answers.{afterwards};
ghost use Rattle.rules.specs.declared.TrailerRef.{TrailerRef};
ghost use Rattle.copy.specs.Onto.{onto};
ghost use Rattle.listing.specs.Answers.{listing_says};
ghost use Rattle.listing.specs.Turns.{laid};
ghost use Rattle.planning.specs.Scopes.{scope_answer, scope_buffer, scope_records};

use crate::{Scope, begin, list_step};
use listing::{Listed, ListingError};
use rules::TrailerRef;

// How a table holds records: each as `WIDTH` cells, of which there is at least one.
pub trait Layout {
    type Cell;

    ghost WIDTH: { ℕ };

    const WIDTH: usize;

    ghost cells: { TrailerRef → List Self.Cell };

    // Puts the cells of a record into `table` from `at` on.
    fn put(found: TrailerRef, table: &mut [Self::Cell], at: usize)
        requires { at + WIDTH ≤ length table.old }
        ensures { table.new ≡ onto at (cells found) table.old };

    ghost some: { 0 < WIDTH };

    ghost wide: { (r : TrailerRef) → length (cells r) ≡ WIDTH };
}

// What is listed of an input: the records into `table`, the unfolded values one behind another into `out`. Everything is decided where the
// listing begins, and made by the step; this loop stores.
pub fn list_into<L: Layout>(
    input: &[u8],
    scope: Scope,
    table: &mut [L::Cell],
    out: &mut [u8],
) -> Result<Listed, ListingError>
    ensures answer { listing_says result ≡ scope_answer input.now scope (length table.old / L.WIDTH) (length out.old) }
    ensures table_after { table.new ≡ afterwards (scope_answer input.now scope (length table.old / L.WIDTH) (length out.old)) (laid L.cells (scope_records input.now scope)) table.old }
    ensures out_after { out.new ≡ scope_buffer input.now scope (length table.old / L.WIDTH) out.old }
{
    let begun = begin(input, scope, table.len() / L::WIDTH, out.len())?;
    let text = &input[..begun.end];
    let mut spot = begun.spot;
    let mut at: usize = 0;
    while let Some(places) = spot.ahead {
        let step = list_step(text, spot, places, begun.told, out);
        L::put(step.found, table, at);
        spot = step.next;
        at += L::WIDTH;
    }
    Ok(Listed {
        counts: spot.done,
        looked: begun.looked,
    })
}
