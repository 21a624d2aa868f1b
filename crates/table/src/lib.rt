// All trailers at once, into a table of records and a buffer that are lent.
#![tactic(auto)]

ghost use Rattle.std.specs.Prelude.{[], ◌∷◌, refl};
ghost use Rattle.std.proofs.Common.{rules};
ghost use Rattle.planning.specs.Scopes.{Lists};

use listing::{Listed, ListingError};
use planning::Scope;
use planning::fill::{Layout, list_into};
use rules::TrailerRef;

// A table of the records themselves, one cell each.
struct Records;

impl Layout for Records {
    type Cell = TrailerRef;

    ghost WIDTH = { 1 };

    const WIDTH: usize = 1;

    ghost cells = { λ r. r ∷ [] };

    fn put(found: TrailerRef, table: &mut [TrailerRef], at: usize) {
        table[at] = found;
    }

    ghost some = { Prim.search rules };

    ghost wide = { λ r. refl };
}

// What is listed of an input: the records into `table`, the unfolded values one behind another into `out`.
pub fn list(
    input: &[u8],
    scope: Scope,
    table: &mut [TrailerRef],
    out: &mut [u8],
) -> Result<Listed, ListingError>
    ensures { Lists input.now scope table.old out.old result table.new out.new }
{
    list_into::<Records>(input, scope, table, out)
}
