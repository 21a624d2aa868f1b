// All trailers at once (document 02, K1): the plain types that the definitions of specs/ speak of.
#![tactic(auto)]

ghost use Rattle.std.specs.Prelude.{◌≡◌};
ghost use Rattle.listing.specs.declared.ListingError.{ListingError};

use rules::{Cursor, Places, TooLong, TrailerRef};

// The records, and the bytes of the buffer: those that are written, or that are needed.
#[derive(Clone, Copy)]
pub struct Counts {
    pub records: usize,
    pub bytes: usize,
}

// Of a call that lists: what is written; and, of a foot, how many lines were looked at (document 02, K6).
#[derive(Clone, Copy)]
pub struct Listed {
    pub counts: Counts,
    pub looked: Option<usize>,
}

// Why a call that lists refuses; `ShortTable` and `NoRoom` have the counts needed, and `MoreBytes` is for a foot alone.
#[derive(Clone, Copy)]
pub enum ListingError {
    TooLong,
    BadPlace,
    MoreBytes,
    ShortTable(Counts),
    NoRoom(Counts),
}

impl From<TooLong> for ListingError {
    ghost from_gives = { λ _ e. e ≡ ListingError.TooLong };

    fn from(_over: TooLong) -> ListingError {
        ListingError::TooLong
    }
}

// A record that is told from the end has its places as distances from the end of `size` bytes, and its line is counted upward from the
// last of the `lines` that stand from the walk's start on.
#[derive(Clone, Copy)]
pub struct FromEnd {
    pub size: usize,
    pub lines: usize,
}

// Where a listing stands: the walk's cursor, where the trailer ahead stands, and what is written so far.
#[derive(Clone, Copy)]
pub struct Spot {
    pub cursor: Cursor,
    pub ahead: Option<Places>,
    pub done: Counts,
}

// Where a listing begins that is not refused: how far the input is read; the spot; of a foot, the lines looked at; and how its records are
// told, from the front or from the end.
#[derive(Clone, Copy)]
pub struct Beginning {
    pub end: usize,
    pub spot: Spot,
    pub looked: Option<usize>,
    pub told: Option<FromEnd>,
}

// Of `list_step`: the next record, and where the listing stands after it.
#[derive(Clone, Copy)]
pub struct Step {
    pub found: TrailerRef,
    pub next: Spot,
}
