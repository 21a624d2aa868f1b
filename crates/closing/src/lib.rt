// The closing note: its three fields, the faults for which one is refused, and the answers of the calls. The definitions beside
// them say which answer an entry has, and the theorems that it is the only one.
#![tactic(auto)]

ghost use Rattle.std.specs.Prelude.{◌≡◌};
ghost use Rattle.closing.specs.Answers.{fault_number, field_number};
ghost use Rattle.closing.specs.declared.NoteError.{NoteError};

use rules::{Part, TooLong};

// A field of the closing note, in the order in which refusals name them.
#[derive(Clone, Copy, Debug, PartialEq, Eq)]
pub enum Field {
    Vehicle,
    Records,
    OffloadState,
}

// A field by its number, which counts from 0.
impl From<Field> for usize {
    ghost from_gives = { λ field n. n ≡ field_number field };

    fn from(field: Field) -> usize {
        match field {
            Field::Vehicle => 0,
            Field::Records => 1,
            Field::OffloadState => 2,
        }
    }
}

// Why trailers are no closing note: a field is missing, is repeated, or has a bad content.
#[derive(Clone, Copy, Debug, PartialEq, Eq)]
pub enum Fault {
    Missing,
    Repeated,
    BadContent,
}

// A fault by the number of its refusal.
impl From<Fault> for u32 {
    ghost from_gives = { λ fault n. n ≡ fault_number fault };

    fn from(fault: Fault) -> u32 {
        match fault {
            Fault::Missing => 9,
            Fault::Repeated => 10,
            Fault::BadContent => 11,
        }
    }
}

// A closing note: the vehicle, a part of the message; the count; and whether the state is complete.
#[derive(Clone, Copy)]
pub struct Note {
    pub vehicle: Part,
    pub records: usize,
    pub complete: bool,
}

// Why there is no closing note: the message is over the limit; or, after that, the lowest fault with the first field that has it.
#[derive(Clone, Copy, Debug, PartialEq, Eq)]
pub enum NoteError {
    TooLong,
    Refused { fault: Fault, field: Field },
}

impl From<TooLong> for NoteError {
    ghost from_gives = { λ _ e. e ≡ NoteError.TooLong };

    fn from(_over: TooLong) -> NoteError {
        NoteError::TooLong
    }
}
