// The filters of the trailer walk, by the kind of a token and by a name: which trailers a step answers.
#![tactic(auto)]

pub mod token;

ghost use Rattle.std.specs.Fn.{FnReturnsAt};
ghost use Rattle.std.specs.Prelude.{Bool, List, ◌≡◌, ℕ, ◌≤◌, length};
ghost use Rattle.rules.specs.Trailer.{asked, attribution, author, is_of, lookup, only, those, walk_from};
ghost use Rattle.trailer.specs.Walk.{next_of};
ghost use Rattle.filter.specs.Lookup.{Computes, looked_up};

use crate::token::{
    is_acked_by, is_assisted_by, is_co_authored_by, is_reviewed_by, is_signed_off_by, is_tested_by,
};
use rules::{Kind, Places};
use text::fixed::eq_ignore_ascii_case;
use trailer::walk::Trailers;

// Whether a token is one of the two that name an author.
fn is_author(token: &[u8]) -> bool
    ensures { result ≡ author token.now }
{
    is_signed_off_by(token) | is_co_authored_by(token)
}

// Whether a token is one of the six attribution tokens.
fn is_attribution(token: &[u8]) -> bool
    ensures { result ≡ attribution token.now }
{
    is_signed_off_by(token)
        | is_co_authored_by(token)
        | is_assisted_by(token)
        | is_acked_by(token)
        | is_reviewed_by(token)
        | is_tested_by(token)
}

// Whether a token is of a kind.
pub fn is_of(kind: Kind, token: &[u8]) -> bool
    ensures { result ≡ is_of kind token.now }
{
    match kind {
        Kind::All => true,
        Kind::SignedOffBy => is_signed_off_by(token),
        Kind::CoAuthoredBy => is_co_authored_by(token),
        Kind::AssistedBy => is_assisted_by(token),
        Kind::AckedBy => is_acked_by(token),
        Kind::ReviewedBy => is_reviewed_by(token),
        Kind::TestedBy => is_tested_by(token),
        Kind::Attribution => is_attribution(token),
        Kind::Author => is_author(token),
    }
}

// Whether a token has the name, ASCII case aside. An empty name is no token's.
fn is_named(name: &[u8], token: &[u8]) -> bool
    ensures { result ≡ asked name.now token.now }
{
    !name.is_empty() && eq_ignore_ascii_case(name, token)
}

// The first trailer of the walk from `at` on whose token is wanted; the others are passed over.
fn next_wanted<F: Fn(&[u8]) -> bool>(body: &[u8], at: usize, is_wanted: F) -> Option<Places>
    requires callable { F.IsAlwaysCallable is_wanted }
    requires at_in_bounds { at ≤ length body.now }
    ensures { (passes : List ℕ → Bool) → Computes (FnReturnsAt F.Fn is_wanted) passes → result ≡ next_of (those passes (walk_from body.now at)) }
{
    for places in (Trailers { body, at }) {
        if is_wanted(&body[places.start..places.token_end]) {
            return Some(places);
        }
    }
    None
}

// The first trailer of the walk from `at` on whose token is of the kind.
pub fn next_of(body: &[u8], at: usize, kind: Kind) -> Option<Places>
    requires { at ≤ length body.now }
    ensures { result ≡ next_of (only kind (walk_from body.now at)) }
{
    next_wanted(body, at, |token| is_of(kind, token))
}

// The last trailer of the walk from `at` on that has the name: each that has it takes the place of the one before.
pub fn find_named(body: &[u8], at: usize, name: &[u8]) -> Option<Places>
    requires { at ≤ length body.now }
    ensures { result ≡ looked_up (lookup name.now (walk_from body.now at)) }
{
    let mut last = None;
    let mut next = at;
    while let Some(places) = next_wanted(body, next, |token| is_named(name, token)) {
        last = Some(places);
        next = places.end;
    }
    last
}
