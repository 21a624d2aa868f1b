// The answers of the calls as numbers: for each its number and the values that are said of it (crates/rules/specs/Answers, and the specs of the
// crates that document 02 adds), put into a lent slice.
#![tactic(auto)]

pub mod additions;
pub mod bundles;
pub mod calls;
pub mod closings;
pub mod commits;
pub mod lists;
pub mod who;

ghost use Rattle.std.specs.Prelude.{[], ◌∷◌, ◌≡◌, ◌≤◌, length};
ghost use Rattle.rules.specs.Answers.{Said, either_says, flag_values, says};
ghost use Rattle.numbers.specs.Numbers.{code_of, result_length, result_of};

use numbers::put;

// What a call answers, or why it refuses.
pub trait Answer {
    // What is said of it: a number, and values.
    ghost said: { Self → Said };

    // Puts the values after their count at the front of `res`; returns the number.
    fn put(self, res: &mut [usize]) -> u32
        requires { result_length ≤ length res.old }
        ensures code { result ≡ code_of (said self) res.old }
        ensures res_after { res.new ≡ result_of (said self) res.old };
}

// The answer of a call that may refuse.
impl<A: Answer, E: Answer> Answer for Result<A, E> {
    ghost said = { either_says A.said E.said };

    fn put(self, res: &mut [usize]) -> u32 {
        match self {
            Ok(answer) => answer.put(res),
            Err(error) => error.put(res),
        }
    }
}

// A length, a place or a count.
impl Answer for usize {
    ghost said = { λ n. says 0 (n ∷ []) };

    fn put(self, res: &mut [usize]) -> u32 {
        put(0, &[self], res)
    }
}

// 1 for yes, 0 for no.
impl Answer for bool {
    ghost said = { λ b. says 0 (flag_values b) };

    fn put(self, res: &mut [usize]) -> u32 {
        put(0, &[usize::from(self)], res)
    }
}
