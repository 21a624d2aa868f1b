// How an answer crosses as numbers: its number is returned, and its values are put into a lent slice.
#![tactic(auto)]

ghost use Rattle.std.specs.Prelude.{◌≡◌, ◌≤◌, ◌<◌, length};
ghost use Rattle.rules.specs.Answers.{says};
ghost use Rattle.numbers.specs.Numbers.{code_of, result_length, result_of};

// How many entries `res` must have: the first says how many values there are, and no answer has more than the others hold.
pub const RESULT_LEN: usize = 16;

// Puts an answer's values after their count at the front of `res`; returns its code.
pub fn put(code: u32, values: &[usize], res: &mut [usize]) -> u32
    requires { (length values.now < result_length) × (result_length ≤ length res.old) }
    ensures value { result ≡ code_of (says code values.now) res.old }
    ensures res_after { res.new ≡ result_of (says code values.now) res.old }
{
    res[0] = values.len();
    res[1..1 + values.len()].copy_from_slice(values);
    code
}
