// A copy into a lent buffer.
#![tactic(auto)]

ghost use Rattle.std.specs.Prelude.{◌≡◌, ◌+◌, ◌≤◌, length};
ghost use Rattle.std.proofs.Math.Seq.{paste};

// Copies all of `src` into `out` from `at` on.
pub fn copy_at<T: Copy>(src: &[T], out: &mut [T], at: usize)
    requires { at + length src.now ≤ length out.old }
    ensures { out.new ≡ paste out.old at src.now (length src.now) }
{
    for i in 0..src.len() {
        out[at + i] = src[i];
    }
}
