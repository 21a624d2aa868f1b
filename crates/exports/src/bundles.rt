// The calls on bundles: document 02, K11.
ghost use Rattle.std.specs.Prelude.{◌≡◌, length};
ghost use Rattle.bundle.specs.Answers.{count_answer, message_answer};
ghost use Rattle.bundling.specs.Answers.{write_answer, write_buffer};
ghost use Rattle.counting.specs.Answers.{report_answer};
ghost use Rattle.numbers.specs.Numbers.{buffer_of, code_of, result_of};

use crate::SHORT_RESULT;
use answers::Answer;
use bundle::{bundle_count, bundle_message};
use bundling::write_bundle;
use counting::bundle_report;
use numbers::RESULT_LEN;

// Writes the bundle of the messages that the ranges lend.
#[unsafe(no_mangle)]
pub extern "C" fn sluicepod_write_bundle(
    input: &[u8],
    ranges: &[usize],
    out: &mut [u8],
    res: &mut [usize],
) -> u32
    ensures value { result ≡ code_of (write_answer input.now ranges.now (length out.old)) res.old }
    ensures res_after { res.new ≡ result_of (write_answer input.now ranges.now (length out.old)) res.old }
    ensures out_after { out.new ≡ buffer_of (write_buffer input.now ranges.now out.old) out.old res.old }
{
    if res.len() < RESULT_LEN {
        return SHORT_RESULT;
    }
    write_bundle(input, ranges, out).put(res)
}

// The number of messages of a bundle.
#[unsafe(no_mangle)]
pub extern "C" fn sluicepod_bundle_count(bundle: &[u8], res: &mut [usize]) -> u32
    ensures value { result ≡ code_of (count_answer bundle.now) res.old }
    ensures res_after { res.new ≡ result_of (count_answer bundle.now) res.old }
{
    if res.len() < RESULT_LEN {
        return SHORT_RESULT;
    }
    bundle_count(bundle).put(res)
}

// Where message k of a bundle stands in it.
#[unsafe(no_mangle)]
pub extern "C" fn sluicepod_bundle_message(bundle: &[u8], k: usize, res: &mut [usize]) -> u32
    ensures value { result ≡ code_of (message_answer bundle.now k) res.old }
    ensures res_after { res.new ≡ result_of (message_answer bundle.now k) res.old }
{
    if res.len() < RESULT_LEN {
        return SHORT_RESULT;
    }
    bundle_message(bundle, k).put(res)
}

// The report of a bundle.
#[unsafe(no_mangle)]
pub extern "C" fn sluicepod_bundle_report(bundle: &[u8], res: &mut [usize]) -> u32
    ensures value { result ≡ code_of (report_answer bundle.now) res.old }
    ensures res_after { res.new ≡ result_of (report_answer bundle.now) res.old }
{
    if res.len() < RESULT_LEN {
        return SHORT_RESULT;
    }
    bundle_report(bundle).put(res)
}
