// Reports the bundle on standard input.
#![tactic(auto)]

fn main(rt: HostRuntime) {
    reporting::report(&mut rt.stdin(), &mut rt.stdout());
}
