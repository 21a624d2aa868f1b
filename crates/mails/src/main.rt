// Lists the trailers of the message on standard input that stand above its first divider.
#![tactic(auto)]

fn main(rt: HostRuntime) {
    dividing::list_above_divider(&mut rt.stdin(), &mut rt.stdout());
}
