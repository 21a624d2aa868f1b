// Lists the trailers of the message on standard input.
#![tactic(auto)]

fn main(rt: HostRuntime) {
    printing::list(&mut rt.stdin(), &mut rt.stdout());
}
