// Prints the reading of the message on standard input.
#![tactic(auto)]

fn main(rt: HostRuntime) {
    explaining::explain(&mut rt.stdin(), &mut rt.stdout());
}
