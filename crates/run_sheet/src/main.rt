// Runs the sheet that stands in standard input, and prints what document 01 says.

#![tactic(auto)]

fn main(rt: HostRuntime) {
    program::run_input(&mut rt.stdin(), &rt);
}
