// The same program as `run_sheet`, stored with a sheet of 4,097 bytes: its first 4,096 bytes pass the check by themselves.

#![tactic(auto)]

fn main(rt: HostRuntime) {
    program::run_input(&mut rt.stdin(), &rt);
}
