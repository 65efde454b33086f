// The sheet program again, for a second stored file: one with a sheet for every path, alternative and choice, and for refusals (oracle/replay makes it).
#![tactic(auto)]

fn main(rt: HostRuntime) {
    console::answer_input(&rt);
}
