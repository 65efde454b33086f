// The sheet program: a sheet file on standard input, its answer on standard output. try_answers is the same on purpose: a program has one stored case.
#![tactic(auto)]

fn main(rt: HostRuntime) {
    console::answer_input(&rt);
}
