// The book runner: standard input to standard output, from an empty book. Whether its last line is `end` tells a
// reader that a transcript is whole; the exit status does not.
#![tactic(auto)]

fn main(rt: HostRuntime) {
    let mut reader = rt.stdin();
    let mut writer = rt.stdout();
    program::run(&rt, &mut reader, &mut writer);
}
