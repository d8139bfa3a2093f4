// Replays the stored list of udu.
#![tactic(auto)]

fn main(rt: HostRuntime) {
    replay::run(&rt);
}
