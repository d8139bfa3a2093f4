// Replays the stored list of lblt.
#![tactic(auto)]

fn main(rt: HostRuntime) {
    replay::run(&rt);
}
