// Replays the stored list of cholesky.
#![tactic(auto)]

fn main(rt: HostRuntime) {
    replay::run(&rt);
}
