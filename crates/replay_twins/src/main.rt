// Replays the stored list of twins.
#![tactic(auto)]

fn main(rt: HostRuntime) {
    replay::run(&rt);
}
