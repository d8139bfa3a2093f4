// `leaf::root` under a C name, for bench/root alone.
#![tactic(auto)]

ghost use Rattle.std.specs.Prelude.{◌≡◌};
ghost use Rattle.leaf.specs.Root.{root_of};

#[unsafe(no_mangle)]
pub extern "C" fn bench_root(x: f64) -> f64
    ensures { result ≡ root_of x }
{
    leaf::root(x)
}
