#![tactic(auto)]

fn main(rt: HostRuntime) {
    bench_session::input::serve_all(&rt);
}
