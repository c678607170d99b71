// The program: a station list from standard input, the job sheet that it becomes on standard output, the reports of its faulty records on standard error.
#![tactic(auto)]

fn main(rt: HostRuntime) {
    // What fails is told on standard error; the exit status stays 0.
    let _ = registry::run(&mut rt.stdin(), &mut rt.stdout(), &mut rt.stderr());
}
