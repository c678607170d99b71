// The program: a job sheet from standard input to standard output. Messages go to standard error.
#![tactic(auto)]

fn main(rt: HostRuntime) {
    // What fails is told on standard error; the exit status stays 0.
    let _ = office::run(&mut rt.stdin(), &mut rt.stdout(), &mut rt.stderr());
}
