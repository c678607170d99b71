// Kept: one line that stands in the program too, no plainer: a program can't call another's main.
// A test of the program: its body once more, on a sheet of edge cases. `second edges` makes the sheet.
#![tactic(auto)]

fn main(rt: HostRuntime) {
    // What fails is told on standard error; the exit status stays 0.
    let _ = office::run(&mut rt.stdin(), &mut rt.stdout(), &mut rt.stderr());
}
