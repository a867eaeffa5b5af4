// Prints the lines of a batch: the jobs that the oracle recorded, and those of tests/settled.txt, answers.txt and edges.txt.
#![tactic(auto)]

fn main(rt: HostRuntime) {
    printing::print_batch(&rt);
}
