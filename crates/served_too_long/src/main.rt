// The program `served` run on an input that is too long.
#![tactic(auto)]

fn main() {
    serving::run();
}
