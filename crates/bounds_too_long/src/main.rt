// The program `bounds` run on an input that is too long.
#![tactic(auto)]

fn main() {
    printed::run();
}
