// The program `bounds` run on a table that is refused.
#![tactic(auto)]

fn main() {
    printed::run();
}
