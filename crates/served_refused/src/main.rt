// The program `served` run on an input that ends before its image does.
#![tactic(auto)]

fn main() {
    serving::run();
}
