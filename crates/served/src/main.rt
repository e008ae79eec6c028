// The program `served`: an image and a payload from standard input, and which state served how often. Here it is run on T with D 2 and `aabbb`.
#![tactic(auto)]

fn main() {
    serving::run();
}
