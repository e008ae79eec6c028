// The program `bounds`: a table from standard input, compacted with the bounds 0 to 3. Here it is run on T.
#![tactic(auto)]

fn main() {
    printed::run();
}
