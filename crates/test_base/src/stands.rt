// Each law once.
use fib_core_stands::laws;

#[test]
fn each_law() {
    laws::walks_are_resolution();
    laws::stored_ends_are_possible();
}
