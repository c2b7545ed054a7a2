// Each law once.
use fib_core_steady::laws;

#[test]
fn each_law() {
    laws::more_versions_ask_less();
    laws::one_version_is_answered();
    laws::plies_reach_the_entry();
}
