// Each law once.
use fib_core_promise::laws;

#[test]
fn each_law() {
    laws::promised_addresses_are_answered();
    laws::so_are_they_as_a_prefix_comes();
    laws::and_as_a_prefix_leaves();
    laws::a_steady_stack_keeps_buckets();
    laws::a_turn_keeps_the_stack_steady();
    laws::so_does_one_of_a_prefix_that_left();
    laws::a_quiet_stack_is_steady();
    laws::untouched_entries_aim_alike();
    laws::what_is_kept_or_loose();
}
