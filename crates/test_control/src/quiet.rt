// Each law once.
use fib_control_quiet::laws;

#[test]
fn each_law() {
    laws::what_is_at_rest_stands_for_the_tables();
    laws::walks_at_rest_are_resolution();
    laws::as_many_are_used_as_the_size_says();
    laws::what_is_used_is_counted_or_led_to();
    laws::settling_keeps_what_stands();
    laws::a_change_keeps_what_stands();
    laws::so_does_the_first_change();
    laws::so_do_workers();
    laws::what_begins_stands();
}
