// Each law once, and a new stack.
use fib_stack::{Stack, between, laws, stores};
use std::test::Fail;

#[test]
fn a_new_stack_has_nothing_deferred(rt: HostRuntime) -> Result<(), Fail> {
    let stack = Stack::new(rt.alloc());
    stack.tells();
    assert_eq!(rt; stack.deferred(), 0);
    Ok(())
}

#[test]
fn each_law() {
    laws::a_turn_keeps_the_state();
    laws::so_does_one_of_a_prefix_that_left();
    laws::so_does_a_change();
    laws::and_so_does_a_retry();
    laws::what_is_below_the_queue_forwards_as_the_tables_say();
    laws::a_quiet_state_stands_for_the_tables();
    laws::a_turn_keeps_the_order();
    laws::so_does_a_turn_of_a_prefix_that_left();
    laws::turns_wake_what_waits();
    laws::a_turn_keeps_steady_buckets();
    laws::one_of_a_prefix_that_left_keeps_them();
    laws::a_change_keeps_them();
    laws::a_retry_keeps_them();
    laws::settling_begins_anew();
    stores::a_put_into_a_bucket_leaves_the_table();
    stores::so_does_taking_a_balance();
    stores::so_does_letting_one_go();
    stores::so_does_taking_a_record();
    stores::so_does_giving_one_back();
    stores::so_does_a_scan();
    stores::so_do_several_calls();
    stores::a_put_into_a_loose_bucket_may_be_made();
    stores::what_a_turn_stores_is_loose();
    stores::what_is_deferred_is_loose();
    stores::what_is_new_is_loose();
    stores::taking_a_record_keeps_the_promise();
    stores::giving_one_back_keeps_it();
    stores::a_scan_keeps_it();
    stores::letting_an_object_go_keeps_it();
    stores::taking_a_balance_keeps_it();
    stores::where_all_is_calm_nothing_closes_a_cycle();
    between::a_scan_keeps_what_stands();
    between::so_does_room();
    between::where_the_size_fits_there_is_room();
    between::what_takes_no_object_leaves_room();
}
