// Each law once.
use fib_core_board::laws;

#[test]
fn each_law() {
    laws::stores_are_those_of_edges();
    laws::edges_lead_where_they_say();
    laws::what_is_not_held_may_be_cleared();
    laws::looks_keep_what_is_served();
    laws::free_objects_have_no_ply_edge();
    laws::stores_are_the_rules();
    laws::boards_are_as_told();
}
