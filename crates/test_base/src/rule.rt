// Each law once.
use fib_core_rule::{events, laws};

#[test]
fn each_event() {
    events::fresh_table();
    events::pass_starts();
    events::version_is_loaded();
    events::cell_is_loaded();
    events::pass_stops();
    events::cell_is_stored();
    events::version_begins();
    events::version_is_settled();
    events::pass_word_is_loaded();
    events::number_is_picked();
    events::seat_is_sent();
    events::note_is_made();
    events::note_is_told();
    events::seat_comes_home();
    events::claim_is_drawn();
}

#[test]
fn each_law() {
    laws::trails_are_sound();
    laws::passes_are_short();
    laws::passes_stand_on_live_objects();
    laws::adjacencies_are_read_whole();
    laws::words_are_found();
    laws::seats_know_their_pass_word();
    laws::versions_only_grow();
    laws::ended_trails_are_right();
    laws::past_trails_are_right();
    laws::trails_come_home_right();
    laws::settled_cells_answer();
    laws::union_is_acyclic();
    laws::edges_are_well_typed();
    laws::walks_have_an_end();
    laws::free_objects_have_no_ply_edge();
    laws::the_first_store_may_be_made();
    laws::a_drop_where_nothing_leads_may_be_stored();
    laws::two_halves_are_all_that_a_store_asks();
    laws::clearing_keeps_what_is_served();
    laws::claims_fit();
    laws::claims_are_drawn_once();
}
