//! The laws of the whole: what follows from the definitions of `panel_rules` in every run of a valid site.
//!
//! Each function here is a law: its contract says it, and its body does nothing. Begin with
//! [`due_zone_is_shown`] and [`due_output_is_shown`], the deadlines of zones and outputs,
//! [`shown_zone_is_caused`] and [`shown_output_is_caused`], which say that nothing is shown or on without a
//! cause, and [`answered_by_the_next_tick`], the one answer of each operation. Whether code does what the
//! definitions say is the business of the crates above; of them a change of a law's proof proves anew only
//! `operation_desk` and the system, with what stands above these.
#![tactic(auto)]

mod batches;
mod examples;
mod faces;
mod forms;
mod markers;
mod operations;
mod other_deadlines;
mod outputs;
mod profile;
mod shown_settings;
mod storing;
mod timelines;
mod words;
mod zones;

pub use batches::{
    batches_fit, changes_have_places, cleared_counts_from_zero, done_is_kept, few_operations_wait,
    settings_make_changes,
};
pub use examples::{
    alarms_of_small_cases, one_run_in_both_orders, operations_of_small_cases,
    outputs_of_small_cases, words_of_a_long_ring, words_of_small_rings,
};
pub use faces::{
    due_output_is_shown, due_zone_is_shown, fire_is_counted, indicated_output_is_shown,
    lone_zone_is_shown, shown_output_is_caused, shown_zone_is_caused,
};
pub use forms::{
    answers_rise, counters_have_an_end, faces_are_by_panel, faces_are_of_site,
    texts_tell_timelines, timeline_is_in_form, told_ticks_tell,
};
pub use markers::{one_solution, solution_solves};
pub use operations::{
    answered_by_the_next_tick, answered_once, answers_are_to_requests, answers_stay,
    kept_is_in_force, operations_are_of_site, settings_change_once,
};
pub use other_deadlines::{
    accepted_is_in_force, away_is_missing, bad_supply_is_shown, cut_off_is_silent, link_is_shown,
    piece_is_shown, stands_again,
};
pub use outputs::{
    due_needs_a_signal, due_output_is_on, due_output_needs_a_signal, faults_are_told,
    indicated_output_is_on, on_output_is_caused, unasked_is_off,
};
pub use profile::{
    disablement_is_shown, joined_panels_show, network_is_the_sum, signal_is_shown,
    signalled_output_is_on, single_detector_is_shown,
};
pub use shown_settings::{accepted_is_shown, settings_are_shown};
pub use storing::{keep_answers_tell, keep_fails_by_the_disk, sound_turns_succeed};
pub use timelines::{
    counters_add_up, entries_are_counted_once, steps_rise, told_ticks_are_steps,
    untold_ticks_change_nothing,
};
pub use words::{
    due_hand_is_kept, due_release_is_kept, due_zone_is_kept, heard_is_stamp, kept_by_the_ring,
    kept_hand_is_caused, kept_is_word, kept_release_is_caused, kept_zone_is_caused,
    newest_over_chains,
};
pub use zones::{
    lone_signal_is_shown, own_hand_is_caused, own_release_is_caused, own_zone_is_by_hand,
    own_zone_is_caused, own_zone_is_released, own_zone_is_shown,
};
