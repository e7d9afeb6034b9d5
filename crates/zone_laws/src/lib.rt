//! The laws of the rules of zones. Each is the clause of a small function of `laws`, which does
//! nothing; who needs a law cites its lemma in `proofs/`.
#![tactic(auto)]

mod laws;

pub use laws::{
    alike_is_same, ancestors_are_found, any_least_set_will_do, conflicts_show_records,
    copies_stay_in_step, deletions_are_written, each_is_answered, each_is_judged,
    effects_are_in_form, effects_are_in_order, effects_are_lawful, equal_views_give_none,
    feeds_lose_nothing, feeds_tell_all, histories_stay_legal, lives_are_kept, made_where_written,
    meant_requests_are_lawful, nobody_is_let_in, nothing_else_is_seen, nothing_is_in_step,
    one_is_either_way, one_put_more, others_change_nothing, outcomes_are_written, owners_see_all,
    pages_hold, pages_keep_in_step, permissions_are_seen, plain_creates_are_done,
    plain_creates_are_in_form, puts_are_found, records_stay_in_order, removal_is_least,
    repeats_are_dropped, seen_is_told, shared_changes_are_permitted, stamps_are_set,
    steps_keep_the_laws, tests_decide, views_grow, writable_is_told, writes_are_allowed,
    zone_entries_grow, zones_grow,
};
