//! The slots of data blocks: what a block says of the deeds that stand in it, and what a consistent copy of it shows.
#![tactic(auto)]

mod laws;

pub use laws::{
    an_example_may_be_read, blocks_have_what_records_say, copies_end, copies_show_what_is_visible,
    decisions_are_made_by_the_rules, each_record_keeps_a_block_sound, headers_tell_ends,
    later_moments_tell_of_an_image, losses_leave_what_the_rules_make, readers_follow_commits,
    refusals_name_who_stands, what_is_at_hand_tells_readers,
};
