//! What the redo logs hold in every run of the cluster: an open thread has its whole log on the disk, and each log is whole records,
//! and then nothing or one cut short.
#![tactic(auto)]

mod laws;

pub use laws::{
    a_dead_thread_is_read, a_live_thread_has_its_log, a_run_leaves_good_logs, logs_stay_right,
};
