//! What a run of the cluster tells of the ends of transactions: a commit is answered only after it has entered, and enters only
//! after its mark; where no instance is lost, each transaction has a new name and commits once.
#![tactic(auto)]

mod laws;

pub use laws::{
    a_commit_enters_after_its_mark, a_new_transaction_is_new, a_session_owns_what_the_journal_says,
    a_transaction_commits_once, commits_are_answered_once_they_entered,
};
