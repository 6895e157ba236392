ghost use Rattle.std.specs.Prelude.{◌≡◌, ℕ, ◌<◌};
ghost use Rattle.load_script.specs.Transfers.{row_of};

/// A law: each session's rows are below 64, and no other session has one of them.
pub fn sessions_have_rows_of_their_own()
    ensures within { (session word : ℕ) → session < 4 → row_of session word < 64 }
    ensures apart { (session other word others : ℕ) → session < 4 → other < 4 →
        row_of session word ≡ row_of other others → session ≡ other }
{}
