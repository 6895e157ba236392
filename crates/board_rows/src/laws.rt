ghost use Rattle.std.specs.Prelude.{◌≡◌, ℕ, Option, Bool, true, false, List, ◌∷◌, ◌++◌};
ghost use Rattle.std.specs.List.{AllByRecursion};
ghost use Rattle.base_types.specs.declared.names.Xid.{Xid};
ghost use Rattle.journal.specs.Past.{same_xid, is_up};
ghost use Rattle.journal.specs.Standing.{standing, is_open};
ghost use Rattle.journal.specs.History.{history};
ghost use Rattle.journal.specs.Sees.{sees};
ghost use Rattle.journal.specs.Good.{Range, GoodRows, GoodJournal};
ghost use Rattle.board_rows.specs.Board.{Record, DeedAt, stands, of_xid, Fresh, Active, stage};
ghost use Rattle.board_rows.specs.Board.{on, deeds_in, logged, committed_at, is_up_to, seen_at};
ghost use Rattle.board_rows.specs.Events.{Board, Event, May, MayLook, MayLose, KeepsSegments, IsLateHere, value_there, after, nothing, Leads};
ghost use Rattle.board_rows.specs.Events.{ended, MayTell};
ghost use Rattle.board_rows.specs.Sound.{has_end, Sound};

/// Each event that may come leaves the board sound.
pub fn each_event_keeps_the_board_sound()
    ensures first { (asked : ℕ → Option Range) (insts : ℕ) → Sound asked insts nothing }
    ensures event { (asked : ℕ → Option Range) (insts : ℕ) (board : Board) (event : Event) →
        May asked insts board event → Sound asked insts board → Sound asked insts (after board event) }
{}

/// The journal of a sound board is good, and its history is the one that the durable records tell. Each run of events
/// leaves a sound board.
pub fn journals_of_runs_are_good()
    ensures runs { (asked : ℕ → Option Range) (insts : ℕ) (events : List Event) (end : Board) →
        Leads asked insts nothing events end → Sound asked insts end }
    ensures rows { (asked : ℕ → Option Range) (insts : ℕ) (board : Board) →
        Sound asked insts board → GoodRows asked board.past }
    ensures journal { (asked : ℕ → Option Range) (insts : ℕ) (board : Board) →
        Sound asked insts board → GoodJournal board.past }
    ensures history { (asked : ℕ → Option Range) (insts : ℕ) (board : Board) →
        Sound asked insts board → history board.past ≡ logged board.durable board.records }
{}

/// What a look at a row shows, in an image of an earlier moment too, is what the session sees there, and each deed on
/// the row that isn't committed will commit above the session's SCN.
pub fn looks_show_what_sessions_see()
    ensures value { (asked : ℕ → Option Range) (insts : ℕ) (board : Board) (session inst snapshot row : ℕ)
        (newer there : List Record) (status : Xid → Bool) →
        Sound asked insts board → MayLook board session inst snapshot row newer there status →
        value_there board session row there status ≡
        sees (history board.past) board.past (record { session = session; snapshot = snapshot }) row }
    ensures late { (asked : ℕ → Option Range) (insts : ℕ) (board : Board) (session inst snapshot row : ℕ)
        (newer there : List Record) (status : Xid → Bool) →
        Sound asked insts board → MayLook board session inst snapshot row newer there status →
        AllByRecursion (λ m. on row m ≡ true → IsLateHere board snapshot m.xid) (stands board.records) }
{}

/// The SCN of an end in a header of a later moment than the image's tells whether a transaction with a deed on the row
/// has committed.
pub fn headers_tell_who_has_committed()
    ensures { (asked : ℕ → Option Range) (insts : ℕ) (board : Board) (snapshot row : ℕ) (xid : Xid)
        (newer mid there : List Record) (m : DeedAt) (older more : List DeedAt) →
        Sound asked insts board → MayTell board snapshot row xid newer mid there →
        stands there ≡ more ++ m ∷ older → on row m ≡ true → same_xid xid m.xid ≡ true →
        (is_up_to snapshot (ended xid (mid ++ there)) ≡ seen_at snapshot (λ other. committed_at other board.past) xid)
        × IsLateHere board snapshot xid }
{}

/// A loss takes no record for a segment from under a change or lock of that segment which it keeps: so the next
/// transaction of a slot never stands where the one before has no end.
pub fn losses_keep_what_segments_stand_on()
    ensures { (asked : ℕ → Option Range) (insts : ℕ) (board : Board) (inst kept : ℕ) →
        Sound asked insts board → MayLose board inst kept → KeepsSegments inst kept board.records }
{}

/// A transaction is on the board what the journal says of it: it is open exactly where it has no end and its instance is
/// up, what stands of it is the same, and a name that has no record was given to nobody who has ended since the loss.
pub fn transactions_are_what_the_journal_says()
    ensures open { (asked : ℕ → Option Range) (insts : ℕ) (board : Board) (xid : Xid) →
        Sound asked insts board → is_up xid.seg board.past ≡ true →
        stage xid board.records ≡ Active → is_open xid board.past ≡ true }
    ensures active { (asked : ℕ → Option Range) (insts : ℕ) (board : Board) (xid : Xid) →
        Sound asked insts board → is_open xid board.past ≡ true →
        (is_up xid.seg board.past ≡ true) × (stage xid board.records ≡ Active) }
    ensures standing { (asked : ℕ → Option Range) (insts : ℕ) (board : Board) (xid : Xid) →
        Sound asked insts board → is_open xid board.past ≡ true →
        standing xid board.past ≡ deeds_in (of_xid xid (stands board.records)) }
    ensures new { (asked : ℕ → Option Range) (insts : ℕ) (board : Board) (xid : Xid) →
        Sound asked insts board → stage xid board.records ≡ Fresh → has_end xid board.past ≡ false }
{}
