ghost use Rattle.std.specs.Prelude.{ℕ, Option, None, Result, List, ◌∷◌, ◌≡◌, ◌≢◌, ◌||◌, ◌<◌, ◌≤◌, ◌-◌, ◌%◌, ◌++◌, not, Bool, true, false};
ghost use Rattle.std.specs.List.{AllByRecursion, filter};
ghost use Rattle.base_types.specs.declared.names.Xid.{Xid};
ghost use Rattle.base_types.specs.declared.value.Value.{Value};
ghost use Rattle.redo_types.specs.declared.blocks.ItlSlot.{ItlSlot};
ghost use Rattle.block_image.specs.Block.{BlockContent, slot_at};
ghost use Rattle.redo_types.specs.declared.undo.TxnSlot.{TxnSlot};
ghost use Rattle.redo_types.specs.declared.undo.UndoRecord.{UndoRecord};
ghost use Rattle.undo_segment.specs.Fetch.{found_at};
ghost use Rattle.undo_segment.specs.Handed.{HandedState};
ghost use Rattle.undo_segment.specs.Look.{told_of};
ghost use Rattle.undo_segment.specs.Segment.{fetch, look, SegmentState};
ghost use Rattle.undo_segment.specs.declared.fetch.Fetch.{Fetch};
ghost use Rattle.undo_segment.specs.declared.look.Look.{Look};
ghost use Rattle.journal.specs.Past.{same_xid};
ghost use Rattle.txn_slots.specs.declared.choice.SlotAnswer.TheVariants.{NoItl, Take};
ghost use Rattle.txn_slots.specs.declared.lock.LockAnswer.TheVariants.{Held};
ghost use Rattle.txn_slots.specs.Choice.{choose_slot, is_unused};
ghost use Rattle.txn_slots.specs.Lock.{lock_row};
ghost use Rattle.txn_slots.specs.Own.{is_own};
ghost use Rattle.cr_copy.specs.Named.{IsNamed};
ghost use Rattle.cr_copy.specs.declared.copy.Pick.{Pick};
ghost use Rattle.cr_copy.specs.declared.copy.Work.{Work};
ghost use Rattle.cr_copy.specs.declared.made.Halt.{Halt};
ghost use Rattle.cr_copy.specs.declared.made.Made.TheVariants.{Bad, Rows};
ghost use Rattle.cr_copy.specs.Copy.{make, rounds};
ghost use Rattle.board_slots.specs.Block.{Deed, Does, Record, committed, content, stands, value_by};
ghost use Rattle.board_slots.specs.Images.{block_of, IsSeen};
ghost use Rattle.board_slots.specs.Records.{May, MayDo, AreMade, Sound};
ghost use Rattle.board_slots.specs.Reads.{ended_later, MayRead, MayReadWith};
ghost use Rattle.board_slots.specs.Told.{ended, ended_by, HasReason, IsLook, IsTold};
ghost use Rattle.board_slots.specs.Decide.{decided, GoesOn, IsBusy, IsTakenBy, MayDecide, NewestIsFree, RowIsFree};
ghost use Rattle.board_slots.specs.Example.{example, header, seen_at_6, undo};
ghost use Rattle.board_slots.specs.Header.{end_in, IsSlotOf, table_slot, Turn, Turns};
ghost use Rattle.board_slots.specs.Losses.{KeepsReasons};
ghost use Rattle.board_slots.specs.Ring.{in_place, Rising};
ghost use Rattle.board_slots.specs.Views.{IsWritten, ReaderFollows, undo_of, value_at, view};

/// Each record that the rules make leaves a block that says what stands in it.
pub fn each_record_keeps_a_block_sound()
    ensures record_kept { (records : List Record) (next : Record) → May records next → Sound records →
        Sound (next ∷ records) }
    ensures run { (records : List Record) → AreMade records → Sound records }
{}

/// A block to which records that the rules make were applied has what the rules say of it.
pub fn blocks_have_what_records_say()
    ensures seen { (number : ℕ) (records : List Record) → AreMade records →
        IsSeen (block_of number records) (content records) }
    ensures number { (number : ℕ) (records : List Record) → (block_of number records).front.number ≡ number }
{}

/// The rows of a consistent copy are those that the reader's own transaction and the ones that ended up to its snapshot
/// left. A copy of what the rules made is never bad, and where it has no rows, a deed that stands is why.
pub fn copies_show_what_is_visible()
    ensures rows { (records : List Record) (block : BlockContent) (snapshot : ℕ) (me : Option Xid)
        (ended : Xid → Option ℕ) (look : Xid → Look) (fetch : Xid → ℕ → Fetch) →
        MayRead records block me ended look fetch → ReaderFollows (committed records) snapshot me (stands records) →
        (rows : List Value) → make snapshot me look fetch block ≡ Rows rows → (row : ℕ) → row < 8 →
        value_at rows row ≡ view (λ xid. is_own me xid || ended_by snapshot ended xid) (stands records) row }
    ensures good { (records : List Record) (block : BlockContent) (snapshot : ℕ) (me : Option Xid)
        (ended : Xid → Option ℕ) (look : Xid → Look) (fetch : Xid → ℕ → Fetch) →
        MayRead records block me ended look fetch → make snapshot me look fetch block ≢ Bad }
    ensures halts { (records : List Record) (block : BlockContent) (snapshot : ℕ) (me : Option Xid)
        (ended : Xid → Option ℕ) (look : Xid → Look) (fetch : Xid → ℕ → Fetch) →
        MayRead records block me ended look fetch →
        HasReason snapshot look fetch (stands records) (make snapshot me look fetch block) }
{}

/// There is a block that may be read, and the copy of it that is made shows what is to be seen: two of four that
/// committed, with a slot that was taken anew and given back.
pub fn an_example_may_be_read()
    ensures made { AreMade example }
    ensures read { MayRead example (block_of 0 example) None (ended example) header undo }
    ensures follows { ReaderFollows (committed example) 6 None (stands example) }
    ensures shows { make 6 None header undo (block_of 0 example) ≡ Rows seen_at_6 }
{}

/// Over any content the rounds of a copy come to an end: more of them change nothing.
pub fn copies_end()
    ensures { (round : List ItlSlot → Result (Option Pick) Halt) (fuel more last : ℕ) (work : Work) → last < fuel →
        last < more → rounds round fuel last work ≡ rounds round more last work }
{}

/// The reader's own changes stand over what had committed up to its snapshot.
pub fn readers_follow_commits()
    ensures record_kept { (records : List Record) (next : Record) (snapshot : ℕ) (me : Option Xid) →
        May records next →
        ((deed : Deed) → next ≡ Does deed → is_own me deed.xid ≡ true → RowIsFree records deed.xid snapshot deed.row) →
        ReaderFollows (committed records) snapshot me (stands records) →
        ReaderFollows (committed (next ∷ records)) snapshot me (stands (next ∷ records)) }
    ensures later { (past : Xid → Option ℕ) (snapshot later : ℕ) (me : Option Xid) (deeds : List Deed) →
        snapshot ≤ later → ReaderFollows past snapshot me deeds → ReaderFollows past later me deeds }
    ensures none { (past : Xid → Option ℕ) (snapshot : ℕ) (me : Option Xid) (deeds : List Deed) →
        AllByRecursion (λ deed. is_own me deed.xid ≡ false) deeds → ReaderFollows past snapshot me deeds }
{}

/// Headers of the image's moment or later ones tell of what stands in the image: who had committed there has that end,
/// and an end is above all that stands of its transaction. In a ring of undo a place has the record that was written
/// there, or a later one.
pub fn later_moments_tell_of_an_image()
    ensures headers { (number : ℕ) (there : List Record) (newer : Xid → List Record) (look : Xid → Look)
        (fetch : Xid → ℕ → Fetch) → ((xid : Xid) → AreMade (newer xid ++ there)) →
        AllByRecursion (λ deed. IsLook (ended (newer deed.xid ++ there) deed.xid) (look deed.xid)) (stands there) →
        AllByRecursion (λ deed. IsWritten (undo_of number deed) (fetch deed.xid deed.seq)) (stands there) →
        AllByRecursion (IsTold number (committed there) (ended_later newer there) look fetch) (stands there) }
    ensures undo { (size : ℕ) (written : List UndoRecord) → Rising written →
        AllByRecursion (λ (undo : UndoRecord). IsWritten undo (found_at undo.seq (in_place size ((undo.seq - 1) % size) written))) written }
{}

/// The headers and undo blocks at hand, each of the image's moment or a later one, tell a reader what it is to be told.
/// So the copy that the program makes of the block with them shows what is visible.
pub fn what_is_at_hand_tells_readers()
    ensures told { (own : SegmentState) (handed : HandedState) (number : ℕ) (newer : Xid → List Record)
        (there : List Record) (me : Option Xid) → MayReadWith own handed number newer there me →
        MayRead there (block_of number there) me (ended_later newer there) (look own handed) (fetch own handed) }
    ensures rows { (own : SegmentState) (handed : HandedState) (number : ℕ) (newer : Xid → List Record)
        (there : List Record) (me : Option Xid) (snapshot : ℕ) → MayReadWith own handed number newer there me →
        ReaderFollows (committed there) snapshot me (stands there) → (rows : List Value) →
        make snapshot me (look own handed) (fetch own handed) (block_of number there) ≡ Rows rows → (row : ℕ) →
        row < 8 →
        value_at rows row ≡ view (λ xid. is_own me xid || ended_by snapshot (ended_later newer there) xid) (stands there) row }
{}

/// What a slot of a transaction table tells of a transaction is what became of it: open, its end, or a bound of it.
pub fn headers_tell_ends()
    ensures { (slot : TxnSlot) (turns : List Turn) (xid : Xid) → Turns turns → IsSlotOf slot (table_slot turns) →
        1 ≤ xid.wrap → IsLook (end_in xid.wrap turns) (told_of slot xid) }
{}

/// A loss that keeps each kept record's reasons leaves a block that the rules made.
pub fn losses_leave_what_the_rules_make()
    ensures { (keep : Record → Bool) (records : List Record) → KeepsReasons keep records → AreMade records →
        AreMade (filter keep records) }
{}

/// A statement goes on at a row that is its own or was let go up to its snapshot. What is decided there is a deed that
/// the rules make; the newest on the row is the transaction's own or has committed up to the snapshot; and the value
/// that is found is what stands there.
pub fn decisions_are_made_by_the_rules()
    ensures record_made { (records : List Record) (block : BlockContent) → IsSeen block (content records) →
        (me : Option Xid) (xid : Xid) (look : Xid → Look) (snapshot scn prev seq row itl : ℕ) (fresh puts : Bool)
        (value : Value) → Sound records → MayDecide records me xid look snapshot scn → row < 8 →
        IsNamed (record { xid = xid; seq = seq }) → GoesOn snapshot (lock_row me look block row) →
        choose_slot me look block.itl ≡ Take itl fresh →
        MayDo records (decided (content records) xid prev seq scn row itl puts value) }
    ensures slot_anew { (records : List Record) (block : BlockContent) → IsSeen block (content records) →
        (me : Option Xid) (xid : Xid) (look : Xid → Look) (snapshot scn itl : ℕ) (fresh : Bool) → Sound records →
        MayDecide records me xid look snapshot scn → choose_slot me look block.itl ≡ Take itl fresh →
        fresh ≡ not (same_xid ((content records).slot itl).xid xid) }
    ensures row_free { (records : List Record) (block : BlockContent) → IsSeen block (content records) →
        (me : Option Xid) (xid : Xid) (look : Xid → Look) (snapshot scn row : ℕ) → Sound records →
        MayDecide records me xid look snapshot scn → row < 8 → GoesOn snapshot (lock_row me look block row) →
        ReaderFollows (committed records) snapshot me (stands records) → RowIsFree records xid snapshot row }
    ensures newest_free { (records : List Record) (block : BlockContent) → IsSeen block (content records) →
        (me : Option Xid) (xid : Xid) (look : Xid → Look) (snapshot scn row : ℕ) → Sound records →
        MayDecide records me xid look snapshot scn → row < 8 → GoesOn snapshot (lock_row me look block row) →
        NewestIsFree records xid snapshot row }
    ensures found { (records : List Record) (row : ℕ) → Sound records →
        (content records).value row ≡ value_by row (stands records) }
{}

/// Who is told to hold a row is another transaction, active by its header, and stands newest on the row. Where no slot
/// can be taken, each of the four is of another one that is active by its header and stands newest in it, and no two are
/// of one.
pub fn refusals_name_who_stands()
    ensures busy { (records : List Record) (block : BlockContent) → IsSeen block (content records) →
        (me : Option Xid) (look : Xid → Look) (row : ℕ) (other : Xid) → Sound records → row < 8 →
        lock_row me look block row ≡ Held other → IsBusy records me look row other }
    ensures no_itl { (records : List Record) (block : BlockContent) → IsSeen block (content records) →
        (me : Option Xid) (look : Xid → Look) (holders : List Xid) (itl : ℕ) → Sound records →
        choose_slot me look block.itl ≡ NoItl holders → 1 ≤ itl → itl ≤ 4 →
        IsTakenBy records me look itl (slot_at block.itl itl).xid }
    ensures differ { (records : List Record) (first second : ℕ) → Sound records →
        is_unused ((content records).slot first) ≡ false →
        ((content records).slot first).xid ≡ ((content records).slot second).xid → first ≡ second }
{}
