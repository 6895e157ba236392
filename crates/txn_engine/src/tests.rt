ghost use Rattle.std.specs.Prelude.{◌<◌, ◌≤◌};
ghost use Rattle.txn_engine.specs.Change.{IfDo};
ghost use Rattle.txn_engine.specs.Parts.{FitsBoth};

use super::*;
use base_types::{BlockNo, InstNo, Layout, RedoAt, RowNo, Scn, Value, Xid};
use block_image::{DataBlock, ItlSlot};
use journal::Cause;
use redo_types::{
    DataChange, HeadChange, Redo, RedoKind, RowChange, TxnSlot, TxnState, UndoChange, UndoRecord,
};
use scn_clock::Clock;
use std::alloc::Global;
use std::process::Abort;
use std::test::Fail;
use txn_slots::Wanted;
use undo_segment::{Handed, Segment};

const LAYOUT: Layout = Layout {
    instances: 2,
    blocks: 3,
    undo: 8,
};

// A segment and a data block, with a clock and with what was handed in.
#[derive(Drop)]
struct Bench {
    segment: Segment,
    image: DataBlock,
    handed: Handed,
    clock: Clock,
}

impl Bench {
    fn new(alloc: Global, seg: u8) -> Result<Bench, Fail>
        requires { seg < 2 }
    {
        Ok(Bench {
            segment: Segment::new(alloc, &LAYOUT, InstNo(seg))?,
            image: DataBlock::empty(BlockNo(0)),
            handed: Handed::new(alloc),
            clock: Clock {
                scn: Scn(0),
                known: Scn(0),
            },
        })
    }

    // Decides by a statement that starts now, where all redo is on the disk.
    fn decide(&self, wish: Wish, row: u16, own: Option<Xid>) -> Decision
        ensures { IfDo result (FitsBoth self.now.segment self.now.image) }
    {
        self.decide_at(wish, row, own, self.clock.scn, self.clock.scn)
    }

    fn decide_at(
        &self,
        wish: Wish,
        row: u16,
        own: Option<Xid>,
        snapshot: Scn,
        on_disk: Scn,
    ) -> Decision
        ensures { IfDo result (FitsBoth self.now.segment self.now.image) }
    {
        let ask = ChangeAsk {
            wish,
            row: RowNo(row),
            snapshot,
            own,
        };
        decide_change(
            &ask,
            &self.image,
            &self.segment,
            &self.handed,
            &self.clock,
            on_disk,
        )
    }

    fn apply(&mut self, redo: &Redo)
        requires { FitsBoth self.old.segment self.old.image redo.now }
    {
        self.segment.apply(redo, RedoAt(0));
        if let Some(change) = &redo.row {
            self.image.apply(&change.to, redo.scn);
        }
        self.clock.scn = redo.scn;
    }

    // Decides and applies; the transaction, where a record was made.
    fn make(&mut self, wish: Wish, row: u16, own: Option<Xid>) -> Option<Xid> {
        match self.decide(wish, row, own) {
            Decision::Do(redo) => {
                self.apply(&redo);
                Some(redo.xid)
            }
            _ => None,
        }
    }

    // Takes back what a transaction did last.
    fn back(&mut self, xid: &Xid) -> Option<Redo> {
        match decide_back(xid, &self.segment, &self.image, &self.clock) {
            Some(redo) => {
                self.apply(&redo);
                Some(redo)
            }
            None => None,
        }
    }

    // Ends a transaction; whether it might end.
    fn end(&mut self, xid: &Xid, end: EndKind) -> bool {
        match decide_end(xid, end, &self.segment, &self.clock) {
            Some(redo) => {
                self.segment.apply(&redo, RedoAt(0));
                self.clock.scn = redo.scn;
                true
            }
            None => false,
        }
    }
}

fn xid(slot: u8, wrap: u32) -> Xid {
    Xid {
        seg: InstNo(0),
        slot,
        wrap,
    }
}

const NOBODY: Xid = Xid {
    seg: InstNo(0),
    slot: 0,
    wrap: 0,
};

// The first transaction of segment 0.
const OWN: Xid = Xid {
    seg: InstNo(0),
    slot: 0,
    wrap: 1,
};

// The first transaction of segment 1.
const THEIRS: Xid = Xid {
    seg: InstNo(1),
    slot: 0,
    wrap: 1,
};

const FULL: Cause = Cause::NoUndo { first: 1, next: 9 };

const UNUSED: ItlSlot = ItlSlot {
    xid: NOBODY,
    seq: 0,
};

const NEW: TxnSlot = TxnSlot {
    wrap: 1,
    state: TxnState::Active,
    first: 1,
    last: 1,
    scn: Scn(0),
    prev: Scn(0),
};

// The record by which the first transaction of a segment puts 42 into row 3. The header is block 3, and the first undo
// block is block 4.
const FIRST: Redo = Redo {
    kind: RedoKind::Change,
    xid: OWN,
    scn: Scn(1),
    seq: 1,
    head: HeadChange {
        block: BlockNo(3),
        version: 1,
        slot: 0,
        next: 2,
        to: NEW,
    },
    undo: Some(UndoChange {
        block: BlockNo(4),
        version: 1,
        place: 0,
        to: UndoRecord {
            seq: 1,
            slot: 0,
            itl: 1,
            row: 3,
            mine: false,
            wrap: 1,
            block: BlockNo(0),
            version: 1,
            prev: 0,
            old_itl: UNUSED,
            old: Value::Absent,
        },
    }),
    row: Some(DataChange {
        block: BlockNo(0),
        version: 1,
        to: RowChange {
            row: 3,
            lock: 1,
            itl: 1,
            fresh: true,
            slot: ItlSlot { xid: OWN, seq: 1 },
            value: Value::Num(42),
        },
    }),
};

// The record by which it then adds 1.
const SECOND: Redo = Redo {
    kind: RedoKind::Change,
    xid: OWN,
    scn: Scn(2),
    seq: 2,
    head: HeadChange {
        block: BlockNo(3),
        version: 2,
        slot: 0,
        next: 3,
        to: TxnSlot { last: 2, ..NEW },
    },
    undo: Some(UndoChange {
        block: BlockNo(4),
        version: 2,
        place: 1,
        to: UndoRecord {
            seq: 2,
            slot: 0,
            itl: 1,
            row: 3,
            mine: true,
            wrap: 1,
            block: BlockNo(0),
            version: 2,
            prev: 1,
            old_itl: ItlSlot { xid: OWN, seq: 1 },
            old: Value::Num(42),
        },
    }),
    row: Some(DataChange {
        block: BlockNo(0),
        version: 2,
        to: RowChange {
            row: 3,
            lock: 1,
            itl: 1,
            fresh: false,
            slot: ItlSlot { xid: OWN, seq: 2 },
            value: Value::Num(43),
        },
    }),
};

// The record by which that is taken back: the transaction holds the row still.
const BACK: Redo = Redo {
    kind: RedoKind::StepBack,
    xid: OWN,
    scn: Scn(3),
    seq: 2,
    head: HeadChange {
        block: BlockNo(3),
        version: 3,
        slot: 0,
        next: 3,
        to: NEW,
    },
    undo: None,
    row: Some(DataChange {
        block: BlockNo(0),
        version: 3,
        to: RowChange {
            row: 3,
            lock: 1,
            itl: 1,
            fresh: false,
            slot: ItlSlot { xid: OWN, seq: 1 },
            value: Value::Num(42),
        },
    }),
};

// The record by which the first transaction commits once it has put 42.
const COMMIT: Redo = Redo {
    kind: RedoKind::Commit,
    xid: OWN,
    scn: Scn(2),
    seq: 0,
    head: HeadChange {
        block: BlockNo(3),
        version: 2,
        slot: 0,
        next: 2,
        to: TxnSlot {
            wrap: 1,
            state: TxnState::Committed,
            first: 0,
            last: 0,
            scn: Scn(2),
            prev: Scn(0),
        },
    },
    undo: None,
    row: None,
};

const OWN_FIRST: ItlSlot = ItlSlot { xid: OWN, seq: 1 };

const OWN_SECOND: ItlSlot = ItlSlot { xid: OWN, seq: 2 };

// What a record of the first transaction makes of row 3 by ITL slot 1.
const fn row_of(version: u64, lock: u8, fresh: bool, slot: ItlSlot, value: Value) -> DataChange {
    DataChange {
        block: BlockNo(0),
        version,
        to: RowChange {
            row: 3,
            lock,
            itl: 1,
            fresh,
            slot,
            value,
        },
    }
}

// The undo record of what the first transaction does to row 3 second, over a value.
fn second_undo(old: Value) -> UndoChange {
    UndoChange {
        block: BlockNo(4),
        version: 2,
        place: 1,
        to: UndoRecord {
            seq: 2,
            slot: 0,
            itl: 1,
            row: 3,
            mine: true,
            wrap: 1,
            block: BlockNo(0),
            version: 2,
            prev: 1,
            old_itl: OWN_FIRST,
            old,
        },
    }
}

#[test]
fn changes_a_row_that_it_locked(rt: HostRuntime) -> Result<(), Fail> {
    let mut bench = Bench::new(rt.alloc(), 0)?;
    let put = Wish::Put(Value::Num(42));
    assert_eq!(rt; bench.make(Wish::Lock, 3, None), Some(OWN));
    assert_eq!(rt;
        bench.decide(put, 3, Some(OWN)),
        Decision::Do(Redo {
            undo: Some(second_undo(Value::Absent)),
            row: Some(row_of(2, 1, false, OWN_SECOND, Value::Num(42))),
            ..SECOND
        })
    );
    assert_eq!(rt; bench.make(put, 3, Some(OWN)), Some(OWN));
    // it holds the row still, as before the change
    assert_eq!(rt;
        bench.back(&OWN),
        Some(Redo {
            row: Some(row_of(3, 1, false, OWN_FIRST, Value::Absent)),
            ..BACK
        })
    );
    Ok(())
}

#[test]
fn changes_a_row_and_takes_it_back(rt: HostRuntime) -> Result<(), Fail> {
    let mut bench = Bench::new(rt.alloc(), 0)?;
    let own = OWN;
    assert_eq!(rt;
        bench.decide(Wish::Lock, 3, None),
        Decision::Do(Redo {
            kind: RedoKind::Lock,
            row: Some(row_of(1, 1, true, OWN_FIRST, Value::Absent)),
            ..FIRST
        })
    );
    assert_eq!(rt;
        bench.decide(Wish::Put(Value::Num(42)), 3, None),
        Decision::Do(FIRST)
    );
    assert_eq!(rt; bench.make(Wish::Put(Value::Num(42)), 3, None), Some(OWN));
    assert_eq!(rt;
        bench.decide(Wish::Lock, 3, Some(OWN)),
        Decision::AlreadyMine
    );
    assert_eq!(rt;
        bench.decide(Wish::Add(1), 3, Some(OWN)),
        Decision::Do(SECOND)
    );
    assert_eq!(rt;
        bench.decide(Wish::Del, 3, Some(OWN)),
        Decision::Do(Redo {
            row: Some(row_of(2, 1, false, OWN_SECOND, Value::Absent)),
            ..SECOND
        })
    );
    let commit = decide_end(&own, EndKind::Commit, &bench.segment, &bench.clock);
    assert_eq!(rt; commit, Some(COMMIT));
    assert_eq!(rt; bench.make(Wish::Add(1), 3, Some(OWN)), Some(OWN));
    assert_eq!(rt;
        block_to_take_back(&own, &bench.segment),
        BackTo::Block(BlockNo(0))
    );
    assert!(rt; !bench.end(&own, EndKind::RollbackEnd));
    assert_eq!(rt; bench.back(&own), Some(BACK));
    let free = RowChange {
        row: 3,
        lock: 0,
        itl: 1,
        fresh: false,
        slot: UNUSED,
        value: Value::Absent,
    };
    match bench.back(&own) {
        Some(redo) => {
            assert_eq!(rt; (redo.seq, redo.head.to.last), (1, 0));
            assert_eq!(rt; redo.row.map(|change| change.to), Some(free));
        }
        None => assert!(rt; false),
    }
    assert_eq!(rt; block_to_take_back(&own, &bench.segment), BackTo::Nothing);
    assert_eq!(rt; bench.back(&own), None);
    let end = decide_end(&own, EndKind::RollbackEnd, &bench.segment, &bench.clock);
    let over = HeadChange {
        block: BlockNo(3),
        version: 5,
        slot: 0,
        next: 3,
        to: TxnSlot {
            wrap: 1,
            state: TxnState::RolledBack,
            first: 0,
            last: 0,
            scn: Scn(5),
            prev: Scn(0),
        },
    };
    assert_eq!(rt;
        end.map(|redo| (redo.kind, redo.scn, redo.seq, redo.head)),
        Some((RedoKind::RollbackEnd, Scn(5), 0, over))
    );
    assert!(rt; bench.end(&own, EndKind::RollbackEnd));
    assert!(rt; !bench.end(&own, EndKind::Commit));
    assert_eq!(rt; block_to_take_back(&own, &bench.segment), BackTo::Bad);
    Ok(())
}

#[test]
fn refuses_by_the_first_cause(rt: HostRuntime) -> Result<(), Fail> {
    let mut bench = Bench::new(rt.alloc(), 0)?;
    let most = Value::Num(9_223_372_036_854_775_807);
    assert_eq!(rt; bench.make(Wish::Put(most), 0, None), Some(OWN));
    let overflow = Cause::Overflow {
        found: 9_223_372_036_854_775_807,
        by: 1,
    };
    assert_eq!(rt;
        bench.decide(Wish::Add(1), 0, Some(OWN)),
        Decision::Refuse(overflow)
    );
    assert_eq!(rt;
        bench.decide(Wish::Del, 0, None),
        Decision::Refuse(Cause::Busy { xid: OWN })
    );
    // another transaction than the own one, and the row of another block
    assert_eq!(rt; bench.decide(Wish::Del, 1, Some(xid(0, 2))), Decision::Bad);
    assert_eq!(rt; bench.decide(Wish::Del, 8, None), Decision::Bad);
    for _ in 0..7 {
        assert_eq!(rt;
            bench.make(Wish::Put(Value::Num(1)), 0, Some(OWN)),
            Some(OWN)
        );
    }
    assert_eq!(rt;
        bench.decide(Wish::Lock, 1, Some(OWN)),
        Decision::Refuse(FULL)
    );
    assert_eq!(rt; bench.decide(Wish::Add(1), 1, None), Decision::Refuse(FULL));
    Ok(())
}

#[test]
fn runs_out_of_slots(rt: HostRuntime) -> Result<(), Fail> {
    let mut bench = Bench::new(rt.alloc(), 0)?;
    for row in 0..4u8 {
        assert_eq!(rt;
            bench.make(Wish::Lock, u16::from(row), None),
            Some(xid(row, 1))
        );
    }
    let none = Cause::NoItl {
        block: BlockNo(0),
        holders: [xid(0, 1), xid(1, 1), xid(2, 1), xid(3, 1)],
    };
    assert_eq!(rt; bench.decide(Wish::Lock, 4, None), Decision::Refuse(none));
    bench.image = DataBlock::empty(BlockNo(1));
    for slot in 4..8u8 {
        let row = 4 + u16::from(slot);
        assert_eq!(rt; bench.make(Wish::Lock, row, None), Some(xid(slot, 1)));
    }
    // before the want of an ITL slot and of undo
    let none = Cause::NoTxnSlot { inst: InstNo(0) };
    assert_eq!(rt; bench.decide(Wish::Lock, 12, None), Decision::Refuse(none));
    Ok(())
}

#[test]
fn takes_a_slot_again_and_waits_for_ends(rt: HostRuntime) -> Result<(), Fail> {
    let mut bench = Bench::new(rt.alloc(), 0)?;
    for slot in 0..8u8 {
        assert_eq!(rt; bench.make(Wish::Lock, 0, None), Some(xid(slot, 1)));
        assert!(rt; bench.end(&xid(slot, 1), EndKind::Commit));
    }
    // the last commit is at 16, and the first at 2
    let now = Scn(16);
    let before = Scn(15);
    assert_eq!(rt;
        bench.decide_at(Wish::Lock, 0, None, before, before),
        Decision::ForceFirst
    );
    assert_eq!(rt;
        bench.decide_at(Wish::Lock, 0, None, before, now),
        Decision::Restart(now)
    );
    let slot = TxnSlot {
        wrap: 2,
        state: TxnState::Active,
        first: 9,
        last: 9,
        scn: Scn(0),
        prev: Scn(2),
    };
    match bench.decide_at(Wish::Lock, 0, None, now, now) {
        Decision::Do(redo) => {
            let found = (redo.kind, redo.xid, redo.scn, redo.head.to);
            assert_eq!(rt; found, (RedoKind::Lock, xid(0, 2), Scn(17), slot));
        }
        other => assert!(rt; false, "{other:?}"),
    }
    Ok(())
}

#[test]
fn needs_the_header_of_another_segment(rt: HostRuntime) -> Result<(), Fail> {
    let mut other = Bench::new(rt.alloc(), 1)?;
    assert_eq!(rt; other.make(Wish::Lock, 5, None), Some(THEIRS));
    let mut bench = Bench::new(rt.alloc(), 0)?;
    bench.image = other.image.copy();
    bench.clock = other.clock;
    assert_eq!(rt;
        bench.decide(Wish::Del, 5, None),
        Decision::Need(Wanted::Head(InstNo(1)))
    );
    bench.handed.add_head(other.segment.header().copy())?;
    assert_eq!(rt;
        bench.decide(Wish::Del, 5, None),
        Decision::Refuse(Cause::Busy { xid: THEIRS })
    );
    // it ended at 2, which another instance knows to be on the disk by the header that it sent
    assert!(rt; other.end(&THEIRS, EndKind::Commit));
    let mut later = Bench::new(rt.alloc(), 0)?;
    later.image = other.image.copy();
    later.clock = other.clock;
    later.handed.add_head(other.segment.header().copy())?;
    assert_eq!(rt;
        later.decide_at(Wish::Del, 5, None, Scn(1), Scn(1)),
        Decision::Restart(Scn(2))
    );
    // a row that nobody locked, which is free since the block's SCN or before
    let zero = Scn(0);
    assert_eq!(rt;
        bench.decide_at(Wish::Del, 6, None, zero, zero),
        Decision::ForceFirst
    );
    assert_eq!(rt;
        bench.decide_at(Wish::Del, 6, None, zero, Scn(1)),
        Decision::Restart(Scn(1))
    );
    Ok(())
}
