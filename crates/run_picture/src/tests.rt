use crate::{LONGEST, Look, Picture, Shape, Sign, Turn, picture_text, svg_text};
use base_types::{BlockNo, InstNo, NoMemory, RowNo, Scn, Sequence, Value, Xid};
use journal::{Cause, Entry, Journal};
use script_text::{Script, read_script};
use std::alloc::Global;
use std::process::Abort;
use std::test::Fail;

/// A script with a line of each kind that is shown.
const SCRIPT: &str = "instances 2
session a on 0
session b on 1
a: put 3 1
b: scan 0 7
a: savepoint p
a: rollback to p
a: commit
go
b: rollback
crash 0 after 0 keep all
go
start 0
checkpoint 1
remaster 0 to 1
";

fn script_of(rt: &impl Abort, alloc: Global, text: &str) -> Script {
    read_script(alloc, text.as_bytes()).expect(rt, "the script is read")
}

/// A transaction's name.
const XID: Xid = Xid {
    seg: InstNo(0),
    slot: 1,
    wrap: 2,
};

/// A journal with an entry of each kind.
fn journal_of(alloc: Global) -> Result<Journal, NoMemory> {
    let mut rows = Sequence::new(alloc);
    for row in 0..40 {
        rows.push((RowNo(row), Value::Num(-5)))?;
    }
    let mut journal = Journal::new(alloc);
    journal.push(Entry::Opened {
        session: 0,
        inst: InstNo(0),
    })?;
    journal.push(Entry::Started {
        stmt: 4,
        session: 0,
        snapshot: Scn(7),
    })?;
    journal.push(Entry::Changed {
        stmt: 4,
        xid: XID,
        row: RowNo(3),
        found: Value::Absent,
        new: Value::Num(1),
    })?;
    journal.push(Entry::Started {
        stmt: 5,
        session: 1,
        snapshot: Scn(7),
    })?;
    journal.push(Entry::Rows { stmt: 5, rows })?;
    journal.push(Entry::Plain { stmt: 6 })?;
    journal.push(Entry::Undone { xid: XID, left: 1 })?;
    journal.push(Entry::Marked {
        stmt: 8,
        xid: XID,
        commit_scn: Scn(9),
    })?;
    journal.push(Entry::Committed {
        xid: XID,
        commit_scn: Scn(9),
        inst: InstNo(0),
    })?;
    journal.push(Entry::Acked {
        stmt: 8,
        xid: XID,
        commit_scn: Scn(9),
    })?;
    journal.push(Entry::Started {
        stmt: 10,
        session: 9,
        snapshot: Scn(9),
    })?;
    journal.push(Entry::Refused {
        stmt: 10,
        cause: Cause::Busy { xid: XID },
    })?;
    journal.push(Entry::Crashed {
        line: 11,
        inst: InstNo(0),
    })?;
    journal.push(Entry::Recovered { insts: 1 })?;
    journal.push(Entry::Up {
        line: 13,
        inst: InstNo(0),
    })?;
    journal.push(Entry::Checkpointed { line: 14 })?;
    journal.push(Entry::Moved { line: 15 })?;
    journal.push(Entry::NotDone { line: 15 })?;
    journal.push(Entry::Ended {
        inst: InstNo(9),
        bad: false,
    })?;
    Ok(journal)
}

/// A step of each kind that is shown, with so many entries each.
fn turns_of(alloc: Global, entries: u32) -> Result<Vec<Turn>, NoMemory> {
    let block = BlockNo(3);
    let signs = [
        Sign::Plain,
        Sign::Asks { block },
        Sign::Ships {
            block,
            version: 4,
            to: InstNo(1),
            keeps_past: true,
        },
        Sign::Gets {
            block,
            version: 4,
            from: InstNo(1),
        },
        Sign::GetsCopy {
            block,
            version: 4,
            from: InstNo(0),
        },
        Sign::Forces,
        Sign::Reports,
        Sign::ReadsThread { thread: InstNo(0) },
        Sign::Recovers { block },
        Sign::Thaws,
        Sign::Resumes,
        Sign::Wave,
    ];
    let mut turns = Vec::new(alloc);
    let mut inst = 0;
    for sign in signs {
        turns.push(Turn {
            inst: InstNo(inst),
            sign,
            entries,
        })?;
        inst = 1 - inst.min(1);
    }
    Ok(turns)
}

/// Whether a line is one element of those of a picture, closed, with each quote closed.
fn is_element(line: &str) -> bool {
    let tags = line.bytes().filter(|byte| *byte == b'<').count();
    let quotes = line.bytes().filter(|byte| *byte == b'"').count();
    let closed = line.starts_with("<text ") && line.ends_with("</text>") && tags == 2;
    let single = (line.starts_with("<rect ")
        || line.starts_with("<line ")
        || line.starts_with("<path "))
        && line.ends_with("/>")
        && tags == 1;
    quotes % 2 == 0 && (closed || single)
}

/// Whether a text is one element with an element in each line.
fn is_well_formed(text: &str) -> bool {
    let Some(inner) = text.strip_suffix("</svg>\n") else {
        return false;
    };
    let Some((opening, shapes)) = inner.split_once('\n') else {
        return false;
    };
    opening.starts_with("<svg ") && opening.ends_with('>') && shapes.lines().all(is_element)
}

#[test]
fn what_a_label_says_is_escaped(rt: HostRuntime) -> Result<(), Fail> {
    let alloc = rt.alloc();
    let mut shapes = Vec::new(alloc);
    shapes.push(Shape::Label {
        x: 1,
        y: 2,
        text: String::from_str(alloc, "<a & \"b\">\u{e9}\n")?,
        look: Look::Words,
    })?;
    let picture = Picture {
        width: 30,
        height: 40,
        shapes,
    };
    let text = svg_text(alloc, &picture)?;
    assert!(rt;
        text.as_str()
            .contains(">&lt;a &amp; \"b\"&gt;???</text>\n</svg>\n")
    );
    Ok(())
}

#[test]
fn pictures_of_each_entry_and_step_are_well_formed(rt: HostRuntime) -> Result<(), Fail> {
    let alloc = rt.alloc();
    let script = script_of(&rt, alloc, SCRIPT);
    let journal = journal_of(alloc)?;
    for entries in 0..4 {
        let turns = turns_of(alloc, entries)?;
        for from in 0..15 {
            let text = picture_text(alloc, &script, &journal, turns.as_slice(), from)?;
            assert!(rt; is_well_formed(text.as_str()));
        }
    }
    Ok(())
}

#[test]
fn a_picture_says_what_was_done(rt: HostRuntime) -> Result<(), Fail> {
    let alloc = rt.alloc();
    let script = script_of(&rt, alloc, SCRIPT);
    let journal = journal_of(alloc)?;
    let turns = turns_of(alloc, 2)?;
    let text = picture_text(alloc, &script, &journal, turns.as_slice(), 0)?;
    let said = [
        ">4 a: put 3 1  (sees SCN 7)<",
        ">4 row 3 from absent to 1<",
        ">5 rows 0=-5 1=-5 2=-5 3=-5 4=-5 5=-5 6=-5 ..<",
        ">ships block 3 v4 to 1, keeps a past image<",
        ">block 3 v4 from 1<",
        ">0.1.2 is committed on disk, SCN 9<",
        ">10 ORA-00054, row of 0.1.2<",
        ">11 crashes<",
        ">rolls block 3 forward, writes it<",
    ];
    for words in said {
        assert!(rt; text.as_str().contains(words), "{words}");
    }
    Ok(())
}

#[test]
fn a_long_run_is_cut(rt: HostRuntime) -> Result<(), Fail> {
    let alloc = rt.alloc();
    let script = script_of(&rt, alloc, SCRIPT);
    let journal = Journal::new(alloc);
    let mut turns = Vec::new(alloc);
    for _ in 0..1000 {
        turns.push(Turn {
            inst: InstNo(0),
            sign: Sign::Forces,
            entries: 0,
        })?;
    }
    let text = picture_text(alloc, &script, &journal, turns.as_slice(), 500)?;
    let rows = text
        .as_str()
        .lines()
        .filter(|line| line.ends_with(">forces its redo</text>"))
        .count();
    assert_eq!(rt; rows, LONGEST as usize);
    assert!(rt; text.as_str().contains(">Steps 500 to 659 of 1000<"));
    Ok(())
}
