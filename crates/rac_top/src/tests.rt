use crate::{End, Exit, rac};
use base_types::{BlockNo, InstNo, Scn, Xid};
use journal::{Entry, Journal};
use log_history::{HistoryLine, history_of};
use rac_disk::{CallKind, Failed, MemDisk, Planned, SharedDisk};
use rac_io::{MemSink, MemSource};
use script_text::Rule;
use std::alloc::{AllocError, Global};
use std::process::Abort;
use std::test::Fail;
use world_machine::Nobody;

/// A call: its words, its script, the reads that fail, the room of its sink and the writes that fail, the room of
/// each log and the calls of the disk that fail; and how it ends, with what is written.
#[derive(Clone, Copy)]
struct Case<'a> {
    words: &'a [&'a str],
    script: &'a str,
    read_fails: &'a [u32],
    room: usize,
    write_fails: &'a [u32],
    log_bytes: u64,
    disk_fails: &'a [Planned],
    end: End,
    written: &'a str,
}

const RUN: Case<'static> = Case {
    words: &["run"],
    script: "",
    read_fails: &[],
    room: 1000,
    write_fails: &[],
    log_bytes: 65_536,
    disk_fails: &[],
    end: End::Done,
    written: "",
};

const FIRST: &str = "instances 1\nsession a on 0\na: put 3 42\na: commit\na: get 3\n";

const FIRST_REPORT: &str = "3: changed\n4: committed\n5: rows 3=42\n";

const SECOND: &str = "instances 1\nsession a on 0\na: put 0 1\na: commit\na: get 0\n";

const SECOND_LOST: &str = "3: changed\n4: ORA-03113\n5: ORA-03114\n";

const PART_OF_AN_APPEND: Planned = Planned {
    what: CallKind::Append,
    nth: 1,
    keep: 7,
};

const FIRST_CUT: Planned = Planned {
    what: CallKind::Cut,
    nth: 1,
    keep: 0,
};

fn call(rt: &HostRuntime, case: &Case) -> Result<(Exit, MemSink, MemDisk), Fail> {
    let alloc = rt.alloc();
    let mut words = Vec::new(alloc);
    for word in case.words {
        words.push(String::from_str(alloc, word)?)?;
    }
    let mut source = MemSource::new(
        case.script.as_bytes().to_vec(alloc)?,
        case.read_fails.to_vec(alloc)?,
    );
    let mut sink = MemSink::new(alloc, case.room, case.write_fails.to_vec(alloc)?)?;
    let mut disk = MemDisk::new(alloc, 200, case.log_bytes, case.disk_fails.to_vec(alloc)?)?;
    let exit = rac(
        alloc,
        words.as_slice(),
        &mut source,
        &mut sink,
        &mut disk,
        &mut Nobody,
    );
    Ok((exit, sink, disk))
}

const CASES: [Case<'static>; 25] = [
    RUN,
    Case {
        script: "go\ngo\n",
        ..RUN
    },
    Case {
        script: FIRST,
        written: FIRST_REPORT,
        ..RUN
    },
    Case {
        script: "# note\ninstances 1\n\nsession a on 0\na: put 0 1\ngo\n# again\na: commit\ngo\na: get 0\n",
        written: "5: changed\n8: committed\n10: rows 0=1\n",
        ..RUN
    },
    Case {
        script: "instances 1\nsession a on 0\na: get 31\na: get 0\n",
        written: "3: rows none\n4: rows none\n",
        ..RUN
    },
    Case {
        words: &["run", "--journal", "--check"],
        script: "session a on 0\na: commit\na: put 0 -7\na: get 0",
        written: "2: committed\n3: changed\n4: rows 0=-7\nopened a 0\nstarted 2 a 0\nplain 2\nstarted 3 a 0\nchanged 3 0.0.1 0 absent -7\nstarted 4 a 0\nrows 4 0=-7\n",
        ..RUN
    },
    Case {
        words: &["run", "--steps"],
        script: "instances 1\nsession a on 0\na: commit\n",
        written: "3: committed\nstep 0 Enter 0\nstep 0 StartStmt 0\nstep 0 EndStmt 0\nstep 0 Leave 0\nstep 0 Wave 0\n",
        ..RUN
    },
    Case {
        words: &["run", "--check"],
        script: "instances 2\nsession a on 0\nsession b on 1\na: put 0 1\na: commit\ngo\nb: get 0\n",
        disk_fails: &[PART_OF_AN_APPEND],
        end: End::DiskFault,
        written: "4: changed\n5: ORA-03113\n7: rows none\n",
        ..RUN
    },
    Case {
        script: "session a on 0\na: put 0 1\na: commit\na: put 0 2\na: commit\na: put 1 1\na: get 0\na: get 1\n",
        written: "2: changed\n3: committed\n4: changed\n5: committed\n6: changed\n7: rows 0=2\n8: rows 1=1\n",
        ..RUN
    },
    Case {
        script: "instances 1\nsession a on 0\na: get 32\n",
        end: End::Refused {
            line: 3,
            rule: Rule::Range,
        },
        ..RUN
    },
    Case {
        script: "session a on 0\na: pu\n",
        end: End::Refused {
            line: 2,
            rule: Rule::Word,
        },
        ..RUN
    },
    Case {
        script: "session a on 0\nz: get 0\n",
        end: End::Refused {
            line: 2,
            rule: Rule::Session,
        },
        ..RUN
    },
    Case {
        script: "instances 1\nsession a on 0\na: put 0 9223372036854775808\n",
        end: End::Refused {
            line: 3,
            rule: Rule::Number,
        },
        ..RUN
    },
    Case {
        words: &[],
        end: End::WrongWords,
        ..RUN
    },
    Case {
        words: &["run", "--jornal"],
        script: FIRST,
        end: End::WrongWords,
        ..RUN
    },
    Case {
        words: &["run", "--journal", "--journal"],
        end: End::WrongWords,
        ..RUN
    },
    Case {
        words: &["audit"],
        end: End::WrongWords,
        ..RUN
    },
    Case {
        words: &["audit", "--disk"],
        end: End::WrongWords,
        ..RUN
    },
    Case {
        words: &["run", "--disk", "d"],
        script: FIRST,
        written: FIRST_REPORT,
        ..RUN
    },
    Case {
        script: FIRST,
        room: 4,
        end: End::WriteFault,
        written: "3: c",
        ..RUN
    },
    Case {
        script: SECOND,
        disk_fails: &[PART_OF_AN_APPEND],
        end: End::DiskFault,
        written: SECOND_LOST,
        ..RUN
    },
    Case {
        script: SECOND,
        log_bytes: 8,
        end: End::DiskFault,
        written: SECOND_LOST,
        ..RUN
    },
    Case {
        script: SECOND,
        disk_fails: &[FIRST_CUT],
        end: End::NotCreated,
        ..RUN
    },
    Case {
        script: SECOND,
        room: 4,
        disk_fails: &[PART_OF_AN_APPEND],
        end: End::WriteFault,
        written: "3: c",
        ..RUN
    },
    Case {
        script: SECOND,
        room: 4,
        disk_fails: &[FIRST_CUT],
        end: End::NotCreated,
        ..RUN
    },
];

/// Looks at how a call ended, and at what it wrote.
fn look(rt: &impl Abort, number: usize, exit: &Exit, sink: &MemSink, end: &End, written: &str) {
    assert_eq!(rt; exit.end, *end, "case {number}");
    assert_eq!(rt; sink.bytes(), written.as_bytes(), "case {number}");
}

#[test]
fn ends_as_it_should(rt: HostRuntime) -> Result<(), Fail> {
    for (number, case) in CASES.iter().enumerate() {
        let (exit, sink, _) = call(&rt, case)?;
        look(&rt, number, &exit, &sink, &case.end, case.written);
    }
    Ok(())
}

/// How the first script ends, and what it writes, where its read of each number fails: it reads twice, its bytes and
/// their end.
const FAILED_READS: [(End, &str); 5] = [
    (End::ReadFault, ""),
    (End::ReadFault, ""),
    (End::Done, FIRST_REPORT),
    (End::Done, FIRST_REPORT),
    (End::Done, FIRST_REPORT),
];

/// The same where its write of each number fails: it writes once.
const FAILED_WRITES: [(End, &str); 5] = [
    (End::WriteFault, ""),
    (End::Done, FIRST_REPORT),
    (End::Done, FIRST_REPORT),
    (End::Done, FIRST_REPORT),
    (End::Done, FIRST_REPORT),
];

#[test]
fn a_failed_read_is_told(rt: HostRuntime) -> Result<(), Fail> {
    for (number, (end, written)) in FAILED_READS.iter().enumerate() {
        let fails = [number as u32 + 1];
        let case = Case {
            script: FIRST,
            read_fails: &fails,
            ..RUN
        };
        let (exit, sink, _) = call(&rt, &case)?;
        look(&rt, number, &exit, &sink, end, written);
    }
    Ok(())
}

#[test]
fn a_failed_write_is_told(rt: HostRuntime) -> Result<(), Fail> {
    for (number, (end, written)) in FAILED_WRITES.iter().enumerate() {
        let fails = [number as u32 + 1];
        let case = Case {
            script: FIRST,
            write_fails: &fails,
            ..RUN
        };
        let (exit, sink, _) = call(&rt, &case)?;
        look(&rt, number, &exit, &sink, end, written);
    }
    Ok(())
}

#[test]
fn nothing_runs_where_no_database_was_made(rt: HostRuntime) -> Result<(), Fail> {
    let (exit, _, _) = call(
        &rt,
        &Case {
            script: SECOND,
            disk_fails: &[FIRST_CUT],
            ..RUN
        },
    )?;
    assert_eq!(rt; exit.end, End::NotCreated);
    assert_eq!(rt; exit.journal.len(), 0);
    Ok(())
}

/// What the log of the first thread has: its commits, and where its torn end begins.
fn read_history(
    rt: &HostRuntime,
    disk: &mut MemDisk,
) -> Result<(Vec<HistoryLine>, Vec<(InstNo, u64)>), Fail> {
    let alloc = rt.alloc();
    let mut room = [0; 400];
    let count = disk.read_log(InstNo(0), 0, &mut room)?;
    let mut logs = Vec::new(alloc);
    logs.push(
        room.as_slice()
            .get(..count)
            .unwrap_or_default()
            .to_vec(alloc)?,
    )?;
    Ok(history_of(alloc, logs.as_slice())?)
}

/// The transactions that a journal commits, with their SCNs.
fn commits_in(alloc: Global, journal: &Journal) -> Result<Vec<(Xid, Scn)>, AllocError> {
    let mut commits = Vec::new(alloc);
    for entry in journal.as_slice() {
        if let Entry::Committed {
            xid,
            commit_scn,
            ..
        } = entry
        {
            commits.push((*xid, *commit_scn))?;
        }
    }
    Ok(commits)
}

/// What the append of a change (236 bytes) and its commit (88) keeps as it fails.
const KEPT: [u32; 7] = [0, 1, 235, 236, 237, 323, 324];

/// Whichever of its bytes an append keeps, the log tells the commits of the journal.
#[test]
fn the_log_tells_the_history_wherever_it_was_cut(rt: HostRuntime) -> Result<(), Fail> {
    let alloc = rt.alloc();
    for keep in KEPT {
        let plan = [Planned {
            keep,
            ..PART_OF_AN_APPEND
        }];
        let (exit, sink, mut disk) = call(
            &rt,
            &Case {
                words: &["run", "--check"],
                script: SECOND,
                disk_fails: &plan,
                ..RUN
            },
        )?;
        look(
            &rt,
            keep as usize,
            &exit,
            &sink,
            &End::DiskFault,
            SECOND_LOST,
        );
        let commits = commits_in(alloc, &exit.journal)?;
        assert_eq!(rt; commits.len(), usize::from(keep >= 324), "keep {keep}");
        let (lines, torn) = read_history(&rt, &mut disk)?;
        assert_eq!(rt; lines.len(), commits.len(), "keep {keep}");
        for (line, commit) in lines.iter().zip(&commits) {
            assert_eq!(rt; (line.xid, line.commit_scn), *commit, "keep {keep}");
        }
        let end = match keep {
            1..=235 => Some(0),
            237..=323 => Some(236),
            _ => None,
        };
        assert_eq!(rt; torn.first().map(|place| place.1), end, "keep {keep}");
    }
    Ok(())
}

/// A disk that doesn't tell what it holds: each block is bytes that no run left, and nothing else is there.
#[derive(Drop)]
struct HostileDisk;

impl SharedDisk for HostileDisk {
    ghost use Rattle.std.specs.Prelude.{None};

    ghost state = { λ _. record { told = None; faults = 0; full = 0 } };

    fn read_block(&mut self, _b: BlockNo, out: &mut [u8; 512]) -> Result<(), Failed> {
        *out = [255; 512];
        Ok(())
    }

    fn write_block(&mut self, _b: BlockNo, _bytes: &[u8; 512]) -> Result<(), Failed> {
        Ok(())
    }

    fn append(&mut self, _t: InstNo, _bytes: &[u8]) -> Result<(), Failed> {
        Ok(())
    }

    fn cut_log(&mut self, _t: InstNo, _len: u64) -> Result<(), Failed> {
        Ok(())
    }

    fn log_len(&mut self, _t: InstNo) -> Result<u64, Failed> {
        Ok(0)
    }

    fn read_log(&mut self, _t: InstNo, _at: u64, _out: &mut [u8]) -> Result<usize, Failed> {
        Ok(0)
    }

    fn read_control(&mut self, _t: InstNo, out: &mut [u8; 32]) -> Result<(), Failed> {
        *out = [0; 32];
        Ok(())
    }

    fn write_control(&mut self, _t: InstNo, _bytes: &[u8; 32]) -> Result<(), Failed> {
        Ok(())
    }

    fn full(&self) -> u64 {
        0
    }

    fn faults(&self) -> u64 {
        0
    }
}

#[test]
fn content_that_no_run_left_is_told(rt: HostRuntime) -> Result<(), Fail> {
    let alloc = rt.alloc();
    let mut words = Vec::new(alloc);
    words.push(String::from_str(alloc, "run")?)?;
    let script = "instances 1\nsession a on 0\na: get 0\n";
    let mut source = MemSource::new(script.as_bytes().to_vec(alloc)?, Vec::new(alloc));
    let mut sink = MemSink::new(alloc, 1000, Vec::new(alloc))?;
    let exit = rac(
        alloc,
        words.as_slice(),
        &mut source,
        &mut sink,
        &mut HostileDisk,
        &mut Nobody,
    );
    look(&rt, 0, &exit, &sink, &End::BadDisk, "3: ORA-03113\n");
    Ok(())
}

/// An audit: the bytes of the first log, the calls of the disk that fail and the room of the sink; and how it ends,
/// with what is written.
#[derive(Clone, Copy)]
struct AuditCase<'a> {
    log: &'a [u8],
    disk_fails: &'a [Planned],
    room: usize,
    end: End,
    written: &'a str,
}

const EMPTY_LOG: AuditCase<'static> = AuditCase {
    log: &[],
    disk_fails: &[],
    room: 1000,
    end: End::Done,
    written: "",
};

const AUDITS: [AuditCase<'static>; 5] = [
    EMPTY_LOG,
    AuditCase {
        log: &[5],
        written: "torn 0 0\n",
        ..EMPTY_LOG
    },
    AuditCase {
        log: &[0, 5, 9],
        end: End::BadLog {
            thread: InstNo(0),
            place: 0,
        },
        ..EMPTY_LOG
    },
    AuditCase {
        log: &[5],
        room: 4,
        end: End::WriteFault,
        written: "torn",
        ..EMPTY_LOG
    },
    AuditCase {
        log: &[5],
        disk_fails: &[Planned {
            what: CallKind::ReadLog,
            nth: 8,
            keep: 0,
        }],
        end: End::LogsUnread,
        ..EMPTY_LOG
    },
];

/// Audits a disk.
fn audit(rt: &HostRuntime, disk: &mut MemDisk, room: usize) -> Result<(Exit, MemSink), Fail> {
    let alloc = rt.alloc();
    let mut words = Vec::new(alloc);
    for word in ["audit", "--disk", "d"] {
        words.push(String::from_str(alloc, word)?)?;
    }
    let mut source = MemSource::new(Vec::new(alloc), Vec::new(alloc));
    let mut sink = MemSink::new(alloc, room, Vec::new(alloc))?;
    let exit = rac(
        alloc,
        words.as_slice(),
        &mut source,
        &mut sink,
        disk,
        &mut Nobody,
    );
    Ok((exit, sink))
}

#[test]
fn tells_what_the_logs_have(rt: HostRuntime) -> Result<(), Fail> {
    let alloc = rt.alloc();
    for (number, case) in AUDITS.iter().enumerate() {
        let mut disk = MemDisk::new(alloc, 200, 1000, case.disk_fails.to_vec(alloc)?)?;
        disk.append(InstNo(0), case.log)?;
        let (exit, sink) = audit(&rt, &mut disk, case.room)?;
        look(&rt, number, &exit, &sink, &case.end, case.written);
    }
    Ok(())
}

/// Runs, and what the audit of the disk that each left writes.
const LEFT: [(Case<'static>, &str); 2] = [
    (
        Case {
            script: FIRST,
            ..RUN
        },
        "commit 2 0 0.0.1 3=42\n",
    ),
    (
        Case {
            script: SECOND,
            disk_fails: &[PART_OF_AN_APPEND],
            ..RUN
        },
        "torn 0 0\n",
    ),
];

#[test]
fn tells_what_a_run_left(rt: HostRuntime) -> Result<(), Fail> {
    for (number, (case, written)) in LEFT.iter().enumerate() {
        let (_, _, mut disk) = call(&rt, case)?;
        let (exit, sink) = audit(&rt, &mut disk, 1000)?;
        look(&rt, number, &exit, &sink, &End::Done, written);
    }
    Ok(())
}
