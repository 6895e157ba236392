use super::*;
use base_types::{BlockNo, Scn, Sequence};
use inst_set::{ALL_INSTS, InstSet};
use std::alloc::{AllocError, Global};
use std::fmt::Write;
use std::process::Abort;
use std::test::Fail;
use wire_net::{Entry, Frame, Holder, Masters, Mode, PastHolder, Report, Unfound};

const BLOCK: BlockNo = BlockNo(5);

// The holders of an entry with their grants, and the past images with their versions.
fn show_holders(text: &mut String, entry: &Entry) -> Result<(), AllocError> {
    if let Some(x) = &entry.x {
        let inst = x.inst.get();
        let grant = x.grant;
        write!(text, "x{inst}@{grant} ")?;
    }
    for inst in ALL_INSTS {
        let number = inst.get();
        if let Some(grant) = entry.shared.get(inst) {
            write!(text, "s{number}@{grant} ")?;
        }
    }
    for inst in ALL_INSTS {
        let number = inst.get();
        if let Some(version) = entry.past.get(inst) {
            write!(text, "p{number}v{version} ")?;
        }
    }
    Ok(())
}

// The operation of an entry, with those for whom it waits.
fn show_operation(text: &mut String, entry: &Entry) -> Result<(), AllocError> {
    let Some(op) = &entry.op else {
        return Ok(());
    };
    let asker = op.asker.get();
    let mode = op.mode;
    let grant = op.grant;
    write!(text, "op{asker} {mode:?} {grant:?} ")?;
    for inst in ALL_INSTS {
        let number = inst.get();
        if op.waits.has(inst) {
            write!(text, "waits{number} ")?;
        }
    }
    Ok(())
}

// An entry in short: holders, past images, the version written, the next grant, the operation, and how many wait.
fn shown(alloc: Global, entry: &Entry) -> Result<String, AllocError> {
    let mut text = String::new(alloc);
    show_holders(&mut text, entry)?;
    let written = entry.written;
    let next = entry.next_grant;
    write!(text, "w{written} n{next} ")?;
    show_operation(&mut text, entry)?;
    let waiting = entry.queue.len();
    write!(text, "q{waiting}")?;
    Ok(text)
}

// The messages that were sent, each behind the instance to which it goes.
fn told(alloc: Global, out: &mut Outbox) -> Result<String, AllocError> {
    let mut text = String::new(alloc);
    for _ in 0..out.len() {
        if let Some((to, message)) = out.take() {
            let to = to.get();
            write!(text, "{to} {message:?}; ")?;
        }
    }
    Ok(text)
}

// Wants that a message has these sent, and leaves such an entry.
fn expect_step(
    rt: &impl Abort,
    alloc: Global,
    entry: &mut Entry,
    message: &Message,
    sent: &str,
    after: &str,
) -> Result<(), Fail> {
    let mut out = Outbox::new(alloc);
    take(entry, message, &mut out)?;
    let text = told(alloc, &mut out)?;
    assert_eq!(rt; text.as_str(), sent, "at {message:?}");
    let text = shown(alloc, entry)?;
    assert_eq!(rt; text.as_str(), after, "at {message:?}");
    Ok(())
}

#[test]
fn a_reader_beside_a_writer_gets_a_copy(rt: HostRuntime) -> Result<(), Fail> {
    let alloc = rt.alloc();
    let mut entry = Entry::new(alloc);
    entry.x = Some(Holder {
        inst: InstNo(1),
        grant: 1,
    });
    entry.next_grant = 2;
    let asks = Message::Ask {
        block: BLOCK,
        mode: Mode::Shared,
        held: Mode::Null,
        asker: InstNo(3),
    };
    let sent = "1 CopyTo { block: BlockNo(5), grant: 1, reader: InstNo(3) }; ";
    expect_step(&rt, alloc, &mut entry, &asks, sent, "x1@1 w0 n2 q0")?;
    Ok(())
}

#[test]
fn readers_share_a_block(rt: HostRuntime) -> Result<(), Fail> {
    let alloc = rt.alloc();
    let mut entry = Entry::new(alloc);
    for (message, sent, after) in [
        (
            Message::Ask {
                block: BLOCK,
                mode: Mode::Shared,
                held: Mode::Null,
                asker: InstNo(2),
            },
            "2 Grant { block: BlockNo(5), grant: 1, mode: Shared, from_disk: true }; ",
            "w0 n2 op2 Shared Some(1) q0",
        ),
        (
            Message::Ask {
                block: BLOCK,
                mode: Mode::Shared,
                held: Mode::Null,
                asker: InstNo(3),
            },
            "",
            "w0 n2 op2 Shared Some(1) q1",
        ),
        (
            Message::Done {
                block: BLOCK,
                grant: 1,
                mode: Mode::Shared,
                past: None,
            },
            "2 ShareTo { block: BlockNo(5), grant: 1, new_grant: 2, asker: InstNo(3) }; ",
            "s2@1 w0 n3 op3 Shared Some(2) q0",
        ),
        (
            Message::Done {
                block: BLOCK,
                grant: 7,
                mode: Mode::Exclusive,
                past: Some(PastHolder {
                    inst: InstNo(4),
                    version: 9,
                }),
            },
            "",
            "s2@1 p4v9 w0 n3 op3 Shared Some(2) q0",
        ),
        (
            Message::Done {
                block: BLOCK,
                grant: 7,
                mode: Mode::Exclusive,
                past: Some(PastHolder {
                    inst: InstNo(4),
                    version: 8,
                }),
            },
            "",
            "s2@1 p4v9 w0 n3 op3 Shared Some(2) q0",
        ),
        (
            Message::GaveUp {
                block: BLOCK,
                grant: 2,
            },
            "",
            "s2@1 p4v9 w0 n3 q0",
        ),
        (
            Message::Ask {
                block: BLOCK,
                mode: Mode::Shared,
                held: Mode::Null,
                asker: InstNo(3),
            },
            "2 ShareTo { block: BlockNo(5), grant: 1, new_grant: 3, asker: InstNo(3) }; ",
            "s2@1 p4v9 w0 n4 op3 Shared Some(3) q0",
        ),
        (
            Message::Back(Unfound::ShareTo {
                block: BLOCK,
                grant: 1,
                new_grant: 3,
                asker: InstNo(3),
            }),
            "3 Grant { block: BlockNo(5), grant: 4, mode: Shared, from_disk: true }; ",
            "p4v9 w0 n5 op3 Shared Some(4) q0",
        ),
        (
            Message::Done {
                block: BLOCK,
                grant: 4,
                mode: Mode::Shared,
                past: None,
            },
            "",
            "s3@4 p4v9 w0 n5 q0",
        ),
    ] {
        expect_step(&rt, alloc, &mut entry, &message, sent, after)?;
    }
    Ok(())
}

#[test]
fn a_writer_clears_the_block(rt: HostRuntime) -> Result<(), Fail> {
    let alloc = rt.alloc();
    let mut entry = Entry::new(alloc);
    for (message, sent, after) in [
        (
            Message::Ask {
                block: BLOCK,
                mode: Mode::Shared,
                held: Mode::Null,
                asker: InstNo(1),
            },
            "1 Grant { block: BlockNo(5), grant: 1, mode: Shared, from_disk: true }; ",
            "w0 n2 op1 Shared Some(1) q0",
        ),
        (
            Message::Done {
                block: BLOCK,
                grant: 1,
                mode: Mode::Shared,
                past: None,
            },
            "",
            "s1@1 w0 n2 q0",
        ),
        (
            Message::Ask {
                block: BLOCK,
                mode: Mode::Shared,
                held: Mode::Null,
                asker: InstNo(2),
            },
            "1 ShareTo { block: BlockNo(5), grant: 1, new_grant: 2, asker: InstNo(2) }; ",
            "s1@1 w0 n3 op2 Shared Some(2) q0",
        ),
        (
            Message::Done {
                block: BLOCK,
                grant: 2,
                mode: Mode::Shared,
                past: None,
            },
            "",
            "s1@1 s2@2 w0 n3 q0",
        ),
        (
            Message::Ask {
                block: BLOCK,
                mode: Mode::Shared,
                held: Mode::Null,
                asker: InstNo(3),
            },
            "1 ShareTo { block: BlockNo(5), grant: 1, new_grant: 3, asker: InstNo(3) }; ",
            "s1@1 s2@2 w0 n4 op3 Shared Some(3) q0",
        ),
        (
            Message::Done {
                block: BLOCK,
                grant: 3,
                mode: Mode::Shared,
                past: None,
            },
            "",
            "s1@1 s2@2 s3@3 w0 n4 q0",
        ),
        (
            Message::Ask {
                block: BLOCK,
                mode: Mode::Exclusive,
                held: Mode::Shared,
                asker: InstNo(2),
            },
            "1 Invalidate { block: BlockNo(5), grant: 1 }; 3 Invalidate { block: BlockNo(5), grant: 3 }; ",
            "s1@1 s2@2 s3@3 w0 n4 op2 Exclusive None waits1 waits3 q0",
        ),
        (
            Message::Ask {
                block: BLOCK,
                mode: Mode::Shared,
                held: Mode::Null,
                asker: InstNo(4),
            },
            "",
            "s1@1 s2@2 s3@3 w0 n4 op2 Exclusive None waits1 waits3 q1",
        ),
        (
            Message::Gone {
                block: BLOCK,
                grant: 9,
            },
            "",
            "s1@1 s2@2 s3@3 w0 n4 op2 Exclusive None waits1 waits3 q1",
        ),
        (
            Message::Gone {
                block: BLOCK,
                grant: 1,
            },
            "",
            "s2@2 s3@3 w0 n4 op2 Exclusive None waits3 q1",
        ),
        (
            Message::GaveUp {
                block: BLOCK,
                grant: 3,
            },
            "2 Grant { block: BlockNo(5), grant: 4, mode: Exclusive, from_disk: false }; ",
            "s2@2 w0 n5 op2 Exclusive Some(4) q1",
        ),
        (
            Message::Done {
                block: BLOCK,
                grant: 4,
                mode: Mode::Exclusive,
                past: None,
            },
            "2 CopyTo { block: BlockNo(5), grant: 4, reader: InstNo(4) }; ",
            "x2@4 w0 n5 q0",
        ),
    ] {
        expect_step(&rt, alloc, &mut entry, &message, sent, after)?;
    }
    Ok(())
}

#[test]
fn past_images_go_once_they_are_written(rt: HostRuntime) -> Result<(), Fail> {
    let alloc = rt.alloc();
    let mut entry = Entry::new(alloc);
    for (message, sent, after) in [
        (
            Message::Ask {
                block: BLOCK,
                mode: Mode::Exclusive,
                held: Mode::Shared,
                asker: InstNo(2),
            },
            "2 Grant { block: BlockNo(5), grant: 1, mode: Exclusive, from_disk: true }; ",
            "w0 n2 op2 Exclusive Some(1) q0",
        ),
        (
            Message::Done {
                block: BLOCK,
                grant: 1,
                mode: Mode::Exclusive,
                past: None,
            },
            "",
            "x2@1 w0 n2 q0",
        ),
        (
            Message::Ask {
                block: BLOCK,
                mode: Mode::Exclusive,
                held: Mode::Null,
                asker: InstNo(1),
            },
            "2 ShipTo { block: BlockNo(5), grant: 1, new_grant: 2, asker: InstNo(1) }; ",
            "x2@1 w0 n3 op1 Exclusive Some(2) q0",
        ),
        (
            Message::WritePlease {
                block: BLOCK,
                version: 3,
                holder: InstNo(4),
                grant: None,
            },
            "",
            "x2@1 w0 n3 op1 Exclusive Some(2) q1",
        ),
        (
            Message::Done {
                block: BLOCK,
                grant: 2,
                mode: Mode::Exclusive,
                past: Some(PastHolder {
                    inst: InstNo(2),
                    version: 7,
                }),
            },
            "1 WritePlease { block: BlockNo(5), version: 3, holder: InstNo(4), grant: Some(2) }; ",
            "x1@2 p2v7 w0 n3 q0",
        ),
        (
            Message::Wrote {
                block: BLOCK,
                version: 6,
            },
            "",
            "x1@2 p2v7 w6 n3 q0",
        ),
        (
            Message::WritePlease {
                block: BLOCK,
                version: 6,
                holder: InstNo(4),
                grant: None,
            },
            "4 DropPast { block: BlockNo(5), version: 6 }; ",
            "x1@2 p2v7 w6 n3 q0",
        ),
        (
            Message::WritePlease {
                block: BLOCK,
                version: 7,
                holder: InstNo(4),
                grant: Some(2),
            },
            "",
            "x1@2 p2v7 w6 n3 q0",
        ),
        (
            Message::Done {
                block: BLOCK,
                grant: 9,
                mode: Mode::Shared,
                past: Some(PastHolder {
                    inst: InstNo(3),
                    version: 6,
                }),
            },
            "3 DropPast { block: BlockNo(5), version: 6 }; ",
            "x1@2 p2v7 w6 n3 q0",
        ),
        (
            Message::Wrote {
                block: BLOCK,
                version: 7,
            },
            "2 DropPast { block: BlockNo(5), version: 7 }; ",
            "x1@2 w7 n3 q0",
        ),
        (
            Message::Ask {
                block: BLOCK,
                mode: Mode::Exclusive,
                held: Mode::Null,
                asker: InstNo(3),
            },
            "1 ShipTo { block: BlockNo(5), grant: 2, new_grant: 3, asker: InstNo(3) }; ",
            "x1@2 w7 n4 op3 Exclusive Some(3) q0",
        ),
        (
            Message::Done {
                block: BLOCK,
                grant: 3,
                mode: Mode::Exclusive,
                past: Some(PastHolder {
                    inst: InstNo(1),
                    version: 7,
                }),
            },
            "1 DropPast { block: BlockNo(5), version: 7 }; ",
            "x3@3 w7 n4 q0",
        ),
        (
            Message::Done {
                block: BLOCK,
                grant: 8,
                mode: Mode::Exclusive,
                past: Some(PastHolder {
                    inst: InstNo(1),
                    version: 8,
                }),
            },
            "",
            "x3@3 p1v8 w7 n4 q0",
        ),
        (
            Message::Done {
                block: BLOCK,
                grant: 8,
                mode: Mode::Exclusive,
                past: Some(PastHolder {
                    inst: InstNo(1),
                    version: 7,
                }),
            },
            "1 DropPast { block: BlockNo(5), version: 7 }; ",
            "x3@3 p1v8 w7 n4 q0",
        ),
        (
            Message::GaveUp {
                block: BLOCK,
                grant: 3,
            },
            "",
            "p1v8 w7 n4 q0",
        ),
        (
            Message::WritePlease {
                block: BLOCK,
                version: 9,
                holder: InstNo(6),
                grant: None,
            },
            "1 DropPast { block: BlockNo(5), version: 8 }; 6 DropPast { block: BlockNo(5), version: 9 }; ",
            "w9 n4 q0",
        ),
    ] {
        expect_step(&rt, alloc, &mut entry, &message, sent, after)?;
    }
    Ok(())
}

#[test]
fn messages_that_found_no_image_are_taken_again(rt: HostRuntime) -> Result<(), Fail> {
    let alloc = rt.alloc();
    let mut entry = Entry::new(alloc);
    for (message, sent, after) in [
        (
            Message::Ask {
                block: BLOCK,
                mode: Mode::Exclusive,
                held: Mode::Null,
                asker: InstNo(1),
            },
            "1 Grant { block: BlockNo(5), grant: 1, mode: Exclusive, from_disk: true }; ",
            "w0 n2 op1 Exclusive Some(1) q0",
        ),
        (
            Message::Done {
                block: BLOCK,
                grant: 1,
                mode: Mode::Exclusive,
                past: None,
            },
            "",
            "x1@1 w0 n2 q0",
        ),
        (
            Message::Ask {
                block: BLOCK,
                mode: Mode::Exclusive,
                held: Mode::Null,
                asker: InstNo(2),
            },
            "1 ShipTo { block: BlockNo(5), grant: 1, new_grant: 2, asker: InstNo(2) }; ",
            "x1@1 w0 n3 op2 Exclusive Some(2) q0",
        ),
        (
            Message::Ask {
                block: BLOCK,
                mode: Mode::Shared,
                held: Mode::Null,
                asker: InstNo(3),
            },
            "",
            "x1@1 w0 n3 op2 Exclusive Some(2) q1",
        ),
        (
            Message::Back(Unfound::ShipTo {
                block: BLOCK,
                grant: 1,
                new_grant: 2,
                asker: InstNo(2),
            }),
            "2 Grant { block: BlockNo(5), grant: 3, mode: Exclusive, from_disk: true }; ",
            "w0 n4 op2 Exclusive Some(3) q1",
        ),
        (
            Message::Done {
                block: BLOCK,
                grant: 3,
                mode: Mode::Exclusive,
                past: None,
            },
            "2 CopyTo { block: BlockNo(5), grant: 3, reader: InstNo(3) }; ",
            "x2@3 w0 n4 q0",
        ),
        (
            Message::Back(Unfound::WritePlease {
                block: BLOCK,
                grant: 8,
                version: 6,
                holder: InstNo(5),
            }),
            "2 WritePlease { block: BlockNo(5), version: 6, holder: InstNo(5), grant: Some(3) }; ",
            "x2@3 w0 n4 q0",
        ),
        (
            Message::Back(Unfound::CopyTo {
                block: BLOCK,
                grant: 3,
                reader: InstNo(3),
            }),
            "3 Grant { block: BlockNo(5), grant: 4, mode: Shared, from_disk: true }; ",
            "w0 n5 op3 Shared Some(4) q0",
        ),
        (
            Message::Back(Unfound::WritePlease {
                block: BLOCK,
                grant: 8,
                version: 6,
                holder: InstNo(5),
            }),
            "",
            "w0 n5 op3 Shared Some(4) q1",
        ),
        (
            Message::Done {
                block: BLOCK,
                grant: 4,
                mode: Mode::Shared,
                past: None,
            },
            "5 DropPast { block: BlockNo(5), version: 6 }; ",
            "s3@4 w6 n5 q0",
        ),
        (
            Message::Ask {
                block: BLOCK,
                mode: Mode::Exclusive,
                held: Mode::Null,
                asker: InstNo(3),
            },
            "3 Grant { block: BlockNo(5), grant: 5, mode: Exclusive, from_disk: true }; ",
            "w6 n6 op3 Exclusive Some(5) q0",
        ),
    ] {
        expect_step(&rt, alloc, &mut entry, &message, sent, after)?;
    }
    Ok(())
}

// An entry with an exclusive holder, 1.
fn held_alone(alloc: Global) -> Entry {
    let mut entry = Entry::new(alloc);
    entry.x = Some(Holder {
        inst: InstNo(1),
        grant: 1,
    });
    entry.next_grant = 2;
    entry
}

// An entry with two that share the block, 1 and 2.
fn held_by_two(alloc: Global) -> Entry {
    let mut entry = Entry::new(alloc);
    entry.shared.set(InstNo(1), Some(1));
    entry.shared.set(InstNo(2), Some(2));
    entry.next_grant = 3;
    entry
}

fn ask(mode: Mode, held: Mode, asker: u8) -> Message {
    Message::Ask {
        block: BLOCK,
        mode,
        held,
        asker: InstNo(asker),
    }
}

fn gone(grant: u64) -> Message {
    Message::Gone {
        block: BLOCK,
        grant,
    }
}

fn gave_up(grant: u64) -> Message {
    Message::GaveUp {
        block: BLOCK,
        grant,
    }
}

// A Done of an exclusive grant, without a past image.
fn done(grant: u64) -> Message {
    Message::Done {
        block: BLOCK,
        grant,
        mode: Mode::Exclusive,
        past: None,
    }
}

fn wrote(version: u64) -> Message {
    Message::Wrote {
        block: BLOCK,
        version,
    }
}

fn write_please(version: u64, holder: u8) -> Message {
    Message::WritePlease {
        block: BLOCK,
        version,
        holder: InstNo(holder),
        grant: None,
    }
}

#[test]
fn messages_during_an_operation(rt: HostRuntime) -> Result<(), Fail> {
    let alloc = rt.alloc();
    let mut entry = held_by_two(alloc);
    entry.past.set(InstNo(4), Some(2));
    let back = Message::Back(Unfound::CopyTo {
        block: BLOCK,
        grant: 9,
        reader: InstNo(3),
    });
    for (message, sent, after) in [
        (
            ask(Mode::Exclusive, Mode::Null, 4),
            "1 Invalidate { block: BlockNo(5), grant: 1 }; 2 Invalidate { block: BlockNo(5), grant: 2 }; ",
            "s1@1 s2@2 p4v2 w0 n3 op4 Exclusive None waits1 waits2 q0",
        ),
        (
            ask(Mode::Exclusive, Mode::Null, 5),
            "",
            "s1@1 s2@2 p4v2 w0 n3 op4 Exclusive None waits1 waits2 q1",
        ),
        (
            back,
            "",
            "s1@1 s2@2 p4v2 w0 n3 op4 Exclusive None waits1 waits2 q2",
        ),
        (
            gave_up(9),
            "",
            "s1@1 s2@2 p4v2 w0 n3 op4 Exclusive None waits1 waits2 q2",
        ),
        (
            wrote(6),
            "4 DropPast { block: BlockNo(5), version: 2 }; ",
            "s1@1 s2@2 w6 n3 op4 Exclusive None waits1 waits2 q2",
        ),
        (
            write_please(6, 5),
            "5 DropPast { block: BlockNo(5), version: 6 }; ",
            "s1@1 s2@2 w6 n3 op4 Exclusive None waits1 waits2 q2",
        ),
        (gone(1), "", "s2@2 w6 n3 op4 Exclusive None waits2 q2"),
        (
            gone(2),
            "4 Grant { block: BlockNo(5), grant: 3, mode: Exclusive, from_disk: true }; ",
            "w6 n4 op4 Exclusive Some(3) q2",
        ),
        (
            done(3),
            "4 ShipTo { block: BlockNo(5), grant: 3, new_grant: 4, asker: InstNo(5) }; ",
            "x4@3 w6 n5 op5 Exclusive Some(4) q1",
        ),
        (
            done(4),
            "5 CopyTo { block: BlockNo(5), grant: 4, reader: InstNo(3) }; ",
            "x5@4 w6 n5 q0",
        ),
    ] {
        expect_step(&rt, alloc, &mut entry, &message, sent, after)?;
    }
    Ok(())
}

#[test]
fn messages_to_an_empty_entry(rt: HostRuntime) -> Result<(), Fail> {
    let alloc = rt.alloc();
    let mut entry = Entry::new(alloc);
    let drops = Message::DropPast {
        block: BLOCK,
        version: 2,
    };
    let copies = Message::CopyTo {
        block: BLOCK,
        grant: 1,
        reader: InstNo(3),
    };
    for (message, sent, after) in [
        (gone(9), "", "w0 n1 q0"),
        (gave_up(9), "", "w0 n1 q0"),
        (done(9), "", "w0 n1 q0"),
        (drops, "", "w0 n1 q0"),
        (copies, "", "w0 n1 q0"),
        (wrote(3), "", "w3 n1 q0"),
    ] {
        expect_step(&rt, alloc, &mut entry, &message, sent, after)?;
    }
    Ok(())
}

#[test]
fn messages_to_a_block_that_one_holds_alone(rt: HostRuntime) -> Result<(), Fail> {
    let alloc = rt.alloc();
    let mut entry = held_alone(alloc);
    let ships = Message::Back(Unfound::ShipTo {
        block: BLOCK,
        grant: 9,
        new_grant: 2,
        asker: InstNo(5),
    });
    let shares = Message::Back(Unfound::ShareTo {
        block: BLOCK,
        grant: 9,
        new_grant: 2,
        asker: InstNo(5),
    });
    for (message, sent, after) in [
        (gone(9), "", "x1@1 w0 n2 q0"),
        (gave_up(9), "", "x1@1 w0 n2 q0"),
        (ships, "", "x1@1 w0 n2 q0"),
        (shares, "", "x1@1 w0 n2 q0"),
        (
            write_please(4, 4),
            "1 WritePlease { block: BlockNo(5), version: 4, holder: InstNo(4), grant: Some(1) }; ",
            "x1@1 w0 n2 q0",
        ),
    ] {
        expect_step(&rt, alloc, &mut entry, &message, sent, after)?;
    }
    Ok(())
}

#[test]
fn messages_to_a_block_that_two_share(rt: HostRuntime) -> Result<(), Fail> {
    let alloc = rt.alloc();
    let mut entry = held_by_two(alloc);
    for (message, sent, after) in [
        (done(9), "", "s1@1 s2@2 w0 n3 q0"),
        (
            write_please(6, 5),
            "5 DropPast { block: BlockNo(5), version: 6 }; ",
            "s1@1 s2@2 w6 n3 q0",
        ),
        (gave_up(2), "", "s1@1 w6 n3 q0"),
        (
            ask(Mode::Exclusive, Mode::Shared, 1),
            "1 Grant { block: BlockNo(5), grant: 3, mode: Exclusive, from_disk: false }; ",
            "s1@1 w6 n4 op1 Exclusive Some(3) q0",
        ),
    ] {
        expect_step(&rt, alloc, &mut entry, &message, sent, after)?;
    }
    let mut entry = held_by_two(alloc);
    entry.past.set(InstNo(4), Some(2));
    let sent = "4 DropPast { block: BlockNo(5), version: 2 }; ";
    expect_step(
        &rt,
        alloc,
        &mut entry,
        &wrote(3),
        sent,
        "s1@1 s2@2 w3 n3 q0",
    )?;
    expect_step(&rt, alloc, &mut entry, &gone(2), "", "s1@1 w3 n3 q0")?;
    Ok(())
}

// A frame without a current image, or with a clean one, of a block.
fn frame(block: u16, mode: Mode, past: Option<u64>) -> Frame {
    Frame {
        block: BlockNo(block),
        mode,
        version: 4,
        dirty: false,
        past,
    }
}

// What an instance with these frames reports.
fn report<const N: usize>(
    alloc: Global,
    inst: u8,
    frames: [Frame; N],
) -> Result<(InstNo, Report), Fail> {
    let mut list = Sequence::new(alloc);
    for frame in frames {
        list.push(frame)?;
    }
    let report = Report {
        scn: Scn(9),
        known: Scn(8),
        frames: list,
    };
    Ok((InstNo(inst), report))
}

// Wants the entry of a block in a directory.
fn expect_entry(
    rt: &impl Abort,
    alloc: Global,
    directory: &Directory,
    block: u16,
    want: &str,
) -> Result<(), Fail> {
    let entry = directory.entry(BlockNo(block)).ok_or("no entry")?;
    let text = shown(alloc, entry)?;
    assert_eq!(rt; text.as_str(), want, "of block {block}");
    Ok(())
}

#[test]
fn a_directory_is_made_anew_and_gives_a_bucket_away(rt: HostRuntime) -> Result<(), Fail> {
    let alloc = rt.alloc();
    let mut live = InstSet::new();
    live.insert(InstNo(2));
    live.insert(InstNo(3));
    let masters = Masters::dealt(&live);
    let mut reports = Vec::new(alloc);
    let frames = [
        frame(5, Mode::Shared, None),
        frame(7, Mode::Exclusive, None),
        frame(21, Mode::Null, Some(3)),
    ];
    reports.push(report(alloc, 2, frames)?)?;
    let frames = [
        frame(5, Mode::Shared, None),
        frame(7, Mode::Null, Some(2)),
        frame(37, Mode::Exclusive, None),
    ];
    reports.push(report(alloc, 3, frames)?)?;
    let mut directory = rebuild(alloc, InstNo(3), &masters, reports.as_slice())?;
    assert_eq!(rt;
        (directory.has(5), directory.has(6), directory.has(21)),
        (true, false, false)
    );
    for (block, want) in [
        (5, "s2@1 s3@2 w0 n3 q0"),
        (7, "x2@1 p3v2 w0 n2 q0"),
        (21, "p2v3 w0 n1 q0"),
        (37, "x3@1 w0 n2 q0"),
        (53, "w0 n1 q0"),
    ] {
        expect_entry(&rt, alloc, &directory, block, want)?;
    }
    assert!(rt; directory.entry(BlockNo(6)).is_none());
    let mut out = Outbox::new(alloc);
    let ask = Message::Ask {
        block: BlockNo(37),
        mode: Mode::Exclusive,
        held: Mode::Null,
        asker: InstNo(2),
    };
    assert!(rt; directory.is_quiet());
    directory.take(BlockNo(37), &ask, &mut out)?;
    directory.take(BlockNo(6), &ask, &mut out)?;
    assert!(rt; !directory.is_quiet());
    assert_eq!(rt; out.len(), 1);
    let mut other = Directory::new();
    if let Some(entries) = directory.send_bucket(5) {
        other.take_bucket(5, entries);
    }
    assert_eq!(rt;
        (directory.has(5), other.has(5), directory.has(7)),
        (false, true, true)
    );
    expect_entry(
        &rt,
        alloc,
        &other,
        37,
        "x3@1 w0 n3 op2 Exclusive Some(2) q0",
    )?;
    expect_entry(&rt, alloc, &other, 5, "s2@1 s3@2 w0 n3 q0")?;
    Ok(())
}
