use super::*;
use base_types::{BlockNo, InstNo, Scn};
use inst_set::InstSet;
use std::process::Abort;
use std::test::Fail;

// A Commit of an SCN, sent at that SCN.
fn commit(c: u64) -> Packet {
    Packet {
        scn: Scn(c),
        message: Message::Commit { c: Scn(c) },
    }
}

// Wants the clock of the packet that is taken from a link, 0 where none waits there.
fn expect_taken(rt: &impl Abort, links: &mut Links, from: u8, to: u8, lane: Lane, want: u64) {
    let scn = match links.take(InstNo(from), InstNo(to), lane) {
        Some(packet) => packet.scn,
        None => Scn(0),
    };
    assert_eq!(rt; scn, Scn(want), "from {from} to {to}");
}

#[test]
fn packets_wait_on_their_links(rt: HostRuntime) -> Result<(), Fail> {
    let mut links = Links::new(rt.alloc())?;
    assert!(rt; links.is_empty());
    for (from, to, c) in [(0, 1, 1), (1, 0, 2), (0, 1, 3), (7, 7, 4), (0, 8, 5)] {
        links.send(InstNo(from), InstNo(to), commit(c))?;
    }
    let ask = Packet {
        scn: Scn(6),
        message: Message::NeedUndo {
            block: BlockNo(70),
            job: 2,
        },
    };
    links.send(InstNo(0), InstNo(1), ask)?;
    for (from, to, lane, want) in [
        (0, 1, Lane::Main, 1),
        (0, 1, Lane::Undo, 6),
        (0, 1, Lane::Main, 3),
        (0, 1, Lane::Main, 0),
        (1, 0, Lane::Main, 2),
        (0, 8, Lane::Main, 0),
        (7, 7, Lane::Undo, 0),
    ] {
        expect_taken(&rt, &mut links, from, to, lane, want);
    }
    assert!(rt; !links.is_empty());
    links.clear();
    assert!(rt; links.is_empty());
    Ok(())
}

#[test]
fn buckets_are_dealt_in_turn(rt: HostRuntime) {
    let mut live = InstSet::new();
    for inst in [6, 1, 4] {
        live.insert(InstNo(inst));
    }
    let mut masters = Masters::dealt(&live);
    for (block, want) in [
        (0, 1),
        (1, 4),
        (2, 6),
        (3, 1),
        (15, 1),
        (16, 1),
        (31, 1),
        (33, 4),
    ] {
        assert_eq!(rt;
            masters.of(BlockNo(block)),
            InstNo(want),
            "of block {block}"
        );
    }
    masters.set(1, InstNo(6));
    assert_eq!(rt; masters.of(BlockNo(17)), InstNo(6));
    let nobody = Masters::dealt(&InstSet::new());
    assert_eq!(rt; nobody.of(BlockNo(5)), InstNo(0));
}
