use super::*;
use base_types::{InstNo, Scn};
use inst_set::InstSet;

fn clock(scn: u64, known: u64) -> Clock {
    Clock {
        scn: Scn(scn),
        known: Scn(known),
    }
}

fn insts(numbers: &[u8]) -> InstSet {
    let mut set = InstSet::new();
    for number in numbers {
        set.insert(InstNo(*number));
    }
    set
}

#[test]
fn clocks_only_rise(rt: HostRuntime) {
    // The clock's two numbers, what it hears of, and both after `raise` and after `learn`.
    let cases: [((u64, u64), u64, (u64, u64), (u64, u64)); 5] = [
        ((7, 3), 2, (7, 3), (7, 3)),
        ((7, 3), 5, (7, 3), (7, 5)),
        ((7, 3), 7, (7, 3), (7, 7)),
        ((7, 3), 9, (9, 3), (9, 9)),
        ((0, 0), u64::MAX, (u64::MAX, 0), (u64::MAX, u64::MAX)),
    ];
    for ((scn, known), heard, raised, learnt) in cases {
        let mut heard_of = clock(scn, known);
        heard_of.raise(Scn(heard));
        assert_eq!(rt; heard_of, clock(raised.0, raised.1));
        let mut learnt_of = clock(scn, known);
        learnt_of.learn(Scn(heard));
        assert_eq!(rt; learnt_of, clock(learnt.0, learnt.1));
    }
    let mut drawn = Clock {
        scn: Scn(7),
        known: Scn(3),
    };
    assert_eq!(rt; drawn.draw(), Scn(8));
    assert_eq!(rt; drawn, clock(8, 3));
}

#[test]
fn news_is_whole_once_each_of_the_asked_has_heard(rt: HostRuntime) {
    // Who is asked, who hears, who lives, and whether that is whole before and after only the live ones are asked.
    let cases: [(&[u8], &[u8], &[u8], bool, bool); 6] = [
        (&[], &[], &[], true, true),
        (&[0, 7], &[7], &[0, 1, 7], false, false),
        (&[0, 7], &[7, 0], &[], true, true),
        (&[0, 7], &[7], &[1, 7], false, true),
        (&[3], &[2, 4, 255], &[3], false, false),
        (&[1, 2, 8], &[2, 1], &[1, 2], true, true),
    ];
    for (asked, heard, live, before, after) in cases {
        let mut news = Broadcast::new(Scn(5), &insts(asked));
        for inst in heard {
            news.hear(InstNo(*inst));
        }
        assert_eq!(rt; news.is_whole(), before);
        news.limit_to(&insts(live));
        assert_eq!(rt; news.is_whole(), after);
        assert_eq!(rt; news.end, Scn(5));
    }
}
