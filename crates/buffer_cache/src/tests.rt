ghost use Rattle.std.specs.Prelude.{◌<◌};

use super::*;
use base_types::{BlockNo, InstNo, RedoAt, Scn, Value, Xid};
use block_image::ItlSlot;
use std::test::Fail;
use wire_net::PastHolder;

// A transaction takes ITL slot 1 and gives row 0 a number.
const CHANGE: RowChange = RowChange {
    row: 0,
    lock: 1,
    itl: 1,
    fresh: true,
    slot: ItlSlot {
        xid: Xid {
            seg: InstNo(0),
            slot: 0,
            wrap: 1,
        },
        seq: 1,
    },
    value: Value::Num(7),
};

const FIRST: BlockNo = BlockNo(2);

const SECOND: BlockNo = BlockNo(3);

// Holds a block that no record touched in X, by grant 1, and changes it by the records at two places.
fn hold_changed(cache: &mut BufferCache, b: BlockNo, first: RedoAt, second: RedoAt)
    requires { b < 64 }
{
    cache.install_read(b, 1, Mode::Exclusive, DataBlock::empty(b));
    cache.change(b, &CHANGE, Scn(5), first);
    cache.change(b, &CHANGE, Scn(6), second);
}

fn shipment(grant: u64, shared: bool, dirty: bool) -> Shipment {
    Shipment {
        block: FIRST,
        grant,
        image: CurrentImage::new(DataBlock::empty(FIRST)),
        shared,
        dirty,
        past: Some(PastHolder {
            inst: InstNo(1),
            version: 0,
        }),
    }
}

#[test]
fn frames_are_reserved(rt: HostRuntime) -> Result<(), Fail> {
    let mut cache = BufferCache::new(rt.alloc(), 2, 8).ok().ok_or("memory")?;
    assert_eq!(rt; (cache.blocks(), cache.taken(), cache.free()), (8, 0, 2));

    // an ask takes a frame, and the image that comes is in it
    cache.ask(FIRST, Mode::Shared);
    assert_eq!(rt; (cache.asked(FIRST), cache.free()), (Some(Mode::Shared), 1));
    cache.install_read(FIRST, 1, Mode::Shared, DataBlock::empty(FIRST));
    assert_eq!(rt; (cache.asked(FIRST), cache.free()), (None, 1));

    // an upgrade takes none beside that of the image in S, and may be asked for though no frame is free
    cache.ask(SECOND, Mode::Shared);
    assert_eq!(rt;
        (
            cache.free(),
            cache.may_ask(BlockNo(4)),
            cache.may_ask(FIRST)
        ),
        (0, false, true)
    );
    cache.ask(FIRST, Mode::Exclusive);
    assert_eq!(rt;
        (cache.asked(FIRST), cache.free()),
        (Some(Mode::Exclusive), 0)
    );
    cache.install_held(FIRST, 2);
    assert_eq!(rt;
        (cache.asked(FIRST), cache.free(), cache.may_ask(FIRST)),
        (None, 0, false)
    );
    cache.release(SECOND);
    assert_eq!(rt; (cache.asked(SECOND), cache.free()), (None, 1));
    Ok(())
}

#[test]
fn a_past_image_takes_a_frame(rt: HostRuntime) -> Result<(), Fail> {
    let mut cache = BufferCache::new(rt.alloc(), 4, 8).ok().ok_or("memory")?;
    hold_changed(&mut cache, FIRST, RedoAt(90), RedoAt(95));
    assert_eq!(rt; cache.free(), 3);
    let _ = cache.give_up(FIRST);
    assert_eq!(rt; cache.free(), 3);
    cache.ask(FIRST, Mode::Shared);
    assert_eq!(rt; cache.free(), 2);
    cache.install(shipment(2, true, false));
    assert_eq!(rt; (cache.free(), cache.past(FIRST).is_some()), (3, false));
    Ok(())
}

// As `hold_changed` leaves it with the first record at 90.
fn held_changed() -> Held {
    Held {
        mode: Mode::Exclusive,
        role: Role::Local,
        dirty: true,
        mine: Some(RedoAt(90)),
        grant: 1,
        version: 2,
    }
}

// A block that no record touched.
fn held_as(mode: Mode, role: Role, dirty: bool, grant: u64) -> Held {
    Held {
        mode,
        role,
        dirty,
        mine: None,
        grant,
        version: 0,
    }
}

#[test]
fn a_dirty_image_stays_as_past(rt: HostRuntime) -> Result<(), Fail> {
    let mut cache = BufferCache::new(rt.alloc(), 4, 8).ok().ok_or("memory")?;
    hold_changed(&mut cache, FIRST, RedoAt(90), RedoAt(95));
    assert_eq!(rt; cache.held(FIRST), Some(held_changed()));
    let current = cache.give_up(FIRST).ok_or("nothing is given up")?;
    assert_eq!(rt;
        (current.held(), current.image.image().row(0)),
        (held_changed(), Value::Num(7))
    );
    assert_eq!(rt;
        (cache.held(FIRST), cache.give_up(FIRST).is_some()),
        (None, false)
    );
    assert_eq!(rt;
        (cache.past_version(FIRST), cache.past_mine(FIRST)),
        (Some(2), Some(RedoAt(90)))
    );
    assert_eq!(rt;
        cache.past(FIRST).map(|block| block.row(0)),
        Some(Value::Num(7))
    );
    assert_eq!(rt; cache.is_past_asked(FIRST), false);
    cache.ask_past(FIRST);
    assert_eq!(rt; cache.is_past_asked(FIRST), true);
    Ok(())
}

#[test]
fn a_past_image_goes_by_its_version(rt: HostRuntime) -> Result<(), Fail> {
    for (up_to, left) in [(1, Some(2)), (2, None), (3, None)] {
        let mut cache = BufferCache::new(rt.alloc(), 4, 8).ok().ok_or("memory")?;
        hold_changed(&mut cache, FIRST, RedoAt(90), RedoAt(95));
        let _ = cache.give_up(FIRST);
        cache.drop_past(FIRST, up_to);
        assert_eq!(rt; cache.past_version(FIRST), left, "up to {up_to}");
    }
    Ok(())
}

#[test]
fn shipments_are_held(rt: HostRuntime) -> Result<(), Fail> {
    let table = [
        (true, false, Mode::Shared, Role::Local),
        (false, false, Mode::Exclusive, Role::Local),
        (false, true, Mode::Exclusive, Role::Global),
    ];
    for (shared, dirty, mode, role) in table {
        let mut cache = BufferCache::new(rt.alloc(), 4, 8).ok().ok_or("memory")?;
        cache.install(shipment(6, shared, dirty));
        assert_eq!(rt; cache.held(FIRST), Some(held_as(mode, role, dirty, 6)));
        assert_eq!(rt;
            (cache.is_dirty(FIRST), cache.is_clean(FIRST)),
            (dirty, !dirty)
        );
        assert_eq!(rt; cache.share(FIRST).is_some(), shared);
        cache.regrant(FIRST, 8, Role::Global);
        assert_eq!(rt;
            cache.held(FIRST),
            Some(held_as(mode, Role::Global, dirty, 8))
        );
    }
    Ok(())
}

#[test]
fn images_are_written_and_dropped(rt: HostRuntime) -> Result<(), Fail> {
    let mut cache = BufferCache::new(rt.alloc(), 4, 8).ok().ok_or("memory")?;
    cache.install(shipment(6, false, true));
    cache.wish(FIRST);
    assert_eq!(rt; (cache.is_wished(FIRST), cache.evict(FIRST)), (true, None));
    cache.wrote(FIRST);
    assert_eq!(rt;
        (cache.is_wished(FIRST), cache.held(FIRST)),
        (false, Some(held_as(Mode::Exclusive, Role::Local, false, 6)))
    );
    cache.invalidate(FIRST, 5);
    assert_eq!(rt; cache.image(FIRST).map(|block| block.number()), Some(FIRST));
    assert_eq!(rt; (cache.evict(FIRST), cache.held(FIRST)), (Some(6), None));
    cache.install(shipment(7, true, false));
    cache.invalidate(FIRST, 7);
    assert_eq!(rt;
        (cache.held(FIRST), cache.past(FIRST).is_some()),
        (None, false)
    );
    Ok(())
}

#[test]
fn copies_are_kept_in_the_order_of_use(rt: HostRuntime) -> Result<(), Fail> {
    let mut cache = BufferCache::new(rt.alloc(), 2, 8).ok().ok_or("memory")?;
    keep(&mut cache, 1, 10)?;
    keep(&mut cache, 2, 20)?;
    assert_eq!(rt;
        (
            cache.use_copy(BlockNo(1), Scn(11)),
            cache.use_copy(BlockNo(1), Scn(10))
        ),
        (false, true)
    );
    // block 2 was used longest ago
    keep(&mut cache, 3, 30)?;
    assert_eq!(rt;
        (
            serves(&cache, 1, 10),
            serves(&cache, 2, 20),
            serves(&cache, 3, 30)
        ),
        (true, false, true)
    );
    // in the place of the copy before, and used last
    keep(&mut cache, 1, 5)?;
    assert_eq!(rt;
        (
            serves(&cache, 1, 5),
            serves(&cache, 1, 6),
            serves(&cache, 3, 30)
        ),
        (true, false, true)
    );
    // a look leaves the order
    keep(&mut cache, 4, 40)?;
    assert_eq!(rt;
        (
            serves(&cache, 1, 5),
            serves(&cache, 3, 30),
            serves(&cache, 4, 40)
        ),
        (true, false, true)
    );
    cache.drop_copy(BlockNo(1));
    assert_eq!(rt;
        (serves(&cache, 1, 5), serves(&cache, 4, 40)),
        (false, true)
    );
    // an image that comes takes the place of a copy
    cache.install_read(BlockNo(4), 1, Mode::Shared, DataBlock::empty(BlockNo(4)));
    assert_eq!(rt; serves(&cache, 4, 40), false);
    Ok(())
}

fn keep(cache: &mut BufferCache, b: u16, upto: u64) -> Result<(), Fail> {
    cache
        .keep_copy(DataBlock::empty(BlockNo(b)), Scn(upto))
        .ok()
        .ok_or("memory")?;
    Ok(())
}

fn serves(cache: &BufferCache, b: u16, scn: u64) -> bool {
    let image = cache.peek_copy(BlockNo(b), Scn(scn));
    image.map(|block| block.number()) == Some(BlockNo(b))
}

#[test]
fn the_position_is_below_each_own_record(rt: HostRuntime) -> Result<(), Fail> {
    let mut cache = BufferCache::new(rt.alloc(), 4, 8).ok().ok_or("memory")?;
    hold_changed(&mut cache, FIRST, RedoAt(90), RedoAt(95));
    hold_changed(&mut cache, SECOND, RedoAt(120), RedoAt(130));
    let _ = cache.give_up(FIRST);
    let durable = RedoAt(200);
    // that of the past image is the least, unless another is
    assert_eq!(rt; cache.position(None, durable), RedoAt(90));
    assert_eq!(rt; cache.position(Some(RedoAt(50)), durable), RedoAt(50));
    assert_eq!(rt; cache.position(Some(RedoAt(91)), durable), RedoAt(90));
    assert_eq!(rt; cache.position(None, RedoAt(40)), RedoAt(40));
    cache.drop_past(FIRST, 2);
    assert_eq!(rt; cache.position(None, durable), RedoAt(120));
    cache.wrote(SECOND);
    assert_eq!(rt; cache.position(None, durable), durable);
    Ok(())
}

#[test]
fn a_block_that_comes_back_keeps_its_first_record(rt: HostRuntime) -> Result<(), Fail> {
    let durable = RedoAt(200);
    let table = [(true, Some(RedoAt(90)), RedoAt(90)), (false, None, durable)];
    for (dirty, mine, position) in table {
        let mut cache = BufferCache::new(rt.alloc(), 4, 8).ok().ok_or("memory")?;
        hold_changed(&mut cache, FIRST, RedoAt(90), RedoAt(95));
        let _ = cache.give_up(FIRST);
        cache.install(shipment(2, false, dirty));
        assert_eq!(rt; cache.held(FIRST).and_then(|held| held.mine), mine);
        assert_eq!(rt; cache.position(None, durable), position);
    }
    Ok(())
}

#[test]
fn a_report_forgets(rt: HostRuntime) -> Result<(), Fail> {
    let mut cache = BufferCache::new(rt.alloc(), 4, 8).ok().ok_or("memory")?;
    hold_changed(&mut cache, FIRST, RedoAt(90), RedoAt(95));
    let _ = cache.give_up(FIRST);
    cache.ask_past(FIRST);
    cache.install_read(SECOND, 1, Mode::Shared, DataBlock::empty(SECOND));
    cache.ask(SECOND, Mode::Exclusive);
    cache.wish(SECOND);
    keep(&mut cache, 1, 10)?;
    cache.forget();
    assert_eq!(rt;
        (cache.asked(SECOND), cache.is_wished(SECOND)),
        (None, false)
    );
    assert_eq!(rt;
        (cache.is_past_asked(FIRST), serves(&cache, 1, 10)),
        (false, false)
    );
    assert_eq!(rt;
        (cache.past_version(FIRST), cache.is_clean(SECOND)),
        (Some(2), true)
    );
    Ok(())
}

#[test]
fn there_is_nothing_of_a_block_that_there_isnt(rt: HostRuntime) -> Result<(), Fail> {
    let mut cache = BufferCache::new(rt.alloc(), 4, 2).ok().ok_or("memory")?;
    cache.ask(FIRST, Mode::Shared);
    cache.install(shipment(1, true, false));
    assert_eq!(rt;
        (cache.held(FIRST), cache.asked(FIRST), cache.free()),
        (None, None, 4)
    );
    Ok(())
}
