use super::*;
use base_types::{RedoAt, Scn};

const ENTRY: ControlEntry = ControlEntry {
    status: ThreadStatus::Closed,
    position: RedoAt(0x0102_0304_0506_0708),
    highest_scn: Scn(9),
    highest_end_scn: Scn(0xff00),
};

const BYTES: [u8; 32] = [
    4, 2, 0, 0, 0, 0, 0, 0, 1, 2, 3, 4, 5, 6, 7, 8, 0, 0, 0, 0, 0, 0, 0, 9, 0, 0, 0, 0, 0, 0, 255,
    0,
];

#[test]
fn what_is_written_is_read(rt: HostRuntime) {
    assert!(rt; ENTRY.write() == BYTES);
    assert_eq!(rt; ControlEntry::read(&BYTES), Some(ENTRY));
}

#[test]
fn other_bytes_are_no_entry(rt: HostRuntime) {
    // The kind, the status, and the last of the zeros.
    for (place, byte) in [(0usize, 3u8), (1, 0), (1, 3), (7, 1)] {
        let mut bytes = BYTES;
        bytes[place] = byte;
        assert_eq!(rt; ControlEntry::read(&bytes), None);
    }
}
