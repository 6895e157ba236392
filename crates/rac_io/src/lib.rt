//! Bytes in and out: sources and sinks that count their faults, in memory and over `std`'s readers and
//! writers, and the reading and writing of whole texts.
#![tactic(auto)]

mod calls;
mod mem_sink;
mod mem_source;
mod read;
mod sink;
mod source;
mod std_sink;
mod std_source;
mod write;

pub use mem_sink::MemSink;
pub use mem_source::MemSource;
pub use read::{ReadError, read_limited};
pub use sink::{Put, Sink};
pub use source::{Got, Source};
pub use std_sink::StdSink;
pub use std_source::StdSource;
pub use write::{WriteFault, write_whole};

#[cfg(test)]
mod tests {
    use super::*;
    use std::test::Fail;

    #[test]
    fn reads_up_to_a_limit(rt: HostRuntime) -> Result<(), Fail> {
        let alloc = rt.alloc();
        // The bytes, the reads that fail, the limit, and what is read, if no read failed.
        let cases: [(&[u8], &[u32], usize, Option<&[u8]>); 8] = [
            (b"", &[], 5, Some(b"")),
            (b"abc", &[], 5, Some(b"abc")),
            (b"abcde", &[], 5, Some(b"abcde")),
            (b"abcdef", &[], 5, Some(b"abcde")),
            (b"abcdef", &[1], 0, Some(b"")),
            (b"abcde", &[2], 5, Some(b"abcde")),
            (b"abc", &[1], 5, None),
            (b"abc", &[9, 2], 5, None),
        ];
        for (bytes, fails, limit, want) in cases {
            let mut source = MemSource::new(bytes.to_vec(alloc)?, fails.to_vec(alloc)?);
            let got = read_limited(alloc, &mut source, limit);
            match want {
                Some(want) => assert_eq!(rt; got?.as_slice(), want),
                None => assert!(rt; matches!(got, Err(ReadError::Fault))),
            }
            assert_eq!(rt; source.faults(), u64::from(want.is_none()));
        }
        Ok(())
    }

    #[test]
    fn reads_more_than_a_piece(rt: HostRuntime) -> Result<(), Fail> {
        let alloc = rt.alloc();
        let text = vec![in alloc; b'x'; 10_000]?;
        let mut source = StdSource::new(text.as_slice());
        assert_eq!(rt; read_limited(alloc, &mut source, 9_000)?.len(), 9_000);
        assert_eq!(rt; read_limited(alloc, &mut source, 9_000)?.len(), 1_000);
        assert_eq!(rt; source.faults(), 0);
        Ok(())
    }

    #[test]
    fn writes_the_whole_or_a_part(rt: HostRuntime) -> Result<(), Fail> {
        let alloc = rt.alloc();
        // The bytes, the room, the writes that fail, what is held, and the fault.
        let cases: [(&[u8], usize, &[u32], &[u8], Option<WriteFault>); 5] = [
            (b"", 0, &[1], b"", None),
            (b"abc", 3, &[], b"abc", None),
            (b"abc", 2, &[], b"ab", Some(WriteFault::Failed)),
            (b"abc", 3, &[1], b"", Some(WriteFault::Failed)),
            (b"abc", 3, &[2], b"abc", None),
        ];
        for (bytes, room, fails, want, fault) in cases {
            let mut sink = MemSink::new(alloc, room, fails.to_vec(alloc)?)?;
            assert_eq!(rt; write_whole(&mut sink, bytes).err(), fault);
            assert_eq!(rt; sink.bytes(), want);
            assert_eq!(rt; sink.faults(), u64::from(fault.is_some()));
        }
        Ok(())
    }

    #[test]
    fn a_full_writer_stalls(rt: HostRuntime) {
        let mut buffer = [0; 2];
        let mut sink = StdSink::new(&mut buffer[..]);
        assert_eq!(rt;
            write_whole(&mut sink, b"abc").err(),
            Some(WriteFault::Stalled)
        );
        assert_eq!(rt; sink.faults(), 0);
    }
}
