use crate::load_script;
use std::test::Fail;

/// How a load of seed 7 begins.
const HEAD: &str = "instances 3
blocks 8
undo 64
cache 16
seed 7
session s0 on 0
session s1 on 1
session s2 on 2
session s3 on 0
s0: put 0 100
s0: put 4 100
";

/// How one of two rounds ends, by the words of the generator's reference code.
const ROUNDS: &str = "s3: put 63 100
s3: commit
go
s0: scan 0 63
s0: add 12 -2
s0: add 48 2
s0: commit
s1: add 33 -9
s1: add 61 9
s1: commit
s2: add 30 -1
s2: add 46 1
s2: commit
s3: add 59 -6
s3: add 27 6
s3: commit
go
s0: add 4 -7
s0: add 40 7
s0: commit
s1: scan 0 63
s1: add 29 -7
s1: add 33 7
s1: commit
s2: add 22 -7
s2: add 54 7
s2: commit
s3: add 7 -1
s3: add 51 1
s3: commit
go
s0: scan 0 63
";

#[test]
fn a_load_is_as_stated(rt: HostRuntime) -> Result<(), Fail> {
    let text = load_script(rt.alloc(), 7, 2)?;
    assert!(rt; text.starts_with(HEAD.as_bytes()));
    assert!(rt; text.ends_with(ROUNDS.as_bytes()));
    Ok(())
}

#[test]
fn a_load_has_79_lines_and_14_more_for_each_round(rt: HostRuntime) -> Result<(), Fail> {
    for rounds in 0..9 {
        let text = load_script(rt.alloc(), 18446744073709551615, rounds)?;
        let lines = text.iter().filter(|byte| **byte == b'\n').count();
        assert_eq!(rt; lines, 79 + 14 * rounds as usize);
    }
    Ok(())
}
