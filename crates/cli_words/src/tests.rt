use crate::{Order, RunOptions, WordsError, read_words};
use std::test::Fail;

/// What the words are to give.
#[derive(Clone, Copy)]
enum Wanted<'a> {
    Run(RunOptions, Option<&'a str>),
    Load(u64, u32, Option<&'a str>),
    Audit(&'a str),
    Usage,
}

const PLAIN: RunOptions = RunOptions {
    journal: false,
    steps: false,
    check: false,
};

const WITH_JOURNAL: RunOptions = RunOptions {
    journal: true,
    ..PLAIN
};

const WITH_ALL: RunOptions = RunOptions {
    journal: true,
    steps: true,
    check: true,
};

fn is_wanted(answer: &Result<Order, WordsError>, wanted: Wanted) -> bool {
    match (answer, wanted) {
        (
            Ok(
                Order::Run {
                    options,
                    folder: None,
                },
            ),
            Wanted::Run(asked, None),
        ) => *options == asked,
        (
            Ok(
                Order::Run {
                    options,
                    folder: Some(folder),
                },
            ),
            Wanted::Run(asked, Some(name)),
        ) => { *options == asked && folder.as_str() == name }
        (
            Ok(
                Order::Load {
                    seed,
                    rounds,
                    folder: None,
                },
            ),
            Wanted::Load(of, count, None),
        ) => *seed == of && *rounds == count,
        (
            Ok(
                Order::Load {
                    seed,
                    rounds,
                    folder: Some(folder),
                },
            ),
            Wanted::Load(of, count, Some(name)),
        ) => *seed == of && *rounds == count && folder.as_str() == name,
        (Ok(Order::Audit { folder }), Wanted::Audit(name)) => folder.as_str() == name,
        (Err(WordsError::Usage), Wanted::Usage) => true,
        _ => false,
    }
}

fn read(rt: &HostRuntime, line: &[&str]) -> Result<Result<Order, WordsError>, Fail> {
    let alloc = rt.alloc();
    let mut words = Vec::new(alloc);
    for word in line {
        words.push(String::from_str(alloc, word)?)?;
    }
    Ok(read_words(alloc, words.as_slice()))
}

const TAKEN: [(&[&str], Wanted<'static>); 33] = [
    (&["run"], Wanted::Run(PLAIN, None)),
    (&["run", "--journal"], Wanted::Run(WITH_JOURNAL, None)),
    (&["run", "--disk", "d"], Wanted::Run(PLAIN, Some("d"))),
    (&["run", "--disk=d"], Wanted::Run(PLAIN, Some("d"))),
    (
        &["run", "--disk=d", "--journal"],
        Wanted::Run(WITH_JOURNAL, Some("d")),
    ),
    (
        &["run", "--disk", "d", "--journal"],
        Wanted::Run(WITH_JOURNAL, Some("d")),
    ),
    (
        &["run", "--journal", "--disk", "d"],
        Wanted::Run(WITH_JOURNAL, Some("d")),
    ),
    (
        &["run", "--steps"],
        Wanted::Run(
            RunOptions {
                steps: true,
                ..PLAIN
            },
            None,
        ),
    ),
    (
        &["run", "--check", "--disk", "d"],
        Wanted::Run(
            RunOptions {
                check: true,
                ..PLAIN
            },
            Some("d"),
        ),
    ),
    (
        &["run", "--journal", "--steps", "--check"],
        Wanted::Run(WITH_ALL, None),
    ),
    (
        &["run", "--check", "--disk=d", "--steps", "--journal"],
        Wanted::Run(WITH_ALL, Some("d")),
    ),
    (&["audit", "--disk", "d"], Wanted::Audit("d")),
    (&["audit", "--disk=d"], Wanted::Audit("d")),
    // a folder's name is any text that is no flag, and any text at all behind `=`
    (&["run", "--disk", ""], Wanted::Run(PLAIN, Some(""))),
    (&["run", "--disk="], Wanted::Run(PLAIN, Some(""))),
    (&["audit", "--disk="], Wanted::Audit("")),
    (&["run", "--disk", "-"], Wanted::Run(PLAIN, Some("-"))),
    (&["run", "--disk=-d"], Wanted::Run(PLAIN, Some("-d"))),
    (
        &["run", "--disk=--journal"],
        Wanted::Run(PLAIN, Some("--journal")),
    ),
    (&["run", "--disk=a=b"], Wanted::Run(PLAIN, Some("a=b"))),
    (&["run", "--disk", "run"], Wanted::Run(PLAIN, Some("run"))),
    (&["audit", "--disk", "a b"], Wanted::Audit("a b")),
    (&["load", "7", "0"], Wanted::Load(7, 0, None)),
    (&["load", "0", "700"], Wanted::Load(0, 700, None)),
    (
        &["load", "9223372036854775807", "020"],
        Wanted::Load(9223372036854775807, 20, None),
    ),
    (
        &["load", "0000000000000000007", "1"],
        Wanted::Load(7, 1, None),
    ),
    (
        &["load", "7", "20", "--disk", "d"],
        Wanted::Load(7, 20, Some("d")),
    ),
    (
        &["load", "--disk", "7", "8", "9"],
        Wanted::Load(8, 9, Some("7")),
    ),
    (
        &["load", "7", "--disk=-", "20"],
        Wanted::Load(7, 20, Some("-")),
    ),
    (&["load", "7", "--", "20"], Wanted::Load(7, 20, None)),
    (&["load", "--", "7", "20"], Wanted::Load(7, 20, None)),
    // `--` ends the flags, and nothing need follow it
    (&["run", "--"], Wanted::Run(PLAIN, None)),
    (&["audit", "--disk", "d", "--"], Wanted::Audit("d")),
];

const REFUSED: [&[&str]; 57] = [
    &[],
    &[""],
    &["walk"],
    &["Run"],
    &["ru"],
    &["load"],
    &["load", "7"],
    &["load", "7", "701"],
    &["load", "7", "4294967296"],
    &["load", "9223372036854775808", "0"],
    &["load", "18446744073709551623", "0"],
    &["load", "00000000000000000007", "0"],
    &["load", "", "0"],
    &["load", "7", ""],
    &["load", "+7", "0"],
    &["load", "-7", "0"],
    &["load", "7", "0x1"],
    &["load", "7", " 1"],
    &["load", "7", "0", "0"],
    &["load", "7", "0", "--journal"],
    &["load", "7", "--disk", "0"],
    &["load", "7", "0", "--disk"],
    &["load", "7", "--", "0", "--disk", "d"],
    &["audit"],
    &["audit", "--disk"],
    &["audit", "--"],
    &["audit", "--", "--disk", "d"],
    &["audit", "d"],
    &["audit", "--journal", "--disk", "d"],
    &["audit", "--disk", "d", "--check"],
    &["audit", "--disk", "d", "--disk", "d"],
    &["run", "--jornal"],
    &["run", "--journa"],
    &["run", "--journal=yes"],
    &["run", "--journal", "yes"],
    &["run", "--journal", "--journal"],
    &["run", "--steps", "--journal", "--steps"],
    &["run", "--check", "--check"],
    &["run", "--step"],
    &["run", "-j"],
    &["run", "--disk"],
    &["run", "--disk", "a", "--disk", "b"],
    &["run", "--disk", "a", "b"],
    &["run", "--disk", "-d"],
    &["run", "--disk", "--"],
    &["run", "--disk", "--", "d"],
    &["run", "--disk", "--journal"],
    &["run", "x"],
    &["run", "--", "x"],
    &["run", "run"],
    &["run", "audit"],
    &["--journal", "run"],
    &["--disk", "d", "audit"],
    &["--help"],
    &["help"],
    &["run", "--help"],
    &["--version"],
];

#[test]
fn gives_what_is_asked(rt: HostRuntime) -> Result<(), Fail> {
    for (line, wanted) in TAKEN.iter() {
        let answer = read(&rt, line)?;
        assert!(rt; is_wanted(&answer, *wanted), "{:?} of {:?}", answer, line);
    }
    Ok(())
}

#[test]
fn refuses_other_words(rt: HostRuntime) -> Result<(), Fail> {
    for line in REFUSED.iter() {
        let answer = read(&rt, line)?;
        assert!(rt;
            is_wanted(&answer, Wanted::Usage),
            "{:?} of {:?}",
            answer,
            line
        );
    }
    Ok(())
}
