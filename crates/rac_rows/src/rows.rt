//! Scripts with what a run of each has to write.

use rac_disk::{CallKind, Planned};
use script_text::Rule;

/// How the run of a row is to end.
#[derive(Clone, Copy)]
pub enum RowEnd {
    Done,
    /// The script is refused at this line by this rule.
    Refused { line: u32, rule: Rule },
    DiskFault,
}

/// A script with what a run of it has to write, whatever numbers stand in it for `N` and `M`.
#[derive(Clone, Copy)]
pub struct Row {
    pub title: &'static str,
    pub script: &'static str,
    /// The numbers that stand for `N`, from the first to the last.
    pub n: (u32, u32),
    /// The numbers that stand for `M`.
    pub m: (u32, u32),
    /// The journal is asked for too.
    pub journal: bool,
    /// The call of the disk that is to fail.
    pub fault: Option<Planned>,
    /// What may be written.
    pub wanted: &'static [&'static str],
    pub end: RowEnd,
}

/// All rows.
pub const ROWS: &[Row] = &[
    Row {
        title: "an empty script",
        script: "",
        n: (0, 0),
        m: (0, 0),
        journal: false,
        fault: None,
        wanted: &[""],
        end: RowEnd::Done,
    },
    Row {
        title: "empty waves",
        script: "go
go
",
        n: (0, 0),
        m: (0, 0),
        journal: false,
        fault: None,
        wanted: &[""],
        end: RowEnd::Done,
    },
    Row {
        title: "one change, one commit",
        script: "instances 1
session a on 0
a: put 3 42
a: commit
a: get 3
",
        n: (0, 0),
        m: (0, 0),
        journal: true,
        fault: None,
        wanted: &[
            "3: changed
4: committed
5: rows 3=42
opened a 0
started 3 a 0
changed 3 0.0.1 3 absent 42
started 4 a 0
marked 4 0.0.1 2
committed 0.0.1 2 0
acked 4 0.0.1 2
started 5 a 2
rows 5 3=42
",
        ],
        end: RowEnd::Done,
    },
    Row {
        title: "transfers, a crash and a return",
        script: "instances 3
blocks 2
session a on 0
session b on 0
session c on 1
session d on 1
session e on 2
session f on 2
a: put 0 100
a: put 1 100
a: put 8 100
a: commit
go
c: add 0 -30
c: add 8 30
c: commit
go
e: add 8 -5
e: add 1 5
go
d: scan 0 15
b: add 8 1
go
crash 2 after 0 keep all
go
b: scan 0 15
f: get 0
start 2
go
session g on 2
g: add 1 -20
g: add 0 20
g: commit
go
a: scan 0 15
",
        n: (0, 0),
        m: (0, 0),
        journal: false,
        fault: None,
        wanted: &[
            "9: changed
10: changed
11: changed
12: committed
14: changed
15: changed
16: committed
18: changed
19: changed
21: rows 0=70 1=100 8=130
22: ORA-00054 xid 2.0.1
24: crashed
26: rows 0=70 1=100 8=130
27: ORA-03114
28: up
31: changed
32: changed
33: committed
35: rows 0=90 1=80 8=130
",
        ],
        end: RowEnd::Done,
    },
    Row {
        title: "rows that nobody put",
        script: "blocks 2
session a on 0
a: get 15
a: get 0
",
        n: (0, 0),
        m: (0, 0),
        journal: false,
        fault: None,
        wanted: &[
            "3: rows none
4: rows none
",
        ],
        end: RowEnd::Done,
    },
    Row {
        title: "a row past the last",
        script: "blocks 2
session a on 0
a: get 16
a: get 0
",
        n: (0, 0),
        m: (0, 0),
        journal: false,
        fault: None,
        wanted: &[""],
        end: RowEnd::Refused {
            line: 3,
            rule: Rule::Range,
        },
    },
    Row {
        title: "a reader that is held",
        script: "instances 1
session r on 0
session m on 0
r: put 0 1
r: put 8 1
r: commit
go
hold r until m
r: scan 0 15
m: put 0 2
m: put 8 2
m: commit
go
r: scan 0 15
",
        n: (0, 0),
        m: (0, 0),
        journal: false,
        fault: None,
        wanted: &[
            "4: changed
5: changed
6: committed
9: rows 0=1 8=1
10: changed
11: changed
12: committed
14: rows 0=2 8=2
",
        ],
        end: RowEnd::Done,
    },
    Row {
        title: "a reader beside a writer",
        script: "instances 2
seed N
session r on 0
session m on 1
m: put 0 1
m: put 8 1
m: commit
go
r: scan 0 15
m: put 0 2
m: put 8 2
m: commit
",
        n: (1, 100),
        m: (0, 0),
        journal: false,
        fault: None,
        wanted: &[
            "5: changed
6: changed
7: committed
9: rows 0=1 8=1
10: changed
11: changed
12: committed
",
            "5: changed
6: changed
7: committed
9: rows 0=2 8=2
10: changed
11: changed
12: committed
",
        ],
        end: RowEnd::Done,
    },
    Row {
        title: "a commit is seen elsewhere",
        script: "instances 3
session a on 0
session c on 2
a: put 0 5
a: commit
go
c: get 0
",
        n: (0, 0),
        m: (0, 0),
        journal: false,
        fault: None,
        wanted: &[
            "4: changed
5: committed
7: rows 0=5
",
        ],
        end: RowEnd::Done,
    },
    Row {
        title: "two commits side by side",
        script: "instances 2
session a on 0
session b on 1
a: put 0 1
b: put 8 2
go
a: commit
b: commit
go
a: scan 0 15
b: scan 0 15
",
        n: (0, 0),
        m: (0, 0),
        journal: false,
        fault: None,
        wanted: &[
            "4: changed
5: changed
7: committed
8: committed
10: rows 0=1 8=2
11: rows 0=1 8=2
",
        ],
        end: RowEnd::Done,
    },
    Row {
        title: "later commits of one row are taken back",
        script: "instances 1
session r on 0
session m on 0
m: put 0 1
m: commit
go
hold r until m
r: get 0
m: put 0 2
m: commit
m: put 0 3
m: commit
go
r: get 0
",
        n: (0, 0),
        m: (0, 0),
        journal: false,
        fault: None,
        wanted: &[
            "4: changed
5: committed
8: rows 0=1
9: changed
10: committed
11: changed
12: committed
14: rows 0=3
",
        ],
        end: RowEnd::Done,
    },
    Row {
        title: "own changes over another's",
        script: "instances 2
session a on 0
session b on 1
a: put 0 5
go
b: put 1 6
go
a: scan 0 7
b: scan 0 7
go
a: put 0 7
a: scan 0 7
",
        n: (0, 0),
        m: (0, 0),
        journal: false,
        fault: None,
        wanted: &[
            "4: changed
6: changed
8: rows 0=5
9: rows 1=6
11: changed
12: rows 0=7
",
        ],
        end: RowEnd::Done,
    },
    Row {
        title: "a crash frees a row",
        script: "instances 2
session a on 0
session b on 1
a: put 3 1
go
b: put 3 2
go
crash 0 after 0 keep all
go
b: put 3 2
b: commit
b: get 3
",
        n: (0, 0),
        m: (0, 0),
        journal: false,
        fault: None,
        wanted: &[
            "4: changed
6: ORA-00054 xid 0.0.1
8: crashed
10: changed
11: committed
12: rows 3=2
",
        ],
        end: RowEnd::Done,
    },
    Row {
        title: "undo that is too old",
        script: "instances 1
undo 8
session r on 0
session m on 0
m: put 0 1
m: commit
go
hold r until m
r: get 0
m: put 0 2
m: commit
m: put 8 1
m: put 8 1
m: put 8 1
m: put 8 1
m: put 8 1
m: put 8 1
m: put 8 1
m: put 8 1
m: commit
",
        n: (0, 0),
        m: (0, 0),
        journal: false,
        fault: None,
        wanted: &[
            "5: changed
6: committed
9: ORA-01555 undo 0.1.1 wanted 2 found 10
10: changed
11: committed
12: changed
13: changed
14: changed
15: changed
16: changed
17: changed
18: changed
19: changed
20: committed
",
        ],
        end: RowEnd::Done,
    },
    Row {
        title: "undo that is just there",
        script: "instances 1
undo 8
session r on 0
session m on 0
m: put 0 1
m: commit
go
hold r until m
r: get 0
m: put 0 2
m: commit
m: put 8 1
m: put 8 1
m: put 8 1
m: put 8 1
m: put 8 1
m: put 8 1
m: put 8 1
m: commit
",
        n: (0, 0),
        m: (0, 0),
        journal: false,
        fault: None,
        wanted: &[
            "5: changed
6: committed
9: rows 0=1
10: changed
11: committed
12: changed
13: changed
14: changed
15: changed
16: changed
17: changed
18: changed
19: committed
",
        ],
        end: RowEnd::Done,
    },
    Row {
        title: "undo that is full",
        script: "instances 1
undo 8
session a on 0
a: put 0 1
a: put 0 1
a: put 0 1
a: put 0 1
a: put 0 1
a: put 0 1
a: put 0 1
a: put 0 1
a: put 0 2
a: rollback
a: get 0
a: put 0 3
a: commit
a: get 0
",
        n: (0, 0),
        m: (0, 0),
        journal: false,
        fault: None,
        wanted: &[
            "4: changed
5: changed
6: changed
7: changed
8: changed
9: changed
10: changed
11: changed
12: ORA-30036 first 1 next 9
13: rolled back
14: rows none
15: changed
16: committed
17: rows 0=3
",
        ],
        end: RowEnd::Done,
    },
    Row {
        title: "a block whose transaction slots are taken",
        script: "instances 2
session a on 0
session b on 0
session c on 0
session d on 1
session e on 1
a: put 0 1
b: put 1 1
c: put 2 1
go
d: put 3 1
go
e: put 4 1
",
        n: (0, 0),
        m: (0, 0),
        journal: false,
        fault: None,
        wanted: &[
            "7: changed
8: changed
9: changed
11: changed
13: RAC-001 block 0
",
        ],
        end: RowEnd::Done,
    },
    Row {
        title: "an instance whose transaction slots are taken",
        script: "instances 1
session a on 0
session b on 0
session c on 0
session d on 0
session e on 0
session f on 0
session g on 0
session h on 0
session i on 0
a: put 0 1
b: put 1 1
c: put 2 1
d: put 3 1
e: put 8 1
f: put 9 1
g: put 10 1
h: put 11 1
go
i: put 16 1
",
        n: (0, 0),
        m: (0, 0),
        journal: false,
        fault: None,
        wanted: &[
            "11: changed
12: changed
13: changed
14: changed
15: changed
16: changed
17: changed
18: changed
20: RAC-002 instance 0
",
        ],
        end: RowEnd::Done,
    },
    Row {
        title: "sums outside 64 bits",
        script: "instances 1
session a on 0
a: put 0 9223372036854775807
a: add 0 1
a: get 0
a: add 1 -5
a: get 1
",
        n: (0, 0),
        m: (0, 0),
        journal: false,
        fault: None,
        wanted: &[
            "3: changed
4: ORA-01426 9223372036854775807 1
5: rows 0=9223372036854775807
6: changed
7: rows 1=-5
",
        ],
        end: RowEnd::Done,
    },
    Row {
        title: "a crash at the mark, its record cut",
        script: "instances 2
session a on 0
session b on 1
a: put 0 7
go
a: commit
crash 0 at mark keep all-1
go
b: get 0
",
        n: (0, 0),
        m: (0, 0),
        journal: false,
        fault: None,
        wanted: &[
            "4: changed
6: ORA-03113
7: crashed
9: rows none
",
        ],
        end: RowEnd::Done,
    },
    Row {
        title: "a crash at the mark, its record whole",
        script: "instances 2
session a on 0
session b on 1
a: put 0 7
go
a: commit
crash 0 at mark keep all
go
b: get 0
",
        n: (0, 0),
        m: (0, 0),
        journal: false,
        fault: None,
        wanted: &[
            "4: changed
6: ORA-03113
7: crashed
9: rows 0=7
",
        ],
        end: RowEnd::Done,
    },
    Row {
        title: "two crashes at once",
        script: "instances 3
session a on 0
session b on 1
session c on 2
a: put 0 1
a: commit
go
b: put 1 2
b: commit
go
c: put 2 3
c: commit
go
crash 1 after 0 keep 0
crash 2 after 0 keep 0
go
a: scan 0 7
",
        n: (0, 0),
        m: (0, 0),
        journal: false,
        fault: None,
        wanted: &[
            "5: changed
6: committed
8: changed
9: committed
11: changed
12: committed
14: crashed
15: crashed
17: rows 0=1 1=2 2=3
",
        ],
        end: RowEnd::Done,
    },
    Row {
        title: "crashes at each moment of a recovery",
        script: "instances 3
session a on 0
session b on 1
a: put 0 1
a: commit
go
b: put 0 2
crash 2 after N keep 0
crash 0 after M keep 0
go
crash 1 after 0 keep all
go
start 1
go
session d on 1
d: get 0
",
        n: (0, 20),
        m: (0, 20),
        journal: false,
        fault: None,
        wanted: &[
            "4: changed
5: committed
7: changed
8: crashed
9: crashed
11: crashed
13: up
16: rows 0=1
",
        ],
        end: RowEnd::Done,
    },
    Row {
        title: "an append that fails",
        script: "instances 2
session a on 0
session b on 1
a: put 0 1
a: commit
go
b: get 0
",
        n: (0, 0),
        m: (0, 0),
        journal: false,
        fault: Some(Planned {
            what: CallKind::Append,
            nth: 1,
            keep: 7,
        }),
        wanted: &[
            "4: changed
5: ORA-03113
7: rows none
",
        ],
        end: RowEnd::DiskFault,
    },
    Row {
        title: "a bucket that moves",
        script: "instances 3
seed N
session a on 0
session b on 1
session c on 2
a: put 0 1
b: put 1 2
c: put 2 3
remaster 0 to 2
go
a: commit
b: commit
c: commit
go
b: scan 0 7
",
        n: (1, 50),
        m: (0, 0),
        journal: false,
        fault: None,
        wanted: &[
            "6: changed
7: changed
8: changed
9: moved
11: committed
12: committed
13: committed
15: rows 0=1 1=2 2=3
",
        ],
        end: RowEnd::Done,
    },
    Row {
        title: "a word that isn't whole",
        script: "session a on 0
a: pu
",
        n: (0, 0),
        m: (0, 0),
        journal: false,
        fault: None,
        wanted: &[""],
        end: RowEnd::Refused {
            line: 2,
            rule: Rule::Word,
        },
    },
    Row {
        title: "a session that isn't opened",
        script: "session a on 0
z: get 0
",
        n: (0, 0),
        m: (0, 0),
        journal: false,
        fault: None,
        wanted: &[""],
        end: RowEnd::Refused {
            line: 2,
            rule: Rule::Session,
        },
    },
    Row {
        title: "a number of 65 bits",
        script: "instances 1
session a on 0
a: put 0 9223372036854775808
",
        n: (0, 0),
        m: (0, 0),
        journal: false,
        fault: None,
        wanted: &[""],
        end: RowEnd::Refused {
            line: 3,
            rule: Rule::Number,
        },
    },
    Row {
        title: "savepoints",
        script: "instances 1
session a on 0
a: put 0 1
a: savepoint p
a: put 0 2
a: rollback to p
a: rollback to p
a: get 0
a: rollback to q
a: commit
a: rollback to p
",
        n: (0, 0),
        m: (0, 0),
        journal: false,
        fault: None,
        wanted: &[
            "3: changed
4: savepoint
5: changed
6: rolled back
7: rolled back
8: rows 0=1
9: ORA-01086
10: committed
11: ORA-01086
",
        ],
        end: RowEnd::Done,
    },
    Row {
        title: "a lock in the way",
        script: "instances 2
session a on 0
session b on 1
a: put 2 9
a: commit
a: lock 2
go
b: del 2
go
a: rollback
go
b: del 2
b: commit
go
a: get 2
",
        n: (0, 0),
        m: (0, 0),
        journal: false,
        fault: None,
        wanted: &[
            "4: changed
5: committed
6: locked
8: ORA-00054 xid 0.1.1
10: rolled back
12: changed
13: committed
15: rows none
",
        ],
        end: RowEnd::Done,
    },
    Row {
        title: "more blocks than frames",
        script: "instances 2
blocks 8
cache 4
session a on 0
session b on 1
a: put 0 1
a: put 8 2
a: put 16 3
a: put 24 4
a: put 32 5
a: put 40 6
a: commit
go
checkpoint 0
b: scan 0 63
go
crash 0 after 0 keep 0
go
b: scan 0 63
",
        n: (0, 0),
        m: (0, 0),
        journal: false,
        fault: None,
        wanted: &[
            "6: changed
7: changed
8: changed
9: changed
10: changed
11: changed
12: committed
14: checkpointed
15: rows 0=1 8=2 16=3 24=4 32=5 40=6
17: crashed
19: rows 0=1 8=2 16=3 24=4 32=5 40=6
",
        ],
        end: RowEnd::Done,
    },
    Row {
        title: "control lines that can't be done",
        script: "instances 2
crash 1 after 0 keep 0
go
remaster 0 to 1
checkpoint 1
crash 1 after 0 keep 0
start 0
",
        n: (0, 0),
        m: (0, 0),
        journal: false,
        fault: None,
        wanted: &[
            "2: crashed
4: not moved
5: not done
6: already down
7: already up
",
        ],
        end: RowEnd::Done,
    },
];
