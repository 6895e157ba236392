use crate::Marks;
use script_text::Name;
use std::alloc::Global;
use std::process::Abort;
use std::test::Fail;

// What a test does with savepoints, and what it finds.
#[derive(Debug, Drop)]
enum Step {
    Sets(&'static str, u32),
    Finds(&'static str, Option<u32>),
    GoesBack(&'static str, Option<u32>),
    Clears,
}

fn name(alloc: Global, word: &str) -> Result<Name, Fail> {
    let found = Name::new(alloc, word.as_bytes())?;
    Ok(found.ok_or("no name")?)
}

fn take_step(rt: &impl Abort, alloc: Global, marks: &mut Marks, step: &Step) -> Result<(), Fail> {
    match step {
        Step::Sets(word, count) => marks.set(name(alloc, *word)?, *count)?,
        Step::Finds(word, count) => assert_eq!(rt; marks.count_of(&name(alloc, *word)?), *count),
        Step::GoesBack(word, count) => assert_eq!(rt; marks.back_to(&name(alloc, *word)?), *count),
        Step::Clears => marks.clear(),
    }
    Ok(())
}

#[test]
fn savepoints_are_set_and_gone_back_to(rt: HostRuntime) -> Result<(), Fail> {
    let steps = [
        Step::Finds("a", None),
        Step::GoesBack("a", None),
        Step::Sets("a", 1),
        Step::Sets("b", 2),
        Step::Sets("c", 4),
        // It is the last one now, and the one behind `b` and `c`.
        Step::Sets("a", 5),
        Step::Finds("a", Some(5)),
        Step::Finds("b", Some(2)),
        Step::GoesBack("d", None),
        Step::Finds("a", Some(5)),
        Step::GoesBack("c", Some(4)),
        Step::Finds("a", None),
        Step::Finds("b", Some(2)),
        Step::GoesBack("c", Some(4)),
        Step::GoesBack("b", Some(2)),
        Step::Finds("c", None),
        Step::GoesBack("b", Some(2)),
        Step::Clears,
        Step::Finds("b", None),
    ];
    let mut marks = Marks::new(rt.alloc());
    for step in &steps {
        take_step(&rt, rt.alloc(), &mut marks, step)?;
    }
    Ok(())
}
