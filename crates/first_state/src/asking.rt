ghost use Rattle.std.specs.Prelude.{◌≡◌, IfOk};
ghost use Rattle.first_state.specs.Lines.{asks_of};

use base_types::NoMemory;
use inst_state::Asks;
use script_text::{Name, Stmt};
use std::alloc::Global;
use txn_engine::Wish;

// The same name once more.
fn name_again(alloc: Global, name: &Name) -> Result<Name, NoMemory>
    ensures { IfOk result (λ it. it ≡ name.now) }
{
    match Name::new(alloc, name.as_str().as_bytes())? {
        Some(name) => Ok(name),
        None => Err(NoMemory),
    }
}

/// What a statement asks.
pub(crate) fn asks_of(alloc: Global, what: &Stmt) -> Result<Asks, NoMemory>
    ensures { IfOk result (λ it. it ≡ asks_of what.now) }
{
    Ok(match what {
        Stmt::Get(row) => Asks::Read {
            first: *row,
            last: *row,
        },
        Stmt::Scan(first, last) => Asks::Read {
            first: *first,
            last: *last,
        },
        Stmt::Put(row, value) => Asks::Change {
            row: *row,
            wish: Wish::Put(*value),
        },
        Stmt::Add(row, by) => Asks::Change {
            row: *row,
            wish: Wish::Add(*by),
        },
        Stmt::Del(row) => Asks::Change {
            row: *row,
            wish: Wish::Del,
        },
        Stmt::Lock(row) => Asks::Change {
            row: *row,
            wish: Wish::Lock,
        },
        Stmt::Commit => Asks::Commit,
        Stmt::Rollback => Asks::Rollback,
        Stmt::Savepoint(name) => Asks::Savepoint(name_again(alloc, name)?),
        Stmt::RollbackTo(name) => Asks::RollbackTo(name_again(alloc, name)?),
    })
}
