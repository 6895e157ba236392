ghost use Rattle.std.specs.Prelude.{Some};
ghost use Rattle.run_report.specs.Texts.{cause_text, row_text, rows_text};

use base_types::{RowNo, Value};
use journal::{Cause, RowList};
use std::fmt;

/// Prints a row with its value.
#[derive(Clone, Copy)]
pub(crate) struct RowText(pub(crate) (RowNo, Value));

impl fmt::Display for RowText {
    ghost output = { λ t. Some (row_text t.0) };

    fn fmt<W: fmt::Write>(&self, f: &mut fmt::Formatter<W>) -> fmt::Result {
        let (RowNo(row), value) = self.0;
        write!(f, "{row}={value}")
    }
}

/// Prints rows with their values, with single spaces between, or `none`.
#[derive(Clone, Copy)]
pub struct RowsText<'a>(pub &'a RowList);

impl fmt::Display for RowsText<'_> {
    ghost output = { λ t. Some (rows_text t.0.now) };

    fn fmt<W: fmt::Write>(&self, f: &mut fmt::Formatter<W>) -> fmt::Result {
        let Some((first, others)) = self.0.as_slice().split_first() else {
            return write!(f, "none");
        };
        let first = RowText(*first);
        write!(f, "{first}")?;
        for row in others {
            let row = RowText(*row);
            write!(f, " {row}")?;
        }
        Ok(())
    }
}

/// Prints why a statement was refused.
#[derive(Clone, Copy)]
pub(crate) struct CauseText<'a>(pub(crate) &'a Cause);

impl fmt::Display for CauseText<'_> {
    ghost output = { λ t. Some (cause_text t.0.now) };

    fn fmt<W: fmt::Write>(&self, f: &mut fmt::Formatter<W>) -> fmt::Result {
        match self.0 {
            Cause::Busy { xid } => write!(f, "ORA-00054 xid {xid}"),
            Cause::OldUndo { xid, wanted, found } => write!(
                f,
                "ORA-01555 undo {xid} wanted {wanted} found {found}"
            ),
            Cause::OldSlot { xid, found } => write!(f, "ORA-01555 slot {xid} found {found}"),
            Cause::NoUndo { first, next } => write!(f, "ORA-30036 first {first} next {next}"),
            Cause::NoTxnSlot { inst } => {
                let inst = inst.0;
                write!(f, "RAC-002 instance {inst}")
            }
            Cause::NoItl { block, .. } => {
                let block = block.0;
                write!(f, "RAC-001 block {block}")
            }
            Cause::Overflow { found, by } => write!(f, "ORA-01426 {found} {by}"),
            Cause::NoSavepoint => write!(f, "ORA-01086"),
            Cause::Lost => write!(f, "ORA-03113"),
            Cause::NotConnected => write!(f, "ORA-03114"),
        }
    }
}
