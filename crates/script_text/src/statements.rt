//! The lines of statements.

ghost use Rattle.std.specs.Prelude.{◌≡◌, IfOk, OnOk};
ghost use Rattle.script_text.specs.Forms.{get_line, scan_line, put_line, add_line, del_line, lock_line};
ghost use Rattle.script_text.specs.Forms.{commit_line, rollback_line, savepoint_line, rollback_to_line};
ghost use Rattle.script_text.specs.Rules.{judged};
ghost use Rattle.script_text.specs.Shapes.{Takes};

use crate::item::{Item, Stmt};
use crate::name::Name;
use crate::rule::{LineError, Rule};
use crate::said::Said;
use crate::spelling::{name_of, number_of, signed_number_of};
use base_types::Value;
use std::alloc::Global;

impl Said {
    /// `NAME: get K`
    #[tactic(auto, unfolding(crate::specs::Rules::judged, crate::specs::Forms::get_line))]
    pub fn take_get(&mut self, alloc: Global, name: &[u8], row: &[u8]) -> Result<(), LineError>
        ensures { Takes result self.new (judged (get_line self.old name.now row.now)) }
    {
        let name = name_of(name)?;
        let row = number_of(row)?;
        let row = self.row_of(row)?;
        let session = self.session_of(name)?;
        self.push_item(
            alloc,
            Item::Stmt {
                session,
                what: Stmt::Get(row),
            },
        )?;
        Ok(())
    }

    /// `NAME: scan A B`
    #[tactic(auto, unfolding(crate::specs::Rules::judged, crate::specs::Forms::scan_line))]
    pub fn take_scan(
        &mut self,
        alloc: Global,
        name: &[u8],
        first: &[u8],
        last: &[u8],
    ) -> Result<(), LineError>
        ensures { Takes result self.new (judged (scan_line self.old name.now first.now last.now)) }
    {
        let name = name_of(name)?;
        let first = number_of(first)?;
        let last = number_of(last)?;
        let last_row = self.row_of(last)?;
        if first > last {
            return Err(LineError::Broken(Rule::Range));
        }
        let first_row = self.row_of(first)?;
        let session = self.session_of(name)?;
        self.push_item(
            alloc,
            Item::Stmt {
                session,
                what: Stmt::Scan(first_row, last_row),
            },
        )?;
        Ok(())
    }

    /// `NAME: put K V`
    #[tactic(auto, unfolding(crate::specs::Rules::judged, crate::specs::Forms::put_line))]
    pub fn take_put(
        &mut self,
        alloc: Global,
        name: &[u8],
        row: &[u8],
        value: &[u8],
    ) -> Result<(), LineError>
        ensures { Takes result self.new (judged (put_line self.old name.now row.now value.now)) }
    {
        let name = name_of(name)?;
        let row = number_of(row)?;
        let value = signed_number_of(value)?;
        let row = self.row_of(row)?;
        let session = self.session_of(name)?;
        self.push_item(
            alloc,
            Item::Stmt {
                session,
                what: Stmt::Put(row, Value::Num(value)),
            },
        )?;
        Ok(())
    }

    /// `NAME: add K D`
    #[tactic(auto, unfolding(crate::specs::Rules::judged, crate::specs::Forms::add_line))]
    pub fn take_add(
        &mut self,
        alloc: Global,
        name: &[u8],
        row: &[u8],
        by: &[u8],
    ) -> Result<(), LineError>
        ensures { Takes result self.new (judged (add_line self.old name.now row.now by.now)) }
    {
        let name = name_of(name)?;
        let row = number_of(row)?;
        let by = signed_number_of(by)?;
        let row = self.row_of(row)?;
        let session = self.session_of(name)?;
        self.push_item(
            alloc,
            Item::Stmt {
                session,
                what: Stmt::Add(row, by),
            },
        )?;
        Ok(())
    }

    /// `NAME: del K`
    #[tactic(auto, unfolding(crate::specs::Rules::judged, crate::specs::Forms::del_line))]
    pub fn take_del(&mut self, alloc: Global, name: &[u8], row: &[u8]) -> Result<(), LineError>
        ensures { Takes result self.new (judged (del_line self.old name.now row.now)) }
    {
        let name = name_of(name)?;
        let row = number_of(row)?;
        let row = self.row_of(row)?;
        let session = self.session_of(name)?;
        self.push_item(
            alloc,
            Item::Stmt {
                session,
                what: Stmt::Del(row),
            },
        )?;
        Ok(())
    }

    /// `NAME: lock K`
    #[tactic(auto, unfolding(crate::specs::Rules::judged, crate::specs::Forms::lock_line))]
    pub fn take_lock(&mut self, alloc: Global, name: &[u8], row: &[u8]) -> Result<(), LineError>
        ensures { Takes result self.new (judged (lock_line self.old name.now row.now)) }
    {
        let name = name_of(name)?;
        let row = number_of(row)?;
        let row = self.row_of(row)?;
        let session = self.session_of(name)?;
        self.push_item(
            alloc,
            Item::Stmt {
                session,
                what: Stmt::Lock(row),
            },
        )?;
        Ok(())
    }

    /// `NAME: commit`
    #[tactic(auto, unfolding(crate::specs::Rules::judged, crate::specs::Forms::commit_line))]
    pub fn take_commit(&mut self, alloc: Global, name: &[u8]) -> Result<(), LineError>
        ensures { Takes result self.new (judged (commit_line self.old name.now)) }
    {
        let name = name_of(name)?;
        let session = self.session_of(name)?;
        self.push_item(
            alloc,
            Item::Stmt {
                session,
                what: Stmt::Commit,
            },
        )?;
        Ok(())
    }

    /// `NAME: rollback`
    #[tactic(auto, unfolding(crate::specs::Rules::judged, crate::specs::Forms::rollback_line))]
    pub fn take_rollback(&mut self, alloc: Global, name: &[u8]) -> Result<(), LineError>
        ensures { Takes result self.new (judged (rollback_line self.old name.now)) }
    {
        let name = name_of(name)?;
        let session = self.session_of(name)?;
        self.push_item(
            alloc,
            Item::Stmt {
                session,
                what: Stmt::Rollback,
            },
        )?;
        Ok(())
    }

    /// `NAME: savepoint L`
    #[tactic(auto, unfolding(crate::specs::Rules::judged, crate::specs::Forms::savepoint_line))]
    pub fn take_savepoint(
        &mut self,
        alloc: Global,
        name: &[u8],
        mark: &[u8],
    ) -> Result<(), LineError>
        ensures { Takes result self.new (judged (savepoint_line self.old name.now mark.now)) }
    {
        let name = name_of(name)?;
        let mark = name_of(mark)?;
        let session = self.session_of(name)?;
        let mark = Name::from_str(alloc, mark)?;
        self.push_item(
            alloc,
            Item::Stmt {
                session,
                what: Stmt::Savepoint(mark),
            },
        )?;
        Ok(())
    }

    /// `NAME: rollback to L`
    #[tactic(auto, unfolding(crate::specs::Rules::judged, crate::specs::Forms::rollback_to_line))]
    pub fn take_rollback_to(
        &mut self,
        alloc: Global,
        name: &[u8],
        mark: &[u8],
    ) -> Result<(), LineError>
        ensures { Takes result self.new (judged (rollback_to_line self.old name.now mark.now)) }
    {
        let name = name_of(name)?;
        let mark = name_of(mark)?;
        let session = self.session_of(name)?;
        let mark = Name::from_str(alloc, mark)?;
        self.push_item(
            alloc,
            Item::Stmt {
                session,
                what: Stmt::RollbackTo(mark),
            },
        )?;
        Ok(())
    }
}
