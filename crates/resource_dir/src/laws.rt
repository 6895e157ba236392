ghost use Rattle.std.specs.Prelude.{◌≡◌, ℕ, List, None};
ghost use Rattle.wire_net.specs.declared.report.Report.{Report};
ghost use Rattle.wire_net.specs.Entry.{empty_entry};
ghost use Rattle.resource_dir.specs.Rebuilt.{rebuilt};

/// A law: in a new entry, and in one that the reports tell, no operation is under way.
pub fn a_new_entry_has_no_operation()
    ensures empty { empty_entry.op ≡ None }
    ensures rebuilt { (block : ℕ) → (reports : List (ℕ × Report)) → (rebuilt block reports).op ≡ None }
{}
