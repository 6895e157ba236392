ghost use Rattle.std.specs.Prelude.{◌≡◌, ℕ, List, true};
ghost use Rattle.std.specs.List.{list_all};
ghost use Rattle.run_picture.specs.Texts.{escaped, is_between_tags};

/// A law: what a label says, escaped, is printable ASCII that neither begins nor ends a tag.
pub fn labels_hold_no_tags()
    ensures { (text : List ℕ) → list_all is_between_tags (escaped text) ≡ true }
{}
