ghost use Rattle.std.specs.Prelude.{◌≡◌, IfOk, IfErr};

use crate::error::WordsError;
use std::alloc::Global;
use std::marker::Model;

/// The name of a folder, as it stands in the words: any text, the empty one too. Contracts see it as its bytes.
/// Only `read_words` makes one.
#[derive(Debug, Drop)]
pub struct Folder {
    text: String,
}

impl Model for Folder {
    ghost use Rattle.std.specs.Prelude.{ℕ, List, string_bytes};

    ghost Value = { List ℕ };

    ghost view = { λ f. string_bytes f.text };
}

impl Folder {
    pub(crate) fn new(alloc: Global, name: &str) -> Result<Folder, WordsError>
        ensures folder { IfOk result (λ folder. folder ≡ name.now) }
        ensures memory { IfErr result (λ error. error ≡ WordsError.NoMemory) }
    {
        let text = String::from_str(alloc, name)?;
        Ok(Folder { text })
    }

    /// The name as text.
    pub fn as_str(&self) -> &str
        ensures { result.now ≡ self.now }
    {
        self.text.as_str()
    }
}
