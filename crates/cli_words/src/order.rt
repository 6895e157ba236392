use crate::folder::Folder;

/// What a run does beside its report.
#[derive(Clone, Copy, Debug, PartialEq, Eq)]
pub struct RunOptions {
    /// The journal stands behind the report.
    pub journal: bool,
    /// The steps of the run stand behind that.
    pub steps: bool,
    /// The journal is checked before anything is written.
    pub check: bool,
}

/// What the program is told to do.
#[derive(Debug, Drop)]
pub enum Order {
    /// Run a script. With `folder` the disk lies in that folder.
    Run {
        options: RunOptions,
        folder: Option<Folder>,
    },
    /// Run the script of a load of this seed, below 2^63, and so many rounds, 700 at most. With `folder` the disk lies in
    /// that folder.
    Load {
        seed: u64,
        rounds: u32,
        folder: Option<Folder>,
    },
    /// Look over the disk that lies in the folder.
    Audit {
        folder: Folder,
    },
}
