//! The disk that the instances share, over files of a folder.
#![tactic(auto)]

mod disk_file;
mod file_disk;
mod opening;
mod os_file;
mod through;

pub use disk_file::DiskFile;
pub use file_disk::FileDisk;
pub use os_file::OsFile;
