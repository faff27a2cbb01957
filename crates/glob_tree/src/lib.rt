//! Trees of files and directories: what a walk asks a tree, paths, a tree in memory, and the file system.
#![tactic(auto)]

mod asks;
mod directory;
mod directory_id;
mod disk;
mod keys;
mod kind;
mod lookups;
mod mem_system;
mod mem_tree;
mod name;
mod nodes;
mod path_text;
mod physical;
mod reading;
mod refusal;
mod strays;
mod system;
mod tree;

pub use asks::Asks;
pub use directory::{names_in, read_directory};
pub use directory_id::DirectoryId;
pub use disk::Disk;
pub use kind::Kind;
pub use mem_system::{MemDirectory, MemSystem};
pub use mem_tree::MemTree;
pub use name::{Name, copy_name, is_proper, name_from_proper};
pub use path_text::{begins_with_dot, child, join, stays};
pub use physical::{Links, PhysicalDisk};
pub use refusal::TreeRefusal;
pub use strays::Strays;
pub use system::{Directory, FilesDirectory, FilesSystem, OpenDirectory, System};
pub use tree::{Entry, ListError, Look, Tree};
