//! The files of the disk: the configuration that is served and what it has read there, and the store that saves each buffer in its
//! own file.
#![tactic(auto)]

mod attributes;
mod disk;
mod file_store;
mod folder;
mod load;
mod open_file;
mod replacement;
mod save_places;
mod store;

pub use attributes::Gives;
pub use disk::Disk;
pub use file_store::FileStore;
pub use load::{load_config, load_config_from};
pub use open_file::RegularFiles;
pub use replacement::DiskFiles;
pub use save_places::Finds;
