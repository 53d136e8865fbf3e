//! Why there is nothing to time.
use csdn_run::RunRefusal;
use net_structs::read::NetRefusal;
use std::alloc::AllocError;
use thiserror::Error;
use vericon_edge::files::FileFault;

#[derive(Debug, Drop, Error)]
pub enum Trouble {
    #[error("out of memory")]
    Memory(#[from] AllocError),
    #[error("these are no words of this program")]
    Words,
    #[error("{0}")]
    File(#[from] FileFault),
    #[error("the file has no program")]
    Program,
    #[error("these are no parts of a network: {0}")]
    Network(#[from] NetRefusal),
    #[error("OpenFlow can't name the elements of the network")]
    Unservable,
    #[error("an entry isn't entered: {0}")]
    Entry(#[from] RunRefusal),
}
