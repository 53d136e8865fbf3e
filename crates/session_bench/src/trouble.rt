//! Why there is nothing to time.
use of10_speech::Broken;
use std::alloc::AllocError;
use thiserror::Error;
use vericon_edge::files::FileFault;

/// Why there is nothing to time: no memory, other words, a file that was not read, or a session that ended.
#[derive(Debug, Drop, Error)]
pub enum Trouble {
    #[error("out of memory")]
    Memory(#[from] AllocError),
    #[error("these are no words of this program")]
    Words,
    #[error("{0}")]
    File(#[from] FileFault),
    #[error("the session has ended")]
    Over,
}

impl From<Broken> for Trouble {
    fn from(broken: Broken) -> Trouble {
        match broken {
            Broken::Full => Trouble::Over,
            Broken::Memory => Trouble::Memory(AllocError),
        }
    }
}
