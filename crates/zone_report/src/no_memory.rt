//! The one way in which a report can fail.
use std::alloc::AllocError;
use std::fmt;

/// There was no memory for the rows, the answers or the text.
#[derive(Drop)]
pub struct NoMemory;

impl From<AllocError> for NoMemory {
    fn from(_error: AllocError) -> NoMemory {
        NoMemory
    }
}

// Writing to a text fails for want of memory alone.
impl From<fmt::Error> for NoMemory {
    fn from(_error: fmt::Error) -> NoMemory {
        NoMemory
    }
}
