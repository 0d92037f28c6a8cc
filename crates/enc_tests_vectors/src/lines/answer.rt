//! A line with its answer.

use crate::lines::args::Fault;
use std::alloc::{AllocError, Global};

/// Whether a line asks nothing: an empty one, or a remark, which begins with `#`.
pub fn is_remark(line: &str) -> bool {
    line.is_empty() || line.starts_with('#')
}

/// The line with what its call came to behind it.
pub fn line_with(
    alloc: Global,
    line: &str,
    answer: Result<String, Fault>,
) -> Result<String, AllocError> {
    match answer {
        Ok(answer) => format!(in alloc; "{line} = {answer}"),
        Err(Fault::Form) => format!(in alloc; "{line} isn't of this form"),
        Err(Fault::Memory) => Err(AllocError),
    }
}
