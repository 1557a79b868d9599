//! Rows of one line: what is asked, and after an arrow what is wanted.

use crate::row::Unread;
use ev_types::{Blob, Memory};
use std::alloc::{AllocError, AllocFailed};

/// Why a row has no answer.
#[derive(Clone, Copy)]
pub enum RowFault {
    /// It cannot be read.
    Unreadable,
    /// A line of it cannot be read.
    Unread(Unread),
    Memory,
}

impl From<Memory> for RowFault {
    fn from(_memory: Memory) -> RowFault {
        RowFault::Memory
    }
}

impl From<AllocError> for RowFault {
    fn from(_error: AllocError) -> RowFault {
        RowFault::Memory
    }
}

impl<T: Drop> From<AllocFailed<T>> for RowFault {
    fn from(_error: AllocFailed<T>) -> RowFault {
        RowFault::Memory
    }
}

/// What is asked, and what is wanted: what is before and after the last arrow.
pub fn split_row(text: &str) -> Result<(&str, &str), RowFault> {
    let Some((asked, wanted)) = text.rsplit_once("=>") else {
        return Err(RowFault::Unreadable);
    };
    let asked = asked.strip_suffix(' ').unwrap_or(asked);
    Ok((asked, wanted.strip_prefix(' ').unwrap_or(wanted)))
}

/// The text before the first blank, and the text after it.
pub fn split_word(text: &str) -> Result<(&str, &str), RowFault> {
    text.split_once(' ').ok_or(RowFault::Unreadable)
}

/// The text as an answer.
pub fn said(text: String) -> Blob {
    Blob::from_vec(text.into_bytes())
}
