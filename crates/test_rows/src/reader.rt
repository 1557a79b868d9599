use crate::line::RowFault;
use crate::piece::{Mark, append_piece, is_name, value_of};
use crate::row::{Field, Row, Unread};
use std::alloc::{AllocError, Global};

/// The rows of a file, in order.
pub fn read_rows(alloc: Global, text: &str) -> Result<Vec<Row>, AllocError> {
    let mut reader = Reader {
        alloc,
        line: 0,
        names: Vec::new(alloc),
        rows: Vec::new(alloc),
        row: None,
        field: None,
    };
    for line in text.split('\n') {
        reader.take_line(line)?;
    }
    reader.end_row()?;
    Ok(reader.into_rows())
}

/// What was read so far.
struct Reader {
    alloc: Global,
    /// The number of the last line.
    line: u64,
    /// The values that have names. Their keys are the names.
    names: Vec<Field>,
    rows: Vec<Row>,
    /// The row of the block that has not ended.
    row: Option<Row>,
    /// The field whose value has not ended.
    field: Option<Field>,
}

impl Drop for Reader {
    fn drop(self) {
        let Reader {
            alloc: _alloc,
            line: _line,
            names: _names,
            rows: _rows,
            row: _row,
            field: _field,
        } = self;
    }
}

impl Reader {
    fn into_rows(self) -> Vec<Row> {
        let Reader {
            alloc: _alloc,
            line: _line,
            names: _names,
            rows,
            row: _row,
            field: _field,
        } = self;
        rows
    }

    fn take_line(&mut self, line: &str) -> Result<(), AllocError> {
        self.line = self.line.saturating_add(1);
        if line.is_empty() {
            self.end_row()
        } else if line.starts_with('#') {
            Ok(())
        } else if let Some(piece) = line.strip_prefix('|') {
            self.add_piece(Mark::Line, piece)
        } else if let Some(piece) = line.strip_prefix(':') {
            self.add_piece(Mark::Text, piece)
        } else if let Some(piece) = line.strip_prefix('=') {
            self.add_piece(Mark::Words, piece)
        } else {
            self.begin_field(line)
        }
    }

    /// Reads a line that begins with a key.
    fn begin_field(&mut self, line: &str) -> Result<(), AllocError> {
        self.end_field()?;
        let Some((key, mark, piece)) = split_key(line) else {
            self.note("a line has no key");
            return Ok(());
        };
        self.field = Some(Field {
            line: self.line,
            key: String::from_str(self.alloc, key)?,
            value: Vec::new(self.alloc),
        });
        self.add_piece(mark, piece)
    }

    /// Appends a piece to the value of the field that has not ended.
    fn add_piece(&mut self, mark: Mark, piece: &str) -> Result<(), AllocError> {
        let Some(mut field) = self.field.take() else {
            self.note("a line goes on with no value");
            return Ok(());
        };
        let added = append_piece(
            self.alloc,
            self.names.as_slice(),
            mark,
            piece,
            &mut field.value,
        );
        self.field = Some(field);
        match added {
            Ok(()) => Ok(()),
            Err(RowFault::Memory) => Err(AllocError),
            Err(_) => {
                self.note("the bytes cannot be read");
                Ok(())
            }
        }
    }

    /// Adds the field that has not ended to the names or to its row.
    fn end_field(&mut self) -> Result<(), AllocError> {
        let Some(field) = self.field.take() else {
            return Ok(());
        };
        match field.key.as_str().strip_prefix("let ") {
            Some(name) => self.add_name(name, &field),
            None => self.add_field(field),
        }
    }

    fn add_name(&mut self, name: &str, field: &Field) -> Result<(), AllocError> {
        if !is_name(name) {
            self.note("a name begins with no capital letter");
            return Ok(());
        }
        if value_of(self.names.as_slice(), name).is_some() {
            self.note("a name is given twice");
            return Ok(());
        }
        self.names.push(Field {
            line: field.line,
            key: String::from_str(self.alloc, name)?,
            value: field.value.clone()?,
        })?;
        Ok(())
    }

    fn add_field(&mut self, field: Field) -> Result<(), AllocError> {
        let mut row = self.open_row(field.line);
        let pushed = row.fields.push(field);
        self.row = Some(row);
        pushed?;
        Ok(())
    }

    /// The row that has not ended, taken out of the reader, or a new one with this first line.
    fn open_row(&mut self, line: u64) -> Row {
        match self.row.take() {
            Some(row) => row,
            None => Row {
                line,
                fields: Vec::new(self.alloc),
                unread: None,
            },
        }
    }

    /// Notes that the last line could not be read.
    fn note(&mut self, why: &'static str) {
        let mut row = self.open_row(self.line);
        if row.unread.is_none() {
            row.unread = Some(Unread {
                line: self.line,
                why,
            });
        }
        self.row = Some(row);
    }

    fn end_row(&mut self) -> Result<(), AllocError> {
        self.end_field()?;
        if let Some(row) = self.row.take() {
            self.rows.push(row)?;
        }
        Ok(())
    }
}

/// The key of a line, the mark after it, and the piece after that.
fn split_key(line: &str) -> Option<(&str, Mark, &str)> {
    let text = line.split_once(':');
    let words = line.split_once('=');
    match (text, words) {
        (Some((key, piece)), Some((other, _))) if key.len() < other.len() => {
            Some((key, Mark::Text, piece))
        }
        (_, Some((key, piece))) => Some((key, Mark::Words, piece)),
        (Some((key, piece)), None) => Some((key, Mark::Text, piece)),
        (None, None) => None,
    }
}
