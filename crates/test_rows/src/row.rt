use crate::line::RowFault;

/// A row of a file.
pub struct Row {
    /// The number of its first line, from 1.
    pub line: u64,
    pub fields: Vec<Field>,
    /// The first of its lines that could not be read.
    pub unread: Option<Unread>,
}

impl Drop for Row {
    fn drop(self) {
        let Row {
            line: _line,
            fields: _fields,
            unread: _unread,
        } = self;
    }
}

/// A key of a row with its value.
pub struct Field {
    /// The number of the key's line, from 1.
    pub line: u64,
    /// The key, and after a blank the name, where there is one.
    pub key: String,
    pub value: Vec<u8>,
}

impl Drop for Field {
    fn drop(self) {
        let Field {
            line: _line,
            key: _key,
            value: _value,
        } = self;
    }
}

/// A line that could not be read.
#[derive(Clone, Copy)]
pub struct Unread {
    pub line: u64,
    pub why: &'static str,
}

impl Field {
    /// The value, where it is a text.
    pub fn text(&self) -> Result<&str, RowFault> {
        match str::from_utf8(self.value.as_slice()) {
            Ok(text) => Ok(text),
            Err(_) => Err(self.unread("the value is not UTF-8")),
        }
    }

    /// The fault of a field with a value that is not valid.
    pub fn unread(&self, why: &'static str) -> RowFault {
        RowFault::Unread(Unread {
            line: self.line,
            why,
        })
    }
}

impl Row {
    /// The first field with this key.
    pub fn first(&self, key: &str) -> Option<&Field> {
        for field in &self.fields {
            if field.key.as_str() == key {
                return Some(field);
            }
        }
        None
    }

    /// The value of the first field with this key.
    pub fn value(&self, key: &str) -> Option<&[u8]> {
        match self.first(key) {
            Some(field) => Some(field.value.as_slice()),
            None => None,
        }
    }
}
