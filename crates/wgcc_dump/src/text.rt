//! A text that is being made, and what several texts have: depths, places, names, arrays and sites. A number behind `@`
//! is that of a site.

use crate::error::DumpError;
use cl_model::{Array, Root, Table};
use std::alloc::{AllocError, Global};
use std::fmt::{Debug, Write};
use wg_num::{IntType, Place, Word};

/// A text that is being made. Where memory is refused, what is put is left out, and `finish` says so.
#[derive(Drop)]
pub(crate) struct Text {
    text: String,
    refused: Option<AllocError>,
}

impl Text {
    /// A text of nothing.
    pub(crate) fn new(alloc: Global) -> Text {
        Text {
            text: String::new(alloc),
            refused: None,
        }
    }

    // Notes whether something was put.
    fn note(&mut self, put: Result<(), AllocError>) {
        if let Err(error) = put {
            self.refused = Some(error);
        }
    }

    /// Puts words.
    pub(crate) fn push_str(&mut self, words: &str) {
        let put = self.text.push_str(words);
        self.note(put);
    }

    /// How many bytes the text has so far.
    pub(crate) fn len(&self) -> usize {
        self.text.len()
    }

    /// Puts a blank, and more of them while fewer than `width` bytes stand behind the first `start`.
    pub(crate) fn fill(&mut self, start: usize, width: usize) {
        self.push_str(" ");
        for _ in self.len().saturating_sub(start)..width {
            self.push_str(" ");
        }
    }

    /// The whole text; `Memory` where memory was refused.
    pub(crate) fn finish(self) -> Result<String, DumpError> {
        let Text { text, refused } = self;
        match refused {
            None => Ok(text),
            Some(AllocError) => {
                drop(text);
                Err(DumpError::Memory)
            }
        }
    }
}

/// Puts two blanks for each depth.
pub(crate) fn indent(text: &mut Text, depth: usize) {
    for _ in 0..depth {
        text.push_str("  ");
    }
}

/// Puts a line of its own at a depth.
pub(crate) fn put_line(text: &mut Text, depth: usize, line: &str) {
    indent(text, depth);
    text.push_str(line);
    text.push_str("\n");
}

/// Puts a value by its name: a number, a type, an operator or an object.
pub(crate) fn put<T: Copy + Debug>(text: &mut Text, value: T) {
    let put = write!(text.text, "{value:?}");
    text.note(put);
}

/// Puts a word and a number behind it.
pub(crate) fn put_numbered(text: &mut Text, word: &str, number: u32) {
    text.push_str(word);
    put(text, number);
}

/// Puts an operator or a function with the type in which it computes, as `Add.Int`.
pub(crate) fn put_typed<T: Copy + Debug>(text: &mut Text, operator: T, of: IntType) {
    put(text, operator);
    text.push_str(".");
    put(text, of);
}

/// Puts a constant: its value and its type, as `5.Int`.
pub(crate) fn put_constant(text: &mut Text, value: i128, of: IntType) {
    put(text, value);
    text.push_str(".");
    put(text, of);
}

/// Puts the object and the type of an element, up to its index, as `Param(0).Int[`.
pub(crate) fn put_object(text: &mut Text, root: Root, element: IntType) {
    put(text, root);
    text.push_str(".");
    put(text, element);
    text.push_str("[");
}

/// Puts a name.
pub(crate) fn put_name(text: &mut Text, name: &Word) {
    text.push_str(name.text().unwrap_or("?"));
}

/// Puts a place: its line and its column, as `3:7`.
pub(crate) fn put_place(text: &mut Text, place: Place) {
    let Place { line, column } = place;
    put(text, line);
    put_numbered(text, ":", column);
}

// Puts the lengths of an array, outermost first.
fn put_lengths(text: &mut Text, lengths: &[u64]) {
    for length in lengths {
        text.push_str("[");
        put(text, *length);
        text.push_str("]");
    }
}

// Puts an array behind its number: its space, element type, lengths, name and place.
fn put_array(text: &mut Text, array: &Array) {
    text.push_str(" ");
    put(text, array.space);
    text.push_str(".");
    put(text, array.element);
    put_lengths(text, &array.dims);
    text.push_str(" ");
    put_name(text, &array.name);
    text.push_str(" ");
    put_place(text, array.place);
    text.push_str("\n");
}

/// Puts arrays, a line each.
pub(crate) fn put_arrays(text: &mut Text, depth: usize, arrays: &[Array]) {
    for (number, array) in arrays.iter().enumerate() {
        indent(text, depth);
        text.push_str("array ");
        put(text, number);
        put_array(text, array);
    }
}

/// Puts constant tables, each with its bytes on a line below it.
pub(crate) fn put_tables(text: &mut Text, tables: &[Table]) {
    for (number, table) in tables.iter().enumerate() {
        text.push_str("table ");
        put(text, number);
        put_array(text, &table.array);
        text.push_str("  bytes");
        for byte in &table.bytes {
            text.push_str(" ");
            put(text, *byte);
        }
        text.push_str("\n");
    }
}

/// Puts the places of the sites, a line each.
pub(crate) fn put_sites(text: &mut Text, sites: &[Place]) {
    text.push_str("sites\n");
    for (number, place) in sites.iter().enumerate() {
        text.push_str("  @");
        put(text, number);
        text.push_str(" ");
        put_place(text, *place);
        text.push_str("\n");
    }
}
