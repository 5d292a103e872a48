//! How a wrong word and a loose word read, with the objects and the entry that are named with them.
ghost use Rattle.std.specs.Prelude.{Some};
ghost use Rattle.comp_audit.specs.Wording.{loose_word_text, object_line, object_text, out_of_place_line, out_of_place_text, text_of_some, writer_lines, wrong_word_text};

use crate::explanation::{LooseEntry, LooseWordAt, OutOfPlace, SlidObject, WrongWordAt};
use crate::wording::entries::{CauseLine, EntryLine};
use std::fmt::{Display, Formatter, Result, Write};

impl Display for SlidObject {
    ghost output = { λ object. Some (object_text object) };

    fn fmt<W: Write>(&self, f: &mut Formatter<W>) -> Result {
        write!(
            f,
            "object {} at index {}, address {}, header {}",
            self.number, self.index, self.address, self.header
        )
    }
}

// The line of an object, if there is one.
#[derive(Clone, Copy)]
struct ObjectLine(Option<SlidObject>);

impl Display for ObjectLine {
    ghost output = { λ line. Some (text_of_some object_line line.0) };

    fn fmt<W: Write>(&self, f: &mut Formatter<W>) -> Result {
        match self.0 {
            Some(object) => write!(f, "\n{object}"),
            None => Ok(()),
        }
    }
}

impl Display for OutOfPlace {
    ghost output = { λ found. Some (out_of_place_text found) };

    fn fmt<W: Write>(&self, f: &mut Formatter<W>) -> Result {
        let object = self.object;
        write!(
            f,
            "first out of place: object {} at index {}, should start at {}, there is {}",
            object.number, object.index, object.address, self.is
        )
    }
}

// The line of the first object out of place, if there is one.
#[derive(Clone, Copy)]
struct OutOfPlaceLine(Option<OutOfPlace>);

impl Display for OutOfPlaceLine {
    ghost output = { λ line. Some (text_of_some out_of_place_line line.0) };

    fn fmt<W: Write>(&self, f: &mut Formatter<W>) -> Result {
        match self.0 {
            Some(found) => write!(f, "\n{found}"),
            None => Ok(()),
        }
    }
}

impl Display for WrongWordAt {
    ghost output = { λ word. Some (wrong_word_text word) };

    fn fmt<W: Write>(&self, f: &mut Formatter<W>) -> Result {
        let object = ObjectLine(self.object);
        let out_of_place = OutOfPlaceLine(self.out_of_place);
        write!(
            f,
            "page {} offset {} has {}, not {}{object}{out_of_place}",
            self.page, self.offset, self.is, self.should_be
        )
    }
}

// The lines of the last entry of this page at the offset of a word, if there is one.
#[derive(Clone, Copy)]
struct WriterLines {
    page: u64,
    writer: Option<LooseEntry>,
}

impl Display for WriterLines {
    ghost output = { λ lines. Some (text_of_some (writer_lines lines.page) lines.writer) };

    fn fmt<W: Write>(&self, f: &mut Formatter<W>) -> Result {
        let Some(writer) = self.writer else {
            return Ok(());
        };
        let entry = EntryLine {
            page: self.page,
            number: writer.number,
            entry: writer.entry,
        };
        let cause = CauseLine(writer.cause);
        write!(f, "\nwritten by {entry}{cause}")
    }
}

impl Display for LooseWordAt {
    ghost output = { λ word. Some (loose_word_text word) };

    fn fmt<W: Write>(&self, f: &mut Formatter<W>) -> Result {
        let writer = WriterLines {
            page: self.page,
            writer: self.entry,
        };
        write!(
            f,
            "page {} offset {} has {}, where no object starts{writer}",
            self.page, self.offset, self.is
        )
    }
}
