//! Bytes in and out, and the words and lines of a file: streams whose contracts tell what was read
//! and written, and `Document::read`, which reads exactly the files of the grammar.
//!
//! Conventions: a text is a list of bytes; a translation is in twelfths of a cell edge, a place in
//! units of 1/12,000,000 of one. The layers above use `take_all` and `put_all` by the meanings of
//! `Source` and `Sink`, and `Document::read`.
#![tactic(auto)]

mod calls;
mod cuts;
mod digits;
mod document;
mod draft;
mod errors;
mod fractions;
mod laws;
mod line_kinds;
mod line_steps;
mod line_words;
mod lines;
mod list;
mod memory;
mod memory_sink;
mod name;
mod number_words;
mod numbers;
mod operation_words;
mod range_laws;
mod read_error;
mod reading;
mod section_steps;
mod sections;
mod sink;
mod source;
mod text;
mod word_lists;

pub use document::Document;
pub use errors::{Failed, NoMemory, TakeError, WriteFault};
pub use fractions::UNITS_PER_EDGE;
pub use laws::law_of_files;
pub use lines::{is_blank, trimmed, unindented};
pub use list::{Stab, TextList};
pub use memory::{CalmSource, MemSource};
pub use memory_sink::MemSink;
pub use name::Name;
pub use numbers::{Frac, NumList, NumText, OpText, Term, Unit};
pub use range_laws::law_of_ranges;
pub use read_error::ReadError;
pub use sections::{
    AtomList, AtomText, AxialList, AxialText, CellText, IrrepList, IrrepText, MatList, MatText,
    OpLine, OpLines, OpsText, ValueList, ValueText, VectorText,
};
pub use sink::{Sink, put_all};
pub use source::{MAX_BYTES, Source, take_all};
pub use text::Text;
