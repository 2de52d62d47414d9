//! Where a job's bytes come from and where records go: sources and sinks, the lines of a source, and
//! lines that are being made.
#![tactic(auto)]

mod ends;
mod line_buffer;
mod line_reader;
mod lines;
mod memory;
mod page;
mod short_line;
mod standard;
mod streams;

pub use ends::{Failed, Sink, Source, WriteFault, put_all};
pub use line_fields::{
    is_label, is_label_byte, is_label_start, is_nothing, read_id, read_number, rest, trim_start,
    word, words,
};
pub use line_reader::{LineFault, LineReader};
pub use lines::LineList;
pub use memory::{ByteList, CallList, MemorySink, MemorySource};
pub use page::{PAGE_BYTES, Page};
pub use short_line::{SHORT_LINE_BYTES, ShortLine};
pub use standard::{StdSink, StdSource};
pub use streams::{ReaderSource, WriterSink};
