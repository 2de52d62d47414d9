use crate::case::{CaseFault, parts};
use crate::ends::{read_sink, say};
use crate::text::{Shown, read_text};
use job_io::{Page, SHORT_LINE_BYTES, ShortLine};
use std::alloc::Global;
use std::fmt::Write;

/// `page ROOM STEP FAILING .. / TEXT / ..`: puts each text into a page, and sends it. After each call it tells how many
/// bytes the sink has.
pub fn page(alloc: Global, text: &str, answer: &mut String) -> Result<(), CaseFault> {
    let (end, texts) = parts(text)?;
    let mut sink = read_sink(alloc, end)?;
    let mut page = Page::new();
    for text in texts.split(" / ") {
        let bytes = read_text(alloc, text)?;
        say(page.put(&mut sink, bytes.as_slice()), answer)?;
        write!(answer, " {}", sink.bytes().len())?;
    }
    say(page.send(&mut sink), answer)?;
    let sent = sink.bytes();
    write!(answer, " {}, [{}]", sent.len(), Shown(sent))?;
    Ok(())
}

/// `short WORD ..`: makes a short line of words and numbers.
pub fn short_line(text: &str, answer: &mut String) -> Result<(), CaseFault> {
    let mut line = ShortLine::new();
    for word in text.split_whitespace() {
        if line.as_slice().len() > SHORT_LINE_BYTES - 100 || word.len() > 50 {
            return Err(CaseFault::BadCase);
        }
        match word.parse::<u64>() {
            Ok(number) => line.push_number(number),
            Err(_) => line.push(word.as_bytes()),
        }
        line.push(b".");
    }
    write!(answer, "[{}]", Shown(line.as_slice()))?;
    Ok(())
}
