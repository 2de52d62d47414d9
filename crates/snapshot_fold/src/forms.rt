ghost use Rattle.std.specs.Prelude.{◌≡◌};
ghost use Rattle.snapshot_fold.specs.meaning.Forms.{format_after as format_after_line, has_counts as has_counts_in, is_of_form as has_form};

use record_text::{RecordFormat, RecordLine};

/// Whether a line has the form of this format.
pub fn is_of_form(format: Option<RecordFormat>, line: &RecordLine) -> bool
    ensures { result ≡ has_form format line.now }
{
    match line {
        RecordLine::Nothing => true,
        RecordLine::Head => format.is_none(),
        RecordLine::Rem { .. } => true,
        RecordLine::Add { .. } => true,
        RecordLine::Done { count, .. } => count.is_some() == has_counts(format),
    }
}

fn has_counts(format: Option<RecordFormat>) -> bool
    ensures { result ≡ has_counts_in format }
{
    match format {
        None => false,
        Some(RecordFormat::One) => false,
        Some(RecordFormat::Two) => true,
    }
}

/// The format after a line, which the first one that says anything sets.
pub fn format_after(format: Option<RecordFormat>, line: &RecordLine) -> Option<RecordFormat>
    ensures { result ≡ format_after_line format line.now }
{
    if let Some(format) = format {
        return Some(format);
    }
    match line {
        RecordLine::Nothing => None,
        RecordLine::Head => Some(RecordFormat::Two),
        RecordLine::Rem { .. } => Some(RecordFormat::One),
        RecordLine::Add { .. } => Some(RecordFormat::One),
        RecordLine::Done { .. } => Some(RecordFormat::One),
    }
}
