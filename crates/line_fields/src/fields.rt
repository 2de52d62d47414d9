ghost use Rattle.std.specs.Prelude.{◌≡◌, ◌≤◌, ℕ, Bool, List, Some, length, MatchOption, slice_get};
ghost use Rattle.std.specs.List.{list_all};
ghost use Rattle.line_fields.specs.meaning.Fields.{is_nothing_line, words_of, rest_of, number_of, id_of, is_label_word, is_blank as is_blank_byte, with_digit as number_with_digit, is_label_start as starts_label, is_label_byte as continues_label, trim_start as trim_start_of, after_word as after_word_of};

use graph_types::VertexId;

/// Whether the line says nothing: it is blank, or its first word begins with `#`.
pub fn is_nothing(line: &[u8]) -> bool
    ensures { result ≡ is_nothing_line line.now }
{
    match trim_start(line) {
        [] => true,
        [first, ..] => *first == b'#',
    }
}

/// How many words the line has: runs of bytes between spaces and tabs.
pub fn words(line: &[u8]) -> usize
    ensures { result ≡ length (words_of line.now) }
{
    line.split(|b| is_blank(*b))
        .filter(|word| !word.is_empty())
        .count()
}

/// The word at place `i`, counted from 0.
pub fn word(line: &[u8], i: usize) -> Option<&[u8]>
    ensures { MatchOption result
        (length (words_of line.now) ≤ i)
        (λ word. slice_get (words_of line.now) i ≡ Some word.now) }
{
    line.split(|b| is_blank(*b))
        .filter(|word| !word.is_empty())
        .nth(i)
}

/// What stands after the first `i` words, with the blanks before it; nothing where no word follows.
pub fn rest(line: &[u8], i: usize) -> &[u8]
    ensures { result.now ≡ rest_of line.now i }
{
    let mut rest = line;
    for _ in 0..i {
        if rest.is_empty() {
            return rest;
        }
        rest = after_word(trim_start(rest));
    }
    if trim_start(rest).is_empty() {
        &[]
    } else {
        rest
    }
}

/// The number that 1 to `digits` decimal digits give, leading zeros among them, where it fits 64 bits.
pub fn read_number(word: &[u8], digits: usize) -> Option<u64>
    ensures { result ≡ number_of digits word.now }
{
    if word.is_empty() || word.len() > digits {
        return None;
    }
    let mut number: u64 = 0;
    for b in word {
        number = with_digit(number, *b)?;
    }
    Some(number)
}

/// The id that 1 to 10 decimal digits give, where it fits 32 bits.
pub fn read_id(word: &[u8]) -> Option<VertexId>
    ensures { result ≡ id_of word.now }
{
    let number = read_number(word, 10)?;
    let id = u32::try_from(number).ok()?;
    Some(VertexId(id))
}

/// Whether the word can be a label: 1 to 32 letters, digits, `_` and `-`, of which the first is a letter
/// or `_`.
pub fn is_label(word: &[u8]) -> bool
    ensures { result ≡ is_label_word word.now }
{
    match word {
        [] => false,
        [first, rest @ ..] => {
            is_label_start(*first) && all_label_bytes(rest) && rest.len() <= 31
        }
    }
}

/// The line from its first byte on that is no blank.
pub fn trim_start(line: &[u8]) -> &[u8]
    ensures { result.now ≡ trim_start_of line.now }
{
    let mut rest = line;
    while let [first, later @ ..] = rest
        && is_blank(*first)
    {
        rest = later;
    }
    rest
}

// The line from its first blank on.
fn after_word(line: &[u8]) -> &[u8]
    ensures { result.now ≡ after_word_of line.now }
{
    let mut rest = line;
    while let [first, later @ ..] = rest
        && !is_blank(*first)
    {
        rest = later;
    }
    rest
}

// The number with one more decimal digit after it, where it fits 64 bits.
fn with_digit(number: u64, digit: u8) -> Option<u64>
    ensures { result ≡ number_with_digit number digit }
{
    if !digit.is_ascii_digit() {
        return None;
    }
    number.checked_mul(10)?.checked_add(u64::from(digit - b'0'))
}

fn is_blank(b: u8) -> bool
    ensures { result ≡ is_blank_byte b }
{
    b == b' ' || b == b'\t'
}

/// Whether a label may begin with this byte: a letter or `_`.
pub fn is_label_start(b: u8) -> bool
    ensures { result ≡ starts_label b }
{
    b.is_ascii_alphabetic() || b == b'_'
}

fn all_label_bytes(bytes: &[u8]) -> bool
    ensures { result ≡ list_all continues_label bytes.now }
{
    bytes.iter().all(|b| is_label_byte(*b))
}

/// Whether a label may have this byte after its first one: a letter, a digit, `_` or `-`.
pub fn is_label_byte(b: u8) -> bool
    ensures { result ≡ continues_label b }
{
    is_label_start(b) || b.is_ascii_digit() || b == b'-'
}
