ghost use Rattle.std.specs.Prelude.{◌≡◌, ◌≤◌, Bool, length, MatchOption, take_while};
ghost use Rattle.std.specs.Option.{option_copied, option_map};
ghost use Rattle.line_fields.specs.meaning.Fields.{is_digit, is_label_byte as continues_label};
ghost use Rattle.condition_grammar.specs.meaning.Lexing.{sign_at, token_at};
ghost use Rattle.condition_grammar.specs.meaning.Token.{bytes_in, digits_in, op_in, is_same_token as is_same_token};
ghost use Rattle.condition_grammar.specs.calls.Cursor.{token_of};

use conditions::Op;
use line_fields::{is_label_byte, is_label_start};

/// A token of a condition. A word and a number lie where they stand in the text.
#[derive(Clone, Copy, Debug)]
pub(crate) enum Token<'a> {
    Word(&'a [u8]),
    Number(&'a [u8]),
    Open,
    Close,
    Comma,
    Semicolon,
    Plus,
    Times,
    Op(Op),
}

impl<'a> Token<'a> {
    /// The bytes of a word.
    pub(crate) fn word(&self) -> Option<&'a [u8]>
        ensures { option_copied result ≡ bytes_in (token_of self.now) }
    {
        match self {
            Token::Word(word) => Some(*word),
            _ => None,
        }
    }

    /// The digits of a number.
    pub(crate) fn digits(&self) -> Option<&'a [u8]>
        ensures { option_copied result ≡ digits_in (token_of self.now) }
    {
        match self {
            Token::Number(digits) => Some(*digits),
            _ => None,
        }
    }

    /// How it compares, if it does.
    pub(crate) fn op(&self) -> Option<Op>
        ensures { result ≡ op_in (token_of self.now) }
    {
        match self {
            Token::Op(op) => Some(*op),
            _ => None,
        }
    }

    /// Whether both are the same token.
    pub(crate) fn is_same(&self, other: &Token<'_>) -> bool
        ensures { result ≡ is_same_token (token_of self.now) (token_of other.now) }
    {
        match (self, other) {
            (Token::Word(a), Token::Word(b)) => *a == *b,
            (Token::Number(a), Token::Number(b)) => *a == *b,
            (Token::Open, Token::Open) => true,
            (Token::Close, Token::Close) => true,
            (Token::Comma, Token::Comma) => true,
            (Token::Semicolon, Token::Semicolon) => true,
            (Token::Plus, Token::Plus) => true,
            (Token::Times, Token::Times) => true,
            (Token::Op(a), Token::Op(b)) => *a == *b,
            _ => false,
        }
    }
}

/// The token at the start of a text, and how many bytes it has.
pub(crate) fn token_at(text: &[u8]) -> Option<(Token<'_>, usize)>
    ensures token { option_map (λ t. (token_of t.0, t.1)) result ≡ token_at text.now }
    ensures within { MatchOption result (Unit {0}) (λ t. (1 ≤ t.1) × (t.1 ≤ length text.now)) }
{
    let first = *text.first()?;
    if is_label_start(first) {
        let size = word_len(text);
        Some((Token::Word(&text[..size]), size))
    } else if first.is_ascii_digit() {
        let size = number_len(text);
        Some((Token::Number(&text[..size]), size))
    } else {
        sign_at(text)
    }
}

fn word_len(text: &[u8]) -> usize
    ensures { result ≡ length (take_while continues_label text.now) }
{
    text.iter().take_while(|b| is_label_byte(**b)).count()
}

fn number_len(text: &[u8]) -> usize
    ensures { result ≡ length (take_while is_digit text.now) }
{
    text.iter().take_while(|b| b.is_ascii_digit()).count()
}

fn sign_at(text: &[u8]) -> Option<(Token<'_>, usize)>
    ensures token { option_map (λ t. (token_of t.0, t.1)) result ≡ sign_at text.now }
    ensures within { MatchOption result (Unit {0}) (λ t. (1 ≤ t.1) × (t.1 ≤ length text.now)) }
{
    match text {
        [b'(', ..] => Some((Token::Open, 1)),
        [b')', ..] => Some((Token::Close, 1)),
        [b',', ..] => Some((Token::Comma, 1)),
        [b';', ..] => Some((Token::Semicolon, 1)),
        [b'+', ..] => Some((Token::Plus, 1)),
        [b'*', ..] => Some((Token::Times, 1)),
        [b'<', b'=', ..] => Some((Token::Op(Op::AtMost), 2)),
        [b'<', ..] => Some((Token::Op(Op::Below), 1)),
        [b'>', b'=', ..] => Some((Token::Op(Op::AtLeast), 2)),
        [b'>', ..] => Some((Token::Op(Op::Above), 1)),
        [b'=', ..] => Some((Token::Op(Op::Equal), 1)),
        [b'!', b'=', ..] => Some((Token::Op(Op::Unequal), 2)),
        _ => None,
    }
}
