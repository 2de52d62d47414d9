ghost use Rattle.std.specs.Prelude.{◌≡◌, map, None, Some, MatchResult};
ghost use Rattle.std.specs.Option.{option_copied};
ghost use Rattle.std.specs.Bool.{MatchBool};
ghost use Rattle.condition_grammar.specs.meaning.Grammar.{begins_with, tokens_after};
ghost use Rattle.condition_grammar.specs.meaning.Lexing.{tokens_of};
ghost use Rattle.condition_grammar.specs.calls.Cursor.{has_no_token, RefusesText, TakesFirst, token_of};
ghost use Rattle.condition_grammar.specs.meaning.Token.{bytes_in, digits_in, op_in};

use crate::fault::{ConditionFault, ConditionKind};
use crate::token::{Token, token_at};
use conditions::Op;
use line_fields::trim_start;
use std::alloc::Global;
use std::marker::Model;

/// The tokens of a text that are still to come, of which the first is looked at before it is taken.
#[derive(Drop)]
pub(crate) struct Tokens<'s, 't> {
    rest: &'s [Token<'t>],
}

impl<'s, 't> Model for Tokens<'s, 't> {
    ghost use Rattle.std.specs.Prelude.{List, map};
    ghost use Rattle.condition_grammar.specs.calls.Cursor.{token_of};
    ghost use Rattle.condition_grammar.specs.meaning.Token.{Token as SpecToken, tokens_code};

    ghost Value = { List SpecToken };

    ghost coded = { tokens_code };

    ghost view = { λ t. map token_of t.rest.now };
}

impl<'s, 't> Tokens<'s, 't> {
    /// All of these tokens.
    pub(crate) fn new(tokens: &'s [Token<'t>]) -> Tokens<'s, 't>
        ensures { result ≡ map token_of tokens.now }
    {
        Tokens { rest: tokens }
    }

    /// Whether none is left.
    pub(crate) fn is_empty(&self) -> bool
        ensures { result ≡ has_no_token self.now }
    {
        self.rest.is_empty()
    }

    /// Whether a word is next.
    pub(crate) fn has_word(&self) -> bool
        ensures { result ≡ begins_with bytes_in self.now }
    {
        let [token, ..] = self.rest else {
            return false;
        };
        token.word().is_some()
    }

    /// Whether a number is next.
    pub(crate) fn has_number(&self) -> bool
        ensures { result ≡ begins_with digits_in self.now }
    {
        let [token, ..] = self.rest else {
            return false;
        };
        token.digits().is_some()
    }

    /// Takes the next token if it is the one that is wanted.
    pub(crate) fn takes(&mut self, wanted: &Token<'_>) -> bool
        ensures { MatchBool result
            (tokens_after (token_of wanted.now) self.old ≡ Some self.new)
            ((tokens_after (token_of wanted.now) self.old ≡ None) × (self.new ≡ self.old)) }
    {
        let [token, rest @ ..] = self.rest else {
            return false;
        };
        if !token.is_same(wanted) {
            return false;
        }
        self.rest = rest;
        true
    }

    /// Takes a word, if it is next.
    pub(crate) fn take_word(&mut self) -> Option<&'t [u8]>
        ensures { TakesFirst bytes_in self.old (option_copied result) self.new }
    {
        let [token, rest @ ..] = self.rest else {
            return None;
        };
        let word = token.word()?;
        self.rest = rest;
        Some(word)
    }

    /// Takes a number, if it is next.
    pub(crate) fn take_digits(&mut self) -> Option<&'t [u8]>
        ensures { TakesFirst digits_in self.old (option_copied result) self.new }
    {
        let [token, rest @ ..] = self.rest else {
            return None;
        };
        let digits = token.digits()?;
        self.rest = rest;
        Some(digits)
    }

    /// Takes a comparing sign, if it is next.
    pub(crate) fn take_op(&mut self) -> Option<Op>
        ensures { TakesFirst op_in self.old result self.new }
    {
        let [token, rest @ ..] = self.rest else {
            return None;
        };
        let op = token.op()?;
        self.rest = rest;
        Some(op)
    }
}

/// Cuts a text into its tokens. A byte that isn't blank and begins no token is refused.
pub(crate) fn cut(alloc: Global, text: &[u8]) -> Result<Vec<Token<'_>>, ConditionFault>
    ensures { MatchResult result (λ tokens. tokens_of text.now ≡ Some (map token_of tokens.items)) (RefusesText text.now) }
{
    let mut tokens = Vec::new(alloc);
    let mut front = trim_start(text);
    while !front.is_empty() {
        let Some((token, size)) = token_at(front) else {
            return Err(ConditionFault::Refused(ConditionKind::BadForm));
        };
        let (_, behind) = front.split_at(size);
        tokens.push(token)?;
        front = trim_start(behind);
    }
    Ok(tokens)
}
