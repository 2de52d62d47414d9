ghost use Rattle.std.specs.Prelude.{◌≡◌, ◌≤◌, length, map, IfOk, IfErr};
ghost use Rattle.std.specs.Bool.{MatchBool};
ghost use Rattle.std.specs.Option.{option_copied};
ghost use Rattle.conditions.specs.meaning.Written.{most_tokens};
ghost use Rattle.condition_grammar.specs.calls.Cursor.{has_no_token, TakesFirst, token_of};
ghost use Rattle.condition_grammar.specs.meaning.Grammar.{begins_with, label};
ghost use Rattle.condition_grammar.specs.calls.Reading.{TakesTokens, KeepsNames, MissesToken, NewLabels, PassesToken, ReadsProduction};
ghost use Rattle.condition_grammar.specs.meaning.Token.{bytes_in, digits_in, op_in};

use crate::fault::{ConditionFault, ConditionKind};
use crate::labels::number_of;
use crate::token::Token;
use crate::tokens::Tokens;
use conditions::Op;
use graph_types::LabelId;
use line_fields::{Names, is_label};
use std::alloc::Global;
use std::marker::Model;

/// A condition that is being read: its tokens from the next one on, the names before it, and the labels in
/// it that those lack. The names themselves change only once a whole line was read.
#[derive(Drop)]
pub(crate) struct ConditionReader<'s, 't, 'n> {
    tokens: Tokens<'s, 't>,
    names: &'n Names,
    labels: Vec<&'t [u8]>,
}

impl<'s, 't, 'n> Model for ConditionReader<'s, 't, 'n> {
    ghost use Rattle.std.specs.Prelude.{◌+◌, ◌≤◌, ◌++◌, length, map};
    ghost use Rattle.condition_grammar.specs.calls.Reading.{AreNew, ReaderState, reader_state_code};
    ghost use Rattle.conditions.specs.meaning.Written.{most_tokens};

    ghost Value = { ReaderState };

    ghost coded = { reader_state_code };

    ghost view = { λ r. record { tokens = r.tokens; names = r.names.now ++ map (λ l. l.now) r.labels.items; known = r.names.now } };

    ghost invariant = { λ r. record {
      few : length r.labels.items + length r.tokens ≤ most_tokens;
      new : AreNew r.names.now (map (λ l. l.now) r.labels.items);
    } };
}

impl<'s, 't, 'n> ConditionReader<'s, 't, 'n> {
    pub(crate) fn new(
        alloc: Global,
        tokens: &'s [Token<'t>],
        names: &'n Names,
    ) -> ConditionReader<'s, 't, 'n>
        requires { length tokens.now ≤ most_tokens }
        ensures { result ≡ record { tokens = map token_of tokens.now; names = names.now; known = names.now } }
    {
        ConditionReader {
            tokens: Tokens::new(tokens),
            names,
            labels: Vec::new(alloc),
        }
    }

    // Takes the next token if it is the one that is wanted.
    pub(crate) fn takes(&mut self, wanted: &Token<'_>) -> bool
        ensures { MatchBool result (PassesToken (token_of wanted.now) self.old self.new) (MissesToken (token_of wanted.now) self.old self.new) }
    {
        self.tokens.takes(wanted)
    }

    // Takes a label.
    #[tactic(auto, unfolding(crate::specs::meaning::Grammar::label))]
    pub(crate) fn label(&mut self) -> Result<LabelId, ConditionFault>
        ensures reads { ReadsProduction result self.new (label self.old.tokens self.old.names) }
        ensures goes_on { TakesTokens self.old self.new }
    {
        let word = self.tokens.take_word().ok_or(ConditionKind::BadForm)?;
        if !is_label(word) {
            return Err(ConditionFault::Refused(ConditionKind::BadForm));
        }
        let label = number_of(self.names, &mut self.labels, word)?;
        Ok(label)
    }

    // Takes a token that has to be next.
    pub(crate) fn expect(&mut self, wanted: &Token<'_>) -> Result<(), ConditionKind>
        ensures passed { IfOk result (λ _. PassesToken (token_of wanted.now) self.old self.new) }
        ensures missed { IfErr result (λ f. (f ≡ ConditionKind.BadForm) × MissesToken (token_of wanted.now) self.old self.new) }
        ensures goes_on { TakesTokens self.old self.new }
    {
        if self.takes(wanted) {
            Ok(())
        } else {
            Err(ConditionKind::BadForm)
        }
    }

    // Takes a word, a number or a comparing sign, if it is next.
    pub(crate) fn take_word(&mut self) -> Option<&'t [u8]>
        ensures first { TakesFirst bytes_in self.old.tokens (option_copied result) self.new.tokens }
        ensures names { KeepsNames self.old self.new }
    {
        self.tokens.take_word()
    }

    pub(crate) fn take_digits(&mut self) -> Option<&'t [u8]>
        ensures first { TakesFirst digits_in self.old.tokens (option_copied result) self.new.tokens }
        ensures names { KeepsNames self.old self.new }
    {
        self.tokens.take_digits()
    }

    pub(crate) fn take_op(&mut self) -> Option<Op>
        ensures first { TakesFirst op_in self.old.tokens result self.new.tokens }
        ensures names { KeepsNames self.old self.new }
    {
        self.tokens.take_op()
    }

    // Whether a word is next, and whether a number is.
    pub(crate) fn has_word(&self) -> bool
        ensures { result ≡ begins_with bytes_in self.now.tokens }
    {
        self.tokens.has_word()
    }

    pub(crate) fn has_number(&self) -> bool
        ensures { result ≡ begins_with digits_in self.now.tokens }
    {
        self.tokens.has_number()
    }

    // Whether no token is left.
    pub(crate) fn is_done(&self) -> bool
        ensures { result ≡ has_no_token self.now.tokens }
    {
        self.tokens.is_empty()
    }

    // The labels that the names lack, in the order in which they came.
    pub(crate) fn into_labels(self) -> Vec<&'t [u8]>
        ensures { NewLabels self.entry (map (λ l. l.now) result.items) }
    {
        let ConditionReader {
            tokens: _,
            names: _,
            labels,
        } = self;
        labels
    }
}
