ghost use Rattle.std.specs.Prelude.{◌≡◌, ◌++◌, ◌∷◌, [], IfOk};
ghost use Rattle.condition_grammar.specs.meaning.Grammar.{factor, named_term, optional_label, sum_of, term_after_name, term_of, two_labels, use_of, value_up_to};
ghost use Rattle.condition_grammar.specs.calls.Reading.{TakesTokens, ReadsProduction, ReadsUse, ReadsTokens};

use crate::fault::{ConditionFault, ConditionKind};
use crate::reader::ConditionReader;
use crate::term_name::{TermName, read_term_name};
use crate::token::Token;
use conditions::{Factor, FactorList, Term};
use graph_types::{LabelId, NoMemory};
use line_fields::read_number;
use std::alloc::Global;

/// The most uses of a sum, and the largest factor.
const MOST_FACTORS: u32 = 16;

const MOST_TIMES: u32 = 100;

impl ConditionReader<'_, '_, '_> {
    // Takes the word with which a term begins.
    #[tactic(auto, unfolding(crate::specs::meaning::Grammar::named_term))]
    fn term_name(&mut self) -> Result<TermName, ConditionKind>
        ensures takes { ReadsTokens self.old result self.new (named_term self.old.tokens) }
        ensures goes_on { TakesTokens self.old self.new }
    {
        let word = self.take_word().ok_or(ConditionKind::BadForm)?;
        read_term_name(word).ok_or(ConditionKind::BadForm)
    }

    // Takes a label in parentheses, if there is one.
    #[tactic(auto, unfolding(crate::specs::meaning::Grammar::optional_label))]
    fn optional_label(&mut self) -> Result<Option<LabelId>, ConditionFault>
        ensures reads { ReadsProduction result self.new (optional_label self.old.tokens self.old.names) }
        ensures goes_on { TakesTokens self.old self.new }
    {
        if !self.takes(&Token::Open) {
            return Ok(None);
        }
        let label = self.label()?;
        self.expect(&Token::Close)?;
        Ok(Some(label))
    }

    // Takes two labels in parentheses.
    #[tactic(auto, unfolding(crate::specs::meaning::Grammar::two_labels))]
    fn two_labels(&mut self) -> Result<(LabelId, LabelId), ConditionFault>
        ensures reads { ReadsProduction result self.new (two_labels self.old.tokens self.old.names) }
        ensures goes_on { TakesTokens self.old self.new }
    {
        self.expect(&Token::Open)?;
        let one = self.label()?;
        self.expect(&Token::Comma)?;
        let other = self.label()?;
        self.expect(&Token::Close)?;
        Ok((one, other))
    }

    // Takes what stands after the name of a term.
    #[tactic(auto, unfolding(crate::specs::meaning::Grammar::term_after_name))]
    fn term_behind(&mut self, name: TermName) -> Result<Term, ConditionFault>
        ensures reads { ReadsProduction result self.new (term_after_name name self.old.tokens self.old.names) }
        ensures goes_on { TakesTokens self.old self.new }
    {
        match name {
            TermName::Vertices => Ok(Term::Vertices(self.optional_label()?)),
            TermName::Edges => Ok(Term::Edges(self.optional_label()?)),
            TermName::Joins => {
                let (one, other) = self.two_labels()?;
                Ok(Term::Joins(one, other))
            }
            TermName::Kinds => Ok(Term::Kinds),
            TermName::Degree => Ok(Term::Degree),
            TermName::Missing => Ok(Term::Missing),
            TermName::Least => Ok(Term::Least),
        }
    }

    #[tactic(auto, unfolding(crate::specs::meaning::Grammar::term_of))]
    fn term(&mut self) -> Result<Term, ConditionFault>
        ensures reads { ReadsProduction result self.new (term_of self.old.tokens self.old.names) }
        ensures goes_on { TakesTokens self.old self.new }
    {
        let name = self.term_name()?;
        self.term_behind(name)
    }

    // Takes a factor with its `*`, if there is one.
    #[tactic(auto, unfolding(crate::specs::meaning::Grammar::factor))]
    fn factor(&mut self) -> Result<u32, ConditionKind>
        ensures takes { ReadsTokens self.old result self.new (factor self.old.tokens) }
        ensures goes_on { TakesTokens self.old self.new }
    {
        let Some(digits) = self.take_digits() else {
            return Ok(1);
        };
        let times = value_up_to(digits, MOST_TIMES)?;
        self.expect(&Token::Times)?;
        Ok(times)
    }

    #[tactic(auto, unfolding(crate::specs::meaning::Grammar::use_of))]
    fn use_of(&mut self) -> Result<Factor, ConditionFault>
        ensures reads { ReadsProduction result self.new (use_of self.old.tokens self.old.names) }
        ensures goes_on { TakesTokens self.old self.new }
    {
        let times = self.factor()?;
        let term = self.term()?;
        Ok(Factor { times, term })
    }

    // Takes a `+` and a use more, if a `+` is next. There is room for `room` uses more.
    fn next_use(&mut self, room: u32) -> Result<Option<Factor>, ConditionFault>
        ensures reads { ReadsUse room self.old result self.new }
        ensures goes_on { TakesTokens self.old self.new }
    {
        if !self.takes(&Token::Plus) {
            return Ok(None);
        }
        if room == 0 {
            return Err(ConditionFault::Refused(ConditionKind::BadForm));
        }
        Ok(Some(self.use_of()?))
    }

    /// Takes a sum.
    #[tactic(auto, unfolding(crate::specs::meaning::Grammar::sum_of))]
    pub(crate) fn sum(&mut self, alloc: Global) -> Result<FactorList, ConditionFault>
        ensures reads { ReadsProduction result self.new (sum_of self.old.tokens self.old.names) }
        ensures goes_on { TakesTokens self.old self.new }
    {
        // Meets the types that lie in an item, as in `with_use`.
        let _met: Option<(Term, LabelId)> = None;
        let first = self.use_of()?;
        let mut sum = first_use(alloc, first)?;
        let mut room = MOST_FACTORS - 1;
        while let Some(factor) = self.next_use(room)? {
            sum = with_use(sum, factor)?;
            room -= 1;
        }
        Ok(sum)
    }
}

fn first_use(alloc: Global, factor: Factor) -> Result<FactorList, NoMemory>
    ensures { IfOk result (λ sum. sum ≡ factor ∷ []) }
{
    with_use(FactorList::new(alloc), factor)
}

fn with_use(mut sum: FactorList, factor: Factor) -> Result<FactorList, NoMemory>
    ensures { IfOk result (λ later. later ≡ sum ++ factor ∷ []) }
{
    // The prover plans a call of a generic list only where it meets each type that lies in an item.
    let _met: Option<(Term, LabelId)> = None;
    sum.push(factor)?;
    Ok(sum)
}

/// The number that 1 to 10 digits say, if it is no larger than the most.
pub(crate) fn value_up_to(digits: &[u8], most: u32) -> Result<u32, ConditionKind>
    ensures { result ≡ value_up_to most digits.now }
{
    match read_number(digits, 10) {
        Some(number) if number <= u64::from(most) => Ok(number as u32),
        _ => Err(ConditionKind::BadForm),
    }
}
