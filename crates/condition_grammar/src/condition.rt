ghost use Rattle.std.specs.Bool.{MatchBool};
ghost use Rattle.std.specs.Prelude.{◌≡◌, ◌+◌, map, IfOk, MatchResult};
ghost use Rattle.conditions.specs.declared.condition.Cond.TheOpen as form;
ghost use Rattle.conditions.specs.declared.condition.Cond.TheViews.{roll-Cond};
ghost use Rattle.conditions.specs.meaning.Written.{IsWithinLimits};
ghost use Rattle.condition_grammar.specs.meaning.Grammar.{atom, bound, comparison, cond_within, condition_of, joined_operands, joint_word, nested_within, neg, operand, operator};
ghost use Rattle.condition_grammar.specs.calls.Reading.{MissesToken, Parses, PassesToken, ReadsProduction, ReadsTokens, RefusesAs, TakesTokens};

use crate::fault::{ConditionFault, ConditionKind};
use crate::joint::Joint;
use crate::reader::ConditionReader;
use crate::terms::value_up_to;
use crate::token::Token;
use crate::tokens::cut;
use conditions::{Cond, Op};
use line_fields::Names;
use sqlite_items::Boxed;
use std::alloc::{AllocError, Global};

/// The largest bound of a sum.
const MOST_BOUND: u32 = 10_000;

/// The most tokens of a condition, and how many `not` and parentheses may be open in it at once.
const MOST_TOKENS: usize = 512;

const MOST_DEPTH: u32 = 32;

/// The condition that a text says, and the labels in it that the names lack, in the order in which they stand.
/// Takes time linear in the text, but for comparisons among these labels; allocates the tokens of the text,
/// the condition and those labels.
///
/// The first that holds is refused: a byte begins no token; there are more than 512 tokens; a token is the
/// first after which no condition can be completed, or makes it too deep; the text ends early.
pub fn read_condition<'t>(
    alloc: Global,
    text: &'t [u8],
    names: &Names,
) -> Result<(Cond, Vec<&'t [u8]>), ConditionFault>
    ensures parses { MatchResult result
        (λ p. Parses names.now (condition_of text.now names.now) p.0 (map (λ l. l.now) p.1.items))
        (λ e. RefusesAs e (condition_of text.now names.now)) }
    ensures within { IfOk result (λ p. IsWithinLimits p.0) }
{
    let tokens = cut(alloc, text)?;
    if tokens.len() > MOST_TOKENS {
        return Err(ConditionFault::Refused(ConditionKind::TooLong));
    }
    let mut reader = ConditionReader::new(alloc, tokens.as_slice(), names);
    let cond = reader.cond(alloc, MOST_DEPTH)?;
    if !reader.is_done() {
        return Err(ConditionFault::Refused(ConditionKind::BadForm));
    }
    Ok((cond, reader.into_labels()))
}

impl ConditionReader<'_, '_, '_> {
    #[tactic(auto, unfolding(crate::specs::meaning::Grammar::operator))]
    fn operator(&mut self) -> Result<Op, ConditionKind>
        ensures takes { ReadsTokens self.old result self.new (operator self.old.tokens) }
        ensures goes_on { TakesTokens self.old self.new }
    {
        self.take_op().ok_or(ConditionKind::BadForm)
    }

    #[tactic(auto, unfolding(crate::specs::meaning::Grammar::bound))]
    fn bound(&mut self) -> Result<u32, ConditionKind>
        ensures takes { ReadsTokens self.old result self.new (bound self.old.tokens) }
        ensures goes_on { TakesTokens self.old self.new }
    {
        let digits = self.take_digits().ok_or(ConditionKind::BadForm)?;
        value_up_to(digits, MOST_BOUND)
    }

    // Takes a sum that is compared with its bound.
    #[tactic(auto, unfolding(crate::specs::meaning::Grammar::comparison))]
    fn comparison(&mut self, alloc: Global) -> Result<Cond, ConditionFault>
        ensures reads { ReadsProduction result self.new (comparison self.old.tokens self.old.names) }
        ensures goes_on { TakesTokens self.old self.new }
    {
        let sum = self.sum(alloc)?;
        let op = self.operator()?;
        let bound = self.bound()?;
        Ok(Cond::Compare { sum, op, bound })
    }

    // Takes what is no `not`, `and` or `or`. Up to `room` more `not` and parentheses may be open.
    #[cycle(condition)]
    #[tactic(auto, unfolding(crate::specs::meaning::Grammar::atom))]
    fn atom(&mut self, alloc: Global, room: u32) -> Result<Cond, ConditionFault>
        ensures reads { ReadsProduction result self.new (atom (nested_within room) self.old.tokens self.old.names) }
        ensures goes_on { TakesTokens self.old self.new }
    {
        if self.takes(&Token::Word(b"true")) {
            return Ok(Cond::True);
        }
        if self.takes(&Token::Word(b"false")) {
            return Ok(Cond::False);
        }
        if self.takes(&Token::Open) {
            let room = opened(room)?;
            let cond = self.cond(alloc, room)?;
            self.expect(&Token::Close)?;
            return Ok(cond);
        }
        if self.takes(&Token::Word(b"shape")) {
            let pattern = self.pattern(alloc)?;
            return Ok(Cond::Shape(pattern));
        }
        self.comparison(alloc)
    }

    #[cycle(condition)]
    #[tactic(auto, unfolding(crate::specs::meaning::Grammar::neg))]
    fn neg(&mut self, alloc: Global, room: u32) -> Result<Cond, ConditionFault>
        ensures reads { ReadsProduction result self.new (neg (nested_within room) self.old.tokens self.old.names) }
        ensures goes_on { TakesTokens self.old self.new }
    {
        if self.takes(&Token::Word(b"not")) {
            let room = opened(room)?;
            let operand = self.neg(alloc, room)?;
            let cond = not(alloc, operand)?;
            return Ok(cond);
        }
        self.atom(alloc, room)
    }

    fn takes_joint(&mut self, joint: Joint) -> bool
        ensures { MatchBool result (PassesToken (joint_word joint) self.old self.new) (MissesToken (joint_word joint) self.old self.new) }
    {
        self.takes(&joint.word())
    }

    // Takes what stands between the words of a chain.
    #[cycle(condition)]
    fn operand(&mut self, alloc: Global, joint: Joint, room: u32) -> Result<Cond, ConditionFault>
        ensures reads { ReadsProduction result self.new (operand joint (nested_within room) self.old.tokens self.old.names) }
        ensures goes_on { TakesTokens self.old self.new }
    {
        match joint {
            Joint::And => self.neg(alloc, room),
            Joint::Or => self.chain(alloc, Joint::And, room),
        }
    }

    // Takes operands with this word between them, and groups them to the left.
    #[cycle(condition)]
    fn chain(&mut self, alloc: Global, joint: Joint, room: u32) -> Result<Cond, ConditionFault>
        ensures reads { ReadsProduction result self.new (joined_operands joint (nested_within room) self.old.tokens self.old.names) }
        ensures goes_on { TakesTokens self.old self.new }
    {
        let mut left = self.operand(alloc, joint, room)?;
        while self.takes_joint(joint) {
            let right = self.operand(alloc, joint, room)?;
            left = joint.join(alloc, left, right)?;
        }
        Ok(left)
    }

    /// Takes a condition in which up to `room` `not` and parentheses may be open at once.
    #[cycle(condition)]
    pub(crate) fn cond(&mut self, alloc: Global, room: u32) -> Result<Cond, ConditionFault>
        ensures reads { ReadsProduction result self.new (cond_within (nested_within room) self.old.tokens self.old.names) }
        ensures goes_on { TakesTokens self.old self.new }
    {
        self.chain(alloc, Joint::Or, room)
    }
}

// How many more may be open after one more `not` or parenthesis.
fn opened(room: u32) -> Result<u32, ConditionKind>
    ensures { MatchResult result (λ left. room ≡ left + 1) (λ f. (room ≡ 0) × (f ≡ ConditionKind.TooDeep)) }
{
    room.checked_sub(1).ok_or(ConditionKind::TooDeep)
}

fn not(alloc: Global, operand: Cond) -> Result<Cond, AllocError>
    ensures { IfOk result (λ c. c ≡ roll-Cond (form.Not operand)) }
{
    Ok(Cond::Not(Boxed::new(alloc, operand)?))
}
