ghost use Rattle.std.specs.Prelude.{◌≡◌, ◌≤◌, length, take_while, IfOk};
ghost use Rattle.std.specs.List.{list_any};
ghost use Rattle.conditions.specs.meaning.Fits.{has_numbers};
ghost use Rattle.conditions.specs.meaning.Written.{comes_after, most_pattern_vertices};
ghost use Rattle.condition_grammar.specs.meaning.Grammar.{is_new_pair, label_after, pair_after, pair_label, pair_numbers, pairs, pattern_labels, pattern_of, vertex_number, with_edge};
ghost use Rattle.condition_grammar.specs.calls.Reading.{ReadsProduction, ReadsTokens, TakesTokens};

use crate::fault::{ConditionFault, ConditionKind};
use crate::reader::ConditionReader;
use crate::terms::value_up_to;
use crate::token::Token;
use conditions::{Pattern, PatternEdge};
use graph_types::{LabelId, List, NoMemory};
use std::alloc::Global;

/// The most vertices of a pattern.
const MOST_VERTICES: usize = 8;

impl ConditionReader<'_, '_, '_> {
    // Takes a label more of a pattern.
    #[tactic(auto, unfolding(crate::specs::meaning::Grammar::label_after))]
    fn label_after(&mut self, mut labels: List<LabelId>) -> Result<List<LabelId>, ConditionFault>
        ensures reads { ReadsProduction result self.new (label_after labels self.old.tokens self.old.names) }
        ensures goes_on { TakesTokens self.old self.new }
        ensures few { IfOk result (λ later. length later ≤ most_pattern_vertices) }
    {
        if labels.len() >= MOST_VERTICES {
            return Err(ConditionFault::Refused(ConditionKind::BadForm));
        }
        let label = self.label()?;
        labels.push(label)?;
        Ok(labels)
    }

    // Takes the labels of a pattern.
    fn pattern_labels(&mut self, alloc: Global) -> Result<List<LabelId>, ConditionFault>
        ensures reads { ReadsProduction result self.new (pattern_labels self.old.tokens self.old.names) }
        ensures goes_on { TakesTokens self.old self.new }
        ensures few { IfOk result (λ labels. length labels ≤ most_pattern_vertices) }
    {
        let mut labels = self.label_after(List::new(alloc))?;
        while self.takes(&Token::Comma) {
            labels = self.label_after(labels)?;
        }
        Ok(labels)
    }

    // Takes the number of one of `count` vertices.
    #[tactic(auto, unfolding(crate::specs::meaning::Grammar::vertex_number))]
    fn vertex_number(&mut self, count: u32) -> Result<u32, ConditionKind>
        ensures takes { ReadsTokens self.old result self.new (vertex_number count self.old.tokens) }
        ensures goes_on { TakesTokens self.old self.new }
    {
        let digits = self.take_digits().ok_or(ConditionKind::BadForm)?;
        let number = value_up_to(digits, count)?;
        if number < 1 {
            return Err(ConditionKind::BadForm);
        }
        Ok(number)
    }

    // Takes the numbers of two vertices that no edge joins yet, and gives the lesser one first.
    #[tactic(auto, unfolding(crate::specs::meaning::Grammar::pair_numbers))]
    fn pair_numbers(
        &mut self,
        count: u32,
        edges: &[PatternEdge],
    ) -> Result<(u32, u32), ConditionKind>
        ensures takes { ReadsTokens self.old result self.new (pair_numbers count edges.now self.old.tokens) }
        ensures goes_on { TakesTokens self.old self.new }
    {
        let one = self.vertex_number(count)?;
        let other = self.vertex_number(count)?;
        if !is_new_pair(edges, one, other) {
            return Err(ConditionKind::BadForm);
        }
        Ok((one.min(other), one.max(other)))
    }

    // Takes the label of an edge, if one is next.
    #[tactic(auto, unfolding(crate::specs::meaning::Grammar::pair_label))]
    fn pair_label(&mut self) -> Result<LabelId, ConditionFault>
        ensures reads { ReadsProduction result self.new (pair_label self.old.tokens self.old.names) }
        ensures goes_on { TakesTokens self.old self.new }
    {
        if self.has_word() {
            self.label()
        } else {
            Ok(LabelId(0))
        }
    }

    // Takes an edge more of a pattern.
    #[tactic(auto, unfolding(crate::specs::meaning::Grammar::pair_after))]
    fn pair_after(
        &mut self,
        alloc: Global,
        count: u32,
        edges: &[PatternEdge],
    ) -> Result<List<PatternEdge>, ConditionFault>
        ensures reads { ReadsProduction result self.new (pair_after count edges.now self.old.tokens self.old.names) }
        ensures goes_on { TakesTokens self.old self.new }
    {
        let (low, high) = self.pair_numbers(count, edges)?;
        let label = self.pair_label()?;
        let later = with_edge(alloc, edges, PatternEdge { low, high, label })?;
        Ok(later)
    }

    // Takes the edges of a pattern, if a number is next.
    fn pairs(&mut self, alloc: Global, count: u32) -> Result<List<PatternEdge>, ConditionFault>
        ensures reads { ReadsProduction result self.new (pairs count self.old.tokens self.old.names) }
        ensures goes_on { TakesTokens self.old self.new }
    {
        let none = List::new(alloc);
        if !self.has_number() {
            return Ok(none);
        }
        let mut edges = self.pair_after(alloc, count, &none)?;
        while self.takes(&Token::Comma) {
            edges = self.pair_after(alloc, count, &edges)?;
        }
        Ok(edges)
    }

    /// Takes what stands after the word of a shape.
    #[tactic(auto, unfolding(crate::specs::meaning::Grammar::pattern_of))]
    pub(crate) fn pattern(&mut self, alloc: Global) -> Result<Pattern, ConditionFault>
        ensures reads { ReadsProduction result self.new (pattern_of self.old.tokens self.old.names) }
        ensures goes_on { TakesTokens self.old self.new }
    {
        self.expect(&Token::Open)?;
        let labels = self.pattern_labels(alloc)?;
        self.expect(&Token::Semicolon)?;
        let edges = self.pairs(alloc, labels.len() as u32)?;
        self.expect(&Token::Close)?;
        Ok(Pattern { labels, edges })
    }
}

// Whether two vertices differ, and no edge joins them.
fn is_new_pair(edges: &[PatternEdge], one: u32, other: u32) -> bool
    ensures { result ≡ is_new_pair edges.now one other }
{
    one != other && !joins(edges, one, other)
}

fn joins(edges: &[PatternEdge], one: u32, other: u32) -> bool
    ensures { result ≡ list_any (has_numbers one other) edges.now }
{
    edges.iter().any(|e| has_numbers(one, other, e))
}

fn has_numbers(one: u32, other: u32, edge: &PatternEdge) -> bool
    ensures { result ≡ has_numbers one other edge.now }
{
    (one == edge.low && other == edge.high) || (one == edge.high && other == edge.low)
}

// The edges with one more, which stands at its place among them.
fn with_edge(
    alloc: Global,
    edges: &[PatternEdge],
    edge: PatternEdge,
) -> Result<List<PatternEdge>, NoMemory>
    ensures { IfOk result (λ later. later ≡ with_edge edge edges.now) }
{
    let (front, behind) = edges.split_at(place_of(edges, &edge));
    let mut later = List::from_slice(alloc, front)?;
    later.push(edge)?;
    later.extend_from_slice(behind)?;
    Ok(later)
}

// How many edges come before one.
fn place_of(edges: &[PatternEdge], edge: &PatternEdge) -> usize
    ensures { result ≡ length (take_while (λ f. comes_after f.low f.high edge.now) edges.now) }
{
    edges.iter().take_while(|f| comes_after(**f, edge)).count()
}

fn comes_after(first: PatternEdge, edge: &PatternEdge) -> bool
    ensures { result ≡ comes_after first.low first.high edge.now }
{
    first.low < edge.low || (first.low == edge.low && first.high < edge.high)
}
