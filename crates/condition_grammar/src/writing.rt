ghost use Rattle.std.specs.List.{list_all};
ghost use Rattle.line_fields.specs.meaning.Names.{Names as NameList};
ghost use Rattle.std.specs.Prelude.{◌≡◌, ◌<◌, ◌++◌, codes, decimal, length, IsTrue, OnOk};
ghost use Rattle.condition_grammar.specs.meaning.Text.{cond_text, edge_text, factor_text, knows_edge, knows_label, knows_labels, knows_pattern, knows_term, list_text, shape_text, label_text, op_text, sum_text, term_text, text_in_place, bound_text};

use conditions::{Cond, Factor, Op, Pattern, PatternEdge, Term};
use graph_types::{LabelId, NoMemory};
use itoa::Buffer;
use job_io::ByteList;
use line_fields::Names;

/// Puts a condition after a line, with no more parentheses than are needed and one blank between tokens, but
/// none in a use of a term and none right inside of parentheses. Takes time linear in what is put.
#[cycle(put)]
pub fn put_cond(line: &mut ByteList, cond: &Cond, names: &Names) -> Result<(), NoMemory>
    requires { IsTrue (knows_labels names.now cond.now) }
    ensures { OnOk result (line.new ≡ line.old ++ cond_text names.now cond.now) }
{
    match cond {
        Cond::True => put(line, b"true"),
        Cond::False => put(line, b"false"),
        Cond::Compare { sum, op, bound } => put_comparison(
            line,
            sum.as_slice(),
            *op,
            *bound,
            names,
        ),
        Cond::Not(c) => {
            put(line, b"not ")?;
            put_at(line, 2, c.get(), names)
        }
        Cond::And(c, d) => {
            put_at(line, 1, c.get(), names)?;
            put(line, b" and ")?;
            put_at(line, 2, d.get(), names)
        }
        Cond::Shape(pattern) => put_shape(line, pattern, names),
        Cond::Or(c, d) => {
            put_at(line, 0, c.get(), names)?;
            put(line, b" or ")?;
            put_at(line, 1, d.get(), names)
        }
    }
}

// In parentheses where the condition binds less than its place asks.
#[cycle(put)]
fn put_at(line: &mut ByteList, asked: u8, cond: &Cond, names: &Names) -> Result<(), NoMemory>
    requires { IsTrue (knows_labels names.now cond.now) }
    ensures { OnOk result (line.new ≡ line.old ++ text_in_place asked (bound_text names.now cond.now)) }
{
    if binding(cond) >= asked {
        return put_cond(line, cond, names);
    }
    put(line, b"(")?;
    put_cond(line, cond, names)?;
    put(line, b")")
}

// How tightly a condition binds.
fn binding(cond: &Cond) -> u8
    ensures { (names : NameList) → result ≡ (bound_text names cond.now).binding }
{
    match cond {
        Cond::Or(_, _) => 0,
        Cond::And(_, _) => 1,
        _ => 2,
    }
}

fn put_comparison(
    line: &mut ByteList,
    sum: &[Factor],
    op: Op,
    bound: u32,
    names: &Names,
) -> Result<(), NoMemory>
    requires { IsTrue (list_all (λ f. knows_term names.now f.term) sum.now) }
    ensures { OnOk result (line.new ≡ line.old ++ (sum_text names.now sum.now ++ codes " " ++ op_text op ++ codes " " ++ decimal bound)) }
{
    put_sum(line, sum, names)?;
    put(line, b" ")?;
    put(line, op_bytes(op))?;
    put(line, b" ")?;
    put_number(line, bound)
}

fn put_sum(line: &mut ByteList, sum: &[Factor], names: &Names) -> Result<(), NoMemory>
    requires { IsTrue (list_all (λ f. knows_term names.now f.term) sum.now) }
    ensures { OnOk result (line.new ≡ line.old ++ sum_text names.now sum.now) }
{
    let [first, more @ ..] = sum else {
        return Ok(());
    };
    put_factor(line, first, names)?;
    let mut rest = more;
    while let [factor, later @ ..] = rest {
        put(line, b" + ")?;
        put_factor(line, factor, names)?;
        rest = later;
    }
    Ok(())
}

fn put_factor(line: &mut ByteList, factor: &Factor, names: &Names) -> Result<(), NoMemory>
    requires { IsTrue (knows_term names.now factor.now.term) }
    ensures { OnOk result (line.new ≡ line.old ++ factor_text names.now factor.now) }
{
    if factor.times != 1 {
        put_number(line, factor.times)?;
        put(line, b"*")?;
    }
    put_term(line, &factor.term, names)
}

fn put_term(line: &mut ByteList, term: &Term, names: &Names) -> Result<(), NoMemory>
    requires { IsTrue (knows_term names.now term.now) }
    ensures { OnOk result (line.new ≡ line.old ++ term_text names.now term.now) }
{
    match term {
        Term::Vertices(None) => put(line, b"vertices"),
        Term::Vertices(Some(l)) => put_labelled(line, b"vertices(", *l, names),
        Term::Edges(None) => put(line, b"edges"),
        Term::Edges(Some(l)) => put_labelled(line, b"edges(", *l, names),
        Term::Joins(l, m) => {
            put(line, b"joins(")?;
            put_label(line, *l, names)?;
            put(line, b",")?;
            put_label(line, *m, names)?;
            put(line, b")")
        }
        Term::Kinds => put(line, b"kinds"),
        Term::Degree => put(line, b"degree"),
        Term::Missing => put(line, b"missing"),
        Term::Least => put(line, b"least"),
    }
}

fn put_shape(line: &mut ByteList, pattern: &Pattern, names: &Names) -> Result<(), NoMemory>
    requires { IsTrue (knows_pattern names.now pattern.now) }
    ensures { OnOk result (line.new ≡ line.old ++ shape_text names.now pattern.now) }
{
    put(line, b"shape(")?;
    put_labels(line, pattern.labels.as_slice(), names)?;
    put(line, b";")?;
    put_edges(line, pattern.edges.as_slice(), names)?;
    put(line, b")")
}

fn put_labels(line: &mut ByteList, labels: &[LabelId], names: &Names) -> Result<(), NoMemory>
    requires { IsTrue (list_all (knows_label names.now) labels.now) }
    ensures { OnOk result (line.new ≡ line.old ++ list_text (label_text names.now) labels.now) }
{
    let [first, more @ ..] = labels else {
        return Ok(());
    };
    put_label(line, *first, names)?;
    let mut rest = more;
    while let [label, later @ ..] = rest {
        put(line, b",")?;
        put_label(line, *label, names)?;
        rest = later;
    }
    Ok(())
}

fn put_edges(line: &mut ByteList, edges: &[PatternEdge], names: &Names) -> Result<(), NoMemory>
    requires { IsTrue (list_all (knows_edge names.now) edges.now) }
    ensures { OnOk result (line.new ≡ line.old ++ list_text (edge_text names.now) edges.now) }
{
    let [first, more @ ..] = edges else {
        return Ok(());
    };
    put_edge(line, first, names)?;
    let mut rest = more;
    while let [edge, later @ ..] = rest {
        put(line, b",")?;
        put_edge(line, edge, names)?;
        rest = later;
    }
    Ok(())
}

fn put_edge(line: &mut ByteList, edge: &PatternEdge, names: &Names) -> Result<(), NoMemory>
    requires { IsTrue (knows_edge names.now edge.now) }
    ensures { OnOk result (line.new ≡ line.old ++ edge_text names.now edge.now) }
{
    put_number(line, edge.low)?;
    put(line, b" ")?;
    put_number(line, edge.high)?;
    if edge.label == LabelId(0) {
        return Ok(());
    }
    put(line, b" ")?;
    put_label(line, edge.label, names)
}

fn put_labelled(
    line: &mut ByteList,
    front: &[u8],
    label: LabelId,
    names: &Names,
) -> Result<(), NoMemory>
    requires { label < length names.now }
    ensures { OnOk result (line.new ≡ line.old ++ (front.now ++ label_text names.now label ++ codes ")")) }
{
    put(line, front)?;
    put_label(line, label, names)?;
    put(line, b")")
}

fn put_label(line: &mut ByteList, label: LabelId, names: &Names) -> Result<(), NoMemory>
    requires { label < length names.now }
    ensures { OnOk result (line.new ≡ line.old ++ label_text names.now label) }
{
    let name = names.name(label).unwrap();
    put(line, name)
}

/// Puts a number after a line, without leading zeros.
pub fn put_number(line: &mut ByteList, number: u32) -> Result<(), NoMemory>
    ensures { OnOk result (line.new ≡ line.old ++ decimal number) }
{
    let mut digits = Buffer::new();
    put(line, digits.format(number).as_bytes())
}

/// Puts bytes after a line.
pub fn put(line: &mut ByteList, bytes: &[u8]) -> Result<(), NoMemory>
    ensures { OnOk result (line.new ≡ line.old ++ bytes.now) }
{
    for b in bytes {
        line.push(*b)?;
    }
    Ok(())
}

fn op_bytes(op: Op) -> &'static [u8]
    ensures { result.now ≡ op_text op }
{
    match op {
        Op::AtMost => b"<=",
        Op::Below => b"<",
        Op::AtLeast => b">=",
        Op::Above => b">",
        Op::Equal => b"=",
        Op::Unequal => b"!=",
    }
}
