ghost use Rattle.std.specs.Prelude.{◌≡◌, ◌+◌, ◌≤◌, ◌++◌, codes, decimal, length};
ghost use Rattle.std.specs.List.{flat_map};
ghost use Rattle.record_text.specs.meaning.Text.{done_text, member_text, after_space};
ghost use Rattle.record_text.specs.meaning.Listing.{piece_line};

use crate::line_end::{LINE_BYTES, LineEnd};
use graph_types::{Member, Piece, Stamp};

/// Makes what a record begins with: at most 24 bytes.
pub fn fill_start(line: &mut LineEnd, word: &[u8; 3], t: Stamp)
    ensures text { line.new ≡ word.now ++ after_space (decimal t) }
    ensures short { length line.new ≤ 24 }
{
    line.clear();
    line.prepend_number(t.0);
    line.prepend_byte(b' ');
    line.prepend(word);
}

/// Makes the line of a record that begins so: at most 201 bytes.
pub fn fill_record(line: &mut LineEnd, start: &[u8], piece: &Piece)
    requires { length start.now ≤ 24 }
    ensures { line.new
        ≡ start.now ++ flat_map (λ m. after_space (member_text m)) piece.now.members ++ codes "\n" }
{
    fill_members(line, piece);
    line.prepend(start);
}

/// Makes the line of a piece in a listing: at most 176 bytes.
pub fn fill_listed(line: &mut LineEnd, piece: &Piece)
    ensures { line.new ≡ piece_line piece.now.members }
{
    fill_members(line, piece);
    if !piece.is_empty() {
        line.drop_first();
    }
}

/// Makes the line that closes a timestamp: at most 47 bytes.
pub fn fill_done(line: &mut LineEnd, t: Stamp, count: Option<u64>)
    ensures { line.new ≡ done_text t count }
{
    line.clear();
    line.prepend_byte(b'\n');
    if let Some(count) = count {
        line.prepend_number(count);
        line.prepend_byte(b' ');
    }
    line.prepend_number(t.0);
    line.prepend(b"DONE ");
}

/// Makes a line of each member after a space: at most 177 bytes.
fn fill_members(line: &mut LineEnd, piece: &Piece)
    ensures text { line.new
        ≡ flat_map (λ m. after_space (member_text m)) piece.now.members ++ codes "\n" }
    ensures short { length line.new ≤ 177 }
{
    line.clear();
    line.prepend_byte(b'\n');
    let mut place = piece.len();
    while place > 0 {
        place -= 1;
        prepend_spaced(line, piece.get(place).unwrap());
    }
}

/// Puts a space and the member before the line.
fn prepend_spaced(line: &mut LineEnd, member: Member)
    requires { length line.old + 22 ≤ LINE_BYTES }
    ensures text { line.new ≡ after_space (member_text member) ++ line.old }
    ensures short { length line.new ≤ length line.old + 22 }
{
    match member {
        Member::Vertex(v) => line.prepend_id(v.0),
        Member::Edge(e) => {
            line.prepend_id(e.b().0);
            line.prepend_byte(b'-');
            line.prepend_id(e.a().0);
        }
    }
    line.prepend_byte(b' ');
}
