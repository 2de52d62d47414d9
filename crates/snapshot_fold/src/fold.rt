ghost use Rattle.std.specs.Prelude.{◌≡◌, [], length, true, false, not, IsTrue, Ok, Err, IfErr, IfOk, IsOk, MatchOption, OnErr, OnOk, if◌then◌else◌};
ghost use Rattle.std.specs.List.Sorted.{IsStrictlySortedBy};
ghost use Rattle.std.specs.Option.{is_none};
ghost use Rattle.graph_types.specs.meaning.Piece.{piece_cmp};
ghost use Rattle.snapshot_fold.specs.meaning.FoldState.{empty_fold, last_new, last_rem};
ghost use Rattle.snapshot_fold.specs.meaning.Forms.{format_after as format_after_line};
ghost use Rattle.snapshot_fold.specs.meaning.Pieces.{is_above, has_piece};
ghost use Rattle.snapshot_fold.specs.meaning.Taking.{IsRecordFault, after_new, comes_in_order, goes_in_order, after_done, after_rem, is_of_other_mode, is_open, state_after_record, state_in_form};
ghost use Rattle.snapshot_fold.specs.declared.fault.FoldRefusal.TheVariants.{AddsPresent, RemovesAbsent};
ghost use Rattle.record_text.specs.declared.read.RecordLine.TheVariants.{Rem, Add, Done};

use crate::fault::{FoldFault, FoldRefusal};
use crate::forms::{format_after, is_of_form};
use crate::held::HeldPieces;
use crate::listing::{is_above, put_back};
use graph_types::{Mode, NoMemory, Piece, PieceList, Stamp};
use record_text::{RecordFormat, RecordLine};
use std::alloc::Global;
use std::marker::Model;

/// A text of records that is read record by record. It holds the pieces that are there, and what the
/// open timestamp has changed; of the records before it keeps nothing.
#[derive(Debug, Drop)]
pub struct Fold {
    alloc: Global,
    format: Option<RecordFormat>,
    mode: Option<Mode>,
    done: Stamp,
    pieces: HeldPieces,
    went: PieceList,
    came: PieceList,
}

impl Model for Fold {
    ghost use Rattle.snapshot_fold.specs.meaning.FoldState.{FoldState};
    ghost use Rattle.snapshot_fold.specs.storage.Undone.{IsOpen, pieces_before_open};

    ghost Value = { FoldState };

    ghost view = { λ f. record {
      format = f.format;
      mode = f.mode;
      done = f.done;
      settled = pieces_before_open f.pieces f.went f.came;
      held = f.pieces;
      went = f.went;
      came = f.came;
    } };

    ghost invariant = { λ f. IsOpen f.pieces f.went f.came };
}

impl Fold {
    /// Before the first record. It takes its memory from `alloc`, and none yet.
    pub fn new(alloc: Global) -> Fold
        ensures { result ≡ empty_fold }
    {
        Fold {
            alloc,
            format: None,
            mode: None,
            done: Stamp(0),
            pieces: HeldPieces::new(alloc),
            went: PieceList::new(alloc),
            came: PieceList::new(alloc),
        }
    }

    /// Takes the next record, in time logarithmic in the number of pieces that are held. A line that
    /// says nothing changes nothing.
    pub fn take(&mut self, line: &RecordLine) -> Result<(), FoldFault>
        ensures ok { OnOk result (state_after_record self.old line.now ≡ Ok self.new) }
        ensures refused { IfErr result (IsRecordFault (state_after_record self.old line.now)) }
        ensures unchanged { OnErr result (self.new ≡ self.old) }
    {
        if !is_of_form(self.format, line) {
            return Err(FoldFault::Refused(FoldRefusal::WrongForm));
        }
        match self.take_in_form(line) {
            Ok(()) => {
                self.set_format(line);
                Ok(())
            }
            Err(fault) => Err(fault),
        }
    }

    /// Why the line that closes this timestamp would be refused, with a count or without one; `None` where it
    /// would be taken. Taking it needs no memory.
    pub fn done_refusal(&self, stamp: Stamp, count: Option<u64>) -> Option<FoldRefusal>
        ensures { MatchOption result
            (IsOk (state_after_record self.now (Done stamp count)))
            (λ why. state_after_record self.now (Done stamp count) ≡ Err why) }
    {
        if !is_of_form(self.format, &RecordLine::Done { stamp, count }) {
            return Some(FoldRefusal::WrongForm);
        }
        self.closing_refusal(stamp, count)
    }

    /// The pieces that went at the open timestamp, ascending.
    pub fn went(&self) -> &PieceList
        ensures { result.now ≡ self.now.went }
    {
        &self.went
    }

    /// The pieces that came at the open timestamp, ascending.
    pub fn came(&self) -> &PieceList
        ensures { result.now ≡ self.now.came }
    {
        &self.came
    }

    /// How many pieces there are after the records so far.
    pub fn held(&self) -> u64
        ensures { result ≡ length self.now.held }
    {
        self.pieces.len() as u64
    }

    /// The last timestamp that is done, or 0.
    pub fn done(&self) -> Stamp
        ensures { result ≡ self.now.done }
    {
        self.done
    }

    /// The pieces at the last timestamp that is done, ascending, in a new list. Takes time linear in the
    /// number of pieces that are held.
    pub fn listing(&self, alloc: Global) -> Result<PieceList, NoMemory>
        ensures settled { IfOk result (λ pieces. pieces ≡ self.now.settled) }
        ensures ascending { IfOk result (IsStrictlySortedBy piece_cmp) }
    {
        put_back(alloc, &self.pieces, &self.went, &self.came)
    }

    /// Takes a line that has the form of its text. The format stays as it is.
    fn take_in_form(&mut self, line: &RecordLine) -> Result<(), FoldFault>
        ensures ok { OnOk result (state_in_form self.old line.now ≡ Ok self.new) }
        ensures refused { IfErr result (IsRecordFault (state_in_form self.old line.now)) }
        ensures unchanged { OnErr result (self.new ≡ self.old) }
    {
        match line {
            RecordLine::Nothing => Ok(()),
            RecordLine::Head => Ok(()),
            RecordLine::Rem { stamp, piece } => self.take_rem(*stamp, piece),
            RecordLine::Add { stamp, piece } => self.take_add(*stamp, piece),
            RecordLine::Done { stamp, count } => self.take_done(*stamp, *count),
        }
    }

    /// The first line that says anything sets the format.
    fn set_format(&mut self, line: &RecordLine)
        ensures { self.new ≡ record self.old { format = format_after_line self.old.format line.now } }
    {
        self.format = format_after(self.format, line);
    }

    fn take_rem(&mut self, stamp: Stamp, piece: &Piece) -> Result<(), FoldFault>
        ensures ok { OnOk result (state_in_form self.old (Rem stamp piece.now) ≡ Ok self.new) }
        ensures refused { IfErr result (IsRecordFault (state_in_form self.old (Rem stamp piece.now))) }
        ensures unchanged { OnErr result (self.new ≡ self.old) }
    {
        if self.is_of_other_mode(piece) {
            return Err(FoldFault::Refused(FoldRefusal::MixedModes));
        }
        if !self.goes_in_order(stamp, piece) {
            return Err(FoldFault::Refused(FoldRefusal::OutOfOrder));
        }
        self.take_out(piece)
    }

    fn take_add(&mut self, stamp: Stamp, piece: &Piece) -> Result<(), FoldFault>
        ensures ok { OnOk result (state_in_form self.old (Add stamp piece.now) ≡ Ok self.new) }
        ensures refused { IfErr result (IsRecordFault (state_in_form self.old (Add stamp piece.now))) }
        ensures unchanged { OnErr result (self.new ≡ self.old) }
    {
        if self.is_of_other_mode(piece) {
            return Err(FoldFault::Refused(FoldRefusal::MixedModes));
        }
        if !self.comes_in_order(stamp, piece) {
            return Err(FoldFault::Refused(FoldRefusal::OutOfOrder));
        }
        self.put_in(piece)
    }

    fn take_done(&mut self, stamp: Stamp, count: Option<u64>) -> Result<(), FoldFault>
        ensures ok { OnOk result (state_in_form self.old (Done stamp count) ≡ Ok self.new) }
        ensures refused { IfErr result (IsRecordFault (state_in_form self.old (Done stamp count))) }
        ensures unchanged { OnErr result (self.new ≡ self.old) }
    {
        if let Some(why) = self.closing_refusal(stamp, count) {
            return Err(FoldFault::Refused(why));
        }
        self.done = stamp;
        self.went = PieceList::new(self.alloc);
        self.came = PieceList::new(self.alloc);
        Ok(())
    }

    /// Why a line of the right form may not close this timestamp, if it may not.
    fn closing_refusal(&self, stamp: Stamp, count: Option<u64>) -> Option<FoldRefusal>
        ensures { MatchOption result
            (state_in_form self.now (Done stamp count) ≡ Ok (after_done self.now stamp))
            (λ why. state_in_form self.now (Done stamp count) ≡ Err why) }
    {
        if !self.is_open(stamp) {
            return Some(FoldRefusal::OutOfOrder);
        }
        let Some(said) = count else {
            return None;
        };
        let held = self.held();
        if said != held {
            return Some(FoldRefusal::WrongCount { said, held });
        }
        None
    }

    fn is_of_other_mode(&self, piece: &Piece) -> bool
        ensures { result ≡ is_of_other_mode self.now piece.now }
    {
        match self.mode {
            None => false,
            Some(mode) => mode != piece.mode(),
        }
    }

    fn is_open(&self, stamp: Stamp) -> bool
        ensures { result ≡ is_open self.now stamp }
    {
        self.done.0.checked_add(1) == Some(stamp.0)
    }

    fn goes_in_order(&self, stamp: Stamp, piece: &Piece) -> bool
        ensures { result ≡ goes_in_order self.now stamp piece.now }
    {
        self.is_open(stamp) && self.nothing_came() && is_above(&self.went, piece)
    }

    /// Whether no piece came at the open timestamp so far.
    fn nothing_came(&self) -> bool
        ensures { result ≡ is_none (last_new self.now) }
    {
        self.came.is_empty()
    }

    fn comes_in_order(&self, stamp: Stamp, piece: &Piece) -> bool
        ensures { result ≡ comes_in_order self.now stamp piece.now }
    {
        self.is_open(stamp) && is_above(&self.came, piece)
    }

    /// Takes a piece out, if it is there.
    fn take_out(&mut self, piece: &Piece) -> Result<(), FoldFault>
        requires first { self.old.came ≡ [] }
        requires above { IsTrue (is_above (last_rem self.old) piece.now) }
        ensures ok { OnOk result (IsTrue (has_piece self.old.held piece.now)
            × (self.new ≡ after_rem self.old piece.now)) }
        ensures refused { IfErr result (IsRecordFault (if has_piece self.old.held piece.now
            then Ok (after_rem self.old piece.now) else Err RemovesAbsent)) }
        ensures unchanged { OnErr result (self.new ≡ self.old) }
    {
        if self.went.push(*piece).is_err() {
            return Err(if self.pieces.contains(piece) {
                FoldFault::NoMemory
            } else {
                FoldFault::Refused(FoldRefusal::RemovesAbsent)
            });
        }
        if !self.pieces.remove(piece) {
            self.went.pop();
            return Err(FoldFault::Refused(FoldRefusal::RemovesAbsent));
        }
        self.mode = Some(piece.mode());
        Ok(())
    }

    /// Puts a piece in, if it isn't there.
    fn put_in(&mut self, piece: &Piece) -> Result<(), FoldFault>
        requires above { IsTrue (is_above (last_new self.old) piece.now) }
        ensures ok { OnOk result ((has_piece self.old.held piece.now ≡ false)
            × (self.new ≡ after_new self.old piece.now)) }
        ensures refused { IfErr result (IsRecordFault (if has_piece self.old.held piece.now
            then Err AddsPresent else Ok (after_new self.old piece.now))) }
        ensures unchanged { OnErr result (self.new ≡ self.old) }
    {
        if self.came.push(*piece).is_err() {
            return Err(if self.pieces.contains(piece) {
                FoldFault::Refused(FoldRefusal::AddsPresent)
            } else {
                FoldFault::NoMemory
            });
        }
        match self.pieces.insert(piece) {
            Ok(true) => {
                self.mode = Some(piece.mode());
                Ok(())
            }
            Ok(false) => {
                self.came.pop();
                Err(FoldFault::Refused(FoldRefusal::AddsPresent))
            }
            Err(_) => {
                self.came.pop();
                Err(FoldFault::NoMemory)
            }
        }
    }
}
