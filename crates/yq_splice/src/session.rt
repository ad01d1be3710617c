//! Sessions: operations applied to one text, whose rows are kept.
ghost use Rattle.std.specs.Prelude.{◌≡◌, ◌<◌, IfErr, IfOk, OnErr, string_bytes};
ghost use Rattle.yq_documents.specs.Reading.{cut_of, documents_of, read_at};
ghost use Rattle.yq_semantics.{specs.Operations.operation_of, specs.Program.update_count, specs.View.program_of};
ghost use Rattle.yq_row_table.specs.Meter.{count_after, line_count};
ghost use Rattle.yq_core.specs.Answers.{Gives};
ghost use Rattle.yq_text.{specs.Halves.whole, specs.TextGapBuffer.buffer_text};
ghost use Rattle.yq_edit_rules.specs.Operands.{HasOperand};
ghost use Rattle.yq_edit_laws.{specs.Answers.{Edits, EditFails}, specs.Carried.carried, specs.Edit.{edit_after, gives}};
ghost use Rattle.yq_edit_laws.specs.Theorems.{HasReading, IsApplied, IsFitting, OpRefused};
ghost use Rattle.yq_expr.specs.FixedPaths.{IfAny, IsSole, PlansAlone};
ghost use Rattle.yq_splice.specs.Session.{OpFails, GivesNew, HasPlaces, IsChangeBy, Knows, KnowsAfter, NotOpened, Scans, ScansNew};

use crate::borrowed::{carry_in, change_in, plan_in};
use crate::carrying::edited_after;
use std::alloc::{AllocError, Global};
use std::marker::Model;
use std::mem;
use yq_core::ReadError;
use yq_edit_laws::operand_holds;
use yq_expr::Program;
use yq_lookup::Knowledge;
use yq_row_table::Places;
use yq_rows::{Kept, Meter, count_lines, follow};
use yq_semantics::{ExprError, Op};
use yq_text::{ChangedMiddle, Edited, Halves, Splice, TextGapBuffer};
use yq_tree::read;

/// A text that reads, with the places of its rows, for operations that are applied one after the other.
/// Text and places are kept in two halves, split where the text was changed last. So an operation moves
/// only what is between its place and the last one's, and reads only the rows that it touches. The
/// search for its place goes on from what is known of the way to the last one.
#[derive(Drop)]
pub struct Session {
    alloc: Global,
    text: TextGapBuffer,
    places: Places,
    known: Knowledge,
    meter: Meter,
}

impl Model for Session {
    ghost use Rattle.yq_text.specs.TextGapBuffer.{buffer_text};
    ghost use Rattle.yq_splice.specs.Session.{SessionState, HasPlaces, Knows};

    ghost Value = { SessionState };

    ghost view = { λ s. record { text = buffer_text s.text; scanned = s.meter } };

    ghost invariant = { λ s. HasPlaces (buffer_text s.text) s.places ×
        Knows (buffer_text s.text) s.known };
}

/// What an operation changes in a text with the places of its rows, of which something is known. From then on that is
/// known which is known after it, from which the next one may go on.
fn change(
    alloc: Global,
    text: &mut TextGapBuffer,
    places: &mut Places,
    known: &mut Knowledge,
    op: &Op,
) -> Result<ChangedMiddle, ExprError>
    requires places { HasPlaces (buffer_text text.old) places.old }
    requires known { Knows (buffer_text text.old) known.old }
    ensures same { buffer_text text.new ≡ buffer_text text.old }
    ensures places { HasPlaces (buffer_text text.old) places.new }
    ensures ok { IfOk result (IsChangeBy (operation_of op.now) (buffer_text text.old)) }
    ensures known { IfOk result (KnowsAfter (buffer_text text.old) known.new) }
    ensures kept { OnErr result (Knows (buffer_text text.old) known.new) }
    ensures err { IfErr result (OpFails (operation_of op.now) (buffer_text text.old)) }
{
    let before = mem::replace(places, Places::new(alloc));
    text.move_split(before.split);
    let halves = text.halves();
    let rows = before.rows(halves);
    let changed = change_in(alloc, halves, &rows, known, op);
    *places = rows.into_places();
    changed
}

impl Session {
    /// Opens a session on a text, and counts its lines.
    ///
    /// # Errors
    ///
    /// The text has no reading, or memory ran out.
    pub fn open(alloc: Global, text: &str) -> Result<Session, ReadError>
        ensures exact { Gives (λ s. cut_of s.text) result (read_at text.now) }
        ensures text { IfOk result (λ s. (s.text ≡ text.now) × HasReading text.now) }
        ensures scanned { IfOk result (λ s. s.scanned ≡ count_after (line_count text.now) 0) }
        ensures refused { IfErr result (λ e. NotOpened e text.now) }
    {
        let documents = read(alloc, text.as_bytes())?;
        let places = documents.into_rows().into_places();
        let mut meter = Meter::new();
        count_lines(text, &mut meter);
        let text = TextGapBuffer::of(String::from_str(alloc, text)?);
        Ok(Session {
            alloc,
            text,
            places,
            known: Knowledge::none(alloc),
            meter,
        })
    }

    /// Begins with a text whose rows are there, of which no line was counted.
    pub(crate) fn of(alloc: Global, text: String, places: Places) -> Session
        requires { HasPlaces (string_bytes text) places }
        ensures { result.text ≡ string_bytes text }
    {
        Session {
            alloc,
            text: TextGapBuffer::of(text),
            places,
            known: Knowledge::none(alloc),
            meter: Meter::new(),
        }
    }

    /// The operation that carries out update `nth` of a program on the text, if rows plan it (see
    /// `yq_expr::plan_by_rows`). What is on the way there is known then.
    pub(crate) fn plan(&mut self, program: &Program, nth: usize) -> Result<Option<Op>, AllocError>
        requires { IsSole (documents_of self.old.text) }
        ensures same { self.new ≡ self.old }
        ensures within { IfAny result (λ _. nth < update_count (program_of program.now)) }
        ensures plans { IfAny result (PlansAlone nth program.now self.old.text) }
    {
        let places = mem::replace(&mut self.places, Places::new(self.alloc));
        let known = mem::replace(&mut self.known, Knowledge::none(self.alloc));
        self.text.move_split(places.split);
        let text = self.text.halves();
        let rows = places.rows(text);
        let (planned, known) = plan_in(self.alloc, text, &rows, known, program, nth);
        self.places = rows.into_places();
        self.known = known;
        planned
    }

    /// Applies an operation that fits the documents of the text, and gives its splices. Each byte that
    /// it doesn't name stays. The rows and ends of parts that it wrote are read, and their lines are
    /// counted.
    ///
    /// # Errors
    ///
    /// Refused exactly where the new text would have more than 16,777,216 bytes
    /// ([`Refusal::TooLarge`](yq_semantics::Refusal::TooLarge)), or because memory ran out. The session
    /// then stays as it was.
    pub fn apply(&mut self, op: &Op) -> Result<Vec<Splice>, ExprError>
        requires { IsFitting (operation_of op.now) self.old.text }
        // What the operation gives by itself.
        ensures ok { IfOk result (λ cs. carried (operation_of op.now) self.old.text ≡
            gives self.new.text cs.items) }
        ensures err { IfErr result (λ e. EditFails e (carried (operation_of op.now) self.old.text)) }
        ensures done { IfOk result (λ cs.
            IsApplied (operation_of op.now) self.old.text self.new.text cs.items) }
        ensures refused { IfErr result (λ e. OpRefused e (operation_of op.now) self.old.text) }
        // The lines of the rows and ends of parts that it wrote are counted, and no others; none, where no
        // splice comes.
        ensures scanned { IfOk result (λ cs. Scans (operation_of op.now) self.old.text self.new.text
            cs.items self.old.scanned self.new.scanned) }
        // What is refused leaves the session as it is.
        ensures kept { OnErr result (self.new ≡ self.old) }
    {
        operand_holds(op);
        self.apply_valid(op)
    }

    /// The same of an operation whose operand is known to be valid.
    pub(crate) fn apply_valid(&mut self, op: &Op) -> Result<Vec<Splice>, ExprError>
        requires fits { IsFitting (operation_of op.now) self.old.text }
        requires operand { HasOperand (operation_of op.now) }
        ensures ok { IfOk result (GivesNew (operation_of op.now) self.old self.new) }
        ensures err { IfErr result (λ e. EditFails e (carried (operation_of op.now) self.old.text)) }
        ensures scanned { IfOk result (ScansNew (operation_of op.now) self.old self.new) }
        ensures kept { OnErr result (self.new ≡ self.old) }
    {
        let changed = change(
            self.alloc,
            &mut self.text,
            &mut self.places,
            &mut self.known,
            op,
        )?;
        let ChangedMiddle {
            front,
            back,
            new,
            splices,
        } = changed;
        if splices.is_empty() {
            return Ok(splices);
        }
        let kept = Kept { front, back };
        let mut meter = self.meter;
        follow(
            self.alloc,
            &mut self.text,
            &mut self.places,
            kept,
            &new,
            &mut meter,
        )?;
        self.meter = meter;
        Ok(splices)
    }

    /// The text as it is now, in the two halves in which it is kept. To give it as one `&str`, one half
    /// would have to be moved, and moved back for the next operation.
    pub fn text(&self) -> Halves<'_>
        ensures text { whole result ≡ self.now.text }
        ensures read { HasReading self.now.text }
    {
        self.text.halves()
    }

    /// How many lines were counted so far, up to the greatest `u64`.
    pub fn scanned(&self) -> u64
        ensures { result ≡ self.now.scanned }
    {
        self.meter.count()
    }

    /// Ends the session and gives its text.
    pub fn close(self) -> String
        ensures { string_bytes result ≡ self.text }
    {
        self.text.into_string()
    }

    /// Ends the session by an operation, whose splices come after others. The rows need not follow it.
    pub(crate) fn close_by(self, op: &Op, splices: Vec<Splice>) -> Result<Edited, ExprError>
        ensures { Edits result (edit_after splices.items
            (carried (operation_of op.now) self.text)) }
    {
        let Session {
            alloc,
            mut text,
            places,
            known,
            ..
        } = self;
        text.move_split(places.split);
        let halves = text.halves();
        let rows = places.rows(halves);
        let edited = carry_in(alloc, halves, &rows, known, op)?;
        Ok(edited_after(splices, edited)?)
    }
}
