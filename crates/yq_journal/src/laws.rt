//! Laws: what a journal's moves are for a history of whole texts.
ghost use Rattle.std.specs.Prelude.{◌≡◌, ◌≢◌, ◌≤◌, List, None, Some, length, ℕ};
ghost use Rattle.yq_journal.specs.Good.{AtRest, Describes, Rests, after_move, squash_refusal, step_fault, AllAtRest, AllMoves};
ghost use Rattle.yq_journal.{specs.History.{History, after_squash}, specs.Record.{Record, done}};
ghost use Rattle.yq_journal.specs.Refusals.{squash_fault, way_fault, fault_at_rest};
ghost use Rattle.yq_journal.specs.State.{State, journal_after, with_move, settled_beside, squashed};
ghost use Rattle.yq_journal.specs.declared.moves.Move.TheVariants.{Edit, Redo, Undo};

/// A move that applies leads from a journal and its history to those after it, even if it leaves the
/// text equal.
pub fn moves_go_on()
    ensures { AllMoves (λ s h t u m. AtRest (journal_after s m) u (after_move h m u)) }
{}

/// While a move that changes the text is open, the journal and the old text describe the history before
/// the move, and the journal and the new text the one after it.
#[tactic(auto, using(crate::proofs::GoodLaws::open_before, crate::proofs::GoodLaws::open_after))]
pub fn open_moves_describe()
    ensures before { AllMoves (λ s h t u m. u ≢ t → Describes (with_move s m t) t h) }
    ensures after { AllMoves (λ s h t u m. u ≢ t → Describes (with_move s m t) u (after_move h m u)) }
{}

/// A journal that with a text describes a history can be settled with that text, and then has no open
/// move and the same history.
#[tactic(auto, using(crate::proofs::GoodLaws::settles))]
pub fn settling_rests()
    ensures { (s : State) (t : List ℕ) (h : History) → Describes s t h →
        Rests (settled_beside s t) t h }
{}

/// A move of a journal at rest is refused exactly where its history refuses
/// it: an undo or a redo always applies where there is one.
#[tactic(auto, using(crate::proofs::GoodLaws::undo_fault, crate::proofs::GoodLaws::redo_fault, crate::proofs::GoodLaws::edit_fault))]
pub fn faults_are_of_history()
    ensures undo { AllAtRest (λ s t h. fault_at_rest s Undo t ≡ step_fault h Undo) }
    ensures redo { AllAtRest (λ s t h. fault_at_rest s Redo t ≡ step_fault h Redo) }
    ensures edit { (s : State) (t u : List ℕ) (h : History) (r : Record) → AtRest s t h →
        done r t ≡ Some u → way_fault s.records s.at (Edit r) t ≡ step_fault h (Edit r) }
    ensures squash { (s : State) (t : List ℕ) (h : History) (n : ℕ) → s.pending ≡ None →
        AtRest s t h → squash_fault s n ≡ squash_refusal h n }
{}

/// Joining the last done records of a journal is a squash of its history; of
/// one record, it leaves the history.
#[tactic(auto, using(crate::proofs::SquashLaws::squash_one))]
pub fn squashes_go_on()
    ensures one { (h : History) → 1 ≤ h.at → h.at ≤ length h.later → after_squash h 1 ≡ h }
    ensures rests { (s : State) (t : List ℕ) (h : History) (n : ℕ) → AtRest s t h → 1 ≤ n →
        n ≤ h.at → AtRest (squashed s n) t (after_squash h n) }
{}
