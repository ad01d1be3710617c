//! Laws of expressions.
ghost use Rattle.std.specs.Prelude.{◌≡◌, ℕ, List, [], ◌∷◌};
ghost use Rattle.yq_core.{specs.PathOrder.Apart, specs.Paths.{Step as TreeStep, changed_at, node_at}, specs.Shapes.IsTree, specs.Tree.Node};
ghost use Rattle.yq_documents.specs.Documents.{Document};
ghost use Rattle.yq_semantics.{specs.After.{op_document, after_op, all_after}, specs.Changes.Room, specs.Fits.{Fits, AllFit}};
ghost use Rattle.yq_semantics.{specs.Judgement.{gives, refuses}, specs.Meaning.{AreReady, meaning}, specs.Operations.Operation};
ghost use Rattle.yq_semantics.{specs.Pipes.places, specs.Places.FoundPlace, specs.PlacesApart.{AreApart, AreIn}};
ghost use Rattle.yq_semantics.{specs.Program.{Stage as PipeStage, Update as Change, UpdatesHold}, specs.Rooms.RoomsAreReady};
ghost use Rattle.yq_semantics.{specs.RoomsKept.{AlikeFor, MayFollow, LeavesRoomFor}, specs.declared.refusal.Refusal.Refusal as Why};
ghost use Rattle.yq_semantics.specs.Plans as plans;

/// The documents of a text that reads are ready for updates, with the room that the text has.
#[tactic(auto, using(crate::proofs::RoomLaws::rooms_are_ready))]
pub fn rooms_ready()
    ensures { RoomsAreReady }
{}

/// No two of the places to which a pipe leads in a tree are the same, and none
/// lies in another; the node of each is the one at its path.
pub fn places_apart()
    ensures { (doc : ℕ) (pipe : List PipeStage) (root : Node) (ps : List FoundPlace) → IsTree root →
        places doc pipe root ≡ gives ps → AreApart ps × AreIn root ps }
{}

/// A change of one node leaves the node at a path that is apart as it is, and
/// two such changes may be made in either order.
#[tactic(auto, using(crate::proofs::updates::Apart::node_apart, crate::proofs::updates::Apart::changes_commute))]
pub fn changes_apart()
    ensures kept { (p q : List TreeStep) (g : Node → Node) (n : Node) → IsTree n → Apart p q →
        node_at p (changed_at q g n) ≡ node_at p n }
    ensures commute { (p q : List TreeStep) (f g : Node → Node) (n : Node) → IsTree n → Apart p q →
        changed_at p f (changed_at q g n) ≡ changed_at q g (changed_at p f n) }
{}

/// The operations of a plan, one after the other, make of documents what the
/// update means.
#[tactic(auto, using(crate::proofs::updates::PlanMeans::plan_means))]
pub fn plan_means()
    ensures { (u : Change) (rooms : ℕ → Room) (docs : List Document) (ops : List Operation) →
        AreReady rooms 0 docs → plans.plan u rooms docs ≡ gives ops → meaning u rooms docs ≡
        gives (all_after rooms ops docs) }
{}

/// A plan is refused as the update is, and only then.
#[tactic(auto, using(crate::proofs::updates::PlanMeans::plan_refused, crate::proofs::updates::PlanMeans::meaning_refused))]
pub fn plan_refused()
    ensures refused { (u : Change) (rooms : ℕ → Room) (docs : List Document) (why : Why) →
        plans.plan u rooms docs ≡ refuses why → meaning u rooms docs ≡ refuses why }
    ensures only { (u : Change) (rooms : ℕ → Room) (docs : List Document) (why : Why) →
        meaning u rooms docs ≡ refuses why → plans.plan u rooms docs ≡ refuses why }
{}

/// Each operation of a plan fits at its turn, where each literal is a value, as
/// those of a parsed expression are.
#[tactic(auto, using(crate::proofs::updates::PlanFits::plan_fits))]
pub fn plan_fits()
    ensures { (u : Change) (rooms : ℕ → Room) (docs : List Document) (ops : List Operation) →
        AreReady rooms 0 docs → UpdatesHold (u ∷ []) → plans.plan u rooms docs ≡ gives ops →
        AllFit rooms ops docs }
{}

/// The operations of a plan may be carried out one after the other: each fits at
/// its turn, and the room that they ask for lasts.
pub fn plan_rooms()
    ensures { (u : Change) (rooms : ℕ → Room) (docs : List Document) (ops : List Operation) →
        AreReady rooms 0 docs → UpdatesHold (u ∷ []) → plans.plan u rooms docs ≡ gives ops →
        MayFollow rooms ops docs }
{}

/// By rooms that are alike for an operation it fits the same documents, and
/// makes the same of them.
#[tactic(auto, using(crate::proofs::updates::AlikeRooms::fits_alike, crate::proofs::updates::AlikeRooms::after_alike))]
pub fn rooms_alike()
    ensures fits { (old new : ℕ → Room) (op : Operation) (docs : List Document) →
        AlikeFor op (old (op_document op)) (new (op_document op)) → Fits old op docs →
        Fits new op docs }
    ensures after { (old new : ℕ → Room) (op : Operation) (docs : List Document) →
        AlikeFor op (old (op_document op)) (new (op_document op)) → after_op new op docs ≡
        after_op old op docs }
{}

/// Once the first of operations is carried out, the others may follow by the
/// room that it leaves, and make the same of documents.
pub fn rest_follows()
    ensures follow { (op : Operation) (ops : List Operation) (old new : ℕ → Room)
        (docs : List Document) → LeavesRoomFor op ops old new docs →
        MayFollow new ops (after_op old op docs) }
    ensures after { (op : Operation) (ops : List Operation) (old new : ℕ → Room)
        (docs : List Document) → LeavesRoomFor op ops old new docs →
        all_after new ops (after_op old op docs) ≡ all_after old (op ∷ ops) docs }
{}
