//! Laws of a cut as a list of rows and ends of parts, and of some of them between others.
ghost use Rattle.std.specs.Prelude.{◌≡◌, ◌≤◌, ℕ, List, [], ◌++◌, Bool};
ghost use Rattle.yq_row_table.specs.Grammar.{AreParts, unlimited};
ghost use Rattle.yq_row_table.specs.Items.{Asked, AreRowItems, Item, asked_of, items_of_cut, items_text, view_of_items};
ghost use Rattle.yq_row_table.{specs.Regions.{IsReadAlone, AreItemsIn, ended}, specs.Rows.{Cut, cut_text}, specs.View.rows_view};
ghost use Rattle.yq_rows.specs.RowSplices.{ExchangesItems, RowSplice};

/// The rows and ends of a cut are its text, and what the code lends of it; each is one after those
/// in front of it.
pub fn items_are()
    ensures text { (c : Cut) → items_text (items_of_cut c) [] ≡ cut_text c }
    ensures sliced { (c : Cut) → view_of_items (items_of_cut c) ≡ rows_view c }
    ensures grammar { (c : Cut) (started : Bool) → AreParts started c →
        AreRowItems (record { limit = unlimited; started = started }) (items_of_cut c) [] }
    ensures joined { (xs ys : List Item) (rest : List ℕ) →
        items_text (xs ++ ys) rest ≡ items_text xs (items_text ys rest) }
    ensures after { (xs ys : List Item) (asked : Asked) (rest : List ℕ) →
        AreRowItems asked (xs ++ ys) rest → AreRowItems (asked_of asked xs) ys rest }
{}

/// Rows and ends of a cut, read alone, are the same, whatever is in front of them and after;
/// so is the end of a part without the line of its marker.
pub fn region_alone()
    ensures alone { (xs back : List Item) → AreItemsIn xs back → IsReadAlone xs back }
    ensures unmarked { (xs back : List Item) (gap marker : List ℕ) →
        AreItemsIn (ended xs gap marker) back → IsReadAlone (ended xs gap []) [] }
{}

/// A splice of a cut, by its items: the rows that are replaced and the item after them are exchanged,
/// and all others stay.
pub fn items_spliced()
    ensures { (x : RowSplice) → x.start ≤ x.stop → ExchangesItems x }
{}
