//! The items and entries of nodes that a text lends, one after the other.
ghost use Rattle.std.specs.Prelude.{◌≡◌, ◌≢◌, ◌<◌, ◌≤◌, IfSome, List, None, Some, false, length, option_map, true, ℕ};
ghost use Rattle.yq_core.{specs.Borrowed.are_borrowed, specs.Entries.flow_part_at, specs.Nodes.begins_with};
ghost use Rattle.yq_core.{specs.Paths.{Nth, To, is_item, key_is}, specs.PlacedReading.{past_sep, split_key}, specs.Quoted.IsQuotedText};
ghost use Rattle.yq_core.{specs.Scalars.is_quoted as is_in_quotes, specs.Trees.unplaced_key};
ghost use Rattle.yq_inline.specs.Measured.{closing_byte, after_borrowed};

use crate::measuring::measure_node;
use crate::pieces::{read_key, read_sep};
use crate::scalar::{borrowed_content, style_of};
use yq_core::{BorrowedNode, Piece, first_is, inline_piece};

/// Items of a sequence, or entries of a mapping, in front of a text, with the `]` or `}` after them.
/// Each of their keys and scalars is a slice of the text.
#[derive(Clone, Copy)]
pub struct BorrowedParts<'t> {
    /// How long the whole text is, in bytes.
    pub total: usize,
    /// How many collections are nested in each at most.
    pub depth: usize,
    /// Whether they are entries.
    pub keyed: bool,
    /// The whole text from the first of them on.
    pub text: &'t str,
    pub ghost within: { length text.now ≤ total },
    pub ghost borrowed: { are_borrowed depth (closing_byte keyed) text.now ≡ true },
}

/// An item or entry whose keys and scalars are slices of the text, or the node at which a path begins.
#[derive(Clone, Copy)]
pub struct BorrowedEntry<'t> {
    /// The key's content and piece; an item has no key.
    pub key: Option<(&'t str, Piece)>,
    /// The node.
    pub node: BorrowedNode<'t>,
}

/// The bracket after entries, or after items.
pub(crate) fn closing_bracket(keyed: bool) -> u8
    ensures { result ≡ closing_byte keyed }
{
    if keyed { b'}' } else { b']' }
}

/// The key in front as it is written, and what follows its `:` and the gap after it.
fn leading_key(text: &str) -> (&str, &str)
    requires { split_key text.now ≢ None }
    ensures split { split_key text.now ≡ Some (result.0.now, result.1.now) }
    ensures quoted { is_in_quotes result.0.now ≡ true → IsQuotedText result.0.now }
    ensures shorter { length result.1.now < length text.now }
{
    match read_key(text, text, text) {
        Ok(found) => found,
        // There is a key.
        Err(_) => unreachable!(),
    }
}

/// What follows a node.
pub fn past_borrowed(node: BorrowedNode<'_>) -> &str
    ensures rest { after_borrowed node.entry ≡ Some result.now }
    ensures shorter { length result.now ≤ length node.entry.text.now }
{
    match measure_node(true, Some(0), node.text, node.depth, node.text) {
        Ok(found) => found.rest,
        // A node is in front.
        Err(_) => unreachable!(),
    }
}

/// What follows an item or entry, which is in front of the text, and the comma after it.
fn past_comma(closing: u8, text: &str) -> &str
    requires { past_sep closing text.now ≢ None }
    ensures rest { past_sep closing text.now ≡ Some result.now }
    ensures shorter { length result.now ≤ length text.now }
{
    match read_sep(closing, text, text, text) {
        Ok(rest) => rest,
        // It is followed by a comma, or by the closing bracket.
        Err(_) => unreachable!(),
    }
}

impl<'t> BorrowedParts<'t> {
    ghost use Rattle.yq_inline.specs.BorrowedParts.{IsFirstEntry, borrowed_entry, first_and_others, parts_view};

    /// The entry in front, by its key and its node.
    fn first_keyed(self) -> BorrowedEntry<'t>
        requires keyed { self.keyed ≡ true }
        requires some { begins_with 125 self.text.now ≡ false }
        ensures { IsFirstEntry self.entry result }
    {
        let (piece, text) = leading_key(self.text);
        let start = self.total - self.text.len();
        let place = inline_piece(style_of(piece.as_bytes()), start, start + piece.len());
        let node = BorrowedNode {
            total: self.total,
            depth: self.depth,
            text,
        };
        BorrowedEntry {
            key: Some((borrowed_content(piece), place)),
            node,
        }
    }

    /// The item or entry in front.
    fn first(self) -> BorrowedEntry<'t>
        requires { begins_with (closing_byte self.keyed) self.text.now ≡ false }
        ensures { IsFirstEntry self.entry result }
    {
        if self.keyed {
            return self.first_keyed();
        }
        let node = BorrowedNode {
            total: self.total,
            depth: self.depth,
            text: self.text,
        };
        BorrowedEntry { key: None, node }
    }

    /// The first item or entry, and the others after it.
    pub fn split_first(self) -> Option<(BorrowedEntry<'t>, BorrowedParts<'t>)>
        ensures view { parts_view self.entry ≡ first_and_others result }
        ensures fewer { IfSome result (λ x. length x.1.text.now < length self.entry.text.now) }
    {
        let closing = closing_bracket(self.keyed);
        if first_is(closing, self.text.as_bytes()) {
            return None;
        }
        let entry = self.first();
        let text = past_comma(closing, past_borrowed(entry.node));
        let others = BorrowedParts {
            total: self.total,
            depth: self.depth,
            keyed: self.keyed,
            text,
        };
        Some((entry, others))
    }

    /// The entry of a key.
    pub fn entry(self, key: &str) -> Option<BorrowedEntry<'t>>
        ensures { option_map borrowed_entry result ≡ flow_part_at (To key.now) (parts_view self.entry) }
    {
        let mut rest = self;
        'each: while let Some((entry, others)) = rest.split_first() {
            if entry.has_key(key) {
                return Some(entry);
            }
            rest = others;
        }
        None
    }

    /// The item of an index, counted from 0.
    pub fn item(self, index: usize) -> Option<BorrowedEntry<'t>>
        ensures { option_map borrowed_entry result ≡ flow_part_at (Nth index) (parts_view self.entry) }
    {
        let mut rest = self;
        let mut left = index;
        'each: while let Some((entry, others)) = rest.split_first() {
            if left == 0 && entry.is_item() {
                return Some(entry);
            }
            left = left.saturating_sub(1);
            rest = others;
        }
        None
    }
}

impl BorrowedEntry<'_> {
    ghost use Rattle.yq_inline.specs.BorrowedParts.{borrowed_entry};

    /// Whether it has this key.
    fn has_key(&self, key: &str) -> bool
        ensures { result ≡ key_is key.now (unplaced_key (borrowed_entry self.now).0) }
    {
        match self.key {
            Some((text, _)) => text == key,
            None => false,
        }
    }

    /// Whether it has no key.
    fn is_item(&self) -> bool
        ensures { result ≡ is_item (unplaced_key (borrowed_entry self.now).0) }
    {
        self.key.is_none()
    }
}
