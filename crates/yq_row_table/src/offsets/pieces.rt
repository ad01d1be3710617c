//! Pieces of a row by its lengths, without the others.
ghost use Rattle.std.{specs.Prelude.{◌≡◌, ◌++◌, drop, not, take}, specs.Str.IsCharBoundary};
ghost use Rattle.yq_core.specs.Text.{is_empty};
ghost use Rattle.yq_row_table.specs.View.{Slices};
ghost use Rattle.yq_row_table.specs.Offsets as spec;

use crate::offsets::Offsets;

/// So many bytes of a text after so many others.
#[inline]
fn piece(text: &str, before: usize, len: usize) -> &str
    requires before { IsCharBoundary text.now before }
    requires after { IsCharBoundary (drop before text.now) len }
    ensures { result.now ≡ take len (drop before text.now) }
{
    text.split_at(before).1.split_at(len).0
}

impl Offsets {
    /// The gap of the row in front of a text.
    #[inline]
    #[tactic(auto, unfolding(crate::specs::Offsets::pieces_of))]
    pub(crate) fn gap<'t>(&self, text: &'t str) -> &'t str
        requires { spec.AreCuts text.now (spec.lengths self.now) }
        ensures { result.now ≡ (spec.pieces_of text.now self.now).gap }
    {
        text.split_at(self.gap as usize).0
    }

    /// How many bytes of the row come before its key.
    #[inline]
    fn before_key(&self) -> usize
        ensures { result ≡ spec.before_key self.now }
    {
        self.gap as usize + self.column as usize + self.dashes as usize
    }

    /// How many bytes of the row come before its anchor.
    #[inline]
    fn before_anchor(&self) -> usize
        ensures { result ≡ spec.before_anchor self.now }
    {
        self.before_key() + self.key as usize + self.colon as usize + self.space as usize
    }

    /// How many bytes of the row come before its head.
    #[inline]
    pub(crate) fn before_head(&self) -> usize
        ensures { result ≡ spec.before_head self.now }
    {
        self.before_anchor() + self.anchor as usize + self.apart as usize
    }

    /// The dashes of the row in front of a text, or nothing.
    #[inline]
    pub(crate) fn dashes<'t>(&self, text: &'t str) -> &'t str
        requires { spec.AreCuts text.now (spec.lengths self.now) }
        ensures { result.now ≡ (spec.pieces_of text.now self.now).dashes }
    {
        piece(
            text,
            self.gap as usize + self.column as usize,
            self.dashes as usize,
        )
    }

    /// The key of the row in front of a text, or nothing.
    #[inline]
    pub(crate) fn key<'t>(&self, text: &'t str) -> &'t str
        requires { spec.AreCuts text.now (spec.lengths self.now) }
        ensures { result.now ≡ (spec.pieces_of text.now self.now).key }
    {
        piece(text, self.before_key(), self.key as usize)
    }

    /// The anchor of the row in front of a text with its `&`, or nothing.
    #[inline]
    pub(crate) fn anchor<'t>(&self, text: &'t str) -> &'t str
        requires { spec.AreCuts text.now (spec.lengths self.now) }
        ensures { result.now ≡ (spec.pieces_of text.now self.now).anchor }
    {
        piece(text, self.before_anchor(), self.anchor as usize)
    }

    /// The head of the row in front of a text, or nothing.
    #[inline]
    pub(crate) fn head<'t>(&self, text: &'t str) -> &'t str
        requires { spec.AreCuts text.now (spec.lengths self.now) }
        ensures { result.now ≡ (spec.pieces_of text.now self.now).head }
    {
        piece(text, self.before_head(), self.head as usize)
    }

    /// The tail of the row in front of a text.
    #[inline]
    pub(crate) fn tail<'t>(&self, text: &'t str) -> &'t str
        requires { spec.AreCuts text.now (spec.lengths self.now) }
        ensures { result.now ≡ (spec.pieces_of text.now self.now).tail }
    {
        piece(
            text,
            self.before_head() + self.head as usize,
            self.tail as usize,
        )
    }

    /// The row in front of a text, from its head on.
    #[inline]
    pub(crate) fn from_head<'t>(&self, text: &'t str) -> &'t str
        requires { spec.AreCuts text.now (spec.lengths self.now) }
        ensures { (s : Slices) → s ≡ spec.pieces_of text.now self.now → result.now ≡
            s.head ++ (s.tail ++ s.raw) }
    {
        piece(
            text,
            self.before_head(),
            self.head as usize + self.tail as usize + self.raw as usize,
        )
    }

    /// Whether the row has dashes.
    #[inline]
    pub(crate) fn has_dashes(&self) -> bool
        ensures { (s : Slices) → self.now ≡ spec.offsets_of self.now.start s → result ≡
            not (is_empty s.dashes) }
    {
        self.dashes > 0
    }

    /// Whether the row has a colon after its key.
    #[inline]
    pub(crate) fn has_colon(&self) -> bool
        ensures { (s : Slices) → self.now ≡ spec.offsets_of self.now.start s → result ≡
            not (is_empty s.colon) }
    {
        self.colon > 0
    }

    /// Whether the row has an anchor.
    #[inline]
    pub(crate) fn has_anchor(&self) -> bool
        ensures { (s : Slices) → self.now ≡ spec.offsets_of self.now.start s → result ≡
            not (is_empty s.anchor) }
    {
        self.anchor > 0
    }

    /// Whether the row has a head.
    #[inline]
    pub(crate) fn has_head(&self) -> bool
        ensures { (s : Slices) → self.now ≡ spec.offsets_of self.now.start s → result ≡
            not (is_empty s.head) }
    {
        self.head > 0
    }
}
