//! Pieces of rows by their number, without making the rows.
ghost use Rattle.std.specs.Prelude.{◌≡◌, ◌<◌, ◌++◌, Some, length, not, slice_get};
ghost use Rattle.yq_core.specs.Text.{is_empty};
ghost use Rattle.yq_row_table.{specs.RowStarts.front_length, specs.View.Slices};

use crate::rows::Rows;

impl<'t> Rows<'t> {
    /// The blank lines and comment lines before row `i`, counted from 0.
    #[inline]
    pub fn gap(&self, i: usize) -> &'t str
        requires { i < length self.now.rows }
        ensures { (s : Slices) → slice_get self.now.rows i ≡ Some s → result.now ≡ s.gap }
    {
        let (row, text) = self.found(i);
        row.gap(text)
    }

    /// The dashes of row `i` with the spaces between them and before a key.
    #[inline]
    pub fn dashes(&self, i: usize) -> &'t str
        requires { i < length self.now.rows }
        ensures { (s : Slices) → slice_get self.now.rows i ≡ Some s → result.now ≡ s.dashes }
    {
        let (row, text) = self.found(i);
        row.dashes(text)
    }

    /// The key of row `i` with its quotes, or nothing.
    #[inline]
    pub fn key(&self, i: usize) -> &'t str
        requires { i < length self.now.rows }
        ensures { (s : Slices) → slice_get self.now.rows i ≡ Some s → result.now ≡ s.key }
    {
        let (row, text) = self.found(i);
        row.key(text)
    }

    /// The anchor of row `i` with its `&`, or nothing.
    #[inline]
    pub fn anchor(&self, i: usize) -> &'t str
        requires { i < length self.now.rows }
        ensures { (s : Slices) → slice_get self.now.rows i ≡ Some s → result.now ≡ s.anchor }
    {
        let (row, text) = self.found(i);
        row.anchor(text)
    }

    /// An alias, a plain or quoted scalar, a flow collection, a block scalar's header, or nothing, in
    /// row `i`.
    #[inline]
    pub fn head(&self, i: usize) -> &'t str
        requires { i < length self.now.rows }
        ensures { (s : Slices) → slice_get self.now.rows i ≡ Some s → result.now ≡ s.head }
    {
        let (row, text) = self.found(i);
        row.head(text)
    }

    /// The white space, the comment and the break that end the line of row `i`.
    #[inline]
    pub fn tail(&self, i: usize) -> &'t str
        requires { i < length self.now.rows }
        ensures { (s : Slices) → slice_get self.now.rows i ≡ Some s → result.now ≡ s.tail }
    {
        let (row, text) = self.found(i);
        row.tail(text)
    }

    /// How many bytes of row `i` come before its head.
    #[inline]
    pub fn before_head(&self, i: usize) -> usize
        requires { i < length self.now.rows }
        ensures { (s : Slices) → slice_get self.now.rows i ≡ Some s → result ≡ front_length s }
    {
        self.places.kept(i).before_head()
    }

    /// Row `i` from its head on: the head, what ends its line, and the lines of a block scalar.
    #[inline]
    pub fn from_head(&self, i: usize) -> &'t str
        requires { i < length self.now.rows }
        ensures { (s : Slices) → slice_get self.now.rows i ≡ Some s → result.now ≡
            s.head ++ (s.tail ++ s.raw) }
    {
        let (row, text) = self.found(i);
        row.from_head(text)
    }

    /// The indentation, in columns, that further lines of the head of row `i` must pass, as `Row` has it.
    #[inline]
    #[tactic(auto, unfolding(crate::specs::Offsets::pieces_of))]
    pub fn parent_indent(&self, i: usize) -> i64
        requires { i < length self.now.rows }
        ensures { (s : Slices) → slice_get self.now.rows i ≡ Some s → result ≡ s.parent }
    {
        let (row, _) = self.found(i);
        row.parent()
    }

    /// Whether row `i` has dashes.
    #[inline]
    pub fn has_dashes(&self, i: usize) -> bool
        requires { i < length self.now.rows }
        ensures { (s : Slices) → slice_get self.now.rows i ≡ Some s → result ≡
            not (is_empty s.dashes) }
    {
        self.places.kept(i).has_dashes()
    }

    /// Whether row `i` has a colon after its key.
    #[inline]
    pub fn has_colon(&self, i: usize) -> bool
        requires { i < length self.now.rows }
        ensures { (s : Slices) → slice_get self.now.rows i ≡ Some s → result ≡
            not (is_empty s.colon) }
    {
        self.places.kept(i).has_colon()
    }

    /// Whether row `i` has an anchor.
    #[inline]
    pub fn has_anchor(&self, i: usize) -> bool
        requires { i < length self.now.rows }
        ensures { (s : Slices) → slice_get self.now.rows i ≡ Some s → result ≡
            not (is_empty s.anchor) }
    {
        self.places.kept(i).has_anchor()
    }

    /// Whether row `i` has a head.
    #[inline]
    pub fn has_head(&self, i: usize) -> bool
        requires { i < length self.now.rows }
        ensures { (s : Slices) → slice_get self.now.rows i ≡ Some s → result ≡
            not (is_empty s.head) }
    {
        self.places.kept(i).has_head()
    }
}
