//! A row of a text.
ghost use Rattle.std.specs.Prelude.{◌≡◌};
ghost use Rattle.yq_row_table.specs.View.{row_view};

/// A row, as slices of its text.
#[derive(Clone, Copy)]
pub struct Row<'t> {
    pub gap: &'t str,
    /// Below the limit of a text's length, which a `u32` holds.
    pub column: u32,
    pub dashes: &'t str,
    pub key: &'t str,
    pub colon: &'t str,
    pub space: &'t str,
    pub anchor: &'t str,
    pub apart: &'t str,
    pub head: &'t str,
    pub tail: &'t str,
    pub raw: &'t str,
    pub parent: i64,
}

impl<'t> Row<'t> {
    /// The blank lines and comment lines before the row.
    pub fn gap(&self) -> &'t str
        ensures { result.now ≡ (row_view self.now).gap }
    {
        self.gap
    }

    /// How many spaces come before the row's first dash, its key or its head.
    pub fn column(&self) -> usize
        ensures { result ≡ (row_view self.now).column }
    {
        self.column as usize
    }

    /// The dashes with the spaces between them and before a key.
    pub fn dashes(&self) -> &'t str
        ensures { result.now ≡ (row_view self.now).dashes }
    {
        self.dashes
    }

    /// The key with its quotes, or nothing.
    pub fn key(&self) -> &'t str
        ensures { result.now ≡ (row_view self.now).key }
    {
        self.key
    }

    /// The white space after the key, and its `:`.
    pub fn colon(&self) -> &'t str
        ensures { result.now ≡ (row_view self.now).colon }
    {
        self.colon
    }

    /// The white space before the anchor or the head.
    pub fn space(&self) -> &'t str
        ensures { result.now ≡ (row_view self.now).space }
    {
        self.space
    }

    /// The anchor with its `&`, or nothing.
    pub fn anchor(&self) -> &'t str
        ensures { result.now ≡ (row_view self.now).anchor }
    {
        self.anchor
    }

    /// The white space between the anchor and the head.
    pub fn apart(&self) -> &'t str
        ensures { result.now ≡ (row_view self.now).apart }
    {
        self.apart
    }

    /// An alias, a plain or quoted scalar, a flow collection, a block scalar's header, or nothing.
    pub fn head(&self) -> &'t str
        ensures { result.now ≡ (row_view self.now).head }
    {
        self.head
    }

    /// The white space, the comment and the break that end the line.
    pub fn tail(&self) -> &'t str
        ensures { result.now ≡ (row_view self.now).tail }
    {
        self.tail
    }

    /// The lines of a block scalar.
    pub fn raw(&self) -> &'t str
        ensures { result.now ≡ (row_view self.now).raw }
    {
        self.raw
    }

    /// The indentation, in columns, that further lines of the head must pass: the column of the key,
    /// else that of the last dash, else one less than the head's, so -1 for a root in column 0.
    pub fn parent_indent(&self) -> i64
        ensures { result ≡ (row_view self.now).parent }
    {
        self.parent
    }
}
