//! The format of a plain CSV.

/// The format of a plain CSV, and how to read it.
#[derive(Clone, Copy)]
pub struct Layout<'a> {
    /// The byte between two fields, as `,`, `;` or a tab.
    pub delimiter: u8,
    /// Whether the first record names the columns. If not, they are those of the schema, in its order.
    pub has_header: bool,
    /// The field that is read as null. `\N` always is too. Where it is empty, a table of one column has no blank line: it would be a null,
    /// and no record is read of it.
    pub null: &'a [u8],
    /// Whether columns that the schema doesn't have are ignored.
    pub skips_columns: bool,
}
