//! Laws of what is written in block style, for the crates above.
ghost use Rattle.yq_edit_rules.specs.BlockLaws as laws;
ghost use Rattle.yq_edit_rules.specs.BlockPlaces as places;

/// The inline node as which a value is written means it; the rows in which a collection is
/// written have its text, are rows, and have lines that mean it.
pub fn block_written()
    ensures inline { laws.InlineWritten }
    ensures text { laws.TextWritten }
    ensures rows { laws.RowsWritten }
    ensures follow { laws.RowsFollow }
    ensures lines { laws.LinesWritten }
    ensures deeper { laws.LinesDeeper }
    ensures fit { laws.RowsFitDocuments }
    ensures near { laws.KeysNear }
    ensures characters { laws.CharactersWritten }
{}

/// A collection may be written on the lines after a key or dash, or on the line of a dash.
pub fn block_placed()
    ensures under { places.UnderWritten }
    ensures after { places.AfterWritten }
    ensures lines { places.AfterLines }
    ensures replaced { places.RowsReplaced }
{}

/// A collection that is written alone is read as one document of it.
pub fn block_read()
    ensures { laws.ValueRead }
{}
