//! Laws on reading, for the crates above.
ghost use Rattle.std.specs.Prelude.{◌≡◌, ◌↔◌, ℕ, List, Some};
ghost use Rattle.yq_documents.{specs.Documents.ReadsDocuments, specs.Reading.{documents, read_at}};
ghost use Rattle.yq_row_table.specs.Rows.{Cut};

/// Reading from left to right gives a cut exactly where the grammar reads the bytes as the documents of
/// that cut, by that cut.
pub fn exact_reading()
    ensures { (bytes : List ℕ) (c : Cut) →
        (read_at bytes ≡ Some c) ↔
        ((reads : ReadsDocuments bytes (documents c)) × (reads.parts ≡ c)) }
{}
