//! Bounds of keys and columns.
ghost use Rattle.std.specs.Prelude.{◌≡◌, ◌≤◌, ◌==◌};
ghost use Rattle.yq_row_table.specs.Rows as rows;

/// One column less, from -1 on.
pub fn before_column(column: usize) -> i64
    requires { column ≤ 8589934591 }
    ensures { result ≡ rows.before_column column }
{
    if column == 0 { -1 } else { (column - 1) as i64 }
}
