//! How block style looks in documents.
ghost use Rattle.std.specs.Prelude.{◌≡◌, true};
ghost use Rattle.yq_core.specs.Values.{value_node};
ghost use Rattle.yq_documents.specs.Reading.{cut_of};
ghost use Rattle.yq_edit_rules.specs.Layouts as spec;

use crate::asked::is_asked;
use yq_core::Value;
use yq_edit_rules::Layout;
use yq_lookup::CutText;

/// By how many columns sequences, or mappings, are deeper than their keys in document `doc`, if a value
/// asks for it, since all rows of the document may be looked at.
fn step_for(cut: &CutText<'_, '_>, doc: usize, keyed: bool, dashes: bool, value: &Value) -> usize
    ensures { spec.is_asked keyed dashes (value_node value.now) ≡ true →
        result ≡ spec.columns_deeper dashes (spec.layout_of doc (cut_of cut.now)) }
{
    if is_asked(keyed, dashes, value) {
        return cut.step(doc, dashes);
    }
    0
}

/// How block style looks in document `doc`, as far as a value asks for it, which is put under a key, or
/// elsewhere: with the text's first break, and that document's steps, in columns.
pub(crate) fn layout_for(cut: &CutText<'_, '_>, doc: usize, keyed: bool, value: &Value) -> Layout
    ensures { spec.LooksLike keyed (value_node value.now) result
        (spec.layout_of doc (cut_of cut.now)) }
{
    Layout {
        br: cut.first_break(),
        mapping: step_for(cut, doc, keyed, false, value),
        sequence: step_for(cut, doc, keyed, true, value),
    }
}
