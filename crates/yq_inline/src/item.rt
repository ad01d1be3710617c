//! What comes after the items of a sequence.
ghost use Rattle.std.specs.Prelude.{◌≡◌, ◌≢◌, ◌≤◌, IfErr, IfOk, false, length};
ghost use Rattle.yq_core.{specs.Answers.ReadsAs, specs.declared.fault.FaultKind.TheVariants.NotUtf8, specs.Places.bare_placed};
ghost use Rattle.yq_core.specs.View.{inline_view};
ghost use Rattle.yq_inline.specs.Forms as spec;

use crate::fault::flow_fault;
use crate::pieces::{no_node, read_sep};
use crate::reading::is_bare;
use yq_core::{FaultKind, Inline, ReadFault};

/// What follows an item and the comma after it, if there is one; the item, which is not to be nothing,
/// is in front of `text`, and after the `[` was `open`.
pub(crate) fn read_following<'t>(
    whole: &str,
    open: &str,
    text: &str,
    item: &Inline<'_>,
    rest: &'t str,
) -> Result<&'t str, ReadFault>
    ensures read { ReadsAs (λ x. x.now) result (spec.after_item (inline_view item.now) rest.now) }
    ensures some { IfOk result (λ x. bare_placed (inline_view item.now) ≡ false) }
    ensures shorter { IfOk result (λ x. length x.now ≤ length rest.now) }
    ensures fault { IfErr result (λ f. f.kind ≢ NotUtf8) }
{
    if is_bare(item) {
        let kind = no_node(text.as_bytes(), FaultKind::BadFlow);
        return Err(flow_fault(kind, whole, open, text));
    }
    read_sep(b']', whole, open, rest)
}
