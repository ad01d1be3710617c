//! The way to where an operation changes a text.
ghost use Rattle.std.specs.Prelude.{◌≡◌};

use std::alloc::Global;
use yq_lookup::CutText;
use yq_semantics::Op;

/// From now on it is known what is on the way of an operation.
pub fn on_the_way<'d, 't>(alloc: Global, cut: &mut CutText<'d, 't>, op: &'d Op)
    ensures { cut.new ≡ cut.old }
{
    match op {
        Op::Replace(path, _) => cut.go_to_line(alloc, path),
        Op::Append(path, _, _) => cut.go_to_end(alloc, path),
        Op::Remove(path) => cut.go_to_line(alloc, path),
        Op::LineComment(path, _) => cut.go_to_line(alloc, path),
        Op::HeadComment(path, _) => cut.go_to_line(alloc, path),
    }
}
