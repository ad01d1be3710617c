//! Operations at and below a node, whose own paths begin there, with their paths from the root on.
ghost use Rattle.std.specs.Prelude.{◌≡◌, ◌<◌, IfOk, OnOk, length};
ghost use Rattle.yq_semantics.specs.Under.{op_under};
ghost use Rattle.yq_batch.specs.Under as spec;

use std::alloc::{AllocError, Global};
use yq_core::{Step, copied_steps};
use yq_documents::Path;
use yq_lookup::CutText;
use yq_semantics::{Op, push_steps};

/// An operation with its path from the root on.
#[derive(Clone, Copy)]
pub(crate) struct OpAt<'o, 'p> {
    pub(crate) op: &'o Op,
    pub(crate) path: &'p Path,
    /// Whether its own path is another one, which begins at a node below the root.
    pub(crate) is_below: bool,
}

/// The path of an operation.
pub(crate) fn path_of(op: &Op) -> &Path
    ensures { result.now ≡ spec.path_in op.now }
{
    match op {
        Op::Replace(path, _) | Op::Append(path, _, _) | Op::Remove(path) => path,
        Op::LineComment(path, _) | Op::HeadComment(path, _) => path,
    }
}

/// The path of the node to which these steps lead.
pub(crate) fn path_to(alloc: Global, front: &[Step]) -> Result<Path, AllocError>
    ensures { IfOk result (spec.BeginsWith front.now) }
{
    Ok(Path {
        doc: 0,
        steps: copied_steps(alloc, front)?,
    })
}

/// Puts the steps of an operation below a node in the place of those that come after the steps to the node; not at
/// the root, where the operation's own path is the whole one.
pub(crate) fn lead_on(
    alloc: Global,
    front: &[Step],
    path: &mut Path,
    op: &Op,
) -> Result<(), AllocError>
    requires { spec.BeginsWith front.now path.old }
    ensures stays { OnOk result (spec.BeginsWith front.now path.new) }
    ensures path { OnOk result (0 < length front.now →
        spec.IsPathUnder front.now op.now path.new) }
{
    if front.is_empty() {
        return Ok(());
    }
    let own = path_of(op);
    path.doc = own.doc;
    path.steps.truncate(front.len());
    push_steps(alloc, &own.steps, &mut path.steps)?;
    Ok(())
}

/// An operation at or below a node with its path from the root on: this one, unless that is the operation's own.
pub(crate) fn placed<'o: 'p, 'p>(front: &[Step], path: &'p Path, op: &'o Op) -> OpAt<'o, 'p>
    requires { 0 < length front.now → spec.IsPathUnder front.now op.now path.now }
    ensures { spec.op_meant result ≡ op_under front.now op.now }
{
    if front.is_empty() {
        return OpAt {
            op,
            path: path_of(op),
            is_below: false,
        };
    }
    OpAt {
        op,
        path,
        is_below: true,
    }
}

/// From now on it is known what is on the way of an operation's path.
pub(crate) fn go_to<'d>(alloc: Global, cut: &mut CutText<'d, '_>, at: OpAt<'d, '_>)
    ensures { cut.new ≡ cut.old }
{
    if at.is_below {
        cut.go_along(alloc, at.path);
    } else {
        cut.go_to_line(alloc, path_of(at.op));
    }
}
