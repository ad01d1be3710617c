//! The lengths of a text over which splices go.
ghost use Rattle.std.specs.Prelude.{◌≡◌};
ghost use Rattle.yq_text.specs.Splice.{length_done, lengths_done};
ghost use Rattle.yq_journal.specs.Record.{is_length};

use yq_text::Splice;

/// The length that a splice leaves, where it lies within the length before it.
#[tactic(auto, unfolding(yq_text::specs::Splice::length_done))]
fn length_after(splice: &Splice, length: u64) -> Option<u64>
    ensures { result ≡ length_done splice.now length }
{
    let old = splice.old.len() as u64;
    let end = splice.at.checked_add(old)?;
    if end > length {
        return None;
    }
    (length - old).checked_add(splice.new.len() as u64)
}

/// Whether splices lead from the one length to the other, each lying within
/// the length reached so far.
pub fn leads(splices: &[Splice], before_len: u64, after_len: u64) -> bool
    ensures { result ≡ is_length (lengths_done splices.now before_len) after_len }
{
    let mut length = before_len;
    'splices: for splice in splices {
        match length_after(splice, length) {
            Some(next) => length = next,
            None => return false,
        }
    }
    length == after_len
}
