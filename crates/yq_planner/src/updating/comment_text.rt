//! Texts that comments can have.
ghost use Rattle.std.specs.Prelude.{◌≡◌, ◌&&◌, ◌==◌, not};
ghost use Rattle.yq_core.specs.Characters.{is_text_char};
ghost use Rattle.yq_semantics.specs.View.{update_of};
ghost use Rattle.yq_semantics.specs.Changes as spec;

use yq_core::characters::is_text_char;
use yq_semantics::{CommentPlace, Update};

/// Whether a line comment can have a text: no character is a break.
fn is_line(text: &str) -> bool
    ensures { result ≡ spec.can_be_comment CommentPlace.Line text.now }
{
    text.chars()
        .all(|c| is_text_char(c) && c != '\n' && c != '\r')
}

/// Whether a head comment can have a text: its lines are parted by LF.
fn is_head(text: &str) -> bool
    ensures { result ≡ spec.can_be_comment CommentPlace.Head text.now }
{
    text.chars().all(|c| is_text_char(c) && c != '\r')
}

/// Whether a comment can have the text that an update gives it.
pub fn has_comment(update: &Update) -> bool
    ensures { result ≡ spec.has_comment (update_of update.now) }
{
    let Update::Comment(comment) = update else {
        return true;
    };
    match comment.place {
        CommentPlace::Line => is_line(comment.text.as_str()),
        CommentPlace::Head => is_head(comment.text.as_str()),
    }
}
