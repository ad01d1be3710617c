//! Comments, each by its text.
ghost use Rattle.std.{specs.Iterator.at_most, specs.Prelude.{◌≡◌, ◌==◌, [], length, option_map}};
ghost use Rattle.yq_core.specs.Text.{front, text_lines, past_white};
ghost use Rattle.yq_documents.specs.Texts.{texts_left, YieldsText};
ghost use Rattle.yq_outline.specs.Comments as spec;
ghost use Rattle.yq_documents.specs.Pieces as pieces;

use yq_core::lines::{split_at_break, split_line};
use yq_core::strip;
use yq_core::text::{past_white, split_white};

/// A comment's text without the one space that may begin it.
#[tactic(auto, using(crate::proofs::CommentLaws::space_there, crate::proofs::CommentLaws::no_space))]
fn less_space(text: &str) -> &str
    ensures { result.now ≡ spec.less_space text.now }
{
    match strip(b' ', text) {
        Some(rest) => rest,
        None => text,
    }
}

/// The text of the comment after the white space in front, if there is one.
pub fn comment_text(text: &str) -> Option<&str>
    ensures { option_map (λ t. t.now) result ≡ spec.comment_text text.now }
{
    let rest = strip(b'#', split_white(text).1)?;
    Some(less_space(split_at_break(rest).0))
}

/// Whether this is a comment line.
pub fn is_comment(line: &str) -> bool
    ensures { result ≡ front (λ b. b == 35) (past_white line.now) }
{
    matches!(past_white(line.as_bytes()), [b'#', ..])
}

/// The run of comment lines that ends a gap.
pub fn last_run(gap: &str) -> &str
    ensures { text_lines result.now ≡ pieces.last_run (text_lines gap.now) }
{
    let mut run = gap;
    let mut rest = gap;
    'lines: while !rest.is_empty() {
        let (line, after) = split_line(rest);
        if !is_comment(line) {
            run = after;
        }
        rest = after;
    }
    run
}

/// The texts of the comment lines that end a gap, in order.
#[derive(Clone, Drop)]
pub struct Comments<'d> {
    lines: &'d str,
}

impl<'d> Comments<'d> {
    /// Those of the run that ends a gap.
    pub fn of(gap: &'d str) -> Comments<'d>
        ensures { texts_left result ≡ spec.head_comment gap.now }
    {
        Comments {
            lines: last_run(gap),
        }
    }

    /// None.
    #[tactic(auto, using(crate::proofs::CommentLaws::none_left))]
    pub fn none() -> Comments<'d>
        ensures { texts_left result ≡ [] }
    {
        Comments { lines: "" }
    }
}

impl<'d> Iterator for Comments<'d> {
    type Item = &'d str;

    ghost next_gives = { YieldsText };

    ghost remaining = { λ c. at_most (length c.lines.now) };

    fn next(&mut self) -> Option<&'d str> {
        if self.lines.is_empty() {
            return None;
        }
        let (line, after) = split_line(self.lines);
        match comment_text(line) {
            Some(text) => {
                self.lines = after;
                Some(text)
            }
            None => {
                self.lines = "";
                None
            }
        }
    }
}
