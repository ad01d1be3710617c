//! Help.
ghost use Rattle.std.specs.Prelude.{◌≡◌, IfErr, IfOk, string_bytes};
ghost use Rattle.yq_commands.specs.Help.{ShowsHelp, help_of};
ghost use Rattle.yq_history.specs.Report.{nothing, report_by};

use std::alloc::{AllocError, Global};
use yq_args::push_named;
use yq_fault::Fault;
use yq_history::Report;

/// The ways to call the program, whose name means `%`.
pub const USAGE: &str = "\
Usage: % [eval|e] [-i] [-e] [-N] [-d] [--expect-change] [--text TEXT]
          [--journal PATH] EXPR FILE
       % undo|redo [--journal PATH] FILE
       % history [-d] [--journal PATH] FILE
       % squash [--journal PATH] N FILE
       % --explain CODE
";

/// What `--help` prints after the ways to call the program.
const DETAILS: &str = "
Edits YAML files in place, and takes the edits back to the byte.
It isn't mikefarah's yq, and takes a part of that one's expressions.

Commands:
  eval     print what EXPR reads of FILE, or FILE as EXPR updates it;
           the word may be left out
  undo     take the last edit of FILE back
  redo     make the edit again that was taken back last
  history  list the edits of FILE, oldest first
  squash   join the last N edits of FILE into one

Options:
  -i, --inplace        write the updated text to FILE, and record the
                       edit
  -e, --exit-status    end with status 1 where nothing but null and
                       false is read
  -N, --no-doc         print no marker between documents
  -d, --diff           print what an update changes, or changed
      --expect-change  end with status 1 where an update changes no byte
      --text TEXT      set what EXPR leads to, to TEXT as it is
      --journal PATH   where the edits are recorded, in place of
                       FILE.undo.json
      --explain        say where and why a command is refused, as on a
                       terminal
  -h, --help           print the commands and options

Examples:
  % .server.port f.yaml
  % --diff '.server.port = 9090' f.yaml
  % -i '.server.port = 9090' f.yaml
  % -i '.labels.\"app.io/name\" = \"web\"' f.yaml
  % -i --text=\"$HOME\" .server.home f.yaml
  % -i '.hosts += \"b.example.com\"' f.yaml
  % -i 'del(.hosts[0])' f.yaml
  % -i '.server.port line_comment = \"http\"' f.yaml
  % -i '(.jobs[] | select(.name == \"ship\") | .when) = \"tag\"' f.yaml
  % undo f.yaml

Values:   \"text\" 8080 0.5 true null [1, \"b\"] {\"key\": 1} .other.path
Codes:    % --explain Y9 says what Y9 means; man % has them all
Version:  0.1.0
";

/// The help of a program of this name.
pub fn help_text(alloc: Global, name: &str) -> Result<String, AllocError>
    ensures { IfOk result (λ s. string_bytes s ≡ help_of name.now) }
{
    let mut text = String::new(alloc);
    push_named(&mut text, USAGE, name)?;
    push_named(&mut text, DETAILS, name)?;
    Ok(text)
}

/// Shows the help.
pub fn help(alloc: Global, report: &mut Report) -> Result<(), Fault>
    requires empty { report_by report.old ≡ nothing }
    ensures memory { IfErr result (λ e. e ≡ Fault.OutOfMemory) }
    ensures text { ShowsHelp result (report_by report.new) }
{
    report.text = help_text(alloc, "yq")?;
    Ok(())
}
