//! The lines of a diff in colours, for a terminal.

use std::alloc::{AllocError, Global};
use std::env;
use std::io::IsTerminal;
use yq_args::Command;

/// The variable of the environment that asks for none, where it isn't empty (no-color.org).
const NO_COLOR: &str = "NO_COLOR";

/// What ends a colour.
const PLAIN: &str = "\x1b[0m";

/// Whether what a command prints goes to a terminal as a diff in colours.
pub fn has_colours(rt: &HostRuntime, command: &Command) -> bool {
    let is_diff = match command {
        Command::Eval { words, .. } => words.options.diff,
        Command::History { diffs, .. } => *diffs,
        _ => false,
    };
    if !is_diff || !rt.stdout().is_terminal() {
        return false;
    }
    match env::var(rt, NO_COLOR) {
        Ok(value) => value.is_empty(),
        Err(_) => true,
    }
}

/// What begins the colour of a diff's line.
fn colour_of(line: &str) -> &'static str {
    if line.starts_with("--- ") || line.starts_with("+++ ") {
        "\x1b[1m"
    } else if line.starts_with("@@ ") {
        "\x1b[36m"
    } else if line.starts_with("-") {
        "\x1b[31m"
    } else if line.starts_with("+") {
        "\x1b[32m"
    } else {
        ""
    }
}

/// Adds a line without its line feed, in its colour.
fn push_line(out: &mut String, line: &str) -> Result<(), AllocError> {
    let colour = colour_of(line);
    if colour.is_empty() {
        return out.push_str(line);
    }
    out.push_str(colour)?;
    out.push_str(line)?;
    out.push_str(PLAIN)
}

/// The text of diffs with each line in its colour.
pub fn coloured(alloc: Global, text: &str) -> Result<String, AllocError> {
    let mut out = String::new(alloc);
    let mut is_first = true;
    'lines: for line in text.split('\n') {
        if !is_first {
            out.push('\n')?;
        }
        push_line(&mut out, line)?;
        is_first = false;
    }
    Ok(out)
}
