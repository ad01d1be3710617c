//! Commands on one file, and a store with it.

use std::alloc::{AllocError, Global};
use std::test::Fail;
use yq_args::{Command, EvalOptions, EvalWords};
use yq_store::{MemoryStore, Store};

/// What a command asks: an expression to be shown, with `-e`, or carried out in place, or another command.
#[derive(Clone, Copy)]
pub enum Request {
    Show(&'static str),
    Edit(&'static str),
    Undo,
    Redo,
    History,
    Squash(u64),
}

/// The name of the file.
pub const FILE: &str = "f";

/// A command on the file and its journal.
fn command(alloc: Global, asked: Request) -> Result<Command, AllocError> {
    let file = String::from_str(alloc, FILE)?;
    let journal = String::from_str(alloc, "f.undo.json")?;
    let (expr, in_place) = match asked {
        Request::Undo => return Ok(Command::Undo { file, journal }),
        Request::Redo => return Ok(Command::Redo { file, journal }),
        Request::History => {
            return Ok(Command::History {
                file,
                journal,
                diffs: false,
            });
        }
        Request::Squash(n) => return Ok(Command::Squash { n, file, journal }),
        Request::Show(expr) => (expr, false),
        Request::Edit(expr) => (expr, true),
    };
    Ok(Command::Eval {
        words: EvalWords {
            expr: String::from_str(alloc, expr)?,
            file,
            journal,
            options: EvalOptions {
                exit_status: !in_place,
                no_doc: false,
                expect_change: false,
                diff: false,
            },
        },
        in_place,
    })
}

/// The commands that ask this.
pub fn commands(alloc: Global, all: &[Request]) -> Result<Vec<Command>, AllocError> {
    let mut commands = Vec::new(alloc);
    'commands: for asked in all {
        commands.push(command(alloc, *asked)?)?;
    }
    Ok(commands)
}

/// A store with the file.
pub fn store_with_file(alloc: Global) -> Result<MemoryStore, Fail> {
    let mut store = MemoryStore::new(alloc);
    store.replace(FILE, b"n: 1\n")?;
    Ok(store)
}
