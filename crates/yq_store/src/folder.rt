//! The folder of journals, which is made where it isn't there.
ghost use Rattle.std.specs.Prelude.{◌≡◌};

use crate::store::Store;
use std::alloc::Global;
use std::fs::DirBuilder;
use std::os::unix::fs::DirBuilderExt;
use std::rt::Files;
use yq_fault::Fault;

/// The mode of a folder of journals: its owner alone may look into it.
const PRIVATE: u32 = 0o700;

/// A store that makes the folder of a command's journal before that is written.
#[derive(Drop)]
pub struct WithFolder<'a, R: Drop, S: Drop> {
    rt: R,
    store: S,
    file: &'a str,
    folder: Option<String>,
}

impl<'a, R: Drop, S: Drop> WithFolder<'a, R, S> {
    /// A store for a command on this file, whose journal is in this folder, where one is named.
    pub fn new(rt: R, store: S, file: &'a str, folder: Option<String>) -> Self {
        WithFolder {
            rt,
            store,
            file,
            folder,
        }
    }

    /// The store to which its calls go.
    pub fn files(&self) -> &S {
        &self.store
    }
}

impl<'a, R: Files + Drop, S: Store + Drop> WithFolder<'a, R, S> {
    /// Makes the folder, and those above it. Where that fails, the write after it does too.
    fn make_folder(&self) {
        if let Some(folder) = &self.folder {
            let _ = DirBuilder::new()
                .recursive(true)
                .mode(PRIVATE)
                .create(&self.rt, folder.as_str());
        }
    }
}

impl<'a, R: Files + Drop, S: Store + Drop> Store for WithFolder<'a, R, S> {
    ghost keeps = { S.keeps };

    ghost content = { λ s. S.content s.store };

    ghost failures = { λ s. S.failures s.store };

    ghost leads = { λ s c t. S.leads s.store c t.store };

    fn read(&mut self, alloc: Global, name: &str) -> Result<Vec<u8>, Fault> {
        self.store.read(alloc, name)
    }

    fn replace(&mut self, name: &str, bytes: &[u8]) -> Result<(), Fault> {
        if name != self.file {
            self.make_folder();
        }
        self.store.replace(name, bytes)
    }
}
