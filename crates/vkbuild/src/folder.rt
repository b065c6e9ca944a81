ghost use Rattle.std.specs.Prelude.{◌≡◌, None};
ghost use Rattle.vkb_outside.specs.Shelf.{IsWithin, CountsRead, CountsPut};
ghost use Rattle.vkbuild.specs.Faults.{after_read, after_put};

use crate::pieces::{read_file, write_file};
use std::alloc::Global;
use std::marker::Model;
use std::rt::Files;
use vkb_outside::{PutTrouble, ReadTrouble, Shelf};

/// The files below the current folder. What they hold is known to no clause.
///
/// A name that the system doesn't find is no file. Every other error of the system is a fault, and so is a folder in the place of a
/// file. Want of memory is none.
#[derive(Drop)]
pub struct FolderShelf<'a, R: Files> {
    system: &'a R,
    read_faults: u64,
    put_faults: u64,
}

impl<'a, R: Files> Model for FolderShelf<'a, R> {
    ghost use Rattle.vkbuild.specs.Faults.{Faults};

    ghost Value = { Faults };

    ghost view = { λ s. record { reads = s.read_faults; puts = s.put_faults } };
}

impl<'a, R: Files> FolderShelf<'a, R> {
    pub fn new(system: &'a R) -> Self
        ensures { result ≡ record { reads = 0; puts = 0 } }
    {
        FolderShelf {
            system,
            read_faults: 0,
            put_faults: 0,
        }
    }
}

impl<R: Files> Shelf for FolderShelf<'_, R> {
    ghost holds = { λ s. None };

    ghost read_faults = { λ s. s.reads };

    ghost put_faults = { λ s. s.puts };

    fn read(&mut self, alloc: Global, name: &str, most: u32) -> Result<Option<Vec<u8>>, ReadTrouble>
        ensures within { IsWithin most result }
        ensures counted { CountsRead self.old.reads self.new.reads result }
        ensures puts { self.new.puts ≡ self.old.puts }
        ensures faults { self.new ≡ after_read self.old result }
    {
        let found = read_file(self.system, alloc, name, most);
        if let Err(ReadTrouble::Failed) = found {
            self.read_faults = self.read_faults.saturating_add(1);
        }
        found
    }

    fn put(&mut self, name: &str, bytes: Vec<u8>) -> Result<(), PutTrouble>
        ensures counted { CountsPut self.old.puts self.new.puts result }
        ensures reads { self.new.reads ≡ self.old.reads }
        ensures faults { self.new ≡ after_put self.old result }
    {
        match write_file(self.system, name, &bytes) {
            Ok(()) => Ok(()),
            Err(_) => {
                self.put_faults = self.put_faults.saturating_add(1);
                Err(PutTrouble)
            }
        }
    }
}
