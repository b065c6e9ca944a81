//! The registry of a request: what the file that is named declares for an API.
ghost use Rattle.std.specs.Prelude.{◌≡◌, ◌≤◌, Some, length, IfSome};
ghost use Rattle.reg_reader.specs.Markup.{Spells};
ghost use Rattle.vkb_tool.specs.Check.{CountsRegistry, IsSteadyRead, ReadsRegistry};
ghost use Rattle.vkb_tool.specs.Registry.{most_registry};

use crate::answer::Trouble;
use reg_reader::{MarkupFault, Node, read_markup};
use reg_registry::Registry;
use reg_rows::{RowCode, RowFault, rows};
use std::alloc::Global;
use vkb_bytes::{Bytes, Listed};
use vkb_outside::{ReadTrouble, Shelf};

/// How many bytes the file of a registry may have.
const MOST_BYTES: u32 = 33_554_432;

/// What is wrong with the file of a registry.
#[derive(Debug, Drop)]
pub enum RegistryFault {
    Missing,
    TooLarge,
    /// The bytes stop being markup at this one, from 0.
    BadMarkup { at: u32 },
    /// At this byte, from 0, an element lies in 32 others.
    TooDeep { at: u32 },
    /// The element at this byte, from 0, is wrong.
    BadRow { code: RowCode, at: u32, word: Bytes },
    /// No feature is one of the API.
    NoFeature,
    /// Each of these names names the next, and the last the first.
    NamingCycle { names: Listed<Bytes> },
}

/// Why there is no registry of a file.
#[derive(Debug, Drop)]
pub enum Unread {
    Faulty(RegistryFault),
    Troubled(Trouble),
}

/// The registry of a file that the shelf holds, for an API. The file is read once.
pub fn read_registry<S: Shelf>(
    alloc: Global,
    shelf: &mut S,
    name: &str,
    api: &[u8],
) -> Result<Registry, Unread>
    ensures read { IfSome (S.holds shelf.old) (λ files. ReadsRegistry (files name.now) api.now result) }
    ensures counted { CountsRegistry (S.read_faults shelf.old) (S.read_faults shelf.new) result }
    ensures kept { S.holds shelf.new ≡ S.holds shelf.old }
    ensures puts { S.put_faults shelf.new ≡ S.put_faults shelf.old }
{
    match shelf.read(alloc, name, MOST_BYTES) {
        Ok(Some(bytes)) => registry_in(alloc, bytes.as_slice(), api),
        Ok(None) => Err(Unread::Faulty(RegistryFault::Missing)),
        Err(ReadTrouble::TooLong) => Err(Unread::Faulty(RegistryFault::TooLarge)),
        Err(ReadTrouble::Failed) => Err(Unread::Troubled(Trouble::ReadFailed)),
        Err(ReadTrouble::Memory) => Err(Unread::Troubled(Trouble::NoMemory)),
    }
}

/// The registry of these bytes, for an API. Of the tree that they spell nothing is kept.
fn registry_in(alloc: Global, bytes: &[u8], api: &[u8]) -> Result<Registry, Unread>
    requires { length bytes.now ≤ most_registry }
    ensures read { ReadsRegistry (Some bytes.now) api.now result }
    ensures told { IsSteadyRead result }
{
    match read_markup(alloc, bytes) {
        Ok(tree) => registry_of(alloc, bytes, &tree, api),
        Err(MarkupFault::BadMarkup { at }) => Err(Unread::Faulty(RegistryFault::BadMarkup { at })),
        Err(MarkupFault::TooDeep { at }) => Err(Unread::Faulty(RegistryFault::TooDeep { at })),
        Err(MarkupFault::Memory) => Err(Unread::Troubled(Trouble::NoMemory)),
    }
}

/// The registry of the tree that these bytes spell, for an API.
fn registry_of(alloc: Global, bytes: &[u8], tree: &Node, api: &[u8]) -> Result<Registry, Unread>
    requires tree { Spells 32 tree.now bytes.now }
    requires small { length bytes.now ≤ most_registry }
    ensures read { ReadsRegistry (Some bytes.now) api.now result }
    ensures told { IsSteadyRead result }
{
    match rows(alloc, bytes, tree, api) {
        Ok(registry) => Ok(registry),
        Err(RowFault::Bad { code, at, word }) => {
            Err(Unread::Faulty(RegistryFault::BadRow { code, at, word }))
        }
        Err(RowFault::NoFeature) => Err(Unread::Faulty(RegistryFault::NoFeature)),
        Err(RowFault::NamingCycle { names }) => {
            Err(Unread::Faulty(RegistryFault::NamingCycle { names }))
        }
        Err(RowFault::Memory) => Err(Unread::Troubled(Trouble::NoMemory)),
    }
}
