//! What a registry declares.
ghost use Rattle.std.specs.Prelude.{◌≡◌, ◌<◌, ◌≤◌, true, length, slice_get, All, IfOk, Some};
ghost use Rattle.vkb_formula.specs.Names.{AreDifferent, most_names};
ghost use Rattle.reg_registry.specs.Words.{is_name};
ghost use Rattle.reg_registry.specs.Naming.{AreSound, IsSoundBlock, IsSoundOption, IsSoundRow};
ghost use Rattle.reg_registry.specs.Rows.{bare_rows};

use crate::bare::bare_registry;
use crate::kinds::{Kind, Shape};
use std::alloc::Global;
use std::marker::Model;
use vkb_bytes::{Bytes, Listed, Memory};
use vkb_formula::{Formula, NameId, NameTable};

/// A member of a struct or union, or a parameter of a command or function pointer.
#[derive(Debug, Drop)]
pub struct Member {
    pub name: Bytes,
    /// Its text, with one space for each run of white bytes.
    pub text: Bytes,
    /// Its type.
    pub base: NameId,
    /// How many stars its text has.
    pub stars: u32,
    /// The attribute `values`, or nothing.
    pub values: Bytes,
    /// The attribute `len` up to the first comma, or nothing.
    pub len: Bytes,
    pub optional: bool,
    /// No statement is made of it (`noautovalidity`).
    pub silent: bool,
}

/// A value of an enum type.
#[derive(Debug, Drop)]
pub struct Enumerant {
    pub name: Bytes,
    pub number: i128,
    /// The last name of the chain of aliases, where it is an alias.
    pub end: Option<Bytes>,
    /// It stands in the block of its type, and so whatever is chosen.
    pub always: bool,
    /// The places of the blocks that require it.
    pub required: Listed<u32>,
    /// The places of the blocks that remove it.
    pub removed: Listed<u32>,
}

/// What is declared under a name.
#[derive(Debug, Drop)]
pub struct Row {
    pub kind: Kind,
    pub alias: Option<NameId>,
    /// The text of a type that is no alias, trimmed, or the value of a constant.
    pub text: Bytes,
    /// What stands before the name in the prototype of a command or function pointer.
    pub result: Bytes,
    /// Whether there is a prototype.
    pub prototyped: bool,
    /// The members of a struct or union, or the parameters of what has a prototype.
    pub members: Listed<Member>,
    /// The type of a bitmask's bits.
    pub bits: Option<NameId>,
    pub shape: Shape,
    /// It is only returned (`returnedonly`).
    pub returned: bool,
    /// The declared names in `structextends`.
    pub extends: Listed<NameId>,
    /// The values of an enum type that is no alias, each at the place of its first row.
    pub values: Listed<Enumerant>,
    /// The other names that it names, each once, in the order of the text.
    pub named: Listed<NameId>,
}

/// A feature, an extension or a bit.
#[derive(Drop)]
pub struct OptionRow {
    /// The number of a feature.
    pub version: Option<(u32, u32)>,
    /// What has to hold where an extension is chosen.
    pub depends: Formula,
    /// The struct and the member of a bit.
    pub bit: Option<(NameId, Bytes)>,
}

/// Names that an option requires or removes.
#[derive(Drop)]
pub struct Block {
    /// The place of its option.
    pub owner: u32,
    /// What has to hold besides.
    pub depends: Formula,
    /// It requires, and doesn't remove.
    pub adds: bool,
    /// The declared names that it lists, each once.
    pub lists: Listed<NameId>,
}

/// A set of options.
#[derive(Debug, Drop)]
pub struct Choice {
    /// One value for each option.
    pub chosen: Vec<bool>,
}

/// What a registry declares for an API.
#[derive(Drop)]
pub struct Registry {
    names: NameTable,
    rows: Vec<Row>,
    options: NameTable,
    option_rows: Vec<OptionRow>,
    blocks: Vec<Block>,
    tags: Vec<Bytes>,
}

impl Model for Registry {
    ghost use Rattle.reg_registry.specs.Rows.{Rows};
    ghost use Rattle.reg_registry.specs.Naming.{AreSound};
    ghost use Rattle.vkb_formula.specs.contracts.formula.Formula as formula;
    ghost use Rattle.std.specs.Coded.{codes};

    ghost Value = { Rows };

    ghost coded = { Prim.hlevel (codes, formula.the_row.coded) };

    ghost view = { λ r. record { names = r.names; rows = r.rows.items; options = r.options; option_rows = r.option_rows.items; blocks = r.blocks.items; tags = r.tags.items } };

    ghost invariant = { λ r. AreSound (record { names = r.names; rows = r.rows.items; options = r.options; option_rows = r.option_rows.items; blocks = r.blocks.items; tags = r.tags.items }) };
}

impl Registry {
    /// The declared names, in the order of the text. It takes no memory.
    pub fn names(&self) -> &NameTable
        ensures { result.now ≡ self.now.names }
    {
        &self.names
    }

    /// The options: features, extensions, bits. It takes no memory.
    pub fn options(&self) -> &NameTable
        ensures { result.now ≡ self.now.options }
    {
        &self.options
    }

    /// What is declared under a name. It takes no memory.
    pub fn row(&self, name: NameId) -> &Row
        requires { name.0 < length self.now.names }
        ensures row { slice_get self.now.rows name.0 ≡ Some result.now }
        ensures sound { IsSoundRow (length self.now.names) (length self.now.blocks) result.now }
    {
        &self.rows[name.0 as usize]
    }

    /// What an option asks for. It takes no memory.
    pub fn option(&self, place: u32) -> &OptionRow
        requires { place < length self.now.options }
        ensures row { slice_get self.now.option_rows place ≡ Some result.now }
        ensures sound { IsSoundOption (length self.now.names) (length self.now.options) result.now }
    {
        &self.option_rows[place as usize]
    }

    /// The blocks of all options, in the order of the text. It takes no memory.
    pub fn blocks(&self) -> &[Block]
        ensures blocks { result.now ≡ self.now.blocks }
        ensures sound { All (IsSoundBlock (length self.now.names) (length self.now.options)) result.now }
    {
        self.blocks.as_slice()
    }

    /// The tags of authors, in the order of the text. It takes no memory.
    pub fn tags(&self) -> &[Bytes]
        ensures { result.now ≡ self.now.tags }
    {
        self.tags.as_slice()
    }

    /// What always holds of a registry: what its rows name is there, no list is too long, and no names name each other in a
    /// circle. It does nothing.
    pub fn is_sound(&self)
        ensures { AreSound self.now }
    {
        let _tags = &self.tags;
    }

    /// A registry of these parts. It takes no memory.
    pub fn from_parts(
        names: NameTable,
        rows: Vec<Row>,
        options: NameTable,
        option_rows: Vec<OptionRow>,
        blocks: Vec<Block>,
        tags: Vec<Bytes>,
    ) -> Registry
        requires { AreSound (record { names = names; rows = rows.items; options = options; option_rows = option_rows.items; blocks = blocks.items; tags = tags.items }) }
        ensures { result ≡ record { names = names; rows = rows.items; options = options; option_rows = option_rows.items; blocks = blocks.items; tags = tags.items } }
    {
        Registry {
            names,
            rows,
            options,
            option_rows,
            blocks,
            tags,
        }
    }

    /// A registry that declares nothing, whose options ask for nothing.
    pub fn bare(alloc: Global, options: &[Bytes]) -> Result<Registry, Memory>
        requires few { length options.now ≤ most_names }
        requires differ { AreDifferent options.now }
        requires named { All (λ name. is_name name ≡ true) options.now }
        ensures { IfOk result (λ r. r ≡ bare_rows options.now) }
    {
        bare_registry(alloc, options)
    }
}
