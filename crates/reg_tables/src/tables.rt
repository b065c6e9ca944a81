//! What is found under a name in the forms of a registry.
ghost use Rattle.std.specs.Prelude.{◌≡◌, List, ℕ, IfOk, map};
ghost use Rattle.std.specs.List.{position};
ghost use Rattle.std.specs.Option.{option_copied};
ghost use Rattle.std.specs.Str.{bytes_eq};
ghost use Rattle.reg_tables.specs.TableContents.{AreOf, HasDeclared};
ghost use Rattle.reg_tables.specs.Tables.{declaration_of, enumerant_of, group_of, is_known, is_sort, shape_named, shape_of, sort_of};

use crate::places::Places;
use reg_forms::{Declaration, EnumForm, Forms, GroupForm, Sort};
use reg_registry::{Kind, Shape};
use std::alloc::Global;
use std::marker::Model;
use vkb_bytes::Memory;
use vkb_formula::Names;

/// The forms of a registry, with tables of their names.
#[derive(Drop)]
pub struct Tables<'a> {
    forms: &'a Forms,
    declared: Places,
    types: Names,
    constants: Names,
    commands: Names,
    enumerants: Places,
    groups: Places,
}

impl<'a> Model for Tables<'a> {
    ghost use Rattle.reg_forms.specs.declared.forms.Forms.{Forms};
    ghost use Rattle.reg_tables.specs.TableContents.{AreTables};

    ghost Value = { Forms };

    ghost view = { λ t. t.forms.now };

    ghost invariant = { λ t. AreTables t.forms.now t.declared t.enumerants t.groups t.types t.constants t.commands };
}

impl<'a> Tables<'a> {
    /// The tables of these forms.
    pub fn new(alloc: Global, forms: &'a Forms) -> Result<Tables<'a>, Memory>
        ensures { IfOk result (λ tables. tables ≡ forms.now) }
    {
        Ok(Tables {
            forms,
            declared: declared_places(alloc, forms.declarations.as_slice())?,
            types: names_of_sort(alloc, forms, Sort::Type)?,
            constants: names_of_sort(alloc, forms, Sort::Constant)?,
            commands: names_of_sort(alloc, forms, Sort::Command)?,
            enumerants: enumerant_places(alloc, forms.enumerants.as_slice())?,
            groups: group_places(alloc, forms.groups.as_slice())?,
        })
    }

    /// The forms. It takes no memory.
    pub fn forms(&self) -> &'a Forms
        ensures { result.now ≡ self.now }
    {
        self.forms
    }

    /// The place of the first declaration of a name.
    pub fn declared_at(&self, name: &[u8]) -> Option<usize>
        ensures { result ≡ position (λ d. bytes_eq name.now d.name) self.now.declarations }
    {
        self.declared.find(name)
    }

    /// The first declaration of a name.
    pub fn declaration(&self, name: &[u8]) -> Option<&'a Declaration>
        ensures { option_copied result ≡ declaration_of self.now name.now }
    {
        self.declared
            .first(self.forms.declarations.as_slice(), name)
    }

    /// The place of the first row of an enumerant.
    pub fn enumerant_at(&self, name: &[u8]) -> Option<usize>
        ensures { result ≡ position (λ e. bytes_eq name.now e.name) self.now.enumerants }
    {
        self.enumerants.find(name)
    }

    /// The first row of an enumerant.
    pub fn enumerant(&self, name: &[u8]) -> Option<&'a EnumForm>
        ensures { option_copied result ≡ enumerant_of self.now name.now }
    {
        self.enumerants
            .first(self.forms.enumerants.as_slice(), name)
    }

    /// The first block of a name.
    pub fn group(&self, name: &[u8]) -> Option<&'a GroupForm>
        ensures { option_copied result ≡ group_of self.now name.now }
    {
        self.groups.first(self.forms.groups.as_slice(), name)
    }

    /// Whether something of a sort has a name.
    pub fn is_known(&self, sort: Sort, name: &[u8]) -> bool
        ensures { result ≡ is_known self.now sort name.now }
    {
        match sort {
            Sort::Type => self.types.find(name).is_some(),
            Sort::Constant => self.constants.find(name).is_some(),
            Sort::Command => self.commands.find(name).is_some(),
            Sort::Value => { self.constants.find(name).is_some() || self.enumerant(name).is_some() }
        }
    }

    /// What the values of an enum type of a name are.
    pub fn shape_named(&self, name: &[u8]) -> Shape
        ensures { result ≡ shape_named self.now name.now }
    {
        match self.group(name) {
            Some(group) => group.shape,
            None => Shape::List,
        }
    }

    /// What the values of what is declared are.
    pub fn shape_of(&self, declaration: &Declaration) -> Shape
        ensures { result ≡ shape_of self.now declaration.now }
    {
        match (declaration.kind, &declaration.alias) {
            (Kind::EnumType, None) => self.shape_named(declaration.name.as_slice()),
            (Kind::EnumType, Some(_)) => Shape::List,
            _ => Shape::Plain,
        }
    }
}

/// Where declarations of each name stand first.
fn declared_places(alloc: Global, declarations: &[Declaration]) -> Result<Places, Memory>
    ensures { IfOk result (λ table. AreOf table (map (λ d. d.name) declarations.now)) }
{
    let mut table = Places::new(alloc);
    for (place, declaration) in declarations.iter().enumerate() {
        table.put(declaration.name.as_slice(), place)?;
    }
    Ok(table)
}

/// Where the rows of each enumerant stand first.
fn enumerant_places(alloc: Global, enumerants: &[EnumForm]) -> Result<Places, Memory>
    ensures { IfOk result (λ table. AreOf table (map (λ e. e.name) enumerants.now)) }
{
    let mut table = Places::new(alloc);
    for (place, row) in enumerants.iter().enumerate() {
        table.put(row.name.as_slice(), place)?;
    }
    Ok(table)
}

/// Where the blocks of each name stand first.
fn group_places(alloc: Global, groups: &[GroupForm]) -> Result<Places, Memory>
    ensures { IfOk result (λ table. AreOf table (map (λ g. g.name) groups.now)) }
{
    let mut table = Places::new(alloc);
    for (place, group) in groups.iter().enumerate() {
        table.put(group.name.as_slice(), place)?;
    }
    Ok(table)
}

/// The names of the declarations of a sort.
fn names_of_sort(alloc: Global, forms: &Forms, sort: Sort) -> Result<Names, Memory>
    ensures { IfOk result (HasDeclared forms.now sort) }
{
    let mut names = Names::new(alloc);
    for declaration in forms.declarations.as_slice() {
        if is_sort(sort, sort_of(declaration.kind)) {
            names.intern(declaration.name.as_slice())?;
        }
    }
    Ok(names)
}

/// What a kind is, as that of something which is mentioned.
fn sort_of(kind: Kind) -> Sort
    ensures { result ≡ sort_of kind }
{
    match kind {
        Kind::Constant => Sort::Constant,
        Kind::Command => Sort::Command,
        _ => Sort::Type,
    }
}

/// Whether two sorts are one.
fn is_sort(sort: Sort, other: Sort) -> bool
    ensures { result ≡ is_sort sort other }
{
    matches!(
        (sort, other),
        (Sort::Type, Sort::Type)
            | (Sort::Constant, Sort::Constant)
            | (Sort::Command, Sort::Command)
            | (Sort::Value, Sort::Value)
    )
}
