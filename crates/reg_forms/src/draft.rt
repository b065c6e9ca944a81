//! The forms while elements are read.
ghost use Rattle.std.specs.Prelude.{◌≡◌, ◌++◌, IfOk, map};
ghost use Rattle.reg_forms.specs.Items.{Item};
ghost use Rattle.reg_forms.specs.Forms.{no_forms, place_behind, text_at, with_item, with_items};
ghost use Rattle.reg_forms.specs.declared.forms.RowCode.TheVariants.{BadAttribute};

use crate::forms::{
    BlockForm, Declaration, DependsText, EntryForm, EnumForm, Fault, Forms, GroupForm, Mention,
    OptionForm, RowCode,
};
use std::alloc::Global;
use std::marker::Model;
use vkb_bytes::{Bytes, Listed, Memory};

/// What has been read so far.
#[derive(Drop)]
pub(crate) struct Draft {
    tags: Vec<Bytes>,
    declarations: Vec<Declaration>,
    groups: Vec<GroupForm>,
    enumerants: Vec<EnumForm>,
    options: Vec<OptionForm>,
    blocks: Vec<BlockForm>,
    entries: Vec<EntryForm>,
    texts: Vec<DependsText>,
    mentions: Vec<Mention>,
    faults: Vec<Fault>,
}

impl Model for Draft {
    ghost use Rattle.reg_forms.specs.declared.forms.Forms.{Forms};

    ghost Value = { Forms };

    ghost view = { λ d. record {
      tags = d.tags.items;
      declarations = d.declarations.items;
      groups = d.groups.items;
      enumerants = d.enumerants.items;
      options = d.options.items;
      blocks = d.blocks.items;
      entries = d.entries.items;
      texts = d.texts.items;
      mentions = d.mentions.items;
      faults = d.faults.items;
    } };
}

impl Draft {
    /// Nothing so far. It takes no memory.
    pub(crate) fn new(alloc: Global) -> Draft
        ensures { result ≡ no_forms }
    {
        Draft {
            tags: Vec::new(alloc),
            declarations: Vec::new(alloc),
            groups: Vec::new(alloc),
            enumerants: Vec::new(alloc),
            options: Vec::new(alloc),
            blocks: Vec::new(alloc),
            entries: Vec::new(alloc),
            texts: Vec::new(alloc),
            mentions: Vec::new(alloc),
            faults: Vec::new(alloc),
        }
    }

    /// All that was read.
    pub(crate) fn finish(self) -> Forms
        ensures { result ≡ self }
    {
        Forms {
            tags: Listed::from_vec(self.tags),
            declarations: Listed::from_vec(self.declarations),
            groups: Listed::from_vec(self.groups),
            enumerants: Listed::from_vec(self.enumerants),
            options: Listed::from_vec(self.options),
            blocks: Listed::from_vec(self.blocks),
            entries: Listed::from_vec(self.entries),
            texts: Listed::from_vec(self.texts),
            mentions: Listed::from_vec(self.mentions),
            faults: Listed::from_vec(self.faults),
        }
    }

    pub(crate) fn put_tag(&mut self, tag: Bytes) -> Result<(), Memory>
        ensures { IfOk result (λ _. self.new ≡ with_item self.old (Item.tags tag)) }
    {
        self.tags.push(tag)?;
        Ok(())
    }

    pub(crate) fn declare(&mut self, declaration: Declaration) -> Result<(), Memory>
        ensures { IfOk result (λ _. self.new ≡ with_item self.old (Item.declares declaration)) }
    {
        self.declarations.push(declaration)?;
        Ok(())
    }

    pub(crate) fn put_group(&mut self, group: GroupForm) -> Result<(), Memory>
        ensures { IfOk result (λ _. self.new ≡ with_item self.old (Item.groups group)) }
    {
        self.groups.push(group)?;
        Ok(())
    }

    pub(crate) fn put_enumerant(&mut self, enumerant: EnumForm) -> Result<(), Memory>
        ensures { IfOk result (λ _. self.new ≡ with_item self.old (Item.numbers enumerant)) }
    {
        self.enumerants.push(enumerant)?;
        Ok(())
    }

    /// Puts in an option, with the text of its `depends`.
    pub(crate) fn offer(
        &mut self,
        place: u32,
        name: Bytes,
        version: Option<(u32, u32)>,
        depends: Option<Bytes>,
    ) -> Result<(), Memory>
        ensures { IfOk result (λ _. self.new ≡ with_item self.old (Item.offers place name version depends)) }
    {
        let depends = self.put_text(place, depends)?;
        self.options.push(OptionForm {
            place,
            name,
            version,
            depends,
        })?;
        Ok(())
    }

    /// Opens a block of the last option, with the text of its `depends`.
    pub(crate) fn open(
        &mut self,
        place: u32,
        adds: bool,
        depends: Option<Bytes>,
    ) -> Result<(), Memory>
        ensures { IfOk result (λ _. self.new ≡ with_item self.old (Item.opens place adds depends)) }
    {
        let owner = self.options.len().saturating_sub(1);
        let depends = self.put_text(place, depends)?;
        self.blocks.push(BlockForm {
            place,
            owner,
            adds,
            depends,
        })?;
        Ok(())
    }

    /// Lists a name in the last block.
    pub(crate) fn list(&mut self, mention: Mention) -> Result<(), Memory>
        ensures { IfOk result (λ _. self.new ≡ with_item self.old (Item.lists mention)) }
    {
        let block = self.blocks.len().saturating_sub(1);
        self.entries.push(EntryForm { block, mention })?;
        Ok(())
    }

    pub(crate) fn put_mention(&mut self, mention: Mention) -> Result<(), Memory>
        ensures { IfOk result (λ _. self.new ≡ with_item self.old (Item.mentions mention)) }
    {
        self.mentions.push(mention)?;
        Ok(())
    }

    pub(crate) fn put_fault(&mut self, fault: Fault) -> Result<(), Memory>
        ensures { IfOk result (λ _. self.new ≡ with_item self.old (Item.wrong fault)) }
    {
        self.faults.push(fault)?;
        Ok(())
    }

    /// Puts in a fault for each of these words, at the element of a place.
    pub(crate) fn put_bad(&mut self, place: u32, words: Vec<Bytes>) -> Result<(), Memory>
        ensures { IfOk result (λ _. self.new
            ≡ with_items self.old (map (λ word. Item.wrong (record { code = BadAttribute; at = place; word = word })) words.items)) }
    {
        for word in words {
            self.put_fault(Fault {
                code: RowCode::BadAttribute,
                at: place,
                word,
            })?;
        }
        Ok(())
    }

    /// Puts in a text of a `depends`, if there is one, and gives its place.
    fn put_text(&mut self, place: u32, depends: Option<Bytes>) -> Result<Option<usize>, Memory>
        ensures number { IfOk result (λ number. number ≡ place_behind self.old.texts depends) }
        ensures texts { IfOk result (λ _. self.new ≡ record self.old { texts = self.old.texts ++ text_at place depends }) }
    {
        match depends {
            Some(text) => {
                let number = self.texts.len();
                self.texts.push(DependsText { place, text })?;
                Ok(Some(number))
            }
            None => Ok(None),
        }
    }
}
