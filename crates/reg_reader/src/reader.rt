ghost use Rattle.std.specs.Prelude.{◌≡◌, ◌+◌, ◌-◌, ◌<◌, ◌≤◌, ◌^◌, ◌∷◌, [], ℕ, length, reverse, slice_index, OnOk, None, Some};
ghost use Rattle.std.specs.List.{AllByRecursion};
ghost use Rattle.reg_reader.specs.Bounds.{IsWithin};
ghost use Rattle.reg_reader.specs.Markup.{run_of, part_of};
ghost use Rattle.reg_reader.specs.Machine.{State, start, step, done, act_in, in_markup, between, top_name, top_attributes, with_children, with_attribute, opened, element_of, put, closed};
ghost use Rattle.reg_reader.specs.declared.reader.Stop.TheVariants.{Memory as NoMemory};
ghost use Rattle.reg_reader.specs.Reading.{state_of, Gives};

use crate::decide::{
    after_value, in_attribute, in_comment, in_declaration, in_end_name, in_end_white, in_equals,
    in_markup, in_name, in_outside, in_quote, in_slash, in_tag, in_text, in_value,
};
use crate::markup::{Node, Part};
use crate::phase::{Act, Phase, Run};
use sqlite_items::Items;
use std::alloc::Global;
use vkb_bytes::Memory;

/// How deep elements nest at most.
pub const MOST_NESTED: usize = 32;

/// An element of which a part was read.
#[derive(Drop)]
pub struct Open {
    pub at: u32,
    pub name: Part,
    pub attributes: Items<(Part, Part)>,
    pub children: Items<Node>,
}

/// What was read of a text.
#[derive(Drop)]
pub struct Reader {
    pub phase: Phase,
    /// The open elements, the innermost last.
    pub opens: Items<Open>,
    pub root: Option<Node>,
}

/// Why reading ended before the end.
#[derive(Clone, Copy)]
pub enum Stop {
    /// No markup goes on so.
    Wrong,
    /// An element begins that is nested too deep.
    TooDeep,
    /// There is no memory.
    Memory,
}

impl From<Memory> for Stop {
    ghost from_gives = { λ _ e. e ≡ NoMemory };

    fn from(_memory: Memory) -> Stop {
        Stop::Memory
    }
}

/// What follows a comment.
fn between(opens: &[Open], n: u32) -> Phase
    ensures { result ≡ between (reverse opens.now) n }
{
    if opens.is_empty() {
        Phase::Outside
    } else {
        Phase::Text(Run {
            from: n,
            reference: None,
        })
    }
}

fn top_attributes(opens: &[Open]) -> &[(Part, Part)]
    ensures { result.now ≡ top_attributes (reverse opens.now) }
{
    match opens.last() {
        Some(top) => top.attributes.as_slice(),
        None => &[],
    }
}

fn top_name(opens: &[Open]) -> Part
    ensures { result ≡ top_name (reverse opens.now) }
{
    match opens.last() {
        Some(top) => top.name,
        None => Part { from: 0, to: 0 },
    }
}

/// Puts a node behind the others of the innermost open element.
fn add_child(opens: &mut Items<Open>, child: Node) -> Result<(), Memory>
    ensures { OnOk result (reverse opens.new ≡ with_children (child ∷ []) (reverse opens.old)) }
{
    let Some(mut top) = opens.pop() else {
        return Ok(());
    };
    top.children.push(child)?;
    opens.push(top)?;
    Ok(())
}

/// Puts characters there, if there are any.
fn add_run(opens: &mut Items<Open>, from: u32, to: u32) -> Result<(), Memory>
    ensures { OnOk result (reverse opens.new ≡ with_children (run_of from to) (reverse opens.old)) }
{
    if from == to {
        return Ok(());
    }
    add_child(opens, Node::Chars(Part { from, to }))
}

/// Puts an attribute behind the others of the innermost open element.
fn add_attribute(opens: &mut Items<Open>, name: Part, value: Part) -> Result<(), Memory>
    ensures { OnOk result (reverse opens.new ≡ with_attribute (name, value) (reverse opens.old)) }
{
    let Some(mut top) = opens.pop() else {
        return Ok(());
    };
    top.attributes.push((name, value))?;
    opens.push(top)?;
    Ok(())
}

/// Opens an element of this name, before which its `<` stands.
fn add_open(alloc: Global, opens: &mut Items<Open>, from: u32, to: u32) -> Result<(), Memory>
    ensures { OnOk result (reverse opens.new ≡ opened from to (reverse opens.old)) }
{
    opens.push(Open {
        at: from.saturating_sub(1),
        name: Part { from, to },
        attributes: Items::new(alloc),
        children: Items::new(alloc),
    })?;
    Ok(())
}

impl Reader {
    pub fn new(alloc: Global) -> Reader
        ensures { state_of result ≡ start }
    {
        Reader {
            phase: Phase::Outside,
            opens: Items::new(alloc),
            root: None,
        }
    }

    /// What the byte at a place does, if markup can go on so.
    fn act_at(&self, bytes: &[u8], n: u32) -> Option<Act>
        requires within { n < length bytes.now }
        requires small { length bytes.now < 2 ^ 32 }
        requires places { IsWithin n (state_of self.now) }
        ensures { result ≡ act_in 32 bytes.now n (reverse self.now.opens) self.now.root self.now.phase }
    {
        let byte = bytes[n as usize];
        let opens = self.opens.as_slice();
        match self.phase {
            Phase::Outside => in_outside(byte),
            Phase::Text(run) => in_text(bytes, n, run),
            Phase::Markup => in_markup(MOST_NESTED, n, byte, opens.len(), self.root.is_some()),
            Phase::Comment(from) => in_comment(bytes, n, from, between(opens, n + 1)),
            Phase::Declaration => in_declaration(bytes, n),
            Phase::Name(from) => in_name(n, byte, from),
            Phase::Tag => in_tag(n, byte),
            Phase::Attribute(from) => in_attribute(bytes, n, top_attributes(opens), from),
            Phase::Equals(name) => in_equals(byte, name),
            Phase::Quote(name) => in_quote(n, byte, name),
            Phase::Value(name, quote, run) => in_value(bytes, n, name, quote, run),
            Phase::ValueEnd => after_value(n, byte),
            Phase::Slash => in_slash(byte),
            Phase::EndName(from) => in_end_name(bytes, n, top_name(opens), from),
            Phase::EndWhite => in_end_white(byte),
        }
    }

    /// Ends the innermost open element before a place.
    fn close(&mut self, n: u32) -> Result<(), Memory>
        ensures { OnOk result (state_of self.new ≡ closed n (reverse self.old.opens) self.old.root) }
    {
        let Some(top) = self.opens.pop() else {
            self.phase = Phase::Outside;
            return Ok(());
        };
        let Open {
            at,
            name,
            attributes,
            children,
        } = top;
        let element = Node::Element {
            at,
            name,
            attributes,
            children,
        };
        if self.opens.is_empty() {
            self.phase = Phase::Outside;
            self.root = Some(element);
            return Ok(());
        }
        self.phase = Phase::Text(Run {
            from: n,
            reference: None,
        });
        self.root = None;
        add_child(&mut self.opens, element)
    }

    /// Does what a byte does.
    fn perform(&mut self, alloc: Global, n: u32, act: Act) -> Result<(), Stop>
        requires { n + 1 < 2 ^ 32 }
        ensures { Gives result (done n (reverse self.old.opens) self.old.root act) (state_of self.new) }
    {
        match act {
            Act::Go(next) => self.phase = next,
            Act::Cut(from) => {
                add_run(&mut self.opens, from, n)?;
                self.phase = Phase::Markup;
            }
            Act::Open(from, next) => {
                add_open(alloc, &mut self.opens, from, n)?;
                self.phase = next;
            }
            Act::Attribute(name, from) => {
                add_attribute(&mut self.opens, name, Part { from, to: n })?;
                self.phase = Phase::ValueEnd;
            }
            Act::Close => self.close(n + 1)?,
            Act::TooDeep => return Err(Stop::TooDeep),
        }
        Ok(())
    }

    /// Reads the byte at a place.
    pub fn step(&mut self, alloc: Global, bytes: &[u8], n: u32) -> Result<(), Stop>
        requires within { n < length bytes.now }
        requires small { length bytes.now < 2 ^ 32 }
        requires places { IsWithin n (state_of self.old) }
        ensures { Gives result (step 32 bytes.now n (state_of self.old)) (state_of self.new) }
    {
        match self.act_at(bytes, n) {
            Some(act) => self.perform(alloc, n, act),
            None => Err(Stop::Wrong),
        }
    }
}
