ghost use Rattle.std.specs.Prelude.{◌≡◌, ◌<◌, ◌≤◌, ◌^◌, [], ◌∷◌, ◌++◌, ◌↔◌, length, option_map, option_to_list, All, IfOk, IfSome, IsNone, MatchOption};
ghost use Rattle.std.specs.List.{list_any};
ghost use Rattle.std.specs.Str.{bytes_eq};
ghost use Rattle.reg_reader.specs.Markup.{Spells, HasCharacters, IsNamePart, IsAttributeThere, HasParts};
ghost use Rattle.reg_reader.specs.Views.{elements_in, text_in, text_before, value_in, element_size};
ghost use Rattle.reg_reader.specs.Shown.{bytes_of, characters_of, attributes_of, content_of, IsElementOf, SpellsElement, AreShown};

use crate::characters;
use crate::markup::{Node, Part};
use std::alloc::Global;
use std::marker::Model;
use vkb_bytes::{Bytes, Memory};

/// For how many bytes of a text there is room at first, so that most texts of several parts are never moved.
const TEXT_BYTES: usize = 64;

/// An element of a tree, with the bytes that spell it.
#[derive(Debug, Drop)]
pub struct Element<'a> {
    bytes: &'a [u8],
    place: u32,
    name: Part,
    attributes: &'a [(Part, Part)],
    children: &'a [Node],
}

impl<'a> Model for Element<'a> {
    ghost use Rattle.reg_reader.specs.Views.{Element};
    ghost use Rattle.reg_reader.specs.ViewCodes.{element_code};

    ghost Value = { Element };

    ghost coded = { element_code };

    ghost use Rattle.reg_reader.specs.Shown.{bytes_of, attributes_of, content_of, IsShown};

    ghost view = { λ e. record { place = e.place; name = bytes_of e.bytes.now e.name; attributes = attributes_of e.bytes.now e.attributes.now; content = content_of e.bytes.now e.children.now } };

    ghost invariant = { λ e. IsShown e.bytes.now e.name e.attributes.now e.children.now };
}

impl<'a> Element<'a> {
    /// The root of the tree that these bytes spell. It takes no memory.
    pub fn root(bytes: &'a [u8], root: &'a Node) -> Element<'a>
        requires tree { Spells 32 root.now bytes.now }
        requires small { length bytes.now < 2 ^ 32 }
        ensures node { IsElementOf bytes.now root.now result }
        ensures spelled { SpellsElement bytes.now result }
        ensures size { element_size result ≤ length bytes.now }
    {
        match shown(bytes, root) {
            Some(element) => element,
            None => unreachable!(),
        }
    }

    /// The place of its `<`, in bytes from 0.
    pub fn place(&self) -> u32
        ensures { result ≡ self.now.place }
    {
        self.place
    }

    /// The bytes of its name.
    pub fn name(&self) -> &'a [u8]
        ensures { result.now ≡ self.now.name }
    {
        bytes_at(self.bytes, self.name)
    }

    /// The value of the attribute of a name, with references undone, and `None` where the element has none of that name.
    pub fn attribute(&self, alloc: Global, name: &[u8]) -> Result<Option<Bytes>, Memory>
        ensures { IfOk result (λ value. value ≡ value_in self.now.attributes name.now) }
    {
        match value_part(self.bytes, self.attributes, name) {
            Some(part) => {
                let value = characters::undo(alloc, self.bytes, part)?;
                Ok(Some(Bytes::from_vec(value)))
            }
            None => Ok(None),
        }
    }

    /// The elements that stand right between its tags. It takes no memory.
    pub fn children(&self) -> Children<'a>
        ensures { result ≡ elements_in self.now.content }
    {
        Children {
            bytes: self.bytes,
            nodes: self.children,
        }
    }

    /// All characters between its tags, at any depth and with references undone, but for those of elements `comment`.
    pub fn text(&self, alloc: Global) -> Result<Bytes, Memory>
        ensures { IfOk result (λ text. text ≡ text_in self.now.content) }
    {
        if let [Node::Chars(part)] = self.children {
            let text = characters::undo(alloc, self.bytes, *part)?;
            return Ok(Bytes::from_vec(text));
        }
        let mut text = Vec::with_capacity(alloc, TEXT_BYTES)?;
        put_text(alloc, self.bytes, self.children, &mut text)?;
        Ok(Bytes::from_vec(text))
    }

    /// All characters before the first element of a name that stands right between its tags, with references undone, but
    /// for those of elements `comment`.
    pub fn text_before(&self, alloc: Global, name: &[u8]) -> Result<Bytes, Memory>
        ensures { IfOk result (λ text. text ≡ text_before name.now self.now.content) }
    {
        let before = nodes_before(self.bytes, self.children, name);
        let mut text = Vec::new(alloc);
        put_text(alloc, self.bytes, before, &mut text)?;
        Ok(Bytes::from_vec(text))
    }
}

/// The elements that are still to come among those that stand right between two tags, in order.
#[derive(Debug, Drop)]
pub struct Children<'a> {
    bytes: &'a [u8],
    nodes: &'a [Node],
}

impl<'a> Model for Children<'a> {
    ghost use Rattle.std.specs.Prelude.{List};
    ghost use Rattle.std.specs.Coded.{coded_list};
    ghost use Rattle.reg_reader.specs.Views.{Element, elements_in};
    ghost use Rattle.reg_reader.specs.ViewCodes.{element_code};

    ghost Value = { List Element };

    ghost coded = { coded_list element_code };

    ghost use Rattle.reg_reader.specs.Shown.{content_of, AreShown};

    ghost view = { λ c. elements_in (content_of c.bytes.now c.nodes.now) };

    ghost invariant = { λ c. AreShown c.bytes.now c.nodes.now };
}

impl<'a> Children<'a> {
    /// The next element, and `None` where none is left. It takes no memory.
    pub fn next(&mut self) -> Option<Element<'a>>
        ensures first { self.old ≡ option_to_list result ++ self.new }
        ensures none { IsNone result ↔ (self.old ≡ []) }
    {
        match first_among(self.bytes, self.nodes) {
            Some((element, rest)) => {
                self.nodes = rest;
                Some(element)
            }
            None => {
                self.nodes = &[];
                None
            }
        }
    }
}

/// The bytes of a part.
fn bytes_at(bytes: &[u8], part: Part) -> &[u8]
    requires { IsNamePart bytes.now part }
    ensures { result.now ≡ bytes_of bytes.now part }
{
    &bytes[part.from as usize..part.to as usize]
}

/// A node as an element, if it is one.
#[tactic(auto, using(crate::proofs::ViewLemmas::view_facts))]
fn shown<'a>(bytes: &'a [u8], node: &'a Node) -> Option<Element<'a>>
    requires parts { HasParts bytes.now node.now }
    requires small { length bytes.now < 2 ^ 32 }
    ensures { elements_in (content_of bytes.now (node.now ∷ [])) ≡ option_to_list result }
{
    match node {
        Node::Element {
            at,
            name,
            attributes,
            children,
        } => Some(Element {
            bytes,
            place: *at,
            name: *name,
            attributes: attributes.as_slice(),
            children: children.as_slice(),
        }),
        Node::Chars(_) => None,
    }
}

/// The first element among nodes, and the nodes behind it.
fn first_among<'a>(bytes: &'a [u8], nodes: &'a [Node]) -> Option<(Element<'a>, &'a [Node])>
    requires { AreShown bytes.now nodes.now }
    ensures elements { MatchOption result (elements_in (content_of bytes.now nodes.now) ≡ []) (λ found. elements_in (content_of bytes.now nodes.now) ≡ found.0 ∷ elements_in (content_of bytes.now found.1.now)) }
    ensures rest { IfSome result (λ found. AreShown bytes.now found.1.now) }
{
    for at in 0..nodes.len() {
        if let Some(element) = shown(bytes, &nodes[at]) {
            return Some((element, &nodes[at + 1..]));
        }
    }
    None
}

/// The nodes before the first element of a name.
fn nodes_before<'a>(bytes: &[u8], nodes: &'a [Node], name: &[u8]) -> &'a [Node]
    requires { AreShown bytes.now nodes.now }
    ensures text { text_in (content_of bytes.now result.now) ≡ text_before name.now (content_of bytes.now nodes.now) }
    ensures shown { AreShown bytes.now result.now }
{
    for at in 0..nodes.len() {
        if is_named(bytes, &nodes[at], name) {
            return &nodes[..at];
        }
    }
    nodes
}

/// Whether a node is an element of a name.
fn is_named(bytes: &[u8], node: &Node, name: &[u8]) -> bool
    requires parts { HasParts bytes.now node.now }
    requires small { length bytes.now < 2 ^ 32 }
    ensures { result ≡ list_any (λ element. bytes_eq element.name name.now) (elements_in (content_of bytes.now (node.now ∷ []))) }
{
    match shown(bytes, node) {
        Some(element) => element.name() == name,
        None => false,
    }
}

/// The part of the value of the attribute of a name.
fn value_part(bytes: &[u8], attributes: &[(Part, Part)], name: &[u8]) -> Option<Part>
    requires { All (IsAttributeThere bytes.now) attributes.now }
    ensures value { option_map (characters_of bytes.now) result ≡ value_in (attributes_of bytes.now attributes.now) name.now }
    ensures there { IfSome result (λ part. HasCharacters bytes.now part) }
{
    for attribute in attributes {
        let (own, value) = *attribute;
        if bytes_at(bytes, own) == name {
            return Some(value);
        }
    }
    None
}

/// Puts the text of nodes behind another.
#[cycle(text)]
fn put_text(alloc: Global, bytes: &[u8], nodes: &[Node], text: &mut Vec<u8>) -> Result<(), Memory>
    requires { AreShown bytes.now nodes.now }
    ensures { IfOk result (λ _. text.new.items ≡ text.old.items ++ text_in (content_of bytes.now nodes.now)) }
{
    for node in nodes {
        put_node(alloc, bytes, node, text)?;
    }
    Ok(())
}

/// Puts the text of a node behind another.
#[cycle(text)]
#[tactic(auto, using(crate::proofs::ViewLemmas::view_facts))]
fn put_node(alloc: Global, bytes: &[u8], node: &Node, text: &mut Vec<u8>) -> Result<(), Memory>
    requires parts { HasParts bytes.now node.now }
    requires small { length bytes.now < 2 ^ 32 }
    ensures { IfOk result (λ _. text.new.items ≡ text.old.items ++ text_in (content_of bytes.now (node.now ∷ []))) }
{
    match node {
        Node::Chars(part) => {
            characters::put(alloc, bytes, *part, text)?;
            Ok(())
        }
        Node::Element { name, children, .. } => {
            if bytes_at(bytes, *name) == b"comment".as_slice() {
                return Ok(());
            }
            put_text(alloc, bytes, children.as_slice(), text)
        }
    }
}
