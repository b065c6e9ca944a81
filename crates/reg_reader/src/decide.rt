ghost use Rattle.std.specs.Prelude.{◌≡◌, ◌+◌, ◌-◌, ◌<◌, ◌≤◌, ◌^◌, ℕ, length, slice_index, slice_range, reverse, option_map, Some, None, nat_lt, if◌then◌else◌};
ghost use Rattle.std.specs.Option.{option_copied};
ghost use Rattle.std.specs.Str.{bytes_eq};
ghost use Rattle.reg_reader.specs.Markup.{is_name_start, is_name_byte, is_taken};
ghost use Rattle.reg_reader.specs.Within.{Within, AreWithin};
ghost use Rattle.reg_reader.specs.Machine.{run_after, in_outside, in_text, in_markup, in_comment, in_declaration, in_tag_end, in_name, in_tag, in_attribute, in_equals, in_quote, in_value, in_slash, in_end_name, in_end_white};

use crate::markup::Part;
use crate::phase::{Act, Phase, Run};
use crate::reference::{Progress, progress_of};
use vkb_bytes::{is_letter, is_white, is_word_byte};

fn is_name_start(byte: u8) -> bool
    ensures { result ≡ is_name_start byte }
{
    is_letter(byte) || byte == b'_'
}

fn is_name_byte(byte: u8) -> bool
    ensures { result ≡ is_name_byte byte }
{
    is_word_byte(byte) || byte == b'-' || byte == b'.' || byte == b':'
}

/// Characters that begin at this place.
fn fresh(from: u32) -> Run
    ensures { result ≡ record { from = from; reference = None } }
{
    Run {
        from,
        reference: None,
    }
}

/// Characters with the byte at a place, which isn't what ends them.
fn run_after(bytes: &[u8], n: u32, run: Run) -> Option<Run>
    requires within { n < length bytes.now }
    requires place { Within run.reference n }
    ensures { result ≡ run_after bytes.now n run.from run.reference }
{
    let Some(place) = run.reference else {
        return match bytes[n as usize] {
            b'<' => None,
            b'&' => Some(Run {
                from: run.from,
                reference: Some(n),
            }),
            _ => Some(fresh(run.from)),
        };
    };
    match progress_of(&bytes[place as usize..n as usize + 1]) {
        Progress::Whole(_) => Some(fresh(run.from)),
        Progress::Partial => Some(run),
        Progress::Wrong => None,
    }
}

/// A byte outside the root.
pub fn in_outside(byte: u8) -> Option<Act>
    ensures { result ≡ in_outside byte }
{
    if is_white(byte) {
        Some(Act::Go(Phase::Outside))
    } else if byte == b'<' {
        Some(Act::Go(Phase::Markup))
    } else {
        None
    }
}

/// A byte in the characters of an element.
pub fn in_text(bytes: &[u8], n: u32, run: Run) -> Option<Act>
    requires within { n < length bytes.now }
    requires place { Within run.reference n }
    ensures { result ≡ in_text bytes.now n run.from run.reference }
{
    if run.reference.is_none() && bytes[n as usize] == b'<' {
        return Some(Act::Cut(run.from));
    }
    match run_after(bytes, n, run) {
        Some(run) => Some(Act::Go(Phase::Text(run))),
        None => None,
    }
}

/// The byte behind a `<`, where `count` elements of at most `most` are open, and the root may have ended.
pub fn in_markup(most: usize, n: u32, byte: u8, count: usize, rooted: bool) -> Option<Act>
    requires behind { 1 ≤ n }
    requires small { n + 1 < 2 ^ 32 }
    ensures { result ≡ in_markup most n byte count rooted }
{
    if byte == b'!' {
        return Some(Act::Go(Phase::Comment(n - 1)));
    }
    if rooted {
        return None;
    }
    if is_name_start(byte) {
        return Some(if count < most {
            Act::Go(Phase::Name(n))
        } else {
            Act::TooDeep
        });
    }
    if count > 0 {
        return (byte == b'/').then_some(Act::Go(Phase::EndName(n + 1)));
    }
    (byte == b'?' && n == 1).then_some(Act::Go(Phase::Declaration))
}

/// A byte in a comment that began at `from`; `next` is what follows the comment.
pub fn in_comment(bytes: &[u8], n: u32, from: u32, next: Phase) -> Option<Act>
    requires within { n < length bytes.now }
    requires small { length bytes.now < 2 ^ 32 }
    requires from { from < n }
    ensures { result ≡ in_comment bytes.now n from next }
{
    let place = n as usize;
    let from_place = from as usize;
    if place < from_place + 4 {
        return (bytes[place] == b'-').then_some(Act::Go(Phase::Comment(from)));
    }
    if place >= from_place + 6
        && bytes[place] == b'>'
        && bytes[place - 1] == b'-'
        && bytes[place - 2] == b'-'
    {
        return Some(Act::Go(next));
    }
    Some(Act::Go(Phase::Comment(from)))
}

/// A byte in the declaration, from its third on.
pub fn in_declaration(bytes: &[u8], n: u32) -> Option<Act>
    requires within { n < length bytes.now }
    requires third { 2 ≤ n }
    ensures { result ≡ in_declaration bytes.now n }
{
    let place = n as usize;
    let byte = bytes[place];
    let goes_on = match n {
        2 => byte == b'x',
        3 => byte == b'm',
        4 => byte == b'l',
        5 => is_white(byte),
        _ => {
            if place >= 7 && byte == b'>' && bytes[place - 1] == b'?' {
                return Some(Act::Go(Phase::Outside));
            }
            true
        }
    };
    goes_on.then_some(Act::Go(Phase::Declaration))
}

/// What follows a name or a value in a start tag.
pub fn in_tag_end(n: u32, byte: u8) -> Option<Phase>
    requires { n + 1 < 2 ^ 32 }
    ensures { result ≡ in_tag_end n byte }
{
    if is_white(byte) {
        Some(Phase::Tag)
    } else if byte == b'/' {
        Some(Phase::Slash)
    } else if byte == b'>' {
        Some(Phase::Text(fresh(n + 1)))
    } else {
        None
    }
}

/// A byte in the name of an element, which began at `from`.
pub fn in_name(n: u32, byte: u8, from: u32) -> Option<Act>
    requires { n + 1 < 2 ^ 32 }
    ensures { result ≡ in_name n byte from }
{
    if is_name_byte(byte) {
        return Some(Act::Go(Phase::Name(from)));
    }
    match in_tag_end(n, byte) {
        Some(next) => Some(Act::Open(from, next)),
        None => None,
    }
}

/// A byte in a start tag, after white space.
pub fn in_tag(n: u32, byte: u8) -> Option<Act>
    requires { n + 1 < 2 ^ 32 }
    ensures { result ≡ in_tag n byte }
{
    if is_name_start(byte) {
        return Some(Act::Go(Phase::Attribute(n)));
    }
    after_value(n, byte)
}

/// A byte behind an attribute's value.
pub fn after_value(n: u32, byte: u8) -> Option<Act>
    requires { n + 1 < 2 ^ 32 }
    ensures { result ≡ option_map (λ next. Act.Go next) (in_tag_end n byte) }
{
    match in_tag_end(n, byte) {
        Some(next) => Some(Act::Go(next)),
        None => None,
    }
}

/// Whether one of the attributes has the name that stands from one place to another.
fn is_taken(bytes: &[u8], attributes: &[(Part, Part)], from: u32, to: u32) -> bool
    requires all { AreWithin (length bytes.now) attributes.now }
    requires from { from ≤ to }
    requires to { to ≤ length bytes.now }
    ensures { result ≡ is_taken bytes.now attributes.now from to }
{
    let name = &bytes[from as usize..to as usize];
    for attribute in attributes {
        if &bytes[attribute.0.from as usize..attribute.0.to as usize] == name {
            return true;
        }
    }
    false
}

/// A byte in the name of an attribute that began at `from`; `attributes` are those before it.
pub fn in_attribute(bytes: &[u8], n: u32, attributes: &[(Part, Part)], from: u32) -> Option<Act>
    requires within { n < length bytes.now }
    requires all { AreWithin (length bytes.now) attributes.now }
    requires from { from ≤ n }
    ensures { result ≡ in_attribute bytes.now n attributes.now from }
{
    let byte = bytes[n as usize];
    if is_name_byte(byte) {
        return Some(Act::Go(Phase::Attribute(from)));
    }
    if is_taken(bytes, attributes, from, n) {
        return None;
    }
    let name = Part { from, to: n };
    if is_white(byte) {
        Some(Act::Go(Phase::Equals(name)))
    } else if byte == b'=' {
        Some(Act::Go(Phase::Quote(name)))
    } else {
        None
    }
}

/// A byte between an attribute's name and its `=`.
pub fn in_equals(byte: u8, name: Part) -> Option<Act>
    ensures { result ≡ in_equals byte name }
{
    if is_white(byte) {
        Some(Act::Go(Phase::Equals(name)))
    } else if byte == b'=' {
        Some(Act::Go(Phase::Quote(name)))
    } else {
        None
    }
}

/// A byte between an attribute's `=` and its value.
pub fn in_quote(n: u32, byte: u8, name: Part) -> Option<Act>
    requires { n + 1 < 2 ^ 32 }
    ensures { result ≡ in_quote n byte name }
{
    if is_white(byte) {
        Some(Act::Go(Phase::Quote(name)))
    } else if byte == b'"' || byte == b'\'' {
        Some(Act::Go(Phase::Value(name, byte, fresh(n + 1))))
    } else {
        None
    }
}

/// A byte in an attribute's value.
pub fn in_value(bytes: &[u8], n: u32, name: Part, quote: u8, run: Run) -> Option<Act>
    requires within { n < length bytes.now }
    requires place { Within run.reference n }
    ensures { result ≡ in_value bytes.now n name quote run.from run.reference }
{
    if run.reference.is_none() && bytes[n as usize] == quote {
        return Some(Act::Attribute(name, run.from));
    }
    match run_after(bytes, n, run) {
        Some(run) => Some(Act::Go(Phase::Value(name, quote, run))),
        None => None,
    }
}

/// The byte behind the `/` of a start tag.
pub fn in_slash(byte: u8) -> Option<Act>
    ensures { result ≡ in_slash byte }
{
    (byte == b'>').then_some(Act::Close)
}

/// A byte in an end tag, behind its name.
pub fn in_end_white(byte: u8) -> Option<Act>
    ensures { result ≡ in_end_white byte }
{
    if is_white(byte) {
        Some(Act::Go(Phase::EndWhite))
    } else if byte == b'>' {
        Some(Act::Close)
    } else {
        None
    }
}

/// A byte in an end tag's name, which began at `from`; `name` is that of the start tag.
pub fn in_end_name(bytes: &[u8], n: u32, name: Part, from: u32) -> Option<Act>
    requires within { n < length bytes.now }
    requires name { name.to ≤ n }
    requires from { from ≤ n }
    ensures { result ≡ in_end_name bytes.now n name from }
{
    let byte = bytes[n as usize];
    let place = name.from as usize + (n as usize - from as usize);
    if place >= name.to as usize {
        return in_end_white(byte);
    }
    (byte == bytes[place]).then_some(Act::Go(Phase::EndName(from)))
}
