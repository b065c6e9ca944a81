use super::*;
use reg_reader::read_markup;
use std::process::Abort;
use std::test::Fail;

mod elements;
mod faults;
mod registries;
mod values;

/// What is told of a registry: its first fault with code, place and word, or a word for each other answer.
fn told_of(alloc: Global, text: &[u8]) -> Result<Vec<u8>, Fail> {
    if text.len() > 33_554_432 {
        return Err(Fail::from("too long"));
    }
    let tree = read_markup(alloc, text)?;
    match rows(alloc, text, &tree, b"vulkan") {
        Ok(_) => Ok(Vec::from_slice(alloc, b"sound")?),
        Err(fault) => words_for(alloc, fault),
    }
}

/// A fault as text.
fn words_for(alloc: Global, fault: RowFault) -> Result<Vec<u8>, Fail> {
    match fault {
        RowFault::Bad { code, at, word } => {
            let mut text = format!(in alloc; "{code:?} {at} ")?.into_bytes();
            text.extend_from_slice(word.as_slice())?;
            Ok(text)
        }
        RowFault::NoFeature => Ok(Vec::from_slice(alloc, b"no feature")?),
        RowFault::NamingCycle { names } => {
            let mut text = Vec::from_slice(alloc, b"circle")?;
            for name in names.as_slice() {
                text.push(b' ')?;
                text.extend_from_slice(name.as_slice())?;
            }
            Ok(text)
        }
        RowFault::Memory => Ok(Vec::from_slice(alloc, b"memory")?),
    }
}

const BEFORE: &[u8] = b"<registry>";

const BEHIND: &[u8] = b"<feature api='vulkan' name='VK_V' number='1.0'/></registry>";

/// A registry of these elements, without the mark `@`, before a feature.
fn registry_of(alloc: Global, elements: &[u8]) -> Result<Vec<u8>, Fail> {
    let mut text = Vec::from_slice(alloc, BEFORE)?;
    for byte in elements {
        if *byte != b'@' {
            text.push(*byte)?;
        }
    }
    text.extend_from_slice(BEHIND)?;
    Ok(text)
}

/// The place of the mark `@` in a registry of these elements.
fn mark_in(elements: &[u8]) -> usize {
    BEFORE.len() + elements.iter().position(|byte| *byte == b'@').unwrap_or(0)
}

/// Nothing is wrong with a registry of these elements.
fn sound(rt: &impl Abort, alloc: Global, elements: &[u8]) -> Result<(), Fail> {
    let text = registry_of(alloc, elements)?;
    let told = told_of(alloc, &text)?;
    assert_eq!(rt; told.as_slice(), b"sound".as_slice(), "{elements:?}");
    Ok(())
}

/// The first fault of a registry of these elements stands at the mark `@`.
fn wrong(
    rt: &impl Abort,
    alloc: Global,
    elements: &[u8],
    code: &str,
    word: &str,
) -> Result<(), Fail> {
    let text = registry_of(alloc, elements)?;
    let told = told_of(alloc, &text)?;
    let at = mark_in(elements);
    let wanted = format!(in alloc; "{code} {at} {word}")?;
    assert_eq!(rt; told.as_slice(), wanted.as_bytes());
    Ok(())
}
