//! Words and choices over options that ask for nothing.
ghost use Rattle.std.specs.Prelude.{◌≡◌, ◌∷◌, [], length, IfOk};
ghost use Rattle.reg_closure.specs.Presence.{KeepBounds, SayPresence};
ghost use Rattle.reg_registry.specs.Rows.{bare_rows};

use super::*;
use reg_registry::{Choice, Registry};
use std::alloc::Global;
use std::test::Fail;
use vkb_bytes::Bytes;
use vkb_formula::{NameSet, Pool};

/// A registry that declares nothing, with two options.
fn two_options(alloc: Global) -> Result<Registry, Memory>
    ensures { IfOk result (λ r. r ≡ bare_rows ((65 ∷ []) ∷ (66 ∷ []) ∷ [])) }
{
    let first = Bytes::from_slice(alloc, b"A")?;
    let second = Bytes::from_slice(alloc, b"B")?;
    let options = vec![in alloc; first, second]?;
    Registry::bare(alloc, options.as_slice())
}

/// The word that is told as no option, if one is.
fn told(alloc: Global, r: &Registry, words: &[&[u8]]) -> Result<Option<Bytes>, Memory> {
    let mut list = Vec::new(alloc);
    for word in words {
        list.push(Bytes::from_slice(alloc, word)?)?;
    }
    match choice_of(alloc, r, list.as_slice()) {
        Err(ChoiceFault::UnknownOption { word }) => Ok(Some(word)),
        _ => Ok(None),
    }
}

#[test]
fn the_first_word_that_is_no_option_is_told(rt: HostRuntime) -> Result<(), Fail> {
    let r = two_options(rt.alloc())?;
    let table: [(&[&[u8]], &[u8]); 4] = [
        (&[b"C"], b"C"),
        (&[b"A", b"", b"D"], b""),
        (&[b"B", b"B", b"AB", b"A"], b"AB"),
        (&[b"a", b"A"], b"a"),
    ];
    for (words, unknown) in table {
        let told = told(rt.alloc(), &r, words)?;
        assert!(rt; told.is_some_and(|word| word.as_slice() == unknown));
    }
    Ok(())
}

/// Whether the node of permitted choices is true at a choice, where nothing is declared.
fn by_node(alloc: Global, r: &Registry, chosen: &[bool]) -> Result<bool, Memory>
    requires count { length chosen.now ≡ length r.now.options }
    requires presence { SayPresence r.now [] [] }
    requires bounds { KeepBounds r.now [] [] }
{
    let mut pool = Pool::new(alloc);
    let node = permit_node(alloc, r, &[], &mut pool)?;
    let values = pool.values(chosen)?;
    Ok(values[node.0 as usize])
}

/// Whether a choice of two free options is permitted, by itself and by the node of all.
fn is_free(alloc: Global, first: bool, second: bool) -> Result<bool, Memory> {
    let r = two_options(alloc)?;
    let choice = Choice {
        chosen: vec![in alloc; first, second]?,
    };
    let here = NameSet::new(alloc, 0)?;
    Ok(is_permitted(&r, &choice, &here) && by_node(alloc, &r, choice.chosen.as_slice())?)
}

#[test]
fn every_choice_of_free_options_is_permitted(rt: HostRuntime) -> Result<(), Fail> {
    assert!(rt; is_free(rt.alloc(), false, false)?);
    assert!(rt; is_free(rt.alloc(), false, true)?);
    assert!(rt; is_free(rt.alloc(), true, false)?);
    assert!(rt; is_free(rt.alloc(), true, true)?);
    Ok(())
}
