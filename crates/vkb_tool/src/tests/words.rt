use super::*;
use std::process::Abort;
use std::test::Fail;
use vkb_bytes::Text;

#[test]
fn misplaced_words_are_told(rt: HostRuntime) -> Result<(), Fail> {
    let alloc = rt.alloc();
    for (words, written) in [
        ("", "usage 1\n"),
        ("check - a.adoc", "usage 4\n"),
        ("check - a.adoc vulkan", "usage 4\n"),
        ("check r.xml a.adoc -", "usage 4\n"),
        ("check r.xml a.adoc vul_kan", "usage 4\n"),
        ("check r.xml a.adoc", "usage 4\n"),
        ("check r.xml a.adoc vulkan X", "usage 5\n"),
        ("check - a.adoc - X", "usage 5\n"),
        ("check - a.adoc - +", "usage 5\n"),
        ("check - a.adoc - +X +a.b +Y", "usage 6\n"),
        ("check", "usage 2\n"),
        ("check a.adoc", "usage 3\n"),
        ("build", "usage 2\n"),
        ("build -", "usage 3\n"),
        ("build - a.adoc", "usage 4\n"),
        ("build - a.adoc vulkan", "usage 4\n"),
        ("build r.xml a.adoc -", "usage 4\n"),
        ("build - a.adoc - +Y X", "usage 6\n"),
        ("build - a.adoc - X Y +Z +", "usage 8\n"),
        ("build - a.adoc - X +a.b", "usage 6\n"),
        ("header", "usage 2\n"),
        ("header - - X", "usage 2\n"),
        ("header r.xml", "usage 3\n"),
        ("header r.xml - X", "usage 3\n"),
        ("header r.xml vul_kan X", "usage 3\n"),
        ("header r.xml vulkan +X", "usage 4\n"),
        ("header r.xml vulkan X X + Y", "usage 6\n"),
        ("headers r.xml vulkan", "usage 1\n"),
    ] {
        says(&rt, alloc, "", words, written, Status::Usage)?;
    }
    Ok(())
}

#[test]
fn a_name_is_text_and_some(rt: HostRuntime) -> Result<(), Fail> {
    let alloc = rt.alloc();
    for (name, position) in [(b"a\xffb".as_slice(), 3), (b"".as_slice(), 3)] {
        let mut words = words_of(alloc, "check -")?;
        words.push(name.to_vec(alloc)?)?;
        words.push(b"-".to_vec(alloc)?)?;
        assert!(rt; words.len() < 100);
        let fault = read_words(alloc, &words).err();
        assert_eq!(rt; fault, Some(WordFault::Usage { position }));
    }
    let words = words_of(alloc, "check - é.adoc - +A-1 +_")?;
    assert!(rt; words.len() < 100);
    checks_two(&rt, read_words(alloc, &words)?);
    let words = words_of(alloc, "check vk.xml é.adoc vulkan2")?;
    assert!(rt; words.len() < 100);
    checks_over(&rt, read_words(alloc, &words)?);
    Ok(())
}

/// Asserts that a request is a check over `vk.xml` for the API `vulkan2`.
fn checks_over(rt: &impl Abort, request: Request) {
    match request {
        Request::Check {
            registry,
            root,
            api,
            always,
        } => {
            assert!(rt; is_named(&registry, "vk.xml"));
            assert_eq!(rt; root.as_str(), "é.adoc");
            assert_eq!(rt; api.as_slice(), b"vulkan2".as_slice());
            assert!(rt; always.as_slice().is_empty());
        }
        _ => panic!(rt; "another request"),
    }
}

/// Whether there is a file of this name.
fn is_named(file: &Option<Text>, name: &str) -> bool {
    match file {
        Some(file) => file.as_str() == name,
        None => false,
    }
}

/// Asserts that a request is a check of `é.adoc` where `A-1` and `_` are always set.
fn checks_two(rt: &impl Abort, request: Request) {
    match request {
        Request::Check {
            registry,
            root,
            api,
            always,
        } => {
            assert!(rt; registry.is_none());
            assert_eq!(rt; root.as_str(), "é.adoc");
            assert_eq!(rt; api.as_slice(), b"-".as_slice());
            assert_eq!(rt; always.as_slice().len(), 2);
            assert_eq!(rt; always.as_slice()[0].as_slice(), b"A-1".as_slice());
            assert_eq!(rt; always.as_slice()[1].as_slice(), b"_".as_slice());
        }
        _ => panic!(rt; "another request"),
    }
}
