use super::read_conditions;
use crate::options::read_options;
use crate::options::tests::registry_of;
use doc_cond::LineKind;
use doc_tree::{Cond, CondId, DocLine, Document};
use std::alloc::Global;
use std::process::Abort;
use std::test::Fail;
use vkb_bytes::{Bytes, Listed};
use vkb_formula::NameTable;
use vkb_text::{Line, Span};

/// What a condition wants of its names.
#[derive(Clone, Copy)]
struct Directive {
    negated: bool,
    any: bool,
}

const IF_ANY: Directive = Directive {
    negated: false,
    any: true,
};

const IF_ALL: Directive = Directive {
    negated: false,
    any: false,
};

const UNLESS_ANY: Directive = Directive {
    negated: true,
    any: true,
};

const UNLESS_ALL: Directive = Directive {
    negated: true,
    any: false,
};

/// A document under construction.
#[derive(Drop)]
struct Draft {
    names: NameTable,
    conds: Vec<Cond>,
    lines: Vec<DocLine>,
}

impl Draft {
    fn new(alloc: Global) -> Draft {
        Draft {
            names: NameTable::new(alloc),
            conds: Vec::new(alloc),
            lines: Vec::new(alloc),
        }
    }

    /// Adds a condition on the words of a text, within another.
    fn open(
        &mut self,
        alloc: Global,
        directive: Directive,
        names: &str,
        within: Option<CondId>,
    ) -> Result<Option<CondId>, Fail> {
        let mut ids = Vec::new(alloc);
        for name in names.split(' ') {
            ids.push(self.names.intern(name.as_bytes())?)?;
        }
        let id = CondId(u32::try_from(self.conds.len()).unwrap_or(u32::MAX));
        self.conds.push(Cond {
            negated: directive.negated,
            any: directive.any,
            names: Listed::from_vec(ids),
            within,
        })?;
        Ok(Some(id))
    }

    /// Adds a line within a condition, and with one of its own or none.
    fn line(&mut self, within: Option<CondId>, own: Option<CondId>) -> Result<(), Fail> {
        self.lines.push(DocLine {
            line: Line {
                file: 0,
                number: 1,
                span: Span { from: 0, to: 0 },
            },
            kind: LineKind::Plain,
            within,
            own,
        })?;
        Ok(())
    }

    fn finish(self, alloc: Global) -> Document {
        let Draft {
            names,
            conds,
            lines,
        } = self;
        Document {
            files: Listed::from_vec(Vec::new(alloc)),
            names,
            conds: Listed::from_vec(conds),
            lines: Listed::from_vec(lines),
        }
    }
}

/// A `+` for each line that a choice keeps, and a `-` for each other, where `VK_F` is always set.
fn kept_at(rt: &impl Abort, alloc: Global, d: &Document, choice: &[bool]) -> Result<Vec<u8>, Fail> {
    let always = [Bytes::from_slice(alloc, b"VK_F")?];
    let registry = registry_of(alloc, &d.names, always.as_slice())?;
    let options = read_options(alloc, d, &registry, always.as_slice())?;
    assert!(rt; options.len() as usize == choice.len());
    let conditions = read_conditions(alloc, d, &options)?;
    let values = conditions.pool.values(choice)?;
    let mut kept = Vec::new(alloc);
    for line in d.lines.as_slice() {
        let node = conditions.node_of(line);
        let is_kept = values.as_slice().get(node.0 as usize) == Some(&true);
        kept.push(if is_kept { b'+' } else { b'-' })?;
    }
    Ok(kept)
}

/// Asserts which lines a choice keeps.
fn keeps(
    rt: &impl Abort,
    alloc: Global,
    d: &Document,
    choice: &[bool],
    wanted: &str,
) -> Result<(), Fail> {
    let kept = kept_at(rt, alloc, d, choice)?;
    assert_eq!(rt; kept.as_slice(), wanted.as_bytes(), "{choice:?}");
    Ok(())
}

/// Lines within one another, and two with conditions of their own.
fn nested(alloc: Global) -> Result<Document, Fail> {
    let mut draft = Draft::new(alloc);
    draft.line(None, None)?;
    let one_of_them = draft.open(alloc, IF_ANY, "VK_A VK_B", None)?;
    draft.line(one_of_them, None)?;
    let first_alone = draft.open(alloc, UNLESS_ANY, "VK_B", one_of_them)?;
    draft.line(first_alone, None)?;
    let own = draft.open(alloc, IF_ALL, "VK_A VK_C", first_alone)?;
    draft.line(first_alone, own)?;
    let both = draft.open(alloc, IF_ALL, "VK_A VK_B", one_of_them)?;
    draft.line(both, None)?;
    let by_itself = draft.open(alloc, UNLESS_ALL, "VK_A VK_C", None)?;
    draft.line(None, by_itself)?;
    Ok(draft.finish(alloc))
}

#[test]
fn lines_are_kept_by_all_conditions_round_them(rt: HostRuntime) -> Result<(), Fail> {
    let alloc = rt.alloc();
    let d = nested(alloc)?;
    keeps(&rt, alloc, &d, &[false, false, false], "+----+")?;
    keeps(&rt, alloc, &d, &[true, false, false], "+++--+")?;
    keeps(&rt, alloc, &d, &[false, true, false], "++---+")?;
    keeps(&rt, alloc, &d, &[true, true, false], "++--++")?;
    keeps(&rt, alloc, &d, &[false, false, true], "+----+")?;
    keeps(&rt, alloc, &d, &[true, false, true], "++++--")?;
    keeps(&rt, alloc, &d, &[false, true, true], "++---+")?;
    keeps(&rt, alloc, &d, &[true, true, true], "++--+-")
}

/// Lines whose conditions name what is always set.
fn with_a_fixed_name(alloc: Global) -> Result<Document, Fail> {
    let mut draft = Draft::new(alloc);
    let always = draft.open(alloc, IF_ANY, "VK_F", None)?;
    draft.line(always, None)?;
    let never = draft.open(alloc, UNLESS_ANY, "VK_F", always)?;
    draft.line(never, None)?;
    let first = draft.open(alloc, IF_ALL, "VK_A VK_F VK_A", always)?;
    draft.line(first, None)?;
    let any = draft.open(alloc, IF_ANY, "VK_B VK_F", first)?;
    draft.line(any, None)?;
    let neither = draft.open(alloc, UNLESS_ANY, "VK_A VK_B", None)?;
    draft.line(neither, None)?;
    let not_both = draft.open(alloc, UNLESS_ALL, "VK_A VK_B", None)?;
    draft.line(not_both, None)?;
    Ok(draft.finish(alloc))
}

#[test]
fn names_that_are_always_set_keep_one_value(rt: HostRuntime) -> Result<(), Fail> {
    let alloc = rt.alloc();
    let d = with_a_fixed_name(alloc)?;
    keeps(&rt, alloc, &d, &[false, false], "+---++")?;
    keeps(&rt, alloc, &d, &[true, false], "+-++-+")?;
    keeps(&rt, alloc, &d, &[false, true], "+----+")?;
    keeps(&rt, alloc, &d, &[true, true], "+-++--")
}

#[test]
fn a_document_of_no_conditions_keeps_its_lines(rt: HostRuntime) -> Result<(), Fail> {
    let alloc = rt.alloc();
    let mut draft = Draft::new(alloc);
    draft.line(None, None)?;
    draft.line(None, None)?;
    let d = draft.finish(alloc);
    keeps(&rt, alloc, &d, &[], "++")
}

/// Asserts whether the last of ten thousand conditions, each within the one before and with a name of its own, is met
/// where one option isn't chosen.
fn innermost_is_met(
    rt: &impl Abort,
    alloc: Global,
    left_out: usize,
    want: &str,
) -> Result<(), Fail> {
    let mut draft = Draft::new(alloc);
    let mut choice = Vec::new(alloc);
    let mut within = None;
    for number in 0..10_000u32 {
        let written = format!(in alloc; "{number}")?;
        let name = draft.names.intern(written.as_bytes())?;
        draft.conds.push(Cond {
            negated: false,
            any: true,
            names: Listed::from_vec([name].to_vec(alloc)?),
            within,
        })?;
        within = Some(CondId(number));
        choice.push(number as usize != left_out)?;
    }
    draft.line(within, None)?;
    let d = draft.finish(alloc);
    keeps(rt, alloc, &d, choice.as_slice(), want)
}

#[test]
fn ten_thousand_conditions_are_read(rt: HostRuntime) -> Result<(), Fail> {
    let alloc = rt.alloc();
    innermost_is_met(&rt, alloc, 10_000, "+")?;
    innermost_is_met(&rt, alloc, 0, "-")?;
    innermost_is_met(&rt, alloc, 9_999, "-")
}
