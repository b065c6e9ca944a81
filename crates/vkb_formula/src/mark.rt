ghost use Rattle.std.specs.Prelude.{◌≡◌, length, IfNone, IfSome};
ghost use Rattle.vkb_formula.specs.Expressions.{Expression, Spells, IsNoExpression, IsStop};
ghost use Rattle.vkb_formula.specs.Marks.{after_atom, step_from, step, start, run, is_whole};

use vkb_bytes::is_word_byte;

/// The most names of an expression, and how deep its parentheses nest at most.
const MOST_WORDS: u32 = 4096;

const MOST_NESTED: u32 = 64;

/// What of an atom was read.
#[derive(Clone, Copy)]
pub enum Phase {
    /// Nothing: an atom must begin.
    Start,
    /// A part of a word, at least.
    Word,
    /// A word and one colon.
    Colon,
    /// A word and two colons.
    Colons,
    /// A word, two colons and a part of another word, at least.
    Member,
    /// An expression in parentheses.
    Closed,
}

/// How far the reader of an expression has come: the parentheses that are open, and the names that have begun.
#[derive(Clone, Copy)]
pub struct Mark {
    pub phase: Phase,
    pub depth: u32,
    pub words: u32,
}

impl Mark {
    /// Before the first byte.
    pub fn start() -> Mark
        ensures { result ≡ start }
    {
        Mark {
            phase: Phase::Start,
            depth: 0,
            words: 0,
        }
    }

    fn at(self, phase: Phase) -> Mark
        ensures { result ≡ record { phase = phase; depth = self.depth; words = self.words } }
    {
        Mark {
            phase,
            depth: self.depth,
            words: self.words,
        }
    }

    /// The mark after one more byte, if an expression can go on so.
    pub fn step(self, byte: u8) -> Option<Mark>
        ensures { result ≡ step self byte }
    {
        match self.phase {
            Phase::Start => self.before_atom(byte),
            Phase::Word => self.in_word(byte),
            Phase::Colon => (byte == b':').then_some(self.at(Phase::Colons)),
            Phase::Colons => is_word_byte(byte).then_some(self.at(Phase::Member)),
            Phase::Member if is_word_byte(byte) => Some(self),
            Phase::Member | Phase::Closed => self.after_atom(byte),
        }
    }

    fn before_atom(self, byte: u8) -> Option<Mark>
        ensures { result ≡ step_from Phase.Start self.depth self.words byte }
    {
        if is_word_byte(byte) && self.words < MOST_WORDS {
            return Some(Mark {
                phase: Phase::Word,
                depth: self.depth,
                words: self.words + 1,
            });
        }
        if byte == b'(' && self.depth < MOST_NESTED {
            return Some(Mark {
                phase: Phase::Start,
                depth: self.depth + 1,
                words: self.words,
            });
        }
        None
    }

    fn in_word(self, byte: u8) -> Option<Mark>
        ensures { result ≡ step_from Phase.Word self.depth self.words byte }
    {
        if is_word_byte(byte) {
            Some(self.at(Phase::Word))
        } else if byte == b':' {
            Some(self.at(Phase::Colon))
        } else {
            self.after_atom(byte)
        }
    }

    fn after_atom(self, byte: u8) -> Option<Mark>
        ensures { result ≡ after_atom self.depth self.words byte }
    {
        if byte == b'+' || byte == b',' {
            return (self.words < MOST_WORDS).then_some(self.at(Phase::Start));
        }
        if byte == b')' && self.depth > 0 {
            return Some(Mark {
                phase: Phase::Closed,
                depth: self.depth - 1,
                words: self.words,
            });
        }
        None
    }

    /// Whether an expression may end here.
    pub fn is_whole(self) -> bool
        ensures { result ≡ is_whole self }
    {
        self.depth == 0 && matches!(self.phase, Phase::Word | Phase::Member | Phase::Closed)
    }
}

/// Where a text stops to be the front of an expression, or its length where it is a front and no expression.
pub fn stop_of(text: &[u8]) -> Option<usize>
    ensures spelled { IfNone result ((e : Expression) × Spells e text.now) }
    ensures stop { IfSome result (λ at. IsNoExpression text.now × IsStop text.now at) }
{
    let mut mark = Mark::start();
    for (at, byte) in text.iter().enumerate() {
        match mark.step(*byte) {
            Some(next) => mark = next,
            None => return Some(at),
        }
    }
    if mark.is_whole() {
        None
    } else {
        Some(text.len())
    }
}
