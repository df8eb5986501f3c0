//! The tokens of a netlist's text.
ghost use Rattle.std.specs.Prelude.{◌≡◌, ℕ, ◌+◌, ◌<◌, ◌≤◌, ◌≢◌, [], ◌∷◌, length, slice_index, take, drop, true, false};
ghost use Rattle.std.specs.Prelude.{MatchOption, IfSome};
ghost use Rattle.cmb_bench.specs.declared.text.Class.TheVariants.{End};
ghost use Rattle.cmb_bench.specs.Text.{class_of, continues, tokens_from, word_of};
ghost use Rattle.cmb_bench.specs.Inner.Snippet.{BeginsToken, snippets_of};

/// What a byte is at the front of a snippet of the text. A token has the class of its first byte, and `End` stands at
/// the end of input.
#[derive(Clone, Copy)]
pub enum Class {
    White,
    Comment,
    Open,
    Close,
    Comma,
    Equals,
    Name,
    Bad,
    End,
}

/// A token, with the number of the line on which it begins.
#[derive(Clone, Copy)]
pub struct Token<'a> {
    pub class: Class,
    pub text: &'a [u8],
    pub line: u32,
}

/// The text that is left, the number of its first line, and the line of the last token before it.
#[derive(Clone, Copy)]
pub struct Cursor<'a> {
    pub rest: &'a [u8],
    pub line: u32,
    pub last: u32,
}

#[inline(always)]
fn class_of(byte: u8) -> Class
    ensures { result ≡ class_of byte }
{
    if byte == b' ' || byte == b'\t' || byte == b'\r' || byte == b'\n' {
        Class::White
    } else if byte == b'#' {
        Class::Comment
    } else if byte == b'(' {
        Class::Open
    } else if byte == b')' {
        Class::Close
    } else if byte == b',' {
        Class::Comma
    } else if byte == b'=' {
        Class::Equals
    } else if byte >= 33 && byte <= 126 {
        Class::Name
    } else {
        Class::Bad
    }
}

/// Whether a snippet of this class goes on with this byte.
#[inline(always)]
fn continues(class: Class, byte: u8) -> bool
    ensures { result ≡ continues class byte }
{
    match class {
        Class::Comment => byte != b'\n',
        Class::Name => class_of(byte) == Class::Name,
        _ => false,
    }
}

/// With how many bytes from the front a snippet of this class goes on.
#[inline(always)]
fn run_len(bytes: &[u8], class: Class) -> usize
    ensures within { result ≤ length bytes.now }
    ensures before { (k : ℕ) → k < result → continues class (slice_index bytes.now k) ≡ true }
    ensures stops { result < length bytes.now → continues class (slice_index bytes.now result) ≡ false }
{
    for (i, byte) in bytes.iter().enumerate() {
        let goes_on = continues(class, *byte);
        if !goes_on {
            return i;
        }
    }
    bytes.len()
}

/// What follows the white byte or the comment at the front of a text, and how many line feeds are before it.
#[inline(always)]
fn behind_blank(bytes: &[u8]) -> Option<(&[u8], u32)>
    ensures tokens { MatchOption result (BeginsToken bytes.now) (λ p. (line last : ℕ)
        → tokens_from line last (snippets_of bytes.now) ≡ tokens_from (line + p.1) last (snippets_of p.0.now)) }
    ensures shorter { IfSome result (λ p. length p.0.now < length bytes.now) }
    ensures fits { IfSome result (λ p. p.1 + length p.0.now ≤ length bytes.now) }
{
    let (first, after) = bytes.split_first()?;
    match class_of(*first) {
        Class::White => Some((after, u32::from(*first == b'\n'))),
        Class::Comment => Some((&after[run_len(after, Class::Comment)..], 0)),
        _ => None,
    }
}

/// The class of the token at the front of a text, and its length.
#[inline(always)]
fn first_token(bytes: &[u8]) -> Option<(Class, usize)>
    requires { BeginsToken bytes.now }
    ensures within { IfSome result (λ t. (0 < t.1) × (t.1 ≤ length bytes.now)) }
    ensures class { IfSome result (λ t. t.0 ≢ End) }
    ensures tokens { MatchOption result (bytes.now ≡ []) (λ t. (line last : ℕ)
        → tokens_from line last (snippets_of bytes.now)
        ≡ record { word = word_of t.0 (take t.1 bytes.now); line = line }
        ∷ tokens_from line line (snippets_of (drop t.1 bytes.now))) }
{
    let (first, after) = bytes.split_first()?;
    match class_of(*first) {
        Class::Name => Some((Class::Name, 1 + run_len(after, Class::Name))),
        class => Some((class, 1)),
    }
}

impl<'a> Token<'a> {
    ghost use Rattle.std.specs.Prelude.{◌≡◌, ◌≢◌, false, option_map, IsTrue, IsSome};
    ghost use Rattle.cmb_bench.specs.declared.text.Class.TheVariants.{End};
    ghost use Rattle.cmb_bench.specs.Inner.Word.{has_class, is_end, name_in};
    ghost use Rattle.cmb_bench.specs.Inner.Scan.{lexeme};

    /// The name, if the token is one.
    pub fn name(self) -> Option<&'a [u8]>
        ensures name { option_map (λ n. n.now) result ≡ name_in (lexeme self.entry).word }
        ensures inner { IsSome result → is_end (lexeme self.entry).word ≡ false }
    {
        match self.class {
            Class::Name => Some(self.text),
            _ => None,
        }
    }

    /// Whether the token is of a class.
    pub fn is(self, class: Class) -> bool
        ensures value { result ≡ has_class class (lexeme self.entry).word }
        ensures inner { IsTrue result → class ≢ End → is_end (lexeme self.entry).word ≡ false }
    {
        self.class == class
    }
}

impl<'a> Cursor<'a> {
    ghost use Rattle.std.specs.Prelude.{◌≡◌, ℕ, ◌+◌, ◌^◌, ◌<◌, ◌≤◌, ◌≢◌, length, [], ◌∷◌, false};
    ghost use Rattle.cmb_bench.specs.declared.text.Class.TheVariants.{End};
    ghost use Rattle.cmb_bench.specs.Text.{tokens_of};
    ghost use Rattle.cmb_bench.specs.Inner.Word.{is_end};
    ghost use Rattle.cmb_bench.specs.Inner.Snippet.{BeginsToken, snippets_of};
    ghost use Rattle.cmb_bench.specs.Inner.Scan.{scan, lexeme, behind};

    #[tactic(auto, unfolding(crate::specs::Inner::Scan::scan))]
    pub fn new(text: &'a [u8]) -> Self
        ensures tokens { scan result ≡ tokens_of (snippets_of text.now) }
        ensures whole { result.rest.now ≡ text.now }
        ensures line { result.line ≡ 1 }
    {
        Cursor {
            rest: text,
            line: 1,
            last: 1,
        }
    }

    /// Goes on to the next token, or to the end of input.
    #[inline(always)]
    #[tactic(auto, unfolding(crate::specs::Inner::Scan::scan))]
    fn skip_blanks(&mut self)
        requires { self.old.line + length self.old.rest.now < 2 ^ 32 }
        ensures token { BeginsToken self.new.rest.now }
        ensures scan { scan self.old ≡ scan self.new }
        ensures fits { self.new.line + length self.new.rest.now ≤ self.old.line + length self.old.rest.now }
        ensures shorter { length self.new.rest.now ≤ length self.old.rest.now }
    {
        while let Some((rest, line_feeds)) = behind_blank(self.rest) {
            self.line += line_feeds;
            self.rest = rest;
        }
    }

    /// The next token. After the end of input comes the end of input.
    #[inline(always)]
    #[tactic(auto, unfolding(crate::specs::Inner::Scan::scan))]
    pub fn next(&mut self) -> Token<'a>
        requires { self.old.line + length self.old.rest.now < 2 ^ 32 }
        ensures token { scan self.old ≡ lexeme result ∷ behind (lexeme result).word (scan self.new) }
        ensures fits { self.new.line + length self.new.rest.now ≤ self.old.line + length self.old.rest.now }
        ensures shorter { length self.new.rest.now ≤ length self.old.rest.now }
        ensures goes { is_end (lexeme result).word ≡ false → length self.new.rest.now < length self.old.rest.now }
    {
        self.skip_blanks();
        let Some((class, len)) = first_token(self.rest) else {
            return Token {
                class: Class::End,
                text: self.rest,
                line: self.last,
            };
        };
        let (text, rest) = self.rest.split_at(len);
        self.last = self.line;
        self.rest = rest;
        Token {
            class,
            text,
            line: self.line,
        }
    }
}
