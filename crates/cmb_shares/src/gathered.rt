//! Changes that many shares send, gathered by the nets' numbers.

ghost use Rattle.std.specs.Prelude.{◌≡◌, ℕ, ◌+◌, ◌*◌, ◌^◌, ◌<◌, ◌≤◌, [], ◌∷◌, All, length, IfOk, OnOk};
ghost use Rattle.cmb_shares.specs.Inner.Gatherings.{Adds, AreTaken, IsBlank, IsTable, table_of};

use cmb_wave::Level;
use cmb_words::{Changed, Places, Word};
use std::alloc::{AllocError, Global};
use std::marker::Model;

// About how many changes are told at a time: some microseconds. An estimate.
const PIECE: usize = 256;

/// The words of nets that changed in a window, by the nets' numbers.
#[derive(Drop)]
pub(crate) struct Gathered {
    /// For each net a word, which counts where the net is marked.
    words: Vec<Word>,
    /// Which nets are marked, 64 of them in each number.
    marks: Vec<u64>,
}

impl Model for Gathered {
    ghost use Rattle.cmb_shares.specs.Inner.Gatherings.{IsTable, Table, table_of};

    ghost Value = { Table };

    ghost view = { λ gathered. table_of gathered.words.items gathered.marks.items };

    ghost invariant = { λ gathered. IsTable (table_of gathered.words.items gathered.marks.items) };
}

// Tells the nets that are marked in a number, behind those before them.
#[inline]
fn tell_number(
    words: &[Word],
    marks: &[u64],
    k: usize,
    all: &mut Vec<Changed>,
) -> Result<(), AllocError>
    requires table { IsTable (table_of words.now marks.now) }
    requires within { k < length marks.now }
    requires before { AreTaken (table_of words.now marks.now) (64 * k) all.old.items }
    ensures { OnOk result (AreTaken (table_of words.now marks.now) (64 * k + 64) all.new.items) }
{
    // All nets of the number find room then.
    all.reserve(64)?;
    let places = marks[k];
    for place in Places::of(places) {
        let net = 64 * k + place as usize;
        // Plane by plane, so that the word goes through registers.
        let word = &words[net];
        all.push_reserved(Changed {
            net: net as u16,
            word: Word {
                ones: word.ones,
                unknown: word.unknown,
            },
        });
    }
    Ok(())
}

impl Gathered {
    /// None yet, with room for so many nets.
    pub(crate) fn new(alloc: Global, nets: usize) -> Result<Gathered, AllocError>
        requires { nets ≤ 2 ^ 16 }
        ensures { IfOk result (IsBlank nets) }
    {
        Ok(Gathered {
            words: vec![in alloc; Word::constant(Level::Zero); nets]?,
            marks: vec![in alloc; 0; nets / 64 + 1]?,
        })
    }

    // Adds a change.
    #[inline]
    fn put(&mut self, one: Changed)
        requires { one.net < length self.old.words }
        ensures { Adds (one ∷ []) self.old self.new }
    {
        let net = one.net as usize;
        self.words[net] = one.word;
        self.marks[net / 64] |= 1 << (net % 64);
    }

    /// Adds the changes that a share sent. Of a net that is there already the new word is kept.
    pub(crate) fn add(&mut self, changes: &[Changed])
        requires { All (λ one. one.net < length self.old.words) changes.now }
        ensures { Adds changes.now self.old self.new }
    {
        for one in changes {
            self.put(*one);
        }
    }

    /// How many numbers of marks there are.
    pub(crate) fn numbers(&self) -> usize
        ensures { result ≡ length self.now.marks }
    {
        self.marks.len()
    }

    /// Tells some marked nets more by rising number, from a number of marks on, behind those before them. Says at which
    /// number the next ones begin.
    pub(crate) fn tell(&self, from: usize, all: &mut Vec<Changed>) -> Result<usize, AllocError>
        requires within { from ≤ length self.now.marks }
        requires before { AreTaken self.now (64 * from) all.old.items }
        ensures within { IfOk result (λ next. next ≤ length self.now.marks) }
        ensures taken { IfOk result (λ next. AreTaken self.now (64 * next) all.new.items) }
        ensures whole { IfOk result (λ next. length self.now.marks ≤ next
            → AreTaken self.now (length self.now.words) all.new.items) }
    {
        let most = all.len().saturating_add(PIECE);
        let mut next = from;
        while next < self.marks.len() && all.len() < most {
            tell_number(&self.words, &self.marks, next, all)?;
            next += 1;
        }
        Ok(next)
    }

    /// Forgets all changes.
    pub(crate) fn clear(&mut self)
        ensures { IsBlank (length self.old.words) self.new }
    {
        self.marks.fill(0);
    }
}
