//! What is given of the nets that others drive.

ghost use Rattle.std.specs.Prelude.{◌≡◌, ℕ, ◌*◌, ◌<◌, ◌≤◌, true, ◌∷◌, All, length};
ghost use Rattle.cmb_words.specs.Word.{level_at_place};
ghost use Rattle.cmb_engine.specs.Inner.Bits.{has};
ghost use Rattle.cmb_engine.specs.Inner.Cells.{AreBelow, AreMarked, HaveReaders, readers_at};
ghost use Rattle.cmb_engine.specs.Inner.Gifts.{is_written, AreWritten};
ghost use Rattle.cmb_engine.specs.Inner.Roles.{gives};
ghost use Rattle.cmb_engine.specs.Inner.Words.{levels_of, Writes};

use crate::fanout::Fanout;
use crate::marks::Marks;
use crate::role::{Role, is_given};
use crate::settle::put_word;
use crate::words::Words;
use cmb_words::{Changed, spliced};

/// Writes the words of the given nets from a place on, and marks who reads them.
#[inline(never)]
pub(crate) fn write_given(
    given: &[Changed],
    roles: &[Role],
    fanout: &Fanout,
    words: &mut Words,
    live: &mut Marks,
    marks: &mut Marks,
    first: u32,
)
    requires slots { (slot : ℕ) → gives roles.now slot ≡ true → slot < length words.old }
    requires first { first < 64 }
    requires lists { HaveReaders fanout.now.order fanout.now.gates (length words.old) }
    requires within { AreBelow (64 * length marks.old) fanout.now.gates }
    requires live { length words.old ≤ 64 * length live.old }
    ensures writes { Writes words.old words.new live.old live.new marks.old marks.new }
    ensures written { AreWritten roles.now given.now (levels_of words.old) (levels_of words.new) first }
    ensures news { (slot : ℕ) → is_written roles.now given.now slot ≡ true
        → AreMarked (has marks.new) (readers_at fanout.now.order fanout.now.gates slot) }
{
    for one in given {
        let net = one.net as usize;
        if is_given(roles, net) {
            let word = spliced(words.get(net), one.word, first);
            put_word(net, word, fanout.gates_of(net), words, live, marks);
        }
    }
}
