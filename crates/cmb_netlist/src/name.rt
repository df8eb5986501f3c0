//! The names of nets, and how they are found by their bytes.

ghost use Rattle.std.specs.Prelude.{◌≡◌, bytes_eq, IfOk};
ghost use Rattle.std.proofs.Common.{ap};
ghost use Rattle.std.specs.Cmp.{on_equiv, on_per, partial_equiv_from_equiv};
ghost use Rattle.std.specs.Cmp.Lexicographic.{bytes_decides, nat_list_eq_equiv};
ghost use Rattle.cmb_netlist.specs.Inner.Hashing.{fed_name};

use indexmap::Equivalent;
use smallvec::SmallVec;
use std::alloc::{AllocError, Global};
use std::hash::{Hash, Hasher};
use std::marker::Model;

/// Up to how many bytes names are compared byte by byte.
const SHORT: usize = 16;

// Whether two texts have the same bytes. Most names are so short that a comparison of many bytes at once doesn't pay.
fn are_same(a: &[u8], b: &[u8]) -> bool
    ensures { result ≡ bytes_eq a.now b.now }
{
    if a.len() != b.len() {
        return false;
    }
    if a.len() > SHORT {
        return a == b;
    }
    for i in 0..a.len() {
        if a[i] != b[i] {
            return false;
        }
    }
    true
}

/// A name, as its bytes. Up to 16 of them need no memory of their own.
#[derive(Drop)]
pub struct Name {
    bytes: SmallVec<u8, 16>,
}

impl Model for Name {
    ghost use Rattle.std.specs.Prelude.{List, ℕ};

    ghost Value = { List ℕ };

    ghost view = { λ a. a.bytes.items };
}

impl Name {
    /// A name of these bytes. It is refused only where memory runs out.
    pub fn new(alloc: Global, bytes: &[u8]) -> Result<Name, AllocError>
        ensures { IfOk result (λ name. name ≡ bytes.now) }
    {
        Ok(Name {
            bytes: SmallVec::from_slice(alloc, bytes)?,
        })
    }

    /// The bytes of the name.
    pub fn as_bytes(&self) -> &[u8]
        ensures { result.now ≡ self.now }
    {
        self.bytes.as_slice()
    }
}

impl PartialEq for Name {
    ghost eq = { bytes_eq };

    ghost laws = { partial_equiv_from_equiv nat_list_eq_equiv };

    fn eq(&self, other: &Name) -> bool {
        self.as_bytes() == other.as_bytes()
    }
}

impl Eq for Name {
    ghost laws = { nat_list_eq_equiv };
}

// All bytes at once: a slice would be hashed byte by byte.
impl Hash for Name {
    ghost hash_input = { fed_name };

    ghost respects_eq = { λ a b same. ap fed_name ((bytes_decides a b).0 same) };

    fn hash<H: Hasher>(&self, state: &mut H) {
        state.write(self.as_bytes());
    }
}

/// A name as a text spells it, to look one up by.
#[derive(Clone, Copy)]
pub struct Spelled<'a> {
    /// Its bytes.
    pub bytes: &'a [u8],
}

impl<'a> PartialEq for Spelled<'a> {
    ghost eq = { λ a b. bytes_eq a.bytes.now b.bytes.now };

    ghost laws = { on_per (λ a. a.bytes.now) (partial_equiv_from_equiv nat_list_eq_equiv) };

    fn eq(&self, other: &Spelled<'a>) -> bool {
        self.bytes == other.bytes
    }
}

impl<'a> Eq for Spelled<'a> {
    ghost laws = { on_equiv (λ a. a.bytes.now) nat_list_eq_equiv };
}

impl<'a> Hash for Spelled<'a> {
    ghost hash_input = { λ a. fed_name a.bytes.now };

    ghost respects_eq = { λ a b same. ap fed_name ((bytes_decides a.bytes.now b.bytes.now).0 same) };

    fn hash<H: Hasher>(&self, state: &mut H) {
        state.write(self.bytes);
    }
}

impl<'a> Equivalent<Name> for Spelled<'a> {
    ghost equivalent = { λ a. bytes_eq a.bytes.now };

    ghost respects_hash = { λ a b same. ap fed_name ((bytes_decides a.bytes.now b).0 same) };

    ghost respects_eq = { λ a. nat_list_eq_equiv.congr a.bytes.now };

    fn equivalent(&self, key: &Name) -> bool {
        are_same(self.bytes, key.as_bytes())
    }
}
