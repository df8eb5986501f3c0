//! The parts of names.

ghost use Rattle.std.specs.Prelude.{◌≡◌, ◌<◌, ◌==◌, ◌∷◌, [], get_or, length, position, IfOk};
ghost use Rattle.std.specs.List.{list_any};
ghost use Rattle.cmb_run_scopes.specs.Scopes.{parts, pieces};

use cmb_netlist::Name;
use std::alloc::{AllocError, Global};
use std::marker::Model;

/// The parts of a net's name, the outermost scope first.
#[derive(Drop)]
pub struct Path {
    parts: Vec<Name>,
}

impl Model for Path {
    ghost use Rattle.std.specs.Prelude.{List, ℕ};

    ghost Value = { List (List ℕ) };

    ghost view = { λ a. a.parts.items };
}

// Where the first dot is.
fn first_dot(bytes: &[u8]) -> Option<usize>
    ensures { result ≡ position (λ byte. byte == 46) bytes.now }
{
    bytes.iter().position(|byte| *byte == b'.')
}

// What stands between the dots of a name.
fn pieces_of(alloc: Global, name: &[u8]) -> Result<Path, AllocError>
    ensures { IfOk result (λ path. path ≡ pieces name.now) }
{
    let mut parts = Vec::new(alloc);
    let mut rest = name;
    while let Some(dot) = first_dot(rest) {
        parts.push(Name::new(alloc, &rest[..dot])?)?;
        rest = &rest[dot + 1..];
    }
    parts.push(Name::new(alloc, rest)?)?;
    Ok(Path { parts })
}

// A name as its only part.
fn whole(alloc: Global, name: &[u8]) -> Result<Path, AllocError>
    ensures { IfOk result (λ path. path ≡ name.now ∷ []) }
{
    let mut parts = Vec::new(alloc);
    parts.push(Name::new(alloc, name)?)?;
    Ok(Path { parts })
}

impl Path {
    /// The parts of a name. They are refused only where memory runs out.
    #[tactic(auto, unfolding(crate::specs::Scopes::parts))]
    pub fn new(alloc: Global, name: &[u8]) -> Result<Path, AllocError>
        ensures { IfOk result (λ path. path ≡ parts name.now) }
    {
        let pieces = pieces_of(alloc, name)?;
        if pieces.has_empty() {
            return whole(alloc, name);
        }
        Ok(pieces)
    }

    // Whether a part is empty.
    fn has_empty(&self) -> bool
        ensures { result ≡ list_any (λ piece. length piece == 0) self.now }
    {
        self.parts.iter().any(|part| part.as_bytes().is_empty())
    }

    /// How many parts there are.
    pub fn len(&self) -> usize
        ensures { result ≡ length self.now }
    {
        self.parts.len()
    }

    /// A part.
    pub fn part(&self, level: usize) -> &[u8]
        requires { level < length self.now }
        ensures { result.now ≡ get_or self.now level [] }
    {
        self.parts[level].as_bytes()
    }
}
