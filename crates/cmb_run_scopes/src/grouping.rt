//! Nets by the scopes in which they are.

ghost use Rattle.std.specs.Prelude.{◌≡◌, ◌<◌, ◌++◌, ◌∷◌, [], bytes_eq, length, map, All, IfOk, OnOk};
ghost use Rattle.indexmap.specs.IndexSet.{insert_key};
ghost use Rattle.cmb_run_scopes.specs.Inner.Grouped.{first, grouped, placed};

use crate::parts::Path;
use cmb_netlist::Name;
use indexmap::IndexSet;
use std::alloc::{AllocError, Global};
use std::marker::Model;

/// A scope, and the nets in it and in the scopes inside.
#[derive(Drop)]
pub struct Scope {
    name: Name,
    places: Vec<u32>,
}

impl Model for Scope {
    ghost use Rattle.std.specs.Prelude.{List, ℕ};

    ghost Value = { List ℕ × List ℕ };

    ghost view = { λ a. (a.name, a.places.items) };
}

impl Scope {
    // A scope with one net.
    fn new(alloc: Global, name: &[u8], place: u32) -> Result<Scope, AllocError>
        ensures { IfOk result (λ scope. scope ≡ (name.now, place ∷ [])) }
    {
        let mut places = Vec::new(alloc);
        places.push(place)?;
        Ok(Scope {
            name: Name::new(alloc, name)?,
            places,
        })
    }

    fn add(&mut self, place: u32) -> Result<(), AllocError>
        ensures { OnOk result (self.new ≡ (self.old.0, self.old.1 ++ place ∷ [])) }
    {
        self.places.push(place)?;
        Ok(())
    }

    /// Its name.
    pub fn name(&self) -> &[u8]
        ensures { result.now ≡ self.now.0 }
    {
        self.name.as_bytes()
    }

    /// Its nets.
    pub fn places(&self) -> &[u32]
        ensures { result.now ≡ self.now.1 }
    {
        &self.places
    }
}

// Puts a net into its scope, which is opened where it is the first one.
fn put(
    alloc: Global,
    seen: &mut IndexSet<Name>,
    scopes: &mut Vec<Scope>,
    name: &[u8],
    place: u32,
) -> Result<(), AllocError>
    requires { map first scopes.old.items ≡ seen.old.keys }
    ensures seen { OnOk result (seen.new.keys ≡ insert_key bytes_eq seen.old.keys name.now) }
    ensures scopes { OnOk result (scopes.new.items ≡ placed name.now place scopes.old.items) }
{
    let (index, is_first) = seen.insert_full(Name::new(alloc, name)?)?;
    if is_first {
        scopes.push(Scope::new(alloc, name, place)?)?;
    } else {
        scopes[index].add(place)?;
    }
    Ok(())
}

/// The scopes of a level in which nets are, each with its nets, in the order of their first nets.
pub(crate) fn scopes_of(
    alloc: Global,
    paths: &[Path],
    level: usize,
    places: &[u32],
) -> Result<Vec<Scope>, AllocError>
    requires places { All (λ place. place < length paths.now) places.now }
    requires level { level < 256 }
    ensures { IfOk result (λ found. found.items ≡ grouped paths.now level places.now) }
{
    let mut seen = IndexSet::new(alloc);
    let mut found = Vec::new(alloc);
    for place in places {
        let path = &paths[*place as usize];
        if path.len() > level + 1 {
            put(alloc, &mut seen, &mut found, path.part(level), *place)?;
        }
    }
    Ok(found)
}
