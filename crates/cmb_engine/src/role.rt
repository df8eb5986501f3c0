//! What an engine does with each net.

ghost use Rattle.std.specs.Prelude.{◌≡◌};
ghost use Rattle.cmb_engine.specs.Inner.Roles.{drives, gives, lacks};

/// What an engine does with a net: it drives it, is given it by others, or has nothing to do with it.
#[derive(Clone, Copy)]
pub(crate) enum Role {
    Driven,
    Given,
    Absent,
}

/// Whether a net is driven. Where no roles are said, all nets are.
#[inline]
pub(crate) fn is_driven(roles: &[Role], net: usize) -> bool
    ensures { result ≡ drives roles.now net }
{
    match roles.get(net) {
        Some(Role::Given) | Some(Role::Absent) => false,
        Some(Role::Driven) | None => true,
    }
}

/// Whether a net is given.
#[inline]
pub(crate) fn is_given(roles: &[Role], net: usize) -> bool
    ensures { result ≡ gives roles.now net }
{
    match roles.get(net) {
        Some(Role::Given) => true,
        Some(Role::Driven) | Some(Role::Absent) | None => false,
    }
}

/// Whether a net is absent.
#[inline]
pub(crate) fn is_absent(roles: &[Role], net: usize) -> bool
    ensures { result ≡ lacks roles.now net }
{
    match roles.get(net) {
        Some(Role::Absent) => true,
        Some(Role::Driven) | Some(Role::Given) | None => false,
    }
}
