//! What calls answer.

ghost use Rattle.std.specs.Prelude.{◌≡◌, IfOk, Ok};

use std::fmt::Debug;
use std::test::Fail;

/// What a call answered, its error as a test's own. A function that owns a design ends with it, where `?` would drop
/// the design at two places.
pub fn or_fail<T, E: Debug + Drop>(outcome: Result<T, E>) -> Result<T, Fail>
    ensures { IfOk result (λ value. outcome ≡ Ok value) }
{
    Ok(outcome?)
}
