//! How active chosen nets are.

ghost use Rattle.std.specs.Prelude.{◌≡◌, IfOk};
ghost use Rattle.cmb_activity.specs.Texts.{activity_table};
ghost use Rattle.cmb_design_model.specs.Exact.{nets_of};
ghost use Rattle.cmb_dump.specs.Shown.{AreAmong};

use crate::part::part_of;
use cmb_activity::activity_text;
use cmb_design_model::Design;
use std::alloc::{AllocError, Global};

/// How active chosen nets of a design's run are, which rise, as the table that `activity_text` makes. Only nets on
/// which a chosen one depends are simulated. Errors: memory was refused.
pub fn chosen_activity_text(
    alloc: Global,
    design: &Design,
    chosen: &[u32],
) -> Result<Vec<u8>, AllocError>
    requires { AreAmong (nets_of design.now) chosen.now }
    ensures { IfOk result (λ text. text.items ≡ activity_table design.now chosen.now) }
{
    let part = part_of(alloc, design, chosen)?;
    let text = activity_text(alloc, &part.design, &part.nets);
    drop(part);
    text
}
