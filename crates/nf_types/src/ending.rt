//! The ends of blocks.

ghost use Rattle.std.specs.Prelude.{◌≡◌, ◌+◌, ◌<◌, ◌^◌, length, IfOk};
ghost use Rattle.nf_base.specs.View as checked;
ghost use Rattle.nf_tree.specs.View as syntax;
ghost use Rattle.nf_types.specs.Blocks.{checked_ending};
ghost use Rattle.nf_types.specs.Places.{ending_places};
ghost use Rattle.nf_types.specs.View.{variables_of};

use crate::objects::Objects;
use crate::value::value;
use crate::variables::Variables;
use nf_base::block::Ending as Checked;
use nf_tree::Ending;
use std::alloc::{AllocError, Global};

/// The checked end that an end of the text stands for.
pub fn ending(
    alloc: Global,
    place: u32,
    objects: &Objects,
    scope: &Variables,
    text: &Ending,
) -> Result<Checked, AllocError>
    requires places { place + ending_places (syntax.ending_of text.now) < 2 ^ 32 }
    requires in_scope { length (variables_of scope.now) < 2 ^ 32 }
    ensures { IfOk result (λ e. checked.ending_of e
        ≡ checked_ending place objects.now (variables_of scope.now) (syntax.ending_of text.now)) }
{
    match text {
        Ending::FallsOff => Ok(Checked::FallsOff),
        Ending::Missing => Ok(Checked::FallsOff),
        Ending::Forward(port) => Ok(Checked::Forward(value(alloc, place, objects, scope, port)?)),
        Ending::Flood => Ok(Checked::Flood),
        Ending::Discard => Ok(Checked::Discard),
    }
}
