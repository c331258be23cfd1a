//! How many groups a launch has.
ghost use Rattle.std.specs.Prelude.{◌≡◌};
ghost use Rattle.cl_model.specs.Sizes.{group_count};
ghost use Rattle.cl_model.specs.View.{launch_of};
ghost use Rattle.lane_machine.specs.Sizes.{HasSizes};

use cl_model::Launch;
use lane_machine::queries::{groups, whole};

/// How many groups there are.
pub(crate) fn groups_in_launch(launch: &Launch) -> u64
    requires { HasSizes (launch_of launch.now) }
    ensures { result ≡ group_count (launch_of launch.now) }
{
    whole(&groups(launch))
}
