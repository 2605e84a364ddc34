//! Which configs are compatible (EGL 1.5, section 2.2).
ghost use Rattle.std.specs.Prelude.{◌≡◌};
ghost use Rattle.config_match.specs.Compatible.{have_equal_sizes, are_compatible_in};

use crate::choose::config_in;
use crate::table::Config;

/// Whether two configs have equal sizes of colours, depth and stencil.
#[tactic(auto, unfolding(crate::specs::Table::attribute_of))]
fn have_equal_sizes(first: &Config, second: &Config) -> bool
    ensures { result ≡ have_equal_sizes first.now second.now }
{
    first.red == second.red
        && first.green == second.green
        && first.blue == second.blue
        && first.alpha == second.alpha
        && first.depth == second.depth
        && first.stencil == second.stencil
}

/// Whether two ids are those of compatible configs.
pub(crate) fn are_compatible_in(rows: &[Config], first: u64, second: u64) -> bool
    ensures { result ≡ are_compatible_in rows.now first second }
{
    let Some(first) = config_in(rows, first) else {
        return false;
    };
    let Some(second) = config_in(rows, second) else {
        return false;
    };
    have_equal_sizes(first, second)
}
