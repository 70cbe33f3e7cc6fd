//! In which order an agent's searches go over the rows.

ghost use Rattle.std.specs.Prelude.{◌≡◌, ◌<◌, ◌*◌, ◌%◌};
ghost use Rattle.orc_words.specs.Bounds.{bounds_of};
ghost use Rattle.orc_any_domain.specs.Turns.{first_row};

use orc_words::Shape;

/// The row of this number, where the numbers go on from row 0 behind the last row.
#[inline(always)]
pub fn around(number: u32, rows: u32) -> u32
    requires { number < 2 * rows }
    ensures { result ≡ number % rows }
{
    if number < rows { number } else { number - rows }
}

/// The row with which an agent's first search begins. Agents begin apart, as far as the rows go.
pub fn first_row(shape: &Shape, agent: u32) -> u32
    ensures row { result ≡ first_row (bounds_of shape.now) agent % (bounds_of shape.now).rows }
    ensures low { result < (bounds_of shape.now).rows }
{
    let rows = u64::from(shape.rows());
    (u64::from(agent) * rows / u64::from(shape.agents()) % rows) as u32
}
