//! What is true of the instants of all times.
ghost use Rattle.shape_values.specs.Instants.{Instants, TellsTimes};

use moments::moments_are_told;

/// There is a function that gives each time its instant, and nothing else one.
pub fn times_are_told()
    ensures { (instants : Instants) × TellsTimes instants }
{
    moments_are_told();
}
