ghost use Rattle.sc_machine.specs.Steps.{GoesOnFromTheStart};

/// To go on from the start of an image is to run it from there.
pub fn goes_on_from_the_start()
    ensures { GoesOnFromTheStart }
{}
