//! Where the addresses of a template lie.
ghost use Rattle.lower_template_theorems.specs.Literals.Starts.{AddressesAreOfStarts};

/// In the template of each function an address is that of the start of what it names, or lies in an object of the
/// function; so a literal is pointed to at its start.
pub fn literals_are_pointed_to_at_their_start()
    ensures { AddressesAreOfStarts }
{}
