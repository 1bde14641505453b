// Why forms could not be read back.
use cp_base::Place;
use cp_sexpr::OrMemory;

/// Why forms could not be read back: they are no report, which is refused at the first place at which they fit none, or
/// memory ran out.
pub type ReadBackError = OrMemory<Place>;
