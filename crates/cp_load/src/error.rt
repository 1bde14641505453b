// Why forms could not be loaded.
use cp_base::Refusal;
use cp_sexpr::OrMemory;

/// Why forms could not be loaded: they are refused, for their first fault, or memory ran out.
pub type LoadError = OrMemory<Refusal>;
