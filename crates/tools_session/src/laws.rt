//! What the definition of a session leaves open: only when memory is refused.
ghost use Rattle.tools_session.specs.ScriptLaws.{OneAnswer, OneOutput};

pub use tools_devices::laws::one_split;

/// A line leads from a state to one state, with one reply, unless memory is refused.
pub fn one_answer()
    ensures { OneAnswer }
{}

/// Two outputs of one script are equal, or equal up to a byte from which one continues with the
/// out-of-memory reply.
pub fn one_output()
    ensures { OneOutput }
{}
