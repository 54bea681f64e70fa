// What a reading of a text comes to.
use crate::fault::ScriptFault;
use crate::script::Script;

/// A script, or the first fault of a text that is none, or want of memory.
#[derive(Debug, Drop)]
pub enum ScriptRead {
    Valid(Script),
    Fault(ScriptFault),
    NoMemory,
}
