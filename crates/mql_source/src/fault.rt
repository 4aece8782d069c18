//! The fault of a source.

use fx8::Text8;

/// Where a source breaks a rule.
#[derive(Debug, Drop)]
pub struct SourceFault {
    /// 1 text, 2 token, 3 preprocessing, 4 tree, 5 declaration, 6 typing; 7 a form that is not built yet.
    pub stage: u8,
    /// The number of the rule of that stage.
    pub rule: u8,
    /// The name of the source.
    pub file: Text8,
    /// The line of the place, from 1; 0 where it has none.
    pub line: u32,
}
