//! What a file says of its processes.
use sap_macro::Source;
use sap_terms::{Name, NameList};

/// A process of a file: that of a name, with its parameters, or, without a label, the file's own. The line is that of its item, from 1;
/// behind the item are so many words of the file.
#[derive(Drop)]
pub struct Entry {
    pub label: Option<Name>,
    pub params: NameList,
    pub source: Box<Source>,
    pub line: u64,
    pub behind: usize,
}
