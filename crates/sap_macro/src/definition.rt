//! Definitions of processes.
use crate::source::Source;
use sap_terms::{Items, Name, NameList};

/// A name, and the process that it stands for, once terms are put for its parameters. Contracts see it as `definition_of` of the
/// specs' `Sources` does.
#[derive(Drop)]
pub struct Definition {
    pub name: Name,
    pub params: NameList,
    pub body: Box<Source>,
}

/// Definitions, in order.
pub type DefinitionList = Items<Definition>;
