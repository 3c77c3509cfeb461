//! Datatype libraries: the interface behind which any of them can stand, libraries of one type, a comparison over any library,
//! and what they need of strings. Its definitions also fix the meanings of the built-in library and of the library of
//! decimals.
#![tactic(auto)]

mod bytes;
mod comparison;
mod library;
mod one_type;
mod type_name;

pub use bytes::{is_blank, trim_blanks};
pub use comparison::{Comparison, compare};
pub use library::{DatatypeLibrary, XML_SCHEMA_DATATYPES};
pub use one_type::{OneType, find_only_type};
pub use type_name::{TypeName, same_name};
