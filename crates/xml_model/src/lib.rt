//! What a reader has to believe about XML: which bytes are which document, for a processor that reads no external entities.
//!
//! The definitions are in `specs/`, in the order of XML 1.0 (Fifth Edition) and Namespaces in XML 1.0 (Third Edition): the
//! characters of bytes (`IsText`), productions by families over texts, what a document type declares, content, and the
//! six answers, first of all `IsDocument`. The crate has no code.
#![tactic(auto)]
