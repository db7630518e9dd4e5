//! Small cases that show what the definitions of `rng_model`, `rnc_model`, `rncv_model` and `xml_model` say.
//!
//! The crate has no code. Its theorems are in `proofs/`, one file for each topic. A comment above each theorem says the
//! case in words, with the section of the standard. No other crate uses them.
//!
//! - `Matching`: small documents by small grammars (`IsValidBy`, `Matches`).
//! - `Datatypes`: allowed and equal texts, and the content of an except (`IsAllowed`, `Lex`).
//! - `Restrictions`: paths that are prohibited (`HasProhibited`).
//! - `Simplification`: simple forms of trees (`IsSimpleFormOf`, `Step`).
//! - `Documents`: documents in PYX, and lines that break a clause (`IsPyxDocument`, `Breaks`, `IsFirstFault`).
//! - `Characters`: escapes and line ends of a file (`IsDecoded`, `Begins`).
//! - `Tokens`: the longest token (`HasTokens`, `Cuts`).
//! - `Sentences`: a file of one line, and connectors that are mixed (`IsFile`, `IsStuckAt`).
//! - `Printing`: a printed text of eight lines (`IsNumbering`, `IsPrinted`).
//! - `Answers`: the answer about a schema that is refused (`IsAnswer`).
//! - `XmlProductions`, `XmlCharacters`: texts by productions of XML, beginnings of documents (`IsVersion11`).
//! - `XmlContent`, `XmlDeclarations`: content and values (`IsXmlContent`), what a document type declares (`IsSubset`).
//! - `XmlConstraints`: texts that break a constraint of XML, and have no derivation.
//! - `XmlDocuments`: documents from their bytes to their element (`IsDocument`), or not read in part (`IsIncomplete`).
#![tactic(auto)]
