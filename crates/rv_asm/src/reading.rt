//! Reading a line of source.
pub(crate) mod alone;
pub(crate) mod expressions;
pub(crate) mod formats;
pub(crate) mod instruction;
pub(crate) mod keyword;
pub(crate) mod line;
pub(crate) mod mnemonic;
pub(crate) mod number;
pub(crate) mod operand;
pub(crate) mod order;
pub(crate) mod register;
pub(crate) mod shapes;
pub(crate) mod statements;
pub(crate) mod text;
pub(crate) mod values;
