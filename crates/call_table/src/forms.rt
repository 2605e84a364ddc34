//! The forms of arguments.
/// What an argument of a call may be.
#[derive(Clone, Copy, Debug, PartialEq, Eq, Drop)]
pub enum Form {
    /// A number.
    Number,
    /// The number of a config.
    Config,
    /// A number or a variable.
    NumberOrVariable,
    /// The number of a post: from 0 to 2,147,483,647.
    PostNumber,
    /// A number that may have more than 32 bits: a timeout in nanoseconds.
    Timeout,
    /// Names of attributes and their values in brackets.
    AttributeList,
    /// Numbers in brackets.
    NumberList,
    /// Names of objects in brackets: numbers, or variables.
    NameList,
    /// Bytes, or the null pointer.
    Payload,
}
