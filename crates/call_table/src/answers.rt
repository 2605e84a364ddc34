//! What calls answer: what of two drivers' answers is compared, and how.
use display_table::HandleKind;
use share_group::NameKind;

/// What a call answers.
#[derive(Clone, Copy, Debug, PartialEq, Eq, Drop)]
pub enum AnswerSort {
    /// A value, a list and bytes that are the same in each driver.
    Same,
    /// A new handle of this kind.
    Makes(HandleKind),
    /// A display.
    Displays,
    /// The handle of this kind that is current.
    Currents(HandleKind),
    /// A list of configs.
    ConfigLists,
    /// An attribute of a config.
    ConfigAttributes,
    /// An attribute of a surface or of a context.
    Attributes,
    /// New names of this kind.
    MakesNames(NameKind),
    /// Nothing: names of this kind are freed.
    FreesNames(NameKind),
    /// A value of a context, which may be a name that is bound.
    Bindings,
    /// A value of an attachment, which may be the name of what is attached.
    Attachments,
    /// Pixels.
    Reads,
}
